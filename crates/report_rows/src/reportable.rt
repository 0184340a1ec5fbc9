ghost use Rattle.std.specs.Prelude.{◌≡◌, ◌≤◌, IsTrue, length};
ghost use Rattle.record_core.specs.Numbers.{HasTask};
ghost use Rattle.run_report.specs.CanReport.{AreCutByTasks, CanReport, IsShown, IsTold};
ghost use Rattle.report_rows.specs.Cuts.{IsCutByTask};
ghost use Rattle.report_rows.specs.Given.{seen_of};
ghost use Rattle.task_syntax.specs.Places.{Each};

use crate::given_end::GivenEnd;
use crate::leads::leads;
use crate::numbers::by_number;
use record_core::{ActivationRow, Cause, CutFrom, Ended, RootEnd};
use task_syntax::Checked;

fn has_task(rows: &[ActivationRow], task: u32) -> bool
    ensures { IsTrue result → HasTask rows.now task }
{
    match by_number(rows, task) {
        Some(row) => row.task == task,
        None => false,
    }
}

fn is_told(end: &GivenEnd<'_>, checked: &Checked, root: RootEnd) -> bool
    ensures { IsTrue result → IsTold checked.now (seen_of end.now) root }
{
    match root {
        RootEnd::Value(_) | RootEnd::Cut(_, CutFrom::Host) => true,
        RootEnd::Cut(_, CutFrom::Root(at)) => usize::from(at) < checked.program().roots.len(),
        RootEnd::Cut(tag, CutFrom::Task(task)) => {
            has_task(end.activations, task) && leads(end.tasks, tag, task, end.accepted())
        }
    }
}

fn are_told(end: &GivenEnd<'_>, checked: &Checked) -> bool
    ensures { IsTrue result → Each end.now.roots.now (IsTold checked.now (seen_of end.now)) }
{
    'roots: for at in 0..end.roots.len() {
        if !is_told(end, checked, end.roots[at]) {
            return false;
        }
    }
    true
}

fn is_cut_by_task(rows: &[ActivationRow], cause: Cause) -> bool
    ensures { IsTrue result → IsCutByTask rows.now cause }
{
    match cause {
        Cause::By(other) => has_task(rows, other),
        _ => true,
    }
}

fn are_cut_by_tasks(end: &GivenEnd<'_>) -> bool
    ensures { IsTrue result → Each end.now.tasks.now
        (λ task. IsCutByTask end.now.activations.now task.cause) }
{
    'tasks: for task in end.tasks {
        if !is_cut_by_task(end.activations, task.cause) {
            return false;
        }
    }
    true
}

fn is_shown(end: &GivenEnd<'_>) -> bool
    ensures { IsTrue result → IsShown (seen_of end.now) }
{
    match end.evidence_class {
        Some(class) => class <= 3 && end.evidence.iter().all(|word| word.class <= 3),
        None => false,
    }
}

/// Whether the end can be reported for the program.
pub fn can_report(end: &GivenEnd<'_>, checked: &Checked) -> bool
    ensures { IsTrue result → CanReport checked.now (seen_of end.now) }
{
    end.roots.len() == checked.program().roots.len()
        && are_told(end, checked)
        && are_cut_by_tasks(end)
        && (end.nulls == 0 || is_shown(end))
}
