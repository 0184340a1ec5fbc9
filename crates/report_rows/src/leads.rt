ghost use Rattle.std.specs.Prelude.{◌≡◌, ◌<◌, IsTrue};
ghost use Rattle.record_core.specs.Journal.{IsRefusal, Leads, cause_of, finish_of};
ghost use Rattle.report_rows.specs.Finishes.{FinishesBefore};

use crate::numbers::by_number;
use record_core::{Cause, CutTag, TaskRow};

fn finish_of(tasks: &[TaskRow], task: u32) -> Option<u64>
    ensures { result ≡ finish_of tasks.now task }
{
    match by_number(tasks, task) {
        Some(row) => row.finish,
        None => None,
    }
}

fn cause_of(tasks: &[TaskRow], task: u32) -> Cause
    ensures { result ≡ cause_of tasks.now task }
{
    match by_number(tasks, task) {
        Some(row) => row.cause,
        None => Cause::Clear,
    }
}

fn finishes_before(tasks: &[TaskRow], one: u32, other: u32) -> bool
    ensures { IsTrue result → FinishesBefore tasks.now one other }
{
    match (finish_of(tasks, one), finish_of(tasks, other)) {
        (Some(first), Some(second)) => first < second,
        _ => false,
    }
}

fn is_refusal(tag: CutTag, cause: Cause) -> bool
    ensures { IsTrue result → IsRefusal tag cause }
{
    match (tag, cause) {
        (CutTag::Null, Cause::Null) => true,
        (CutTag::Limit, Cause::Limit) => true,
        _ => false,
    }
}

/// Whether the causes lead from a task to one that was refused itself with this result, in at most so many steps.
pub(crate) fn leads(tasks: &[TaskRow], tag: CutTag, task: u32, most: u32) -> bool
    ensures { IsTrue result → Leads tasks.now tag task }
{
    let cause = cause_of(tasks, task);
    if is_refusal(tag, cause) {
        return true;
    }
    let Cause::By(other) = cause else {
        return false;
    };
    if most == 0 || !finishes_before(tasks, other, task) {
        return false;
    }
    leads(tasks, tag, other, most - 1)
}
