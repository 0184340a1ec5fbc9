ghost use Rattle.std.specs.Prelude.{◌≡◌, ◌≤◌, IsTrue, IsSome, IfSome};
ghost use Rattle.record_core.specs.Numbers.{HasTask};
ghost use Rattle.record_core.specs.Journal.{HasAllBegun, IsUnderWay, MayBegin, MayCause, finish_of};

use crate::journal::PlainJournal;
use crate::rows::{ActivationRow, Cause, TaskRow};
use std::test::Fail;

fn is_task(journal: &PlainJournal, number: u32) -> bool
    ensures { IsTrue result → HasTask journal.now.rows number }
{
    if number == 0 || number > journal.accepted() {
        return false;
    }
    journal.activation(number).task == number
}

fn has_all_begun(journal: &PlainJournal, task: u32) -> bool
    ensures { IsTrue result → HasAllBegun journal.now.rows task }
{
    for before in 0..journal.accepted() {
        let row = journal.activation(before + 1);
        if row.task == task && row.start.is_none() {
            return false;
        }
    }
    true
}

fn has_finished(journal: &PlainJournal, number: u32) -> bool
    ensures { IsTrue result → IsSome (finish_of journal.now.tasks number) }
{
    if !is_task(journal, number) {
        return false;
    }
    journal.task(number).finish.is_some()
}

fn is_under_way(journal: &PlainJournal, task: u32) -> bool
    ensures { IsTrue result → IsUnderWay journal.now task }
{
    if !is_task(journal, task) {
        return false;
    }
    if journal.task(task).finish.is_some() {
        return false;
    }
    has_all_begun(journal, task)
}

fn may_draw(journal: &PlainJournal, task: Option<u32>) -> bool
    ensures { IsTrue result → IfSome task (λ t. IsUnderWay journal.now t) }
{
    match task {
        None => true,
        Some(t) => is_under_way(journal, t),
    }
}

fn may_wait(journal: &PlainJournal, after: Option<u32>) -> bool
    ensures { IsTrue result → IfSome after (λ u. HasTask journal.now.rows u) }
{
    match after {
        None => true,
        Some(u) => is_task(journal, u),
    }
}

fn may_begin(journal: &PlainJournal, number: u32) -> bool
    ensures { IsTrue result → MayBegin journal.now number }
{
    if number == 0 || number > journal.accepted() {
        return false;
    }
    let row = journal.activation(number);
    if row.start.is_some() {
        return false;
    }
    match row.after {
        None => true,
        Some(u) => has_finished(journal, u),
    }
}

fn may_cause(journal: &PlainJournal, cause: Cause) -> bool
    ensures { IsTrue result → MayCause journal.now cause }
{
    let Cause::By(u) = cause else {
        return true;
    };
    if !is_task(journal, u) {
        return false;
    }
    let row = journal.task(u);
    row.finish.is_some() && !matches!(row.cause, Cause::Clear)
}

/// A call; of `accept` with what it answers.
#[derive(Clone, Copy)]
enum Step {
    Accept(Option<u32>, Option<u32>, Option<u32>),
    Begin(u32),
    Finish(u32, Cause),
}

/// Makes the call, if its condition holds, and tells whether it did and had this answer.
fn makes(journal: &mut PlainJournal, step: Step) -> bool {
    match step {
        Step::Accept(task, after, answer) => {
            if !may_draw(journal, task) || !may_wait(journal, after) {
                return false;
            }
            journal.accept(task, after) == answer
        }
        Step::Begin(number) => {
            if !may_begin(journal, number) {
                return false;
            }
            journal.begin(number);
            true
        }
        Step::Finish(task, cause) => {
            if !is_under_way(journal, task) || !may_cause(journal, cause) {
                return false;
            }
            journal.finish(task, cause);
            true
        }
    }
}

fn activation_at(journal: &PlainJournal, number: u32) -> Option<ActivationRow> {
    if number == 0 || number > journal.accepted() {
        return None;
    }
    Some(journal.activation(number))
}

fn task_at(journal: &PlainJournal, number: u32) -> Option<TaskRow> {
    if !is_task(journal, number) {
        return None;
    }
    Some(journal.task(number))
}

fn row(task: u32, after: Option<u32>, start: u64) -> Option<ActivationRow> {
    Some(ActivationRow {
        task,
        after,
        start: Some(start),
    })
}

fn finished(finish: u64, cause: Cause) -> Option<TaskRow> {
    Some(TaskRow {
        finish: Some(finish),
        cause,
    })
}

#[test]
fn a_run_to_its_value_is_told_row_by_row(rt: HostRuntime) -> Result<(), Fail> {
    let mut journal = PlainJournal::new(rt.alloc(), 6)?;
    let steps = [
        Step::Accept(None, None, Some(1)),
        Step::Begin(1),
        Step::Accept(None, None, Some(2)),
        Step::Accept(None, None, Some(3)),
        Step::Accept(None, Some(2), Some(4)),
        Step::Accept(Some(1), Some(4), Some(5)),
        Step::Begin(2),
        Step::Finish(2, Cause::Clear),
        Step::Begin(3),
        Step::Finish(3, Cause::Clear),
        Step::Begin(4),
        Step::Accept(Some(4), Some(3), Some(6)),
        Step::Begin(6),
        Step::Finish(4, Cause::Clear),
        Step::Begin(5),
        Step::Accept(Some(1), None, None),
        Step::Finish(1, Cause::Clear),
    ];
    for step in steps {
        assert!(rt; makes(&mut journal, step));
    }
    let rows = [
        row(1, None, 1),
        row(2, None, 2),
        row(3, None, 4),
        row(4, Some(2), 6),
        row(1, Some(4), 9),
        row(4, Some(3), 7),
        None,
    ];
    for (at, row) in rows.into_iter().enumerate() {
        assert_eq!(rt; activation_at(&journal, at as u32 + 1), row);
    }
    for (task, finish) in [(1, 10), (2, 3), (3, 5), (4, 8)] {
        assert_eq!(rt; task_at(&journal, task), finished(finish, Cause::Clear));
    }
    Ok(())
}

#[test]
fn a_run_that_meets_the_limit_is_told_with_its_causes(rt: HostRuntime) -> Result<(), Fail> {
    let mut journal = PlainJournal::new(rt.alloc(), 5)?;
    let steps = [
        Step::Accept(None, None, Some(1)),
        Step::Begin(1),
        Step::Accept(None, None, Some(2)),
        Step::Accept(None, None, Some(3)),
        Step::Accept(None, Some(2), Some(4)),
        Step::Accept(Some(1), Some(4), Some(5)),
        Step::Begin(2),
        Step::Finish(2, Cause::Clear),
        Step::Begin(3),
        Step::Finish(3, Cause::Clear),
        Step::Begin(4),
        Step::Accept(Some(4), Some(3), None),
        Step::Finish(4, Cause::Limit),
        Step::Begin(5),
        Step::Finish(1, Cause::By(4)),
    ];
    for step in steps {
        assert!(rt; makes(&mut journal, step));
    }
    journal.keeps();
    assert_eq!(rt; journal.accepted(), 5);
    assert_eq!(rt; activation_at(&journal, 5), row(1, Some(4), 8));
    assert_eq!(rt; task_at(&journal, 4), finished(7, Cause::Limit));
    assert_eq!(rt; task_at(&journal, 1), finished(9, Cause::By(4)));
    assert_eq!(rt; task_at(&journal, 5), None);
    Ok(())
}
