//! A made record with its number is filled, counted in and placed.
ghost use Rattle.std.specs.Prelude.{◌≡◌, ◌+◌, ◌≤◌, ◌^◌, length, slice_index};
ghost use Rattle.frame_code.specs.Names.{named};
ghost use Rattle.step_table.specs.Passes.{view, plan, IsOf, IsSame, IsSameWith};
ghost use Rattle.step_table.specs.PlacingSteps.{Placement};
ghost use Rattle.wait_lists.specs.Joining.{MayJoin};
ghost use Rattle.schedule_core.specs.Making.{MayWriteWords, WritesWords, MayWriteRows, WritesRows};
ghost use Rattle.schedule_core.specs.Making.{task_behind, MayFillNew, FillsNew, JoinsBehind};
ghost use Rattle.schedule_core.specs.Making.{MayPlaceNew, PlacesNew, MayOffer, Offers};

use crate::entries::entry_of;
use crate::frames::write_frame;
use crate::references::take_named;
use frame_code::{CheckedCode, Frame, naming_words};
use ready_queues::Entry;
use step_table::{Future, Linkable, Made, OwnWord, Pass, Shared};
use task_syntax::Priority;
use wait_lists::{Joined, join_list};

/// A predecessor: the unit of its record, and its task.
#[derive(Clone, Copy)]
pub(crate) struct Behind {
    pub unit: u32,
    pub task: u32,
}

/// The task of a predecessor, if there is one.
pub(crate) fn task_of(behind: Option<Behind>) -> Option<u32>
    ensures { result ≡ task_behind behind }
{
    match behind {
        Some(behind) => Some(behind.task),
        None => None,
    }
}

// The words of a new record beside its frame are written.
fn write_words(shared: &Shared, pass: &mut Pass, made: &Made, number: u32)
    requires table { IsOf shared.now pass.old }
    requires may { MayWriteWords (plan shared.now) made.now.unit (view pass.old) }
    ensures pass { IsSame pass.old pass.new }
    ensures written { WritesWords made.now.unit number (view pass.old) (view pass.new) }
{
    let unit = made.unit();
    shared.fill(pass, unit, OwnWord::References, 2);
    shared.fill(pass, unit, OwnWord::Head, 0);
    shared.fill(pass, unit, OwnWord::Task, u64::from(number));
}

// The rows of a new number are written, and its record is counted in.
fn write_rows(shared: &Shared, pass: &mut Pass, made: &Made, number: u32, behind: Option<u32>)
    requires table { IsOf shared.now pass.old }
    requires may { MayWriteRows (plan shared.now) made.now.unit number behind (view pass.old) }
    ensures pass { IsSame pass.old pass.new }
    ensures written { WritesRows made.now.unit number (view pass.old) (view pass.new) }
{
    shared.write_task_row(pass, number, number);
    shared.write_after_row(pass, number, behind);
    shared.live_up(pass, made);
}

// A new record gets its words, the references of its frame and its rows, and is counted in.
fn fill_new(
    shared: &Shared,
    code: &CheckedCode,
    pass: &mut Pass,
    made: &Made,
    number: u32,
    behind: Option<u32>,
    first: &Frame,
)
    requires table { IsOf shared.now pass.old }
    requires code { code.now ≡ shared.now.setup.checked }
    requires may { MayFillNew shared.now.setup made.now number behind
        first.now.items (view pass.old) }
    requires room { pass.old.held
        + length (named code.now (slice_index first.now.items)) ≤ 2 ^ 32 }
    ensures pass { IsSameWith (pass.old.held
        + length (named code.now (slice_index first.now.items))) pass.old pass.new }
    ensures filled { FillsNew code.now made.now number first.now.items
        (view pass.old) (view pass.new) }
{
    take_named(shared, pass, naming_words(code, first));
    write_frame(shared, pass, made.unit(), first);
    write_words(shared, pass, made, number);
    write_rows(shared, pass, made, number, behind);
}

/// Puts a waiter into the list of its predecessor. Where that is closed, it is ready.
pub(crate) fn join(
    shared: &Shared,
    pass: &mut Pass,
    waiter: Linkable,
    behind: Behind,
) -> Option<Entry>
    requires table { IsOf shared.now pass.old }
    requires may { MayJoin (plan shared.now) behind.unit waiter.unit (view pass.old) }
    ensures pass { IsSame pass.old pass.new }
    ensures joined { JoinsBehind shared.now.setup waiter.unit behind
        (view pass.old) result (view pass.new) }
{
    let predecessor = Future::of(pass, behind.unit);
    match join_list(shared, pass, waiter, &predecessor) {
        Joined::Waits => None,
        Joined::Closed(back) => {
            let unit = back.unit();
            let word = shared.ready_waiting(pass, back);
            Some(entry_of(unit, word))
        }
    }
}

// A filled record is placed: it is ready where it is behind no task, and else it waits.
fn place(
    shared: &Shared,
    pass: &mut Pass,
    made: Made,
    number: u32,
    behind: Option<Behind>,
    priority: Priority,
) -> (Future, Option<Entry>)
    ghost placement: { Placement }
    requires table { IsOf shared.now pass.old }
    requires may { MayPlaceNew shared.now.setup made number behind placement pass.old }
    ensures pass { IsSameWith (pass.old.held + 1) pass.old pass.new }
    ensures placed { PlacesNew shared.now.setup made number priority behind placement
        (view pass.old) result (view pass.new) }
{
    let unit = made.unit();
    match behind {
        None => {
            let (word, future) = shared.ready_made(pass, made, number, priority);
            (future, Some(entry_of(unit, word)))
        }
        Some(behind) => {
            let (waiter, future) = shared.wait_made(pass, made, number, priority);
            let entry = join(shared, pass, waiter, behind);
            (future, entry)
        }
    }
}

/// Places a made record under its number, with its first frame. An entry is given where it is
/// ready.
pub(crate) fn offer(
    shared: &Shared,
    code: &CheckedCode,
    pass: &mut Pass,
    made: Made,
    number: u32,
    behind: Option<Behind>,
    first: &Frame,
    priority: Priority,
) -> (Future, Option<Entry>)
    ghost placement: { Placement }
    requires table { IsOf shared.now pass.old }
    requires code { code.now ≡ shared.now.setup.checked }
    requires may { MayOffer shared.now.setup made number behind
        first.now.items placement (view pass.old) }
    requires room { pass.old.held
        + length (named code.now (slice_index first.now.items)) ≤ 2 ^ 32 }
    ensures pass { IsSameWith (pass.old.held + 1) pass.old pass.new }
    ensures offered { Offers shared.now.setup made number priority behind placement
        (view pass.old) result (view pass.new) }
{
    let held = pass.held();
    fill_new(shared, code, pass, &made, number, task_of(behind), first);
    let placed = place(shared, pass, made, number, behind, priority);
    pass.keep_count(held + 1);
    placed
}
