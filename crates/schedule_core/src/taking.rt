//! Records that are ready are taken.
ghost use Rattle.std.specs.Prelude.{◌≡◌, ◌+◌, ◌<◌, ◌^◌, length};
ghost use Rattle.frame_code.specs.Units.{named_in};
ghost use Rattle.step_table.specs.Passes.{view, plan, IsOf, IsSameWith};
ghost use Rattle.schedule_core.specs.Entries.{FitsEntry};
ghost use Rattle.schedule_core.specs.Taking.{HasTaken, RunsTaken, TakesEntry, held_with, run_of, run_taken};
ghost use Rattle.schedule_core.specs.Taking.{Sweeps, TakesSpilled};

use crate::answers::Taken;
use crate::entries::entry_of;
use crate::frames::{count_named, read_frame};
use crate::running::Running;
use frame_code::{CheckedCode, naming_words};
use kt_words::{Phase, StateWord};
use ready_queues::Entry;
use step_table::{Pass, Shared, Started, ready_word};
use task_syntax::Priority;

// What numbers have room in a state word.
const NUMBERS: u32 = 16_777_216;

// The value of a record that was taken just now: its task and its predecessor are read, and its
// frame. It was ready with this priority; `held` is how many references the pass counted before.
fn run_of(
    shared: &Shared,
    code: &CheckedCode,
    pass: &mut Pass,
    started: Started,
    priority: Priority,
    held: u64,
) -> Running
    requires table { IsOf shared.now pass.old }
    requires code { code.now ≡ shared.now.setup.checked }
    requires taken { HasTaken shared.now.setup started held (view pass.old) }
    ensures pass { IsSameWith (held + length (named_in code.now result.frame.items))
        pass.old pass.new }
    ensures run { RunsTaken shared.now.setup started priority
        (view pass.old) result (view pass.new) }
{
    let after = shared.read_after(pass, &started);
    let task = shared.read_task(pass, &started);
    let frame = read_frame(shared, code, pass, started.unit());
    let named = count_named(naming_words(code, &frame));
    pass.keep_count(held + named);
    Running {
        started,
        task,
        after,
        priority,
        refused: None,
        made: None,
        frame,
    }
}

// Takes the record of an entry whose unit and number the table may have.
fn take_word(
    shared: &Shared,
    code: &CheckedCode,
    pass: &mut Pass,
    entry: Entry,
) -> Result<Running, StateWord>
    requires table { IsOf shared.now pass.old }
    requires code { code.now ≡ shared.now.setup.checked }
    requires room { pass.old.held < 2 ^ 32 }
    requires entry { FitsEntry (plan shared.now) entry }
    ensures pass { IsSameWith
        (held_with shared.now.setup pass.old.held (run_of result)) pass.old pass.new }
    ensures taken { TakesEntry shared.now.setup entry (view pass.old) result (view pass.new) }
{
    let held = pass.held();
    let ready = ready_word(entry.number, entry.priority);
    match shared.take_ready(pass, entry.unit, ready) {
        Ok(started) => Ok(run_of(shared, code, pass, started, entry.priority, held)),
        Err(found) => Err(found),
    }
}

/// Takes the record of an entry, where it is ready as the entry says.
pub(crate) fn take_entry(
    shared: &Shared,
    code: &CheckedCode,
    pass: &mut Pass,
    entry: Entry,
) -> Result<Running, StateWord>
    requires table { IsOf shared.now pass.old }
    requires code { code.now ≡ shared.now.setup.checked }
    requires room { pass.old.held < 2 ^ 32 }
    ensures pass { IsSameWith
        (held_with shared.now.setup pass.old.held (run_of result)) pass.old pass.new }
    ensures taken { TakesEntry shared.now.setup entry (view pass.old) result (view pass.new) }
{
    let plan = shared.plan();
    let units = plan.geometry.superblocks * plan.geometry.units;
    if entry.unit < units {
        if entry.number < NUMBERS {
            take_word(shared, code, pass, entry)
        } else {
            Err(shared.see_state(pass, entry.unit))
        }
    } else {
        Err(StateWord::of(0))
    }
}

// Looks at the state words of all units, one after the other, and takes the first record that is
// ready.
fn sweep(shared: &Shared, code: &CheckedCode, pass: &mut Pass) -> Taken
    requires table { IsOf shared.now pass.old }
    requires code { code.now ≡ shared.now.setup.checked }
    requires room { pass.old.held < 2 ^ 32 }
    ensures pass { IsSameWith
        (held_with shared.now.setup pass.old.held (run_taken result)) pass.old pass.new }
    ensures swept { Sweeps shared.now.setup (view pass.old) result (view pass.new) }
{
    let plan = shared.plan();
    'units: for unit in 0..plan.geometry.superblocks * plan.geometry.units {
        let word = shared.see_state(pass, unit);
        match word.phase {
            Phase::Ready => {
                let entry = entry_of(unit, word);
                return match take_entry(shared, code, pass, entry) {
                    Ok(running) => Taken::Task(running),
                    Err(seen) => Taken::Passed { entry, seen },
                };
            }
            _ => {}
        }
    }
    Taken::Empty
}

/// Takes what the spilled entries name, where a queue was told to have been full.
pub(crate) fn take_spilled(shared: &Shared, code: &CheckedCode, pass: &mut Pass) -> Taken
    requires table { IsOf shared.now pass.old }
    requires code { code.now ≡ shared.now.setup.checked }
    requires room { pass.old.held < 2 ^ 32 }
    ensures pass { IsSameWith
        (held_with shared.now.setup pass.old.held (run_taken result)) pass.old pass.new }
    ensures taken { TakesSpilled shared.now.setup (view pass.old) result (view pass.new) }
{
    let spilled = shared.see_spill(pass);
    if spilled == 0 {
        return Taken::Empty;
    }
    sweep(shared, code, pass)
}
