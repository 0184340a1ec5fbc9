ghost use Rattle.std.specs.Prelude.{◌≡◌, ◌+◌, ◌<◌, ◌≤◌, ◌^◌, cond, [], length};
ghost use Rattle.task_syntax.specs.Places.{Each};
ghost use Rattle.task_syntax.specs.Facts.{has};
ghost use Rattle.frame_code.specs.Words.{unit_named};
ghost use Rattle.frame_code.specs.Frames.{IsFrame};
ghost use Rattle.frame_code.specs.Setting.{unit_in};
ghost use Rattle.frame_code.specs.Units.{NamesUnit};
ghost use Rattle.frame_code.specs.Entries.{MaySpawn, Passes, AgreesWith, MayEnterWith, IsEntryOf};
ghost use Rattle.frame_code.specs.Entries.{IsFrameOfMembers};

use crate::act::SpawnRequest;
use crate::code::CheckedCode;
use crate::few::Few;
use crate::held::is_held;
use crate::lookup::{kind_at, state_at};
use crate::set_variables::{at_entry, future};
use crate::words::{AGGREGATE, Control, Frame};
use task_syntax::Sort;

/// What is passed to a new task: a number, or a future by the unit of the task that it names.
#[derive(Debug, Clone, Copy, PartialEq, Eq)]
pub enum Passed {
    Number(u64),
    Future(u64),
}

impl Default for Passed {
    fn default() -> Passed {
        Passed::Number(0)
    }
}

/// The unit that a future variable names, where it names one.
fn named_unit(checked: &CheckedCode, frame: &Frame, x: u16) -> u64
    requires frame { IsFrame checked.now frame.now.items }
    requires named { NamesUnit checked.now frame.now.items x }
    ensures { unit_in checked.now frame.now.items x ≡ Some result }
{
    match future(checked, frame, x) {
        Some(unit) => unit,
        None => unreachable!(),
    }
}

/// Makes a list that of what a spawn passes.
pub fn passed_by(
    checked: &CheckedCode,
    frame: &Frame,
    request: &SpawnRequest,
    passed: &mut Few<Passed, 16>,
)
    requires frame { IsFrame checked.now frame.now.items }
    requires kind { request.now.kind < length checked.now.kinds }
    requires arguments { MaySpawn checked.now request.now frame.now.items }
    ensures passed { Passes checked.now request.now frame.now.items passed.new }
    ensures agrees { AgreesWith checked.now request.now.kind passed.new }
{
    let kind = kind_at(checked.program(), request.kind);
    let variables = kind.variables.as_slice();
    let numbers = request.numbers.as_slice();
    let futures = request.futures.as_slice();
    passed.empty();
    let mut number = 0usize;
    let mut future = 0usize;
    'arguments: for at in 0..kind.arguments as usize {
        match variables[at].sort {
            Sort::Number => {
                passed.push(Passed::Number(numbers[number]));
                number += 1;
            }
            Sort::Future => {
                passed.push(Passed::Future(named_unit(checked, frame, futures[future])));
                future += 1;
            }
        }
    }
}

/// The word of a future that is passed for a variable: 0, where it is not held.
fn future_word(holds: &[u16], x: usize, unit: u64) -> u64
    requires { unit + 1 < 2 ^ 64 }
    ensures { unit_named result ≡ cond (has x holds.now) (Some unit) None }
{
    if is_held(holds, x) { unit + 1 } else { 0 }
}

/// Sets the variables for which something is passed in the words of a bare frame.
fn put_passed(checked: &CheckedCode, kind: u16, passed: &[Passed], words: &mut [u64])
    requires kind { kind < length checked.now.kinds }
    requires passed { MayEnterWith checked.now kind passed.now }
    requires frame { IsFrame checked.now words.old }
    requires bare { IsEntryOf checked.now kind [] words.old }
    ensures frame { IsFrame checked.now words.new }
    ensures entry { IsEntryOf checked.now kind passed.now words.new }
{
    let made = kind_at(checked.program(), kind);
    let entry = state_at(made, 0);
    let mut number = 1usize;
    let mut future = 1 + checked.variables(kind).numbers();
    'passed: for x in 0..passed.len() {
        match passed[x] {
            Passed::Number(value) => {
                words[number] = value;
                number += 1;
            }
            Passed::Future(unit) => {
                words[future] = future_word(entry.holds.as_slice(), x, unit);
                future += 1;
            }
        }
    }
}

/// Makes a frame the first one of a task to which this is passed. A future that the entry state does
/// not hold is not named.
#[inline(always)]
pub fn entry_frame(checked: &CheckedCode, kind: u16, passed: &[Passed], frame: &mut Frame)
    requires kind { kind < length checked.now.kinds }
    requires passed { MayEnterWith checked.now kind passed.now }
    ensures frame { IsFrame checked.now frame.new.items }
    ensures entry { IsEntryOf checked.now kind passed.now frame.new.items }
{
    at_entry(checked, kind, frame);
    put_passed(checked, kind, passed, frame.as_mut_slice());
}

/// Makes a frame the first one of an aggregate of 1 to 8 members, by their units.
pub fn members_frame(members: &[u64], frame: &mut Frame)
    requires some { 0 < length members.now }
    requires few { length members.now ≤ 8 }
    requires units { Each members.now (λ unit. unit + 1 < 2 ^ 64) }
    ensures { IsFrameOfMembers members.now frame.new.items }
{
    let control = Control {
        kind: AGGREGATE,
        state: members.len() as u16,
        at: 1,
    };
    frame.clear();
    frame.push(control.pack());
    'members: for member in members {
        frame.push(*member + 1);
    }
}
