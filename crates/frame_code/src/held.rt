ghost use Rattle.std.specs.Prelude.{◌≡◌, ◌<◌, ◌++◌, false, length, slice_index, slice_set};
ghost use Rattle.task_syntax.specs.Facts.{has};
ghost use Rattle.frame_code.specs.Control.{is_aggregate as marks_aggregate};
ghost use Rattle.frame_code.specs.Words.{body_of};
ghost use Rattle.frame_code.specs.Frames.{IsFrame};
ghost use Rattle.frame_code.specs.Moves.{MayEnter};
ghost use Rattle.frame_code.specs.Ways.{BodyHasWay};
ghost use Rattle.frame_code.specs.Units.{unit_at, named_in, GivesUp, AreAmong, IsKeptIn, IsEnteredHeld};

use crate::code::CheckedCode;
use crate::few::Few;
use crate::lookup::{kind_at, state_at};
use crate::moves::enter;
use crate::naming::is_aggregate;
use crate::set_variables::variables_of;
use crate::words::{Control, Frame};
use task_syntax::Sort;

/// The variable is among those that are held.
pub fn is_held(holds: &[u16], variable: usize) -> bool
    ensures { result ≡ has variable holds.now }
{
    holds.iter().any(|held| variable == *held as usize)
}

/// Lets a future word name nothing, and tells the unit that it named, if any.
fn clear(words: &mut [u64], place: usize, given_up: &mut Few<u64, 64>)
    requires within { place < length words.old }
    requires room { length given_up.old < 64 }
    ensures cleared { words.new ≡ slice_set words.old place 0 }
    ensures told { given_up.new ≡ given_up.old ++ unit_at words.old place }
{
    let word = words[place];
    words[place] = 0;
    if word != 0 {
        given_up.push(word - 1);
    }
}

/// Lets the futures of a task's frame that are not held name nothing, and tells the units that they
/// named.
fn keep_held(checked: &CheckedCode, holds: &[u16], words: &mut [u64], given_up: &mut Few<u64, 64>)
    requires frame { IsFrame checked.now words.old }
    requires task { marks_aggregate (slice_index words.old 0) ≡ false }
    ensures frame { IsFrame checked.now words.new }
    ensures kept { IsKeptIn checked.now holds.now words.old words.new }
    ensures parts { GivesUp checked.now words.old given_up.new words.new }
{
    let known = variables_of(checked, words);
    let variables = known.as_slice();
    given_up.empty();
    let mut place = 1 + known.numbers();
    'variables: for x in 0..variables.len() {
        match variables[x].sort {
            Sort::Number => {}
            Sort::Future => {
                if !is_held(holds, x) {
                    clear(words, place, given_up);
                }
                place += 1;
            }
        }
    }
}

/// Moves a frame to the first line of the state to which its task respawns, with the futures that
/// this state holds, and tells the units that the others named. An aggregate's frame moves past the
/// member that it asked to be behind.
pub fn enter_held(
    checked: &CheckedCode,
    frame: &mut Frame,
    target: u16,
    given_up: &mut Few<u64, 64>,
)
    requires frame { IsFrame checked.now frame.old.items }
    requires respawn { MayEnter checked.now target (body_of checked.now frame.old.items) }
    ensures frame { IsFrame checked.now frame.new.items }
    ensures moved { IsEnteredHeld checked.now target frame.old.items frame.new.items }
    ensures way { BodyHasWay checked.now (body_of checked.now frame.new.items) }
    ensures given_up { AreAmong given_up.new (named_in checked.now frame.old.items) }
    ensures parts { GivesUp checked.now frame.old.items given_up.new frame.new.items }
{
    enter(checked, frame, target);
    if is_aggregate(frame) {
        given_up.empty();
        return;
    }
    let kind = kind_at(checked.program(), Control::unpack(frame.as_slice()[0]).kind);
    let state = state_at(kind, target);
    keep_held(
        checked,
        state.holds.as_slice(),
        frame.as_mut_slice(),
        given_up,
    );
}
