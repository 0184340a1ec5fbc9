ghost use Rattle.std.specs.Prelude.{◌≡◌, ◌+◌, ◌<◌, ◌≤◌, ◌^◌, ◌↔◌, IsTrue, false, length, slice_index};
ghost use Rattle.task_syntax.specs.declared.program.Sort.TheVariants.{Number as NumberSort, Future as FutureSort};
ghost use Rattle.task_meaning.specs.Frame.{entry};
ghost use Rattle.frame_code.specs.Control.{is_aggregate, control_kind};
ghost use Rattle.frame_code.specs.Words.{OfKind, unit_named, variables_at, body_of};
ghost use Rattle.frame_code.specs.Frames.{IsFrame};
ghost use Rattle.frame_code.specs.Setting.{HasSort, bare_call, unit_in, IsSetNumber, IsSetFuture};

use crate::bare_frame::bare_frame;
use crate::code::CheckedCode;
use crate::lookup::kind_at;
use crate::places::KindVariables;
use crate::words::{AGGREGATE, Control, Frame};
use task_syntax::Sort;

/// Makes a frame that of a task at the start of its entry state, before its arguments are set.
pub fn at_entry(checked: &CheckedCode, kind: u16, frame: &mut Frame)
    requires { kind < length checked.now.kinds }
    ensures frame { IsFrame checked.now frame.new.items }
    ensures entry { body_of checked.now frame.new.items
        ≡ OfKind (entry checked.now (bare_call kind)) }
{
    let variables = kind_at(checked.program(), kind).variables.len();
    let control = Control {
        kind,
        state: 0,
        at: 0,
    };
    bare_frame(frame, control.pack(), variables);
}

/// The variables of the kind of a task's frame.
pub fn variables_of<'a>(checked: &'a CheckedCode, words: &[u64]) -> KindVariables<'a>
    requires frame { IsFrame checked.now words.now }
    requires task { is_aggregate (slice_index words.now 0) ≡ false }
    ensures same { result ≡ variables_at checked.now (control_kind (slice_index words.now 0)) }
    ensures few { length result ≤ 63 }
{
    checked.variables(Control::unpack(words[0]).kind)
}

/// Whether a frame has a variable of this sort at a position.
pub fn has_sort(checked: &CheckedCode, frame: &Frame, sort: Sort, x: u16) -> bool
    requires { IsFrame checked.now frame.now.items }
    ensures { IsTrue result ↔ HasSort checked.now sort x frame.now.items }
{
    let words = frame.as_slice();
    if Control::unpack(words[0]).kind == AGGREGATE {
        return false;
    }
    match variables_of(checked, words).as_slice().get(x as usize) {
        Some(variable) => variable.sort == sort,
        None => false,
    }
}

/// Sets a number variable of a frame.
pub fn set_number(checked: &CheckedCode, frame: &mut Frame, x: u16, number: u64)
    requires frame { IsFrame checked.now frame.old.items }
    requires variable { HasSort checked.now NumberSort x frame.old.items }
    ensures frame { IsFrame checked.now frame.new.items }
    ensures set { IsSetNumber checked.now x number frame.old.items frame.new.items }
{
    let words = frame.as_mut_slice();
    let place = variables_of(checked, words).number_place(x);
    words[place] = number;
}

/// The unit that a word of a future or a member names, if any.
pub fn unit_of(word: u64) -> Option<u64>
    ensures { result ≡ unit_named word }
{
    match word {
        0 => None,
        _ => Some(word - 1),
    }
}

/// Puts a word into a future variable, and gives the old one.
fn exchange(checked: &CheckedCode, words: &mut [u64], x: u16, word: u64) -> u64
    requires frame { IsFrame checked.now words.old }
    requires variable { HasSort checked.now FutureSort x words.old }
    ensures frame { IsFrame checked.now words.new }
    ensures old { unit_named result ≡ unit_in checked.now words.old x }
    ensures set { IsSetFuture checked.now x (unit_named word) words.old words.new }
{
    let place = variables_of(checked, words).future_place(x);
    let old = words[place];
    words[place] = word;
    old
}

/// Lets a future variable name a unit, and tells which one it named before, if any.
pub fn assign(checked: &CheckedCode, frame: &mut Frame, to: u16, unit: u64) -> Option<u64>
    requires frame { IsFrame checked.now frame.old.items }
    requires variable { HasSort checked.now FutureSort to frame.old.items }
    requires unit { unit + 1 < 2 ^ 64 }
    ensures frame { IsFrame checked.now frame.new.items }
    ensures old { result ≡ unit_in checked.now frame.old.items to }
    ensures set { IsSetFuture checked.now to (Some unit) frame.old.items frame.new.items }
{
    unit_of(exchange(checked, frame.as_mut_slice(), to, unit + 1))
}

/// Lets a future variable name nothing, and tells which unit it named before, if any.
pub fn lift(checked: &CheckedCode, frame: &mut Frame, x: u16) -> Option<u64>
    requires frame { IsFrame checked.now frame.old.items }
    requires variable { HasSort checked.now FutureSort x frame.old.items }
    ensures frame { IsFrame checked.now frame.new.items }
    ensures old { result ≡ unit_in checked.now frame.old.items x }
    ensures set { IsSetFuture checked.now x None frame.old.items frame.new.items }
{
    unit_of(exchange(checked, frame.as_mut_slice(), x, 0))
}

/// The unit that a future variable names, if any.
pub fn future(checked: &CheckedCode, frame: &Frame, x: u16) -> Option<u64>
    requires frame { IsFrame checked.now frame.now.items }
    requires variable { HasSort checked.now FutureSort x frame.now.items }
    ensures { result ≡ unit_in checked.now frame.now.items x }
{
    let words = frame.as_slice();
    let place = variables_of(checked, words).future_place(x);
    unit_of(words[place])
}
