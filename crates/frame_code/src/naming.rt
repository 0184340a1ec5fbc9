ghost use Rattle.std.specs.Prelude.{◌≡◌, ◌<◌, ◌≤◌, length, slice_index};
ghost use Rattle.std.specs.List.{filter_map};
ghost use Rattle.frame_code.specs.Control.{is_aggregate as marks_aggregate};
ghost use Rattle.frame_code.specs.Words.{body_of, unit_named};
ghost use Rattle.frame_code.specs.Frames.{IsFrame};
ghost use Rattle.frame_code.specs.Names.{names_of};
ghost use Rattle.frame_code.specs.Units.{HasMember, IsMember, AreFutures, units_of as units_in};

use crate::code::CheckedCode;
use crate::few::Few;
use crate::set_variables::{future, variables_of};
use crate::words::{AGGREGATE, Control, Frame};

/// Whether a frame is an aggregate's.
pub fn is_aggregate(frame: &Frame) -> bool
    requires { 0 < length frame.now.items }
    ensures { result ≡ marks_aggregate (slice_index frame.now.items 0) }
{
    Control::unpack(frame.as_slice()[0]).kind == AGGREGATE
}

/// The unit of a member of an aggregate, by its position from 0 on.
pub fn member(frame: &Frame, position: u16) -> u64
    requires { HasMember frame.now.items position }
    ensures { IsMember frame.now.items position result }
{
    frame.as_slice()[1 + position as usize] - 1
}

/// The words of a frame that name units: those of its futures, or of its members.
pub fn naming_words<'a>(checked: &CheckedCode, frame: &'a Frame) -> &'a [u64]
    requires { IsFrame checked.now frame.now.items }
    ensures { filter_map unit_named result.now ≡ names_of (body_of checked.now frame.now.items) }
{
    let words = frame.as_slice();
    if is_aggregate(frame) {
        return &words[1..];
    }
    let numbers = variables_of(checked, words).numbers();
    &words[1 + numbers..]
}

/// The units that these future variables name, in their order.
pub fn units_named(checked: &CheckedCode, frame: &Frame, variables: &[u16]) -> Few<u64, 8>
    requires frame { IsFrame checked.now frame.now.items }
    requires few { length variables.now ≤ 8 }
    requires futures { AreFutures checked.now frame.now.items variables.now }
    ensures { result ≡ units_in (body_of checked.now frame.now.items) variables.now }
{
    let mut units = Few::new();
    'variables: for variable in variables {
        if let Some(unit) = future(checked, frame, *variable) {
            units.push(unit);
        }
    }
    units
}
