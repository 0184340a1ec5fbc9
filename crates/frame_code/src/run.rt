ghost use Rattle.std.specs.Prelude.{◌≡◌, ◌<◌, ◌≤◌, ℕ, false, Some, None, length, slice_index};
ghost use Rattle.task_syntax.specs.Form.{IsWellFormed};
ghost use Rattle.task_syntax.specs.Valid.{IsValid};
ghost use Rattle.frame_code.specs.Control.{is_aggregate};
ghost use Rattle.frame_code.specs.Words.{body_of};
ghost use Rattle.frame_code.specs.Frames.{IsFrame};
ghost use Rattle.frame_code.specs.Members.{member_act};
ghost use Rattle.frame_code.specs.Meant.{AreHeld};
ghost use Rattle.frame_code.specs.Calls.{Advances, Means, Allows, NamesStay, KeepsWay};
ghost use Rattle.frame_code.specs.Run.{IsRun};
ghost use Rattle.frame_code.specs.Told.{act_told};
ghost use Rattle.frame_code.specs.declared.act.Requests.{Requests as RequestsState};

use crate::act::{Asked, Requests, RespawnRequest};
use crate::code::CheckedCode;
use crate::line::{Step, carry_out};
use crate::lookup::{kind_at, line_at, state_at};
use crate::request::request;
use crate::words::{AGGREGATE, Control, Frame, stand};
use task_syntax::{Columns, Priority};

/// Runs a task to the first line where it stops.
fn run(
    checked: &CheckedCode,
    columns: &Columns,
    words: &mut [u64],
    requests: &mut Requests,
) -> Asked
    requires frame { IsFrame checked.now words.old }
    requires task { is_aggregate (slice_index words.old 0) ≡ false }
    ensures run { IsRun checked.now columns.now words.old (act_told result requests.new) words.new }
    ensures formed { IsWellFormed checked.now }
    ensures valid { IsValid checked.now }
{
    let control = Control::unpack(words[0]);
    let kind = kind_at(checked.program(), control.kind);
    let state = state_at(kind, control.state);
    let places = checked.variables(control.kind).places();
    let mut at = control.at;
    'lines: loop {
        let line = line_at(state, at);
        match carry_out(kind, &line.instr, columns, places, words, at) {
            Step::Goes(next) => at = next,
            Step::Traps(trap) => {
                stand(words, control.state, at);
                return Asked::Trap(trap);
            }
            Step::Asks => {
                let asked = request(kind, &line.instr, places, words, requests);
                stand(words, control.state, at);
                return asked;
            }
        }
    }
}

/// What an aggregate asks for: another activation behind its next member, or, where all were
/// waited for, to be done with 0.
fn next_activation(members: u16, next: u16) -> Asked
    ensures waits { next < members → (member : ℕ) (requests : RequestsState)
        → member_act (Some member) next ≡ act_told result requests }
    ensures done { members ≤ next → (requests : RequestsState)
        → member_act None next ≡ act_told result requests }
{
    if next < members {
        Asked::Again(RespawnRequest {
            target: 0,
            behind: Some(next),
            priority: Priority::Regular,
        })
    } else {
        Asked::Done(0)
    }
}

/// Runs a task from where its frame stands to the first line where it cannot go on by itself, and
/// tells what it asks for there. The frame then stands at that line. An aggregate's frame stays as
/// it is.
pub fn advance(
    checked: &CheckedCode,
    columns: &Columns,
    frame: &mut Frame,
    requests: &mut Requests,
) -> Asked
    requires { IsFrame checked.now frame.old.items }
    ensures frame { IsFrame checked.now frame.new.items }
    ensures acts { Advances checked.now columns.now frame.old.items (act_told result requests.new)
        frame.new.items }
    ensures meaning { Means checked.now columns.now frame.old.items (act_told result requests.new)
        frame.new.items }
    ensures held { AreHeld checked.now (act_told result requests.new)
        (body_of checked.now frame.new.items) }
    ensures next { Allows checked.now (act_told result requests.new) frame.new.items }
    ensures names { NamesStay checked.now frame.old.items frame.new.items }
    ensures way { KeepsWay checked.now frame.old.items frame.new.items }
{
    let words = frame.as_mut_slice();
    let control = Control::unpack(words[0]);
    if control.kind == AGGREGATE {
        next_activation(control.state, control.at)
    } else {
        run(checked, columns, words, requests)
    }
}
