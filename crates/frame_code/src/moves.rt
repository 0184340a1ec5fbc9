ghost use Rattle.std.specs.Prelude.{◌≡◌, ℕ};
ghost use Rattle.frame_code.specs.Words.{body_of};
ghost use Rattle.frame_code.specs.Frames.{IsFrame};
ghost use Rattle.frame_code.specs.Moves.{IsRead, MayGive, MayPass, MayEnter};
ghost use Rattle.frame_code.specs.Ways.{BodyHasWay};
ghost use Rattle.frame_code.specs.Calls.{KeepsWay, IsGiven, IsPassedOn, IsEntered};

use crate::code::CheckedCode;
use crate::lookup::{kind_at, line_at, state_at};
use crate::words::{AGGREGATE, Control, Frame, stand};
use task_syntax::Instr;

/// The variable that a read sets.
fn variable_read(instr: &Instr) -> u16
    requires { IsRead instr.now }
    ensures { (x : ℕ) × (instr.now ≡ Instr.Get result x) }
{
    match instr {
        Instr::Get { to, .. } => *to,
        _ => unreachable!(),
    }
}

/// Gives a task the number that it asked for. It is set in the variable of the read, and the frame
/// stands at the next line.
pub fn give(checked: &CheckedCode, frame: &mut Frame, number: u64)
    requires frame { IsFrame checked.now frame.old.items }
    requires read { MayGive checked.now (body_of checked.now frame.old.items) }
    ensures frame { IsFrame checked.now frame.new.items }
    ensures given { IsGiven checked.now frame.old.items number frame.new.items }
    ensures way { KeepsWay checked.now frame.old.items frame.new.items }
{
    let words = frame.as_mut_slice();
    let control = Control::unpack(words[0]);
    let kind = kind_at(checked.program(), control.kind);
    let line = line_at(state_at(kind, control.state), control.at);
    let to = variable_read(&line.instr);
    let place = checked.variables(control.kind).number_place(to);
    words[place] = number;
    stand(words, control.state, control.at + 1);
}

/// Moves a frame to the line after its spawn, `all`, `copy` or `drop`. The future that is named
/// there is not set.
pub fn pass_on(checked: &CheckedCode, frame: &mut Frame)
    requires frame { IsFrame checked.now frame.old.items }
    requires passed { MayPass checked.now (body_of checked.now frame.old.items) }
    ensures frame { IsFrame checked.now frame.new.items }
    ensures moved { IsPassedOn checked.now frame.old.items frame.new.items }
    ensures way { KeepsWay checked.now frame.old.items frame.new.items }
{
    // The program is well formed, so another line follows.
    let _program = checked.program();
    let words = frame.as_mut_slice();
    let control = Control::unpack(words[0]);
    stand(words, control.state, control.at + 1);
}

/// Moves a frame to the first line of the state to which its task respawns; the futures that are
/// not held there are still named. An aggregate's frame moves past the member that it asked to be
/// behind.
pub fn enter(checked: &CheckedCode, frame: &mut Frame, target: u16)
    requires frame { IsFrame checked.now frame.old.items }
    requires respawn { MayEnter checked.now target (body_of checked.now frame.old.items) }
    ensures frame { IsFrame checked.now frame.new.items }
    ensures moved { IsEntered checked.now target frame.old.items frame.new.items }
    ensures way { BodyHasWay checked.now (body_of checked.now frame.new.items) }
{
    // The program is well formed, so the state is there, and has a line.
    let _program = checked.program();
    let words = frame.as_mut_slice();
    let control = Control::unpack(words[0]);
    if control.kind == AGGREGATE {
        stand(words, control.state, control.at + 1);
    } else {
        stand(words, target, 0);
    }
}
