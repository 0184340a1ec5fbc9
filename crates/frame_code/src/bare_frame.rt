ghost use Rattle.std.specs.Prelude.{◌≡◌, ◌<◌, ◌∷◌, replicate};

use crate::words::Frame;

/// Makes a frame a control word with so many words of 0 behind it. The frame that stood there often
/// had as many words: then these are written over, and nothing is cleared.
pub fn bare_frame(frame: &mut Frame, control: u64, zeros: usize)
    requires { zeros < 64 }
    ensures { frame.new.items ≡ control ∷ replicate zeros 0 }
{
    if frame.len() == 1 + zeros {
        let words = frame.as_mut_slice();
        words.fill(0);
        words[0] = control;
    } else {
        lay_out(frame, control, zeros);
    }
}

/// Makes a frame of another length a control word with so many words of 0 behind it.
fn lay_out(frame: &mut Frame, control: u64, zeros: usize)
    requires { zeros < 64 }
    ensures { frame.new.items ≡ control ∷ replicate zeros 0 }
{
    frame.clear();
    frame.push(control);
    'zeros: for _zero in 0..zeros {
        frame.push(0);
    }
}
