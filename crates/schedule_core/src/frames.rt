//! The words of a frame are written into a record of the pass, and read out of it.
ghost use Rattle.std.specs.Prelude.{◌≡◌, ◌<◌, ◌≤◌, List, ℕ, length, false};
ghost use Rattle.std.specs.List.{filter_map};
ghost use Rattle.frame_code.specs.Control.{control_kind, is_aggregate};
ghost use Rattle.frame_code.specs.Frames.{frame_length};
ghost use Rattle.frame_code.specs.Words.{unit_named};
ghost use Rattle.step_table.specs.Passes.{view, plan, IsOf, IsSame};
ghost use Rattle.schedule_core.specs.FrameWords.{MayWrite, WritesFrame, OnlySees};
ghost use Rattle.schedule_core.specs.FrameWords.{KnowsFront, IsFrontOf};

use frame_code::{CheckedCode, Frame, words_of};
use step_table::{OwnWord, Pass, Shared};

/// Writes the words of a frame into the record at the unit.
pub(crate) fn write_frame(shared: &Shared, pass: &mut Pass, unit: u32, frame: &Frame)
    requires table { IsOf shared.now pass.old }
    requires may { MayWrite (plan shared.now) unit (length frame.now.items) (view pass.old) }
    ensures pass { IsSame pass.old pass.new }
    ensures written { WritesFrame unit frame.now.items (view pass.old) (view pass.new) }
{
    let words = frame.as_slice();
    'words: for at in 0..words.len() {
        shared.fill(pass, unit, OwnWord::Frame(at as u32), words[at]);
    }
}

// How many words a frame with this control word has.
fn length_of(code: &CheckedCode, control: u64) -> u32
    requires { is_aggregate control ≡ false → control_kind control < length code.now.kinds }
    ensures { result ≡ frame_length code.now control }
{
    let kind = control % 256;
    let group = kind == 255;
    if group {
        1 + (control / 256 % 256) as u32
    } else {
        words_of(code, kind as u16)
    }
}

/// Reads the frame of a record of the pass, whose words the pass knows.
pub(crate) fn read_frame(shared: &Shared, code: &CheckedCode, pass: &mut Pass, unit: u32) -> Frame
    requires table { IsOf shared.now pass.old }
    requires code { code.now ≡ shared.now.setup.checked }
    requires known { (words : List ℕ)
        × KnowsFront (plan shared.now) code.now unit words (view pass.old) }
    ensures pass { IsSame pass.old pass.new }
    ensures seen { OnlySees (view pass.old) (view pass.new) }
    ensures frame { IsFrontOf (plan shared.now) code.now unit (view pass.old) result.items }
{
    let control = shared.read_known(pass, unit, OwnWord::Frame(0));
    let length = length_of(code, control);
    let mut frame = Frame::new();
    frame.push(control);
    'words: for at in 1..length {
        let word = shared.read_known(pass, unit, OwnWord::Frame(at));
        frame.push(word);
    }
    frame
}

/// How many units these words name.
pub(crate) fn count_named(words: &[u64]) -> u64
    ensures { result ≡ length (filter_map unit_named words.now) }
{
    let mut count = 0u64;
    'words: for word in words {
        if *word != 0 {
            count += 1;
        }
    }
    count
}
