ghost use Rattle.std.specs.Prelude.{◌≡◌, ◌<◌, length};
ghost use Rattle.frame_code.specs.Control.{control_word};
ghost use Rattle.frame_code.specs.Run.{unpacked, IsMovedTo};

use arrayvec::ArrayVec;

/// The words of a frame: the control word, a word for each number variable in order, and then one
/// for each future variable in order; of an aggregate the control word and a word for each member.
pub type Frame = ArrayVec<u64, 64>;

/// The kind that marks an aggregate.
pub const AGGREGATE: u16 = 255;

/// The control word, unpacked: a kind, a state and a line, or the mark of an aggregate, how many
/// members it has, and the position of the next one.
#[derive(Clone, Copy)]
pub struct Control {
    pub kind: u16,
    pub state: u16,
    pub at: u16,
}

impl Control {
    /// What a control word says.
    pub fn unpack(word: u64) -> Control
        ensures { result ≡ unpacked word }
    {
        Control {
            kind: (word % 256) as u16,
            state: (word / 256 % 256) as u16,
            at: (word / 65536 % 256) as u16,
        }
    }

    /// The control word.
    pub fn pack(self) -> u64
        requires kind { self.kind < 256 }
        requires state { self.state < 256 }
        requires at { self.at < 256 }
        ensures { result ≡ control_word self.kind self.state self.at }
    {
        self.kind as u64 + 256 * self.state as u64 + 65536 * self.at as u64
    }
}

/// Makes a frame stand at a line of a state; of an aggregate these are how many members it has,
/// and the next one.
pub fn stand(words: &mut [u64], state: u16, at: u16)
    requires some { 0 < length words.old }
    requires state { state < 256 }
    requires at { at < 256 }
    ensures { IsMovedTo state at words.old words.new }
{
    let kind = Control::unpack(words[0]).kind;
    words[0] = Control { kind, state, at }.pack();
}
