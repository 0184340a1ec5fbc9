ghost use Rattle.std.specs.Prelude.{◌≡◌, ◌≤◌, ◌+◌, ◌++◌, [], length};

use arrayvec::ArrayVec;
use std::marker::Model;

/// A line of text of at most 128 bytes, made in a buffer of fixed size. It takes no memory.
#[derive(Drop)]
pub struct Line {
    bytes: ArrayVec<u8, 128>,
}

impl Model for Line {
    ghost use Rattle.std.specs.Prelude.{List, ℕ};
    ghost use Rattle.std.specs.Coded.{coded_list, coded_ℕ};

    ghost Value = { List ℕ };

    ghost coded = { coded_list coded_ℕ };

    ghost view = { λ line. line.bytes.items };
}

impl Line {
    pub fn new() -> Line
        ensures { result ≡ [] }
    {
        Line {
            bytes: ArrayVec::new(),
        }
    }

    pub fn push(&mut self, text: &[u8])
        requires { length self.old + length text.now ≤ 128 }
        ensures { self.new ≡ self.old ++ text.now }
    {
        let _ = self.bytes.try_extend_from_slice(text);
    }

    pub fn as_bytes(&self) -> &[u8]
        ensures { result.now ≡ self.now }
    {
        self.bytes.as_slice()
    }
}
