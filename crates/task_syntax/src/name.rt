ghost use Rattle.std.specs.Prelude.{◌≡◌, ◌≤◌, length};

use arrayvec::ArrayVec;
use std::marker::Model;

/// A name of the task language, at most 24 bytes, which contracts see as the list of its bytes.
///
/// The name of a future variable is kept without its `@`.
#[derive(Debug, Drop)]
pub struct Name {
    pub bytes: ArrayVec<u8, 24>,
}

impl Model for Name {
    ghost use Rattle.std.specs.Prelude.{List, ℕ};
    ghost use Rattle.std.specs.Coded.{coded_list, coded_ℕ};

    ghost Value = { List ℕ };

    ghost coded = { coded_list coded_ℕ };

    ghost view = { λ name. name.bytes.items };
}

impl Name {
    /// The name of these bytes.
    pub fn new(bytes: &[u8]) -> Name
        requires { length bytes.now ≤ 24 }
        ensures { result ≡ bytes.now }
    {
        let mut copied = ArrayVec::new();
        let _ = copied.try_extend_from_slice(bytes);
        Name { bytes: copied }
    }

    /// The same name.
    pub fn copy(&self) -> Name
        ensures { result ≡ self.now }
    {
        Name::new(self.bytes.as_slice())
    }

    /// The bytes of the name.
    pub fn as_bytes(&self) -> &[u8]
        ensures { result.now ≡ self.now }
    {
        self.bytes.as_slice()
    }
}
