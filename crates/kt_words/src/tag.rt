ghost use Rattle.std.specs.Prelude.{◌≡◌, ◌≤◌};
ghost use Rattle.kt_words.specs.StateWords.{tag_code};

/// What a task's record has for a result.
#[derive(Debug, Clone, Copy, PartialEq, Eq)]
pub enum Tag {
    /// Nothing yet.
    Unset,
    /// A number.
    Number,
    /// A trap: a sum, difference or product outside the 64-bit numbers.
    Overflow,
    /// A trap: a division or remainder by 0.
    Divide,
    /// A trap: a row of a column that is not there.
    NoRow,
    /// Cut, since the pool had no block.
    Null,
    /// Cut, since the limit of activations was met.
    Limit,
}

impl Tag {
    pub(crate) fn code(self) -> u8
        ensures coded { result ≡ tag_code self }
        ensures few { result ≤ 6 }
    {
        match self {
            Tag::Unset => 0,
            Tag::Number => 1,
            Tag::Overflow => 2,
            Tag::Divide => 3,
            Tag::NoRow => 4,
            Tag::Null => 5,
            Tag::Limit => 6,
        }
    }

    pub(crate) fn of(code: u8) -> Tag
        requires { code ≤ 6 }
        ensures { tag_code result ≡ code }
    {
        match code {
            0 => Tag::Unset,
            1 => Tag::Number,
            2 => Tag::Overflow,
            3 => Tag::Divide,
            4 => Tag::NoRow,
            5 => Tag::Null,
            _ => Tag::Limit,
        }
    }
}
