ghost use Rattle.std.specs.Prelude.{◌≡◌};

use std::alloc::AllocError;

/// Why a text is no program. The number of a cause is the one that is printed.
#[derive(Debug, Clone, Copy, PartialEq, Eq)]
pub enum Cause {
    /// A byte outside comments that may not stand in a word.
    NotText = 1,
    /// The first line with words is no header.
    NoHeader = 2,
    /// A word that may not stand where a fixed word is expected.
    UnknownWord = 3,
    /// A word that is no name, future or operand where one is expected.
    BadName = 4,
    /// A word that begins with a digit and is no number, where a number may stand.
    BadNumber = 5,
    /// A name that is already given.
    TwiceNamed = 6,
    /// A name that is given nowhere.
    UnknownName = 7,
    /// The first item past a limit.
    TooMany = 8,
    /// A state, a kind or the text ends too soon.
    NoEnd = 9,
    /// A jump to a label that stands earlier.
    BackLabel = 10,
    /// A further word behind a whole line.
    WordsLeft = 11,
}

/// The first fault of a text: its cause, its line, and its word in that line, both counted from 1.
#[derive(Debug, Clone, Copy, PartialEq, Eq)]
pub struct Fault {
    pub cause: Cause,
    pub line: u32,
    pub word: u32,
}

/// Why a text was not read.
#[derive(Debug, Drop)]
pub enum TextError {
    Fault(Fault),
    /// Want of memory.
    Memory,
}

impl From<Fault> for TextError {
    ghost use Rattle.task_text.specs.declared.fault.TextError.TheVariants as error;

    ghost from_gives = { λ fault gives. gives ≡ error.Fault fault };

    fn from(fault: Fault) -> TextError {
        TextError::Fault(fault)
    }
}

impl From<AllocError> for TextError {
    ghost use Rattle.task_text.specs.declared.fault.TextError.TheVariants as error;

    ghost from_gives = { λ _ gives. gives ≡ error.Memory };

    fn from(_refused: AllocError) -> TextError {
        TextError::Memory
    }
}
