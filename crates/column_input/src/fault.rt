ghost use Rattle.std.specs.Prelude.{◌≡◌};
ghost use Rattle.column_input.specs.Causes.{code_of, word_of};

use std::alloc::AllocError;

/// Why columns are refused.
#[derive(Debug, Clone, Copy, PartialEq, Eq)]
pub enum Cause {
    /// There is no record at all.
    NoHeader,
    /// A name of the header stands further to the left too.
    TwiceNamed,
    /// A row has another number of fields than the header.
    Ragged,
    /// A field of a row is no number.
    BadNumber,
    /// There are more than 1,000,000 rows.
    TooManyRows,
    /// The header has more than 16 names.
    TooManyColumns,
}

impl Cause {
    /// The number by which the cause is printed.
    pub fn code(self) -> u8
        ensures { result ≡ code_of self }
    {
        match self {
            Cause::NoHeader => 1,
            Cause::TwiceNamed => 2,
            Cause::Ragged => 3,
            Cause::BadNumber => 4,
            Cause::TooManyRows => 5,
            Cause::TooManyColumns => 6,
        }
    }

    /// The word for the cause.
    pub fn word(self) -> &'static str
        ensures { result.now ≡ word_of self }
    {
        match self {
            Cause::NoHeader => "NoHeader",
            Cause::TwiceNamed => "TwiceNamed",
            Cause::Ragged => "Ragged",
            Cause::BadNumber => "BadNumber",
            Cause::TooManyRows => "TooManyRows",
            Cause::TooManyColumns => "TooManyColumns",
        }
    }
}

/// Why columns were not read.
#[derive(Debug, Drop)]
pub enum ColumnError {
    /// The first fault, with its row, which is 0 for the header, and its column. Both are counted from 1; a column of 0 is the whole
    /// row.
    Fault { cause: Cause, row: u32, column: u32 },
    /// Want of memory.
    Memory,
}

impl From<AllocError> for ColumnError {
    ghost use Rattle.column_input.specs.declared.fault.ColumnError.TheVariants.{Memory};

    ghost from_gives = { λ _ e. e ≡ Memory };

    fn from(_refused: AllocError) -> ColumnError {
        ColumnError::Memory
    }
}
