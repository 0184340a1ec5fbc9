ghost use Rattle.std.specs.Prelude.{◌≡◌};

use column_input::Cause as ColumnCause;
use task_check::Cause;
use task_syntax::Name;

/// A file that the words name.
#[derive(Clone, Copy, Debug, PartialEq, Eq)]
pub enum InputFile {
    Program,
    Columns,
}

/// Every reason for which a command ends without what it was asked for.
#[derive(Debug, Drop)]
pub enum Stop {
    WordsRefused,
    CannotRead(InputFile),
    TooLong(InputFile),
    /// The text is no program: the number of the cause, the line, and the word in it, both counted from 1.
    ProgramFault {
        cause: u8,
        line: u32,
        word: u32,
    },
    /// The program is not valid: the cause, the line, and the future or the kind that is named.
    CheckFault {
        cause: Cause,
        line: u32,
        name: Name,
    },
    /// The columns are refused: the cause, the row, and the column.
    ColumnsFault {
        cause: ColumnCause,
        row: u32,
        column: u32,
    },
    WriteFault,
    WantOfMemory,
}

impl Stop {
    ghost use Rattle.ktask_cli.specs.Stop.{status_of};

    /// The exit status of the tool.
    pub fn status(&self) -> u8
        ensures { result ≡ status_of self.now }
    {
        match self {
            Stop::WordsRefused => 2,
            Stop::ProgramFault { .. } | Stop::CheckFault { .. } => 5,
            Stop::ColumnsFault { .. } => 6,
            Stop::CannotRead(_) | Stop::TooLong(_) => 7,
            Stop::WriteFault => 8,
            Stop::WantOfMemory => 9,
        }
    }
}
