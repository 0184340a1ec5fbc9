ghost use Rattle.std.specs.Prelude.{◌≡◌, [], IfOk, OnErr, string_bytes};
ghost use Rattle.ktask_cli.specs.declared.stop.Stop.TheVariants.{WantOfMemory};
ghost use Rattle.ktask_cli.specs.Refusal.{Tells, Told};
ghost use Rattle.ktask_cli.specs.Io.{Offers};

use crate::fault_line::{check_line, columns_line, fault_line};
use crate::fetch_file::FILE_LIMIT;
use crate::stop::Stop;
use std::alloc::{AllocError, Global};
use tool_io::{Sink, put_all};

pub(crate) const WRITE_FAULT: &[u8] = b"ktask: write fault\n";

const WANT_OF_MEMORY: &[u8] = b"ktask: want of memory\n";

/// Tells the reason on `err` in a line that is one piece, and answers its exit status.
///
/// A line that names a file takes memory. Where there is none, want of memory is told in its place.
pub fn refuse<E: Sink>(alloc: Global, stop: Stop, name: &str, err: &mut E) -> u8
    ensures { Told stop name.now result (E.seen err.old) (E.seen err.new) }
{
    let status = stop.status();
    match stop {
        Stop::CannotRead(_) => {
            let line = format!(in alloc; "ktask: cannot read {name}\n");
            tell_made(status, line, err)
        }
        Stop::TooLong(_) => {
            let line = format!(in alloc; "ktask: {name} is longer than {FILE_LIMIT} bytes\n");
            tell_made(status, line, err)
        }
        Stop::ProgramFault { cause, line, word } => {
            tell(status, fault_line(cause, line, word).as_bytes(), err)
        }
        Stop::CheckFault { cause, line, name } => {
            tell(status, check_line(cause, line, &name).as_bytes(), err)
        }
        Stop::ColumnsFault { cause, row, column } => {
            tell(status, columns_line(cause, row, column).as_bytes(), err)
        }
        Stop::WordsRefused => tell(status, b"ktask: words refused, see ktask help\n", err),
        Stop::WriteFault => tell(status, WRITE_FAULT, err),
        Stop::WantOfMemory => tell(status, WANT_OF_MEMORY, err),
    }
}

// Tells the line, or want of memory where there was none to make it.
fn tell_made<E: Sink>(status: u8, line: Result<String, AllocError>, err: &mut E) -> u8
    ensures made { IfOk line (λ text. (result ≡ status)
        × Offers (E.seen err.old) (E.seen err.new) (string_bytes text)) }
    ensures unmade { OnErr line (Tells WantOfMemory [] result (E.seen err.old) (E.seen err.new)) }
{
    match line {
        Ok(text) => tell(status, text.as_bytes(), err),
        Err(_) => tell(Stop::WantOfMemory.status(), WANT_OF_MEMORY, err),
    }
}

// Offers the line, and answers the status: a fault of `err` changes none.
pub(crate) fn tell<E: Sink>(status: u8, line: &[u8], err: &mut E) -> u8
    ensures status { result ≡ status }
    ensures line { Offers (E.seen err.old) (E.seen err.new) line.now }
{
    let _ = put_all(err, line);
    status
}
