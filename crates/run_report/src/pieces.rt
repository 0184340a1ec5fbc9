//! Words and lines on their way to a sink.

ghost use Rattle.std.specs.Prelude.{◌≡◌, ◌<◌, ◌≤◌, ◌+◌, ◌++◌, codes, decimal, length};
ghost use Rattle.run_report.specs.Writing.{Writes};

use itoa::Buffer;
use tool_io::{Failed, Line, Sink, put_all};

/// A line that begins with the word.
pub(crate) fn line_from(word: &[u8]) -> Line
    requires { length word.now ≤ 64 }
    ensures { result ≡ word.now }
{
    let mut line = Line::new();
    line.push(word);
    line
}

/// Appends a word with a blank before it.
pub(crate) fn push_word(line: &mut Line, word: &[u8])
    requires { length line.old + length word.now < 128 }
    ensures { line.new ≡ line.old ++ (codes " " ++ word.now) }
{
    line.push(b" ");
    line.push(word);
}

/// Appends a number with a blank before it.
pub(crate) fn push_number(line: &mut Line, number: u64)
    requires { length line.old ≤ 106 }
    ensures text { line.new ≡ line.old ++ (codes " " ++ decimal number) }
    ensures short { length line.new ≤ length line.old + 21 }
{
    push_word(line, Buffer::new().format(number).as_bytes());
}

/// Puts a line with its end, as one piece.
pub(crate) fn put_line<O: Sink>(line: Line, out: &mut O) -> Result<(), Failed>
    requires { length line < 128 }
    ensures { Writes (O.seen out.old) (O.seen out.new) (line ++ codes "\n") result }
{
    let mut line = line;
    line.push(b"\n");
    put_piece(line.as_bytes(), out)
}

/// Puts a word with a blank before it, as one piece.
pub(crate) fn put_word<O: Sink>(word: &[u8], out: &mut O) -> Result<(), Failed>
    requires { length word.now ≤ 64 }
    ensures { Writes (O.seen out.old) (O.seen out.new) (codes " " ++ word.now) result }
{
    let mut piece = line_from(b" ");
    piece.push(word);
    put_piece(piece.as_bytes(), out)
}

/// Puts a piece.
pub(crate) fn put_piece<O: Sink>(piece: &[u8], out: &mut O) -> Result<(), Failed>
    ensures { Writes (O.seen out.old) (O.seen out.new) piece.now result }
{
    match put_all(out, piece) {
        Ok(()) => Ok(()),
        Err(failed) => Err(failed),
    }
}
