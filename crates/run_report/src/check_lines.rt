ghost use Rattle.std.specs.Prelude.{◌≡◌, ◌≤◌, ◌+◌, OnOk, OnErr, Some, slice_get, length};
ghost use Rattle.task_syntax.specs.Form.{IsWellFormed};
ghost use Rattle.tool_io.specs.Fault.{ErrOnlyByFault};
ghost use Rattle.tool_io.specs.Sink.{Adds, AddsFront};
ghost use Rattle.run_report.specs.CheckLines.{check_lines, kind_lines, kind_lines_of, kind_words, total_words};
ghost use Rattle.run_report.specs.Lines.{line_text, text_of};
ghost use Rattle.run_report.specs.Writing.{Writes};

use crate::pieces::{line_from, push_number, push_word, put_line};
use kt_words::class_for;
use task_syntax::{Checked, Kind, Program};
use tool_io::{Failed, Sink};

fn write_kind<O: Sink>(name: &[u8], class: u8, words: u64, out: &mut O) -> Result<(), Failed>
    requires { length name.now ≤ 24 }
    ensures { Writes (O.seen out.old) (O.seen out.new)
        (line_text (kind_words name.now class words)) result }
{
    let mut line = line_from(b"kind");
    push_word(&mut line, name);
    push_word(&mut line, b"class");
    push_number(&mut line, u64::from(class));
    push_word(&mut line, b"words");
    push_number(&mut line, words);
    put_line(line, out)
}

/// The words of a kind's frame: a control word, and one for each variable.
fn words_of(kind: &Kind) -> usize
    requires { length kind.now.variables ≤ 255 }
    ensures { result ≡ 1 + length kind.now.variables }
{
    1 + kind.variables.len()
}

fn write_kind_at<O: Sink>(
    program: &Program,
    at: usize,
    kind: &Kind,
    out: &mut O,
) -> Result<(), Failed>
    requires formed { IsWellFormed program.now }
    requires there { slice_get program.now.kinds at ≡ Some kind.now }
    ensures { Writes (O.seen out.old) (O.seen out.new)
        (text_of (kind_lines_of program.now at kind.now)) result }
{
    let words = words_of(kind);
    write_kind(kind.name.as_bytes(), class_for(words), words as u64, out)
}

fn write_total<O: Sink>(program: &Program, out: &mut O) -> Result<(), Failed>
    ensures { Writes (O.seen out.old) (O.seen out.new)
        (line_text (total_words program.now)) result }
{
    let mut line = line_from(b"kinds");
    push_number(&mut line, program.kinds.len() as u64);
    push_word(&mut line, b"roots");
    push_number(&mut line, program.roots.len() as u64);
    put_line(line, out)
}

fn write_kinds<O: Sink>(program: &Program, out: &mut O) -> Result<(), Failed>
    requires { IsWellFormed program.now }
    ensures { Writes (O.seen out.old) (O.seen out.new) (text_of (kind_lines program.now)) result }
{
    'kinds: for (at, kind) in program.kinds.as_slice().iter().enumerate() {
        write_kind_at(program, at, kind, out)?;
    }
    Ok(())
}

fn write_lines<O: Sink>(program: &Program, out: &mut O) -> Result<(), Failed>
    requires { IsWellFormed program.now }
    ensures { Writes (O.seen out.old) (O.seen out.new) (text_of (check_lines program.now)) result }
{
    write_kinds(program, out)?;
    write_total(program, out)
}

/// Writes the class and the words of a frame of each kind, and how many kinds and roots there are. A line is one piece.
pub fn write_check<O: Sink>(checked: &Checked, out: &mut O) -> Result<(), Failed>
    ensures ok { OnOk result
        (Adds (O.seen out.old) (O.seen out.new) (text_of (check_lines checked.now))) }
    ensures err { OnErr result
        (AddsFront (O.seen out.old) (O.seen out.new) (text_of (check_lines checked.now))) }
    ensures cause { ErrOnlyByFault result (O.seen out.old).faults (O.seen out.new).faults }
{
    write_lines(checked.program(), out)
}
