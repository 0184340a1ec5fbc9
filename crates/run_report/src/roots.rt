ghost use Rattle.std.specs.Prelude.{◌≡◌, ◌≤◌, ◌++◌, length};
ghost use Rattle.task_syntax.specs.Form.{IsWellFormed};
ghost use Rattle.run_report.specs.Lines.{line_text, spaced, text_of};
ghost use Rattle.run_report.specs.Report.{cut_word, end_words, root_lines, root_name, root_words, trap_word};
ghost use Rattle.run_report.specs.Writing.{Writes};

use crate::pieces::{line_from, push_number, push_word, put_line};
use record_core::{CutTag, Ended, RootEnd};
use task_syntax::{Program, Trap, Value};
use tool_io::{Failed, Line, Sink};

/// The name of the root at a position.
pub(crate) fn root_name(program: &Program, at: u8) -> &[u8]
    requires { IsWellFormed program.now }
    ensures name { result.now ≡ root_name program.now at }
    ensures short { length result.now ≤ 24 }
{
    match program.roots.get(usize::from(at)) {
        Some(root) => root.name.as_bytes(),
        None => &[],
    }
}

fn trap_word(trap: Trap) -> &'static [u8]
    ensures word { result.now ≡ trap_word trap }
    ensures short { length result.now ≤ 8 }
{
    match trap {
        Trap::Overflow => b"overflow",
        Trap::Divide => b"divide",
        Trap::NoRow => b"norow",
    }
}

pub(crate) fn cut_word(tag: CutTag) -> &'static [u8]
    ensures word { result.now ≡ cut_word tag }
    ensures short { length result.now ≤ 5 }
{
    match tag {
        CutTag::Null => b"null",
        CutTag::Limit => b"limit",
    }
}

fn push_end(line: &mut Line, end: RootEnd)
    requires { length line.old ≤ 40 }
    ensures text { line.new ≡ line.old ++ spaced (end_words end) }
    ensures short { length line.new ≤ 61 }
{
    match end {
        RootEnd::Value(Value::Number(number)) => push_number(line, number),
        RootEnd::Value(Value::Trapped(trap)) => {
            push_word(line, b"trap");
            push_word(line, trap_word(trap));
        }
        RootEnd::Cut(tag, _) => push_word(line, cut_word(tag)),
    }
}

fn write_root<O: Sink>(name: &[u8], end: RootEnd, out: &mut O) -> Result<(), Failed>
    requires { length name.now ≤ 24 }
    ensures { Writes (O.seen out.old) (O.seen out.new)
        (line_text (root_words name.now end)) result }
{
    let mut line = line_from(b"root");
    push_word(&mut line, name);
    push_end(&mut line, end);
    put_line(line, out)
}

/// Writes how each root ended.
pub(crate) fn write_roots<E: Ended, O: Sink>(
    end: &E,
    program: &Program,
    out: &mut O,
) -> Result<(), Failed>
    requires { IsWellFormed program.now }
    ensures { Writes (O.seen out.old) (O.seen out.new)
        (text_of (root_lines program.now (E.seen end.now))) result }
{
    'roots: for at in 0..end.root_count() {
        write_root(root_name(program, at), end.root(at), out)?;
    }
    Ok(())
}
