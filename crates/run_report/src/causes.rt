ghost use Rattle.std.specs.Prelude.{◌≡◌, ◌≤◌, codes, decimal, length, map};
ghost use Rattle.task_syntax.specs.Form.{IsWellFormed};
ghost use Rattle.record_core.specs.Numbers.{HasTask};
ghost use Rattle.run_report.specs.CanReport.{AreCutByTasks, CanReport, IsTold};
ghost use Rattle.run_report.specs.Lines.{line_text, spaced, text_of};
ghost use Rattle.run_report.specs.Report.{cause_lines, cause_lines_of, cause_path, cut_by, cut_words, from_words};
ghost use Rattle.run_report.specs.Writing.{Writes};

use crate::pieces::{line_from, push_word, put_piece, put_word};
use crate::roots::{cut_word, root_name};
use itoa::Buffer;
use record_core::{Cause, CutFrom, CutTag, Ended, RootEnd};
use task_syntax::Program;
use tool_io::{Failed, Sink};

/// The task that a cause names.
fn cut_by(cause: Cause) -> Option<u32>
    ensures { result ≡ cut_by cause }
{
    match cause {
        Cause::By(task) => Some(task),
        Cause::Clear | Cause::Null | Cause::Limit => None,
    }
}

/// Puts the numbers of the tasks from this one on, each the cause of the one before, a piece each.
fn write_path<E: Ended, O: Sink>(end: &E, task: u32, out: &mut O) -> Result<(), Failed>
    requires causes { AreCutByTasks (E.seen end.now) }
    requires task { HasTask (E.seen end.now).rows task }
    ensures { Writes (O.seen out.old) (O.seen out.new)
        (spaced (map decimal
        (cause_path (length (E.seen end.now).rows) (E.seen end.now).tasks task)))
        result }
{
    let mut task = task;
    'path: for _step in 0..end.accepted() {
        put_word(Buffer::new().format(task).as_bytes(), out)?;
        let Some(other) = cut_by(end.task(task).cause) else {
            return Ok(());
        };
        task = other;
    }
    Ok(())
}

/// Puts from where a root was cut, a piece for each word.
fn write_from<E: Ended, O: Sink>(
    end: &E,
    program: &Program,
    tag: CutTag,
    from: CutFrom,
    out: &mut O,
) -> Result<(), Failed>
    requires formed { IsWellFormed program.now }
    requires can { CanReport program.now (E.seen end.now) }
    requires told { IsTold program.now (E.seen end.now) (RootEnd.Cut tag from) }
    ensures { Writes (O.seen out.old) (O.seen out.new)
        (spaced (from_words program.now (E.seen end.now) from)) result }
{
    match from {
        CutFrom::Host => put_word(b"host", out),
        CutFrom::Root(at) => {
            put_word(b"root", out)?;
            put_word(root_name(program, at), out)
        }
        CutFrom::Task(task) => write_path(end, task, out),
    }
}

/// Puts the line of a cut root. Its first three words are one piece, since its length has no bound.
fn write_cut<E: Ended, O: Sink>(
    end: &E,
    program: &Program,
    name: &[u8],
    cut: (CutTag, CutFrom),
    out: &mut O,
) -> Result<(), Failed>
    requires formed { IsWellFormed program.now }
    requires can { CanReport program.now (E.seen end.now) }
    requires told { IsTold program.now (E.seen end.now) (RootEnd.Cut cut.0 cut.1) }
    requires short { length name.now ≤ 24 }
    ensures { Writes (O.seen out.old) (O.seen out.new)
        (line_text (cut_words program.now (E.seen end.now) name.now cut.0 cut.1)) result }
{
    let (tag, from) = cut;
    let mut line = line_from(b"cause");
    push_word(&mut line, name);
    push_word(&mut line, cut_word(tag));
    put_piece(line.as_bytes(), out)?;
    write_from(end, program, tag, from, out)?;
    put_piece(b"\n", out)
}

fn write_cause<E: Ended, O: Sink>(
    end: &E,
    program: &Program,
    at: u8,
    ended: RootEnd,
    out: &mut O,
) -> Result<(), Failed>
    requires formed { IsWellFormed program.now }
    requires can { CanReport program.now (E.seen end.now) }
    requires told { IsTold program.now (E.seen end.now) ended }
    ensures { Writes (O.seen out.old) (O.seen out.new)
        (text_of (cause_lines_of program.now (E.seen end.now) at ended)) result }
{
    match ended {
        RootEnd::Value(_) => Ok(()),
        RootEnd::Cut(tag, from) => {
            write_cut(end, program, root_name(program, at), (tag, from), out)
        }
    }
}

/// Writes why each root that is cut was cut.
pub(crate) fn write_causes<E: Ended, O: Sink>(
    end: &E,
    program: &Program,
    out: &mut O,
) -> Result<(), Failed>
    requires formed { IsWellFormed program.now }
    requires can { CanReport program.now (E.seen end.now) }
    ensures { Writes (O.seen out.old) (O.seen out.new)
        (text_of (cause_lines program.now (E.seen end.now))) result }
{
    'roots: for at in 0..end.root_count() {
        write_cause(end, program, at, end.root(at), out)?;
    }
    Ok(())
}
