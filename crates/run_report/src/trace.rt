ghost use Rattle.std.specs.Prelude.{◌≡◌, ◌≤◌, ◌+◌, ◌++◌, Some, codes, length};
ghost use Rattle.record_core.specs.Numbers.{by_number};
ghost use Rattle.run_report.specs.Lines.{line_text, text_of};
ghost use Rattle.run_report.specs.Report.{activation_lines, activation_words, cause_word, number_or_dash, task_lines, task_lines_of, task_words, trace_lines};
ghost use Rattle.run_report.specs.Writing.{Writes};

use crate::pieces::{line_from, push_number, push_word, put_line};
use record_core::{ActivationRow, Cause, Ended, TaskRow};
use tool_io::{Failed, Line, Sink};

/// Appends a number, or `-` where there is none, with a blank before it.
fn push_maybe(line: &mut Line, number: Option<u64>)
    requires { length line.old ≤ 106 }
    ensures text { line.new ≡ line.old ++ (codes " " ++ number_or_dash number) }
    ensures short { length line.new ≤ length line.old + 21 }
{
    match number {
        Some(number) => push_number(line, number),
        None => push_word(line, b"-"),
    }
}

fn wide(number: Option<u32>) -> Option<u64>
    ensures { result ≡ number }
{
    match number {
        Some(number) => Some(u64::from(number)),
        None => None,
    }
}

fn push_cause(line: &mut Line, cause: Cause)
    requires { length line.old ≤ 106 }
    ensures text { line.new ≡ line.old ++ (codes " " ++ cause_word cause) }
    ensures short { length line.new ≤ length line.old + 21 }
{
    match cause {
        Cause::Clear => push_word(line, b"-"),
        Cause::Null => push_word(line, b"null"),
        Cause::Limit => push_word(line, b"limit"),
        Cause::By(task) => push_number(line, u64::from(task)),
    }
}

fn write_activation<O: Sink>(number: u32, row: &ActivationRow, out: &mut O) -> Result<(), Failed>
    ensures { Writes (O.seen out.old) (O.seen out.new)
        (line_text (activation_words number row.now)) result }
{
    let mut line = line_from(b"activation");
    push_number(&mut line, u64::from(number));
    push_word(&mut line, b"task");
    push_number(&mut line, u64::from(row.task));
    push_word(&mut line, b"after");
    push_maybe(&mut line, wide(row.after));
    push_word(&mut line, b"start");
    push_maybe(&mut line, row.start);
    put_line(line, out)
}

fn write_task<O: Sink>(number: u32, task: &TaskRow, out: &mut O) -> Result<(), Failed>
    ensures { Writes (O.seen out.old) (O.seen out.new)
        (line_text (task_words number task.now)) result }
{
    let mut line = line_from(b"task");
    push_number(&mut line, u64::from(number));
    push_word(&mut line, b"finish");
    push_maybe(&mut line, task.finish);
    push_word(&mut line, b"cause");
    push_cause(&mut line, task.cause);
    put_line(line, out)
}

fn write_activations<E: Ended, O: Sink>(end: &E, out: &mut O) -> Result<(), Failed>
    ensures { Writes (O.seen out.old) (O.seen out.new)
        (text_of (activation_lines (E.seen end.now))) result }
{
    'rows: for at in 0..end.accepted() {
        write_activation(at + 1, &end.activation(at + 1), out)?;
    }
    Ok(())
}

/// Writes the line of a task at its first activation.
fn write_first<E: Ended, O: Sink>(
    end: &E,
    number: u32,
    row: ActivationRow,
    out: &mut O,
) -> Result<(), Failed>
    requires { by_number (E.seen end.now).rows number ≡ Some row }
    ensures { Writes (O.seen out.old) (O.seen out.new)
        (text_of (task_lines_of (E.seen end.now).tasks number row)) result }
{
    if row.task != number {
        return Ok(());
    }
    write_task(number, &end.task(number), out)
}

fn write_tasks<E: Ended, O: Sink>(end: &E, out: &mut O) -> Result<(), Failed>
    ensures { Writes (O.seen out.old) (O.seen out.new)
        (text_of (task_lines (E.seen end.now))) result }
{
    'rows: for at in 0..end.accepted() {
        write_first(end, at + 1, end.activation(at + 1), out)?;
    }
    Ok(())
}

/// Writes a line for each activation, and then one for each task.
pub(crate) fn write_trace<E: Ended, O: Sink>(end: &E, out: &mut O) -> Result<(), Failed>
    ensures { Writes (O.seen out.old) (O.seen out.new)
        (text_of (trace_lines (E.seen end.now))) result }
{
    write_activations(end, out)?;
    write_tasks(end, out)
}
