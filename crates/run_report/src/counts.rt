ghost use Rattle.std.specs.Prelude.{◌≡◌, ◌≤◌, length, cond, nat_eq};
ghost use Rattle.record_core.specs.Journal.{task_count};
ghost use Rattle.run_report.specs.Lines.{joined, line_text, text_of};
ghost use Rattle.run_report.specs.Report.{count_lines, count_words, held_words};
ghost use Rattle.run_report.specs.Writing.{Writes};

use crate::pieces::{line_from, push_number, put_line};
use record_core::{ActivationRow, Ended};
use tool_io::{Failed, Line, Sink};

/// 1 for the first activation of a task, which has the task's number, and 0 for each later one.
fn first_of_task(row: &ActivationRow, number: u32) -> u32
    ensures { result ≡ cond (nat_eq row.now.task number) 1 0 }
{
    if row.task == number { 1 } else { 0 }
}

/// How many tasks were accepted: a task is counted at its first activation.
fn count_tasks<E: Ended>(end: &E) -> u32
    ensures { result ≡ task_count (E.seen end.now).rows }
{
    let mut count = 0u32;
    'rows: for at in 0..end.accepted() {
        count += first_of_task(&end.activation(at + 1), at + 1);
    }
    count
}

fn write_count<O: Sink>(word: &[u8], count: u64, out: &mut O) -> Result<(), Failed>
    requires { length word.now ≤ 64 }
    ensures { Writes (O.seen out.old) (O.seen out.new)
        (line_text (count_words word.now count)) result }
{
    let mut line = line_from(word);
    push_number(&mut line, count);
    put_line(line, out)
}

fn held_line<E: Ended>(end: &E) -> Line
    requires { length (E.seen end.now).held ≡ 4 }
    ensures text { result ≡ joined (held_words (E.seen end.now).held) }
    ensures short { length result ≤ 100 }
{
    let mut line = line_from(b"held");
    push_number(&mut line, u64::from(end.held(0)));
    push_number(&mut line, u64::from(end.held(1)));
    push_number(&mut line, u64::from(end.held(2)));
    push_number(&mut line, u64::from(end.held(3)));
    line
}

/// Writes the counts of activations, tasks and null answers, and the blocks that are held.
pub(crate) fn write_counts<E: Ended, O: Sink>(end: &E, out: &mut O) -> Result<(), Failed>
    requires { length (E.seen end.now).held ≡ 4 }
    ensures { Writes (O.seen out.old) (O.seen out.new)
        (text_of (count_lines (E.seen end.now))) result }
{
    write_count(b"activations", u64::from(end.accepted()), out)?;
    write_count(b"tasks", u64::from(count_tasks(end)), out)?;
    write_count(b"nulls", end.nulls(), out)?;
    put_line(held_line(end), out)
}
