ghost use Rattle.std.specs.Result.{result_map_both};
ghost use Rattle.std.specs.Prelude.{Ok, ◌≡◌, None, map, string_bytes};
ghost use Rattle.task_syntax.specs.Form.{IsWellFormed};
ghost use Rattle.task_writer.specs.Text.{text_of};
ghost use Rattle.tool_words.specs.Choice.{choice_of, choice_seen, run_seen};
ghost use Rattle.ktask_cli.specs.Order.{order_of};
ghost use Rattle.ktask_cli.specs.Outcome.{Does, DoesChosen, Reaches, Prints, RunsUntold, plain_answer, plain_chosen, plain_of};
ghost use Rattle.ktask_cli.specs.Plan.{OrWants};
ghost use Rattle.ktask_cli.specs.Ready.{input_under, kinds_under, text_under};
ghost use Rattle.ktask_cli.specs.Statuses.{StatusHasCause};
ghost use Rattle.ktask_cli.specs.Stop.{named_for};

use crate::help::HELP;
use crate::program::{fetch_program, fetch_valid};
use crate::refuse::refuse;
use crate::report::report;
use crate::run::{fetch_and_run, named_for};
use crate::stop::Stop;
use crate::write_text::{print, status_written};
use run_report::write_check;
use std::alloc::Global;
use task_syntax::{Memory, Program};
use task_writer::write_program;
use tool_io::{Shelf, Sink};
use tool_words::{Choice, RunWords, WordsError, choose};

/// Checks the program under a name, and prints its kinds.
fn print_kinds<S: Shelf, O: Sink, E: Sink>(
    alloc: Global,
    name: &str,
    shelf: &mut S,
    out: &mut O,
    err: &mut E,
) -> u8
    ensures { Reaches (kinds_under name.now) Prints (λ stop. name.now)
        (S.seen shelf.old) (S.seen shelf.new)
        (plain_answer result (O.seen out.old) (O.seen out.new) (E.seen err.old) (E.seen err.new)) }
{
    match fetch_valid(alloc, name, shelf) {
        Ok(checked) => {
            let written = write_check(&checked, out);
            status_written(written, 0, err)
        }
        Err(stop) => refuse(alloc, stop, name, err),
    }
}

/// The canonical text of a program.
fn write(alloc: Global, program: &Program) -> Result<Vec<u8>, Stop>
    requires { IsWellFormed program.now }
    ensures { OrWants (λ r. r ≡ Ok (text_of program.now))
        (result_map_both (λ bytes. bytes.items) (λ stop. stop) result) }
{
    match write_program(alloc, program) {
        Ok(text) => Ok(text),
        Err(Memory) => Err(Stop::WantOfMemory),
    }
}

/// Fetches and reads the program under a name, and makes its canonical text.
fn fetch_text<S: Shelf>(alloc: Global, name: &str, shelf: &mut S) -> Result<Vec<u8>, Stop>
    ensures { text_under name.now
        (S.seen shelf.old) (S.seen shelf.new)
        (result_map_both (λ bytes. bytes.items) (λ stop. stop) result) }
{
    match fetch_program(alloc, name, shelf) {
        Ok(program) => write(alloc, &program),
        Err(stop) => Err(stop),
    }
}

/// Prints the canonical text of the program under a name.
fn print_program<S: Shelf, O: Sink, E: Sink>(
    alloc: Global,
    name: &str,
    shelf: &mut S,
    out: &mut O,
    err: &mut E,
) -> u8
    ensures { Reaches (text_under name.now) Prints (λ stop. name.now)
        (S.seen shelf.old) (S.seen shelf.new)
        (plain_answer result (O.seen out.old) (O.seen out.new) (E.seen err.old) (E.seen err.new)) }
{
    match fetch_text(alloc, name, shelf) {
        Ok(text) => print(&text, out, err),
        Err(reason) => refuse(alloc, reason, name, err),
    }
}

/// Runs a program, and reports how each root ended.
fn print_run<S: Shelf, O: Sink, E: Sink>(
    alloc: Global,
    run: &RunWords<'_>,
    shelf: &mut S,
    out: &mut O,
    err: &mut E,
) -> u8
    ensures { Reaches (input_under (run_seen run.now).program (run_seen run.now).columns)
        (λ input. RunsUntold (order_of (run_seen run.now) input))
        (named_for (run_seen run.now).program (run_seen run.now).columns)
        (S.seen shelf.old) (S.seen shelf.new)
        (plain_answer result (O.seen out.old) (O.seen out.new) (E.seen err.old) (E.seen err.new)) }
{
    match fetch_and_run(alloc, run, shelf) {
        Ok(ran) => report(b"", &ran, run.trace, out, err),
        Err(stop) => {
            let name = named_for(&stop, run);
            refuse(alloc, stop, name, err)
        }
    }
}

/// Does what was chosen, but for `run` and `bench`, whose words are refused.
pub(crate) fn do_plain<S: Shelf, O: Sink, E: Sink>(
    alloc: Global,
    chosen: Result<Choice<'_>, WordsError>,
    shelf: &mut S,
    out: &mut O,
    err: &mut E,
) -> u8
    ensures { DoesChosen
        (plain_chosen (result_map_both choice_seen (λ error. error) chosen.entry))
        (S.seen shelf.old) (S.seen shelf.new)
        (plain_answer result (O.seen out.old) (O.seen out.new) (E.seen err.old) (E.seen err.new)) }
{
    match chosen {
        Ok(Choice::Plain(run)) => print_run(alloc, &run, shelf, out, err),
        Ok(Choice::Check(program)) => print_kinds(alloc, program, shelf, out, err),
        Ok(Choice::Print(program)) => print_program(alloc, program, shelf, out, err),
        Ok(Choice::Help) => print(HELP, out, err),
        Ok(Choice::Run(_) | Choice::Bench(_)) | Err(WordsError::Refused) => {
            refuse(alloc, Stop::WordsRefused, "", err)
        }
        Err(WordsError::Memory) => refuse(alloc, Stop::WantOfMemory, "", err),
    }
}

/// Does what the words ask for, where that needs one thread: `plain PROGRAM [COLUMNS]`, which takes
/// the options of `run` but for `--workers`, runs a program on one thread and writes its report;
/// `check PROGRAM` fetches, reads and checks the program, and prints its kinds and how many kinds and
/// roots it has; `print PROGRAM` fetches and reads it, and prints its canonical text; `help` prints
/// how each command is called. All other words are refused.
///
/// The exit statuses and the lines on `err` are those of `run_tool`.
pub fn plain_tool<S: Shelf, O: Sink, E: Sink>(
    alloc: Global,
    words: &[String],
    shelf: &mut S,
    out: &mut O,
    err: &mut E,
) -> u8
    ensures whole { Does (plain_of (choice_of (map string_bytes words.now)))
        (S.seen shelf.old) (S.seen shelf.new)
        (plain_answer result (O.seen out.old) (O.seen out.new) (E.seen err.old) (E.seen err.new)) }
    ensures causes { StatusHasCause (plain_of (choice_of (map string_bytes words.now)))
        (S.seen shelf.old) (S.seen shelf.new)
        (plain_answer result (O.seen out.old) (O.seen out.new) (E.seen err.old) (E.seen err.new)) }
{
    do_plain(alloc, choose(alloc, words), shelf, out, err)
}
