ghost use Rattle.std.specs.Prelude.{map, string_bytes};
ghost use Rattle.std.specs.Result.{result_map_both};
ghost use Rattle.tool_words.specs.Choice.{choice_of, choice_seen, run_seen};
ghost use Rattle.ktask_cli.specs.Order.{bench_order, order_of};
ghost use Rattle.ktask_cli.specs.Ready.{input_under};
ghost use Rattle.ktask_cli.specs.Outcome.{Runs, RunsOrWants, Reaches, Does, DoesChosen, answer};
ghost use Rattle.ktask_cli.specs.Statuses.{StatusHasCause};
ghost use Rattle.ktask_cli.specs.Stop.{named_for};

use crate::bench::{bench_line, make_and_run};
use crate::outcome::Outcome;
use crate::plain::do_plain;
use crate::refuse::refuse;
use crate::report::report;
use crate::run::{fetch_and_run, named_for};
use crate::stop::Stop;
use std::alloc::Global;
use task_syntax::Memory;
use tool_io::{Shelf, Sink};
use tool_words::{BenchWords, Choice, RunWords, WordsError, choose};

/// Runs a program, reports how each root ended, and answers the end.
fn run_program<S: Shelf, O: Sink, E: Sink>(
    alloc: Global,
    run: &RunWords<'_>,
    shelf: &mut S,
    out: &mut O,
    err: &mut E,
) -> Outcome
    ensures { Reaches (input_under (run_seen run.now).program (run_seen run.now).columns)
        (λ input. Runs (order_of (run_seen run.now) input))
        (named_for (run_seen run.now).program (run_seen run.now).columns)
        (S.seen shelf.old) (S.seen shelf.new)
        (answer result (O.seen out.old) (O.seen out.new) (E.seen err.old) (E.seen err.new)) }
{
    match fetch_and_run(alloc, run, shelf) {
        Ok(ran) => Outcome {
            status: report(b"", &ran, run.trace, out, err),
            finished: Some(ran.end),
        },
        Err(stop) => {
            let name = named_for(&stop, run);
            Outcome {
                status: refuse(alloc, stop, name, err),
                finished: None,
            }
        }
    }
}

/// Runs a program of a family, and reports it behind a line that tells which it is.
fn run_bench<O: Sink, E: Sink>(
    alloc: Global,
    bench: &BenchWords,
    out: &mut O,
    err: &mut E,
) -> Outcome
    ensures { RunsOrWants (bench_order bench.now)
        (answer result (O.seen out.old) (O.seen out.new) (E.seen err.old) (E.seen err.new)) }
{
    match make_and_run(alloc, bench) {
        Ok(ran) => Outcome {
            status: report(bench_line(bench).as_bytes(), &ran, false, out, err),
            finished: Some(ran.end),
        },
        Err(Memory) => Outcome {
            status: refuse(alloc, Stop::WantOfMemory, "", err),
            finished: None,
        },
    }
}

/// Does what was chosen.
fn do_chosen<S: Shelf, O: Sink, E: Sink>(
    alloc: Global,
    chosen: Result<Choice<'_>, WordsError>,
    shelf: &mut S,
    out: &mut O,
    err: &mut E,
) -> Outcome
    ensures { DoesChosen (result_map_both choice_seen (λ error. error) chosen.entry)
        (S.seen shelf.old) (S.seen shelf.new)
        (answer result (O.seen out.old) (O.seen out.new) (E.seen err.old) (E.seen err.new)) }
{
    match chosen {
        Ok(Choice::Run(run)) => run_program(alloc, &run, shelf, out, err),
        Ok(Choice::Bench(bench)) => run_bench(alloc, &bench, out, err),
        other => Outcome {
            status: do_plain(alloc, other, shelf, out, err),
            finished: None,
        },
    }
}

/// Does what the words ask for. `run PROGRAM [COLUMNS]` fetches the program from the shelf, reads
/// it and checks it, then fetches and reads the columns, where a file of them is named, runs the
/// program, and writes the report of the run to `out`. `--superblocks S` and `--units U` shape the
/// pool, `--limit L` bounds the activations, `--trace` adds each activation and task to the report,
/// and `--workers N` has no effect yet. `bench FAMILY N` runs the program of a family in a pool of
/// 1,024 superblocks of 512 units, for at most 1,000,000 activations, and writes a line that tells
/// which it is before its report. `plain_tool` does the other commands. Where a command stops
/// before its end, one line on `err` says why.
///
/// The exit status is 0 where the command is done, and for a run each root is a number, 1 where
/// some root is a trap and none is cut, 3 where some root is null, 4 where some is cut by the
/// limit and none is null, 2 for words that are refused, 5 for a program that is, 6 for columns
/// that are, 7 for a file that cannot be read or is too long, 8 for a fault of `out`, and 9 for
/// want of memory.
pub fn run_tool<S: Shelf, O: Sink, E: Sink>(
    alloc: Global,
    words: &[String],
    shelf: &mut S,
    out: &mut O,
    err: &mut E,
) -> Outcome
    ensures whole { Does (choice_of (map string_bytes words.now))
        (S.seen shelf.old) (S.seen shelf.new)
        (answer result (O.seen out.old) (O.seen out.new) (E.seen err.old) (E.seen err.new)) }
    ensures causes { StatusHasCause (choice_of (map string_bytes words.now))
        (S.seen shelf.old) (S.seen shelf.new)
        (answer result (O.seen out.old) (O.seen out.new) (E.seen err.old) (E.seen err.new)) }
{
    do_chosen(alloc, choose(alloc, words), shelf, out, err)
}
