ghost use Rattle.std.specs.Prelude.{◌≡◌, IfOk};
ghost use Rattle.std.specs.Result.{result_map_both};
ghost use Rattle.tool_words.specs.Choice.{run_seen};
ghost use Rattle.ktask_cli.specs.Order.{IsRunOf, order_of};
ghost use Rattle.ktask_cli.specs.Ready.{input_under};
ghost use Rattle.ktask_cli.specs.Stop.{named_for};

use crate::columns::fetch_columns;
use crate::program::fetch_valid;
use crate::run_plan::run_plan;
use crate::stop::{InputFile, Stop};
use plain_engine::{PlainEnd, PlainRun};
use std::alloc::Global;
use task_syntax::{Checked, Columns, Memory};
use tool_io::Shelf;
use tool_words::RunWords;

/// What was run, and the end of its run.
#[derive(Drop)]
pub(crate) struct Ran {
    pub(crate) checked: Checked,
    pub(crate) columns: Columns,
    pub(crate) end: PlainEnd,
}

/// Fetches, reads and checks a program, fetches and reads its columns, and runs it.
pub(crate) fn fetch_and_run<S: Shelf>(
    alloc: Global,
    run: &RunWords<'_>,
    shelf: &mut S,
) -> Result<Ran, Stop>
    ensures follows { input_under (run_seen run.now).program (run_seen run.now).columns
        (S.seen shelf.old) (S.seen shelf.new)
        (result_map_both (λ ran. (ran.checked, ran.columns)) (λ stop. stop) result) }
    ensures run { IfOk result (λ ran.
        IsRunOf (order_of (run_seen run.now) (ran.checked, ran.columns)) ran.end) }
{
    let checked = fetch_valid(alloc, run.program, shelf)?;
    let columns = fetch_columns(alloc, run.columns, shelf)?;
    let plan = run_plan(run.plan, &checked);
    match PlainRun::run(alloc, &checked, &columns, plan) {
        Ok(end) => Ok(Ran {
            checked,
            columns,
            end,
        }),
        Err(Memory) => Err(Stop::WantOfMemory),
    }
}

/// The name that is told with the reason: that of the file that was refused.
pub(crate) fn named_for<'w>(stop: &Stop, run: &RunWords<'w>) -> &'w str
    ensures { result.now
        ≡ named_for (run_seen run.now).program (run_seen run.now).columns stop.now }
{
    match (stop, run.columns) {
        (Stop::CannotRead(InputFile::Columns) | Stop::TooLong(InputFile::Columns), Some(columns)) =>
            columns,
        (Stop::CannotRead(InputFile::Columns) | Stop::TooLong(InputFile::Columns), None) => "",
        _ => run.program,
    }
}
