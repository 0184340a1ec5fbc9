ghost use Rattle.std.specs.Prelude.{◌≡◌, IfOk};
ghost use Rattle.bench_programs.specs.Programs.{family_program};
ghost use Rattle.ktask_cli.specs.Order.{IsRunOf, bench_line, bench_order};

use crate::run::Ran;
use crate::run_plan::{bench_plan, run_plan};
use bench_programs::family_checked;
use itoa::Buffer;
use plain_engine::PlainRun;
use std::alloc::Global;
use task_syntax::{Columns, Memory};
use tool_io::Line;
use tool_words::BenchWords;

/// The line that tells which program is run, with its line end.
pub(crate) fn bench_line(bench: &BenchWords) -> Line
    ensures { result ≡ bench_line bench.now }
{
    let mut line = Line::new();
    line.push(b"bench ");
    line.push(bench.family.word().as_bytes());
    line.push(b" ");
    line.push(Buffer::new().format(bench.number).as_bytes());
    line.push(b"\n");
    line
}

/// Makes, reads and checks the text of a program of a family, and runs it.
pub(crate) fn make_and_run(alloc: Global, bench: &BenchWords) -> Result<Ran, Memory>
    ensures made { IfOk result (λ ran.
        ran.checked ≡ family_program bench.now.family bench.now.number) }
    ensures run { IfOk result (λ ran. IsRunOf (bench_order bench.now) ran.end) }
{
    let checked = family_checked(alloc, bench.family, bench.number)?;
    let columns = Columns::none(alloc);
    let plan = run_plan(bench_plan(), &checked);
    let end = PlainRun::run(alloc, &checked, &columns, plan)?;
    Ok(Ran {
        checked,
        columns,
        end,
    })
}
