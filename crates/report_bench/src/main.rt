//! `report_bench FAMILY N LIMIT`: runs the program of a family for a number in the largest pool, with
//! so many activations at most, and prints the report with the trace; and on standard error how many
//! nanoseconds passed while the report was written, by the clock and by the processor. With other
//! words, or where memory runs out, it prints nothing.
#![tactic(auto)]

ghost use Rattle.std.specs.Prelude.{◌≡◌, IfOk, IfSome, length};
ghost use Rattle.run_report.specs.CanReport.{CanReport};

use bench_programs::{Family, family_checked};
use kt_words::{Geometry, Plan};
use plain_engine::{PlainEnd, PlainRun};
use run_report::write_report;
use std::alloc::{Alloc, Global};
use std::env::Env;
use std::io::Write;
use std::rt::Clock;
use std::time::{CpuClock, Instant};
use std::{env, io};
use task_syntax::{Checked, Columns, Memory};
use tool_io::OutSink;

/// The words after the program's name.
fn words<R: Env + Alloc>(rt: &R) -> io::Result<Vec<String<R::A>, R::A>> {
    let mut words = Vec::new(rt.alloc());
    for word in env::args(rt)?.skip(1) {
        words.push(word)?;
    }
    Ok(words)
}

/// The program that two words name.
fn program_of(alloc: Global, family: &str, number: &str) -> Option<Checked> {
    let family = Family::of_word(family)?;
    family_checked(alloc, family, number.parse::<u64>().ok()?).ok()
}

/// The plan of a program within a limit, in the largest pool.
fn plan_of(checked: &Checked, limit: &str) -> Option<Plan>
    ensures { IfSome result (λ plan. plan.roots ≡ length checked.now.roots) }
{
    let geometry = Geometry::new(1024, 512)?;
    let roots = u8::try_from(checked.program().roots.len()).ok()?;
    Plan::new(geometry, limit.parse::<u64>().ok()?, roots)
}

/// The end of a run within a plan.
fn run(alloc: Global, checked: &Checked, plan: Plan) -> Result<PlainEnd, Memory>
    requires { plan.roots ≡ length checked.now.roots }
    ensures { IfOk result (λ end. CanReport checked.now end) }
{
    let columns = Columns::none(alloc);
    match PlainRun::run(alloc, checked, &columns, plan) {
        Ok(end) => Ok(end),
        Err(Memory) => Err(Memory),
    }
}

/// Runs a program, and writes its report.
fn measure<R: Clock + CpuClock + AllocGlobal + Eprint, W: Write + Drop>(
    rt: &R,
    out: W,
    checked: &Checked,
    plan: Plan,
) -> io::Result<()>
    requires { plan.roots ≡ length checked.now.roots }
{
    let Ok(end) = run(rt.alloc(), checked, plan) else {
        return Ok(());
    };
    let mut out = OutSink::new(out);
    let start = Instant::now(rt)?;
    let processor_start = rt.thread_cpu_time()?;
    let written = write_report(&end, checked, true, &mut out);
    let processor = rt.thread_cpu_time()?.saturating_sub(processor_start);
    let clock = start.elapsed(rt)?;
    if written.is_err() {
        return Ok(());
    }
    eprintln!(rt; "{} {}", clock.as_nanos(), processor.as_nanos())
}

fn main(rt: HostRuntime) -> io::Result<()> {
    let words = words(&rt)?;
    let [family, number, limit] = words.as_slice() else {
        return Ok(());
    };
    let Some(checked) = program_of(rt.alloc(), family.as_str(), number.as_str()) else {
        return Ok(());
    };
    match plan_of(&checked, limit.as_str()) {
        Some(plan) => measure(&rt, rt.stdout(), &checked, plan),
        None => Ok(()),
    }
}
