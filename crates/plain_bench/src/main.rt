//! `plain_bench FILE SUPERBLOCKS UNITS LIMIT`: runs the program of a file once, with so many
//! superblocks of so many units, and so many activations at most. It prints the number that the
//! first root gave, or `none`, and how many activations were accepted; and on standard error how
//! many nanoseconds passed from the call of the run to its answer, by the clock and by the
//! processor. With other words, or where there is no such program or plan, it prints nothing.
#![tactic(auto)]

ghost use Rattle.std.specs.Prelude.{◌≡◌, IfSome, length};
ghost use Rattle.task_syntax.specs.Form.{IsWellFormed};

use kt_words::Plan;
use plain_engine::{PlainEnd, PlainRun};
use record_core::{Ended, RootEnd};
use sample_programs::{plan_of, program_of};
use std::alloc::{Alloc, Global};
use std::env::Env;
use std::rt::Clock;
use std::time::{CpuClock, Instant};
use std::{env, fs, io};
use task_syntax::{Checked, Columns, Memory, Value};

/// The words after the program's name.
fn words<R: Env + Alloc>(rt: &R) -> io::Result<Vec<String<R::A>, R::A>> {
    let mut words = Vec::new(rt.alloc());
    for word in env::args(rt)?.skip(1) {
        words.push(word)?;
    }
    Ok(words)
}

/// The plan of a program's run that three words say.
fn plan_by(superblocks: &str, units: &str, limit: &str, checked: &Checked) -> Option<Plan>
    ensures { IfSome result (λ plan. plan.roots ≡ length checked.now.roots) }
{
    let superblocks = superblocks.parse::<u32>().ok()?;
    let units = units.parse::<u32>().ok()?;
    plan_of(checked, superblocks, units, limit.parse::<u64>().ok()?)
}

/// Runs a program by a plan.
fn run(alloc: Global, checked: &Checked, columns: &Columns, plan: Plan) -> Result<PlainEnd, Memory>
    requires { plan.roots ≡ length checked.now.roots }
{
    PlainRun::run(alloc, checked, columns, plan)
}

/// The number that the first root gave.
fn first_number(end: &PlainEnd) -> Option<u64> {
    if end.root_count() == 0 {
        return None;
    }
    match end.root(0) {
        RootEnd::Value(Value::Number(number)) => Some(number),
        _ => None,
    }
}

/// Runs a program, and prints what came of it.
fn measure<R: Clock + CpuClock + AllocGlobal + Print + Eprint>(
    rt: &R,
    checked: &Checked,
    plan: Plan,
) -> io::Result<()>
    requires { plan.roots ≡ length checked.now.roots }
{
    let columns = Columns::none(rt.alloc());
    let start = Instant::now(rt)?;
    let processor_start = rt.thread_cpu_time()?;
    let ended = run(rt.alloc(), checked, &columns, plan);
    let processor = rt.thread_cpu_time()?.saturating_sub(processor_start);
    let clock = start.elapsed(rt)?;
    let Ok(end) = ended else {
        return Ok(());
    };
    match first_number(&end) {
        Some(number) => println!(rt; "{number} {}", end.accepted())?,
        None => println!(rt; "none {}", end.accepted())?,
    }
    eprintln!(rt; "{} {}", clock.as_nanos(), processor.as_nanos())
}

fn main(rt: HostRuntime) -> io::Result<()> {
    let words = words(&rt)?;
    let [file, superblocks, units, limit] = words.as_slice() else {
        return Ok(());
    };
    let text = fs::read(&rt, file.as_str())?;
    let Some(checked) = program_of(rt.alloc(), text.as_slice())? else {
        return Ok(());
    };
    match plan_by(
        superblocks.as_str(),
        units.as_str(),
        limit.as_str(),
        &checked,
    ) {
        Some(plan) => measure(&rt, &checked, plan),
        None => Ok(()),
    }
}
