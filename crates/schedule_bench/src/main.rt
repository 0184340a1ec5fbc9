//! `schedule_bench FILE STORE WORKERS SUPERBLOCKS UNITS LIMIT`: runs the program of a file once by so
//! many workers, each on a thread of its own, with so many superblocks of so many units, and so
//! many activations at most. STORE is `locked` or `ruled`. It prints what is left: how many records
//! live, are done, and are in another phase but free, and how many blocks are in use; and on standard
//! error how many nanoseconds passed from the first root to the end of the last worker. With other
//! words, or where there is no such program or plan, it prints nothing.
#![tactic(auto)]

ghost use Rattle.std.specs.Prelude.{◌≡◌, ◌≤◌, length};

use frame_code::CheckedCode;
use kt_words::Plan;
use ready_queues::{MutexReady, ReadyStore, RuledReady};
use sample_programs::{plan_of, program_of};
use schedule_core::Scheduler;
use std::alloc::{Alloc, AllocError};
use std::env::Env;
use std::rt::Clock;
use std::sync::Wait;
use std::thread::Threads;
use std::time::Instant;
use std::{env, fs, io};
use task_syntax::{Checked, Columns};
use worker_rows::{first_worker, host_all, run_workers, see_left};

// How many workers run a program, over which pool, with how many activations at most, and how many
// entries each queue of the ready store has room for.
#[derive(Clone, Copy)]
struct Size {
    workers: u32,
    superblocks: u32,
    units: u32,
    limit: u64,
    capacity: u32,
}

// The words after the program's name.
fn words<R: Env + Alloc>(rt: &R) -> io::Result<Vec<String<R::A>, R::A>> {
    let mut words = Vec::new(rt.alloc());
    for word in env::args(rt)?.skip(1) {
        words.push(word)?;
    }
    Ok(words)
}

// The size that the words after the store say. Each queue has room for all units.
fn size_of<A: std::alloc::Allocator>(words: &[String<A>]) -> Option<Size> {
    let [workers, superblocks, units, limit] = words else {
        return None;
    };
    let superblocks = superblocks.as_str().parse::<u32>().ok()?;
    let units = units.as_str().parse::<u32>().ok()?;
    Some(Size {
        workers: workers.as_str().parse::<u32>().ok()?,
        superblocks,
        units,
        limit: limit.as_str().parse::<u64>().ok()?,
        capacity: superblocks.checked_mul(units)?,
    })
}

// Runs a program, and prints what is left and how long it took.
fn measure<Q: ReadyStore + Drop, R: Clock + AllocGlobal + Print + Eprint + Wait + Threads + Sync>(
    rt: &R,
    checked: Checked,
    plan: Plan,
    store: (Q, Q::QPass),
    workers: u32,
) -> io::Result<()>
    requires roots { plan.roots ≡ length checked.roots }
    requires store { Q.is_pass store.0 store.1 }
    requires split { Q.may_split store.1 }
    requires workers { workers ≤ 4095 }
{
    let (ready, qpass) = store;
    let columns = Columns::none(rt.alloc());
    let (scheduler, pass) = Scheduler::new(rt.alloc(), checked, columns, plan, ready)?;
    let code = CheckedCode::new(rt.alloc(), scheduler.shared().checked())?;
    let mut worker = first_worker(pass, qpass);
    let start = Instant::now(rt)?;
    let _roots = host_all(rt.alloc(), rt, &scheduler, &code, &mut worker)?;
    let (first, _workers) = run_workers(rt.alloc(), rt, &scheduler, &code, worker, workers)?;
    let clock = start.elapsed(rt)?;
    let mut first = first;
    let left = see_left(&scheduler, &mut first.pass);
    println!(rt;
        "{} {} {} {}",
        left.live, left.done, left.going, left.blocks
    )?;
    eprintln!(rt; "{}", clock.as_nanos())
}

fn main(rt: HostRuntime) -> io::Result<()> {
    let words = words(&rt)?;
    let [file, store, sizes @ ..] = words.as_slice() else {
        return Ok(());
    };
    let Some(size) = size_of(sizes) else {
        return Ok(());
    };
    if size.workers > 64 || size.capacity == 0 || size.capacity > 524_288 {
        return Ok(());
    }
    let text = fs::read(&rt, file.as_str())?;
    let Some(checked) = program_of(rt.alloc(), text.as_slice())? else {
        return Ok(());
    };
    let Some(plan) = plan_of(&checked, size.superblocks, size.units, size.limit) else {
        return Ok(());
    };
    if store.as_str() == "locked" {
        let Ok(made) = MutexReady::new(rt.alloc(), size.capacity) else {
            return Err(AllocError.into());
        };
        measure(&rt, checked, plan, made, size.workers)
    } else {
        let Ok(made) = RuledReady::new(rt.alloc(), size.capacity) else {
            return Err(AllocError.into());
        };
        measure(&rt, checked, plan, made, size.workers)
    }
}
