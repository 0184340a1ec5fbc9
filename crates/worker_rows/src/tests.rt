use crate::{Ended, run_program};
use ready_queues::{MutexReady, RuledReady};
use sample_programs::{plan_of, program_of};
use schedule_core::HostSpawned;
use std::alloc::Global;
use std::sync::Wait;
use std::test::Fail;
use std::thread::Threads;
use worker_loop::Worked;

mod ends;
mod programs;
mod refusals;

// A store of what is ready.
#[derive(Debug, Clone, Copy, PartialEq, Eq)]
enum Store {
    Locked,
    Ruled,
}

const STORES: [Store; 2] = [Store::Locked, Store::Ruled];

// How many workers run a program, over which pool, with how many activations at most, and how many
// entries each queue of the ready store has room for.
#[derive(Debug, Clone, Copy)]
struct Size {
    workers: u32,
    superblocks: u32,
    units: u32,
    limit: u64,
    capacity: u32,
}

// Of so many workers, superblocks, units of each, activations and places.
fn size_of(numbers: [u32; 5]) -> Size {
    let [workers, superblocks, units, limit, capacity] = numbers;
    Size {
        workers,
        superblocks,
        units,
        limit: u64::from(limit),
        capacity,
    }
}

// What came of a root.
#[derive(Debug, Clone, Copy, PartialEq, Eq)]
enum Asked {
    Named,
    Null,
    Over,
    Skipped(u8),
}

fn asked_of(told: HostSpawned) -> Asked {
    match told {
        HostSpawned::Named(_) => Asked::Named,
        HostSpawned::Null => Asked::Null,
        HostSpawned::Over => Asked::Over,
        HostSpawned::Skipped(root) => Asked::Skipped(root),
    }
}

// Runs the program of a text with such a store.
fn run_text<R: Wait + Threads + Sync>(
    alloc: Global,
    rt: &R,
    store: Store,
    text: &str,
    size: Size,
) -> Result<Ended, Fail> {
    let checked = program_of(alloc, text.as_bytes())?.ok_or("no program")?;
    let found = plan_of(&checked, size.superblocks, size.units, size.limit);
    let plan = found.ok_or("no plan")?;
    if size.workers > 64 || size.capacity == 0 || size.capacity > 524_288 {
        return Err("no such size".into());
    }
    let ended = match store {
        Store::Locked => {
            let made = MutexReady::new(alloc, size.capacity)?;
            run_program(alloc, rt, checked, plan, made, size.workers)?
        }
        Store::Ruled => {
            let made = RuledReady::new(alloc, size.capacity)?;
            run_program(alloc, rt, checked, plan, made, size.workers)?
        }
    };
    Ok(ended)
}

// How many workers saw that no record lives any more.
fn workers_done(ended: &Ended) -> u32 {
    let mut done = 0u32;
    for worked in ended.worked.as_slice() {
        if *worked == Some(Worked::Done) {
            done = done.saturating_add(1);
        }
    }
    done
}
