//! `ready_bench STORE PRIORITIES THREADS ROUNDS`: how many nanoseconds so many threads take, side
//! by side, to push an entry and take one so many times each. STORE is 0 for the store with a lock, 1
//! for the one without, and 2 for plain queues. PRIORITIES is 1 for high alone, where the plain
//! queue is one, or 3 for all in turn, where three are asked in the same order. With other words it
//! prints nothing.
#![tactic(auto)]

mod plain;
mod stores;

use std::alloc::Alloc;
use std::env::Env;
use std::{env, io};

/// The numbers among the words.
fn numbers<R: Env + Alloc>(rt: &R) -> io::Result<Vec<u32, R::A>> {
    let mut numbers = Vec::new(rt.alloc());
    for word in env::args(rt)? {
        if let Ok(number) = word.as_str().parse::<u32>() {
            numbers.push(number)?;
        }
    }
    Ok(numbers)
}

fn main(rt: HostRuntime) -> io::Result<()> {
    let numbers = numbers(&rt)?;
    let [store, priorities, threads, rounds] = numbers.as_slice() else {
        return Ok(());
    };
    let turns = stores::Turns {
        priorities: *priorities,
        threads: *threads,
        rounds: *rounds,
    };
    let spent = match store {
        0 => stores::with_lock(&rt, turns)?,
        1 => stores::without_lock(&rt, turns)?,
        _ => plain::without_passes(&rt, turns)?,
    };
    println!(rt; "{}", spent.as_nanos())
}
