//! `shared_pool_bench POOL SUPERBLOCKS FILLED THREADS ROUNDS`: how many nanoseconds so many threads
//! take, side by side, to take a block of one unit and give it back so many times each. POOL is 0
//! for the shared pool, and 1 for the pool of one thread under a lock. Superblocks have 512 units.
//! Where FILLED is 1, nine in ten blocks of each superblock are out. With other words it prints
//! nothing.
#![tactic(auto)]

mod locked;
mod shared;
mod turns;

use kt_words::Geometry;
use std::alloc::Alloc;
use std::env::Env;
use std::{env, io};
use turns::Turns;

const UNITS: u32 = 512;

/// The numbers among the words.
fn numbers<R: Env + Alloc>(rt: &R) -> io::Result<Vec<u32, R::A>> {
    let mut numbers = Vec::new(rt.alloc());
    for word in env::args(rt)? {
        if let Ok(number) = word.as_str().parse::<u32>() {
            numbers.push(number)?;
        }
    }
    Ok(numbers)
}

fn main(rt: HostRuntime) -> io::Result<()> {
    let numbers = numbers(&rt)?;
    let [pool, superblocks, filled, threads, rounds] = numbers.as_slice() else {
        return Ok(());
    };
    let Some(geometry) = Geometry::new(*superblocks, UNITS) else {
        return Ok(());
    };
    let turns = Turns {
        geometry,
        is_filled: *filled == 1,
        threads: (*threads).min(64),
        rounds: *rounds,
    };
    let spent = match pool {
        0 => shared::measure(&rt, turns)?,
        _ => locked::measure(&rt, turns)?,
    };
    println!(rt; "{}", spent.as_nanos())
}
