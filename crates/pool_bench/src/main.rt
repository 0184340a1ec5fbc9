//! `pool_bench SUPERBLOCKS OUT ROUNDS`: how many nanoseconds a pool takes to give a block of one unit, and to take it back,
//! while so many are out: two numbers, on a line each. Where all blocks are out, giving is to answer that none is left.
//! Superblocks have 512 units. With other words it prints nothing.
#![tactic(auto)]

use kt_words::Geometry;
use pool_core::PlainPool;
use std::alloc::Alloc;
use std::env::Env;
use std::rt::Clock;
use std::time::Instant;
use std::{env, io};

const UNITS: u32 = 512;

/// Nanoseconds that calls took, each with one look at the clock, and those of as many looks alone.
#[derive(Default, Drop)]
struct Spent {
    clock: u128,
    allocate: u128,
    release: u128,
}

impl Spent {
    /// Adds the times between four looks at the clock.
    fn add(&mut self, start: Instant, ready: Instant, given: Instant, end: Instant) {
        self.clock = self
            .clock
            .saturating_add(ready.duration_since(start).as_nanos());
        self.allocate = self
            .allocate
            .saturating_add(given.duration_since(ready).as_nanos());
        self.release = self
            .release
            .saturating_add(end.duration_since(given).as_nanos());
    }
}

/// The numbers among the words.
fn numbers<R: Env + Alloc>(rt: &R) -> io::Result<Vec<u32, R::A>> {
    let mut numbers = Vec::new(rt.alloc());
    for word in env::args(rt)? {
        if let Ok(number) = word.as_str().parse::<u32>() {
            numbers.push(number)?;
        }
    }
    Ok(numbers)
}

/// Takes blocks that stay out.
fn fill(pool: &mut PlainPool, out: u32) {
    for _block in 0..out {
        let _stays = pool.allocate(0);
    }
}

/// Gives a block and takes it back.
fn take_turn<R: Clock>(rt: &R, pool: &mut PlainPool, spent: &mut Spent) -> io::Result<()> {
    let start = Instant::now(rt)?;
    let ready = Instant::now(rt)?;
    let block = pool.allocate(0);
    let given = Instant::now(rt)?;
    if let Some(block) = block {
        pool.release(block);
    }
    spent.add(start, ready, given, Instant::now(rt)?);
    Ok(())
}

/// Asks a pool whose last block was given before, and takes that block back.
fn take_full_turn<R: Clock>(rt: &R, pool: &mut PlainPool, spent: &mut Spent) -> io::Result<()> {
    let Some(last) = pool.allocate(0) else {
        return Ok(());
    };
    let start = Instant::now(rt)?;
    let ready = Instant::now(rt)?;
    let is_full = pool.allocate(0).is_none();
    let given = Instant::now(rt)?;
    if is_full {
        pool.release(last);
    }
    spent.add(start, ready, given, Instant::now(rt)?);
    Ok(())
}

fn take_turns<R: Clock>(
    rt: &R,
    pool: &mut PlainPool,
    is_full: bool,
    rounds: u32,
) -> io::Result<Spent> {
    let mut spent = Spent::default();
    for _round in 0..rounds {
        if is_full {
            take_full_turn(rt, pool, &mut spent)?;
        } else {
            take_turn(rt, pool, &mut spent)?;
        }
    }
    Ok(spent)
}

fn measure<R: Clock + AllocGlobal + Print>(
    rt: &R,
    geometry: Geometry,
    out: u32,
    rounds: u32,
) -> io::Result<()> {
    let mut pool = PlainPool::new(rt.alloc(), geometry)?;
    let is_full = out >= geometry.superblocks * UNITS;
    fill(&mut pool, if is_full { out.saturating_sub(1) } else { out });
    take_turns(rt, &mut pool, is_full, rounds / 10)?;
    let spent = take_turns(rt, &mut pool, is_full, rounds)?;
    println!(rt; "{}", spent.allocate.saturating_sub(spent.clock))?;
    println!(rt; "{}", spent.release.saturating_sub(spent.clock))
}

fn main(rt: HostRuntime) -> io::Result<()> {
    let numbers = numbers(&rt)?;
    let [superblocks, out, rounds] = numbers.as_slice() else {
        return Ok(());
    };
    match Geometry::new(*superblocks, UNITS) {
        Some(geometry) => measure(&rt, geometry, *out, *rounds),
        None => Ok(()),
    }
}
