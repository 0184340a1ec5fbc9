//! The pool of one thread, under a lock.
use crate::turns::Turns;
use pool_core::PlainPool;
use std::rt::Clock;
use std::sync::{Mutex, Wait};
use std::thread::Threads;
use std::time::{Duration, Instant};
use std::{io, thread};

// Takes nine in ten blocks, which stay out.
fn fill(pool: &mut PlainPool, turns: Turns) {
    let blocks = turns.geometry.superblocks * turns.geometry.cap(0);
    for _block in 0..blocks / 10 * 9 {
        let _stays = pool.allocate(0);
    }
}

fn give_and_take(pool: &mut PlainPool) {
    if let Some(block) = pool.allocate(0) {
        pool.release(block);
    }
}

// The lock is taken twice a round, once for each call. What lies under it is not known from one
// time to the next, so the block is given back before the lock is.
fn take_turns(rt: &impl Wait, pool: &Mutex<PlainPool>, rounds: u32) {
    for _round in 0..rounds {
        let mut first = pool.lock(rt);
        give_and_take(&mut first);
        drop(first);
        let second = pool.lock(rt);
        drop(second);
    }
}

pub fn measure<R: Clock + Threads + Wait + Sync + AllocGlobal>(
    rt: &R,
    turns: Turns,
) -> io::Result<Duration> {
    let mut pool = PlainPool::new(rt.alloc(), turns.geometry)?;
    if turns.is_filled {
        fill(&mut pool, turns);
    }
    let pool = Mutex::new(pool);
    let threads = Vec::from_elem(rt.alloc(), turns.rounds, turns.threads as usize)?;
    let start = Instant::now(rt)?;
    thread::map_vec(rt, threads, &|rounds| take_turns(rt, &pool, rounds))?;
    start.elapsed(rt)
}
