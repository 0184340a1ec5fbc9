ghost use Rattle.std.specs.Prelude.{IfOk, All};

use ready_queues::{Entry, MutexReady, ReadyStore, RuledReady};
use std::alloc::{AllocError, Global};
use std::rt::Clock;
use std::sync::Wait;
use std::thread::Threads;
use std::time::{Duration, Instant};
use std::{io, thread};
use task_syntax::Priority;

const CAPACITY: u32 = 65_536;

#[derive(Clone, Copy)]
pub struct Turns {
    pub priorities: u32,
    pub threads: u32,
    pub rounds: u32,
}

/// The entry of a round: high alone, or all priorities in turn.
pub fn entry_of(turns: Turns, round: u32) -> Entry {
    let priority = if turns.priorities == 1 {
        Priority::High
    } else {
        match round % 3 {
            0 => Priority::High,
            1 => Priority::Regular,
            _ => Priority::Low,
        }
    };
    Entry {
        unit: round,
        number: round,
        priority,
    }
}

fn take_turns<Q: ReadyStore, R: Wait>(rt: &R, store: &Q, mut qpass: Q::QPass, turns: Turns)
    requires { Q.is_pass store.now qpass }
{
    for round in 0..turns.rounds {
        let _refused = store.push(rt, &mut qpass, entry_of(turns, round));
        let _taken = store.take(rt, &mut qpass);
    }
}

/// So many passes of one.
fn passes<Q: ReadyStore>(
    alloc: Global,
    store: &Q,
    qpass: Q::QPass,
    count: u32,
) -> Result<Vec<Q::QPass>, AllocError>
    requires { Q.is_pass store.now qpass × Q.may_split qpass }
    ensures { IfOk result (λ passes. All (λ q. Q.is_pass store.now q) passes.items) }
{
    let mut passes = Vec::new(alloc);
    let mut last = qpass;
    for _pass in 0..count {
        let (rest, pass) = store.split(last);
        last = rest;
        passes.push(pass)?;
    }
    Ok(passes)
}

fn measure<Q: ReadyStore, R: Clock + Threads + Wait + Sync>(
    rt: &R,
    store: &Q,
    passes: Vec<Q::QPass>,
    turns: Turns,
) -> io::Result<Duration>
    requires { All (λ q. Q.is_pass store.now q) passes.items }
{
    let start = Instant::now(rt)?;
    thread::map_vec(
        rt,
        passes,
        &|qpass| -> ()
            requires { Q.is_pass store.now qpass }
        { take_turns(rt, store, qpass, turns) },
    )?;
    start.elapsed(rt)
}

pub fn with_lock<R: Clock + Threads + Wait + Sync + AllocGlobal>(
    rt: &R,
    turns: Turns,
) -> io::Result<Duration> {
    let Ok((store, qpass)) = MutexReady::new(rt.alloc(), CAPACITY) else {
        return Err(AllocError.into());
    };
    let passes = passes(rt.alloc(), &store, qpass, turns.threads)?;
    measure(rt, &store, passes, turns)
}

pub fn without_lock<R: Clock + Threads + Wait + Sync + AllocGlobal>(
    rt: &R,
    turns: Turns,
) -> io::Result<Duration> {
    let Ok((store, qpass)) = RuledReady::new(rt.alloc(), CAPACITY) else {
        return Err(AllocError.into());
    };
    let passes = passes(rt.alloc(), &store, qpass, turns.threads)?;
    measure(rt, &store, passes, turns)
}
