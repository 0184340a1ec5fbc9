use crate::stores::{Turns, entry_of};
use crossbeam_queue::ArrayQueue;
use ready_queues::Entry;
use std::alloc::{AllocError, Global};
use std::rt::Clock;
use std::sync::Wait;
use std::thread::Threads;
use std::time::{Duration, Instant};
use std::{io, thread};
use task_syntax::Priority;

const CAPACITY: usize = 65_536;

#[derive(Drop)]
struct Queues {
    high: ArrayQueue<Entry>,
    regular: ArrayQueue<Entry>,
    low: ArrayQueue<Entry>,
}

impl Queues {
    fn new(alloc: Global) -> Result<Queues, AllocError> {
        let high = ArrayQueue::new(alloc, CAPACITY)?;
        let regular = ArrayQueue::new(alloc, CAPACITY)?;
        let low = ArrayQueue::new(alloc, CAPACITY)?;
        Ok(Queues { high, regular, low })
    }

    fn push<R: Wait>(&self, rt: &R, entry: Entry) -> bool {
        let pushed = match entry.priority {
            Priority::High => self.high.push(rt, entry),
            Priority::Regular => self.regular.push(rt, entry),
            Priority::Low => self.low.push(rt, entry),
        };
        pushed.is_ok()
    }

    fn take<R: Wait>(&self, rt: &R) -> Option<Entry> {
        if let Some(entry) = self.high.pop(rt) {
            return Some(entry);
        }
        if let Some(entry) = self.regular.pop(rt) {
            return Some(entry);
        }
        self.low.pop(rt)
    }
}

fn take_turns<R: Wait>(rt: &R, queues: &Queues, turns: Turns) {
    for round in 0..turns.rounds {
        let _pushed = queues.push(rt, entry_of(turns, round));
        let _taken = queues.take(rt);
    }
}

fn take_turns_at_one<R: Wait>(rt: &R, queue: &ArrayQueue<Entry>, turns: Turns) {
    for round in 0..turns.rounds {
        let _refused = queue.push(rt, entry_of(turns, round));
        let _taken = queue.pop(rt);
    }
}

pub fn without_passes<R: Clock + Threads + Wait + Sync + AllocGlobal>(
    rt: &R,
    turns: Turns,
) -> io::Result<Duration> {
    let queues = Queues::new(rt.alloc())?;
    let shared = &queues;
    let start = Instant::now(rt)?;
    thread::map_indices(
        rt,
        rt.alloc(),
        turns.threads as usize,
        &|_thread| {
            if turns.priorities == 1 {
                take_turns_at_one(rt, &shared.high, turns);
            } else {
                take_turns(rt, shared, turns);
            }
        },
    )?;
    start.elapsed(rt)
}
