//! Four threads and two million entries. Threads that push give the numbers from 0 on, with the
//! priorities in turn.
use super::ready;
use crate::{Entry, MutexReady, ReadyStore, RuledReady};
use std::alloc::{AllocError, Global};
use std::sync::Wait;
use std::test::Fail;
use std::thread;
use std::thread::{Threads, join};
use task_syntax::Priority;

const ENTRIES: u32 = 2_000_004;

const THIRD: u32 = ENTRIES / 3;

const CAPACITY: u32 = 1000;

fn turn(number: u32) -> Priority {
    match number % 3 {
        0 => Priority::High,
        1 => Priority::Regular,
        _ => Priority::Low,
    }
}

fn push_one<Q: ReadyStore, R: Wait>(rt: &R, store: &Q, qpass: &mut Q::QPass, entry: Entry)
    requires { Q.is_pass store.now qpass.old }
    ensures { Q.is_pass store.now qpass.new }
{
    for _ in rt.forever() {
        if store.push(rt, qpass, entry).is_ok() {
            return;
        }
        thread::yield_now();
    }
}

fn push_all<Q: ReadyStore, R: Wait>(rt: &R, store: &Q, mut qpass: Q::QPass, unit: u32, count: u32)
    requires { Q.is_pass store.now qpass }
{
    for number in 0..count {
        push_one(rt, store, &mut qpass, ready(unit, number, turn(number)));
    }
}

fn take_one<Q: ReadyStore, R: Wait>(rt: &R, store: &Q, qpass: &mut Q::QPass) -> Entry
    requires { Q.is_pass store.now qpass.old }
    ensures { Q.is_pass store.now qpass.new }
{
    for _ in rt.forever() {
        if let Some(entry) = store.take(rt, qpass) {
            return entry;
        }
        thread::yield_now();
    }
    unreachable!()
}

// What one thread took: how often each entry, with the units one after the other, and whether the
// numbers of each unit and priority rose.
#[derive(Drop)]
struct Taken {
    share: u32,
    times: Vec<u8>,
    next: [u32; 12],
    rose: bool,
}

impl Taken {
    fn new(alloc: Global, share: u32) -> Result<Taken, AllocError> {
        let times = Vec::from_elem(alloc, 0u8, ENTRIES as usize)?;
        Ok(Taken {
            share,
            times,
            next: [0; 12],
            rose: true,
        })
    }

    fn count(&mut self, entry: Entry) {
        let at = u64::from(entry.unit) * u64::from(self.share) + u64::from(entry.number);
        if let Some(times) = self.times.get_mut(at as usize) {
            *times = times.saturating_add(1);
        }
        let line = (entry.unit % 4 * 3 + entry.priority as u32) as usize;
        self.rose = self.rose && self.next[line] <= entry.number;
        self.next[line] = entry.number.saturating_add(1);
    }

    // All entries were taken once, by this thread and the other together.
    fn is_all_once(&self, other: &Taken) -> bool {
        let both = self.times.iter().zip(other.times.iter());
        both.filter(|(mine, theirs)| matches!((**mine, **theirs), (1, 0) | (0, 1)))
            .count()
            == ENTRIES as usize
    }
}

fn take_all<Q: ReadyStore, R: Wait>(
    rt: &R,
    store: &Q,
    mut qpass: Q::QPass,
    count: u32,
    mut taken: Taken,
) -> Taken
    requires { Q.is_pass store.now qpass }
{
    for _ in 0..count {
        taken.count(take_one(rt, store, &mut qpass));
    }
    taken
}

// Two threads push a share each.
fn push_both<Q: ReadyStore, R: Threads + Wait + Sync>(
    rt: &R,
    store: &Q,
    passes: (Q::QPass, Q::QPass),
    units: (u32, u32),
    share: u32,
)
    requires { Q.is_pass store.now passes.0 × Q.is_pass store.now passes.1 }
{
    let (first, second) = passes;
    join(
        rt,
        move ||
            requires { Q.is_pass store.now first }
        { push_all(rt, store, first, units.0, share) },
        move ||
            requires { Q.is_pass store.now second }
        { push_all(rt, store, second, units.1, share) },
    );
}

// One thread pushes a share, and one takes all.
fn push_and_take<Q: ReadyStore, R: Threads + Wait + Sync>(
    rt: &R,
    store: &Q,
    passes: (Q::QPass, Q::QPass),
    unit: u32,
    taken: Taken,
) -> Taken
    requires { Q.is_pass store.now passes.0 × Q.is_pass store.now passes.1 }
{
    let (first, second) = passes;
    let share = taken.share;
    let (_, taken) = join(
        rt,
        move ||
            requires { Q.is_pass store.now first }
        { push_all(rt, store, first, unit, share) },
        move ||
            requires { Q.is_pass store.now second }
        { take_all(rt, store, second, share.saturating_mul(3), taken) },
    );
    taken
}

// Two threads take half of the entries each.
fn take_both<Q: ReadyStore, R: Threads + Wait + Sync>(
    rt: &R,
    store: &Q,
    passes: (Q::QPass, Q::QPass),
    taken: (Taken, Taken),
) -> (Taken, Taken)
    requires { Q.is_pass store.now passes.0 × Q.is_pass store.now passes.1 }
{
    let (first, second) = passes;
    let (mine, theirs) = taken;
    join(
        rt,
        move ||
            requires { Q.is_pass store.now first }
        { take_all(rt, store, first, ENTRIES / 2, mine) },
        move ||
            requires { Q.is_pass store.now second }
        { take_all(rt, store, second, ENTRIES / 2, theirs) },
    )
}

// Three threads push, and one takes: true where it took each entry once, and those of each thread
// and priority in order.
fn three_to_one<Q: ReadyStore, R: Threads + Wait + Sync>(
    rt: &R,
    store: &Q,
    qpass: Q::QPass,
    taken: Taken,
    none: &Taken,
) -> bool
    requires { Q.is_pass store.now qpass × Q.may_split qpass }
{
    let (first, rest) = store.split(qpass);
    let (second, rest) = store.split(rest);
    let (third, last) = store.split(rest);
    let share = taken.share;
    let (_, taken) = join(
        rt,
        move ||
            requires { Q.is_pass store.now first × Q.is_pass store.now second }
        { push_both(rt, store, (first, second), (0, 1), share) },
        move ||
            requires { Q.is_pass store.now third × Q.is_pass store.now last }
        { push_and_take(rt, store, (third, last), 2, taken) },
    );
    taken.rose && taken.is_all_once(none)
}

// Two threads push, and two take: true where each entry was taken once, and by each taker in order.
fn two_to_two<Q: ReadyStore, R: Threads + Wait + Sync>(
    rt: &R,
    store: &Q,
    qpass: Q::QPass,
    taken: (Taken, Taken),
) -> bool
    requires { Q.is_pass store.now qpass × Q.may_split qpass }
{
    let (first, rest) = store.split(qpass);
    let (second, rest) = store.split(rest);
    let (third, last) = store.split(rest);
    let (_, (mine, theirs)) = join(
        rt,
        move ||
            requires { Q.is_pass store.now first × Q.is_pass store.now second }
        { push_both(rt, store, (first, second), (0, 1), ENTRIES / 2) },
        move ||
            requires { Q.is_pass store.now third × Q.is_pass store.now last }
        { take_both(rt, store, (third, last), taken) },
    );
    mine.rose && theirs.rose && mine.is_all_once(&theirs)
}

#[test]
fn one_thread_takes_under_a_lock(rt: HostRuntime) -> Result<(), Fail> {
    let alloc = rt.alloc();
    let (store, qpass) = MutexReady::new(alloc, CAPACITY)?;
    let (taken, none) = (Taken::new(alloc, THIRD)?, Taken::new(alloc, THIRD)?);
    assert!(rt; three_to_one(&rt, &store, qpass, taken, &none));
    Ok(())
}

#[test]
fn one_thread_takes_without_a_lock(rt: HostRuntime) -> Result<(), Fail> {
    let alloc = rt.alloc();
    let (store, qpass) = RuledReady::new(alloc, CAPACITY)?;
    let (taken, none) = (Taken::new(alloc, THIRD)?, Taken::new(alloc, THIRD)?);
    assert!(rt; three_to_one(&rt, &store, qpass, taken, &none));
    Ok(())
}

#[test]
fn two_threads_take_under_a_lock(rt: HostRuntime) -> Result<(), Fail> {
    let alloc = rt.alloc();
    let (store, qpass) = MutexReady::new(alloc, CAPACITY)?;
    let taken = (
        Taken::new(alloc, ENTRIES / 2)?,
        Taken::new(alloc, ENTRIES / 2)?,
    );
    assert!(rt; two_to_two(&rt, &store, qpass, taken));
    Ok(())
}

#[test]
fn two_threads_take_without_a_lock(rt: HostRuntime) -> Result<(), Fail> {
    let alloc = rt.alloc();
    let (store, qpass) = RuledReady::new(alloc, CAPACITY)?;
    let taken = (
        Taken::new(alloc, ENTRIES / 2)?,
        Taken::new(alloc, ENTRIES / 2)?,
    );
    assert!(rt; two_to_two(&rt, &store, qpass, taken));
    Ok(())
}
