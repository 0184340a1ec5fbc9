//! A store with three queues under one lock.
ghost use Rattle.std.specs.Prelude.{◌≡◌, length, [], ◌∷◌, ◌++◌, IfOk, IfErr, IfSome, OnOk, OnErr, IfNone};
ghost use Rattle.std.specs.Bool.{OnTrue, OnFalse};
ghost use Rattle.std.specs.VecDeque.{deque_capacity};
ghost use Rattle.ready_queues.specs.Held.{IsFresh};

use crate::entry::{Entry, Item};
use crate::store::ReadyStore;
use std::alloc::{AllocError, Global};
use std::collections::VecDeque;
use std::snapshot::Snapshot;
use std::sync::{Mutex, Wait};
use task_syntax::{Memory, Priority};

// The three queues, whose room is taken at the start.
#[derive(Drop)]
struct Queues {
    high: VecDeque<Item>,
    regular: VecDeque<Item>,
    low: VecDeque<Item>,
}

// Puts an item at the back and answers true, where there is room. No memory is taken.
fn put(queue: &mut VecDeque<Item>, item: Item) -> bool
    ensures room { deque_capacity queue.new ≡ deque_capacity queue.old }
    ensures put { OnTrue result (queue.new.items ≡ queue.old.items ++ item ∷ []) }
    ensures same { OnFalse result (queue.new.items ≡ queue.old.items) }
    ensures full { OnFalse result (length queue.old.items ≡ deque_capacity queue.old) }
{
    let has_room = queue.len() < queue.capacity();
    if has_room {
        queue.push_back_reserved(item);
    }
    has_room
}

impl Queues {
    ghost use Rattle.ready_queues.specs.Held.{held, room, Gains, Refuses, Loses, IsDry};

    fn new(alloc: Global, capacity: usize) -> Result<Queues, AllocError>
        ensures empty { IfOk result (λ queues. (p : Priority) → held queues p ≡ []) }
        ensures room { IfOk result (λ queues. (p : Priority) → room queues p ≡ capacity) }
    {
        let high = VecDeque::with_capacity(alloc, capacity)?;
        let regular = VecDeque::with_capacity(alloc, capacity)?;
        let low = VecDeque::with_capacity(alloc, capacity)?;
        Ok(Queues { high, regular, low })
    }

    // Puts an entry at the back of the queue of its priority, where that has room.
    fn push(&mut self, entry: Entry) -> Result<(), Entry>
        ensures ok { OnOk result (Gains self.old self.new entry) }
        ensures same { IfErr result (λ back. back ≡ entry) }
        ensures full { OnErr result (Refuses self.old self.new entry.priority) }
    {
        let item = Item::of(entry);
        let is_put = match entry.priority {
            Priority::High => put(&mut self.high, item),
            Priority::Regular => put(&mut self.regular, item),
            Priority::Low => put(&mut self.low, item),
        };
        if is_put { Ok(()) } else { Err(entry) }
    }

    // Takes the front of the first queue that is not empty, from the highest priority down.
    fn take(&mut self) -> Option<Entry>
        ensures some { IfSome result (Loses self.old self.new) }
        ensures none { IfNone result (IsDry self.old self.new) }
    {
        if let Some(item) = self.high.pop_front() {
            return Some(item.at(Priority::High));
        }
        if let Some(item) = self.regular.pop_front() {
            return Some(item.at(Priority::Regular));
        }
        let item = self.low.pop_front()?;
        Some(item.at(Priority::Low))
    }
}

/// A store whose queues stand under one lock.
#[derive(Drop)]
pub struct MutexReady {
    queues: Mutex<Queues>,
}

// What the queues held at one moment, and what they became. It takes no bytes.
#[derive(Drop)]
struct Look {
    before: Snapshot<Queues>,
    after: Snapshot<Queues>,
}

/// A pass of a `MutexReady`. It keeps what its last call found under the lock.
#[derive(Drop)]
pub struct MutexPass {
    number: u64,
    last: Option<Look>,
}

impl MutexPass {
    ghost use Rattle.ready_queues.specs.Held.{Gains, Refuses, Loses, IsDry, Notes};

    // A pass that tells nothing.
    fn fresh() -> MutexPass
        ensures { IsFresh result }
    {
        MutexPass {
            number: 0,
            last: None,
        }
    }

    // Pushes to the queues that are lent, and keeps what they were and what they became.
    fn push(&mut self, queues: &mut Queues, entry: Entry) -> Result<(), Entry>
        ensures notes { Notes self.old self.new queues.old queues.new }
        ensures ok { OnOk result (Gains queues.old queues.new entry) }
        ensures same { IfErr result (λ back. back ≡ entry) }
        ensures full { OnErr result (Refuses queues.old queues.new entry.priority) }
    {
        let before = Snapshot::of(queues);
        let pushed = queues.push(entry);
        self.note(before, queues);
        pushed
    }

    // Takes from the queues that are lent, and keeps what they were and what they became.
    fn take(&mut self, queues: &mut Queues) -> Option<Entry>
        ensures notes { Notes self.old self.new queues.old queues.new }
        ensures some { IfSome result (Loses queues.old queues.new) }
        ensures none { IfNone result (IsDry queues.old queues.new) }
    {
        let before = Snapshot::of(queues);
        let taken = queues.take();
        self.note(before, queues);
        taken
    }

    // Keeps what the queues were and what they are.
    fn note(&mut self, before: Snapshot<Queues>, queues: &Queues)
        ensures { Notes self.old self.new before.value queues.now }
    {
        let after = Snapshot::of(queues);
        self.number = self.number.saturating_add(1);
        self.last = Some(Look { before, after });
    }
}

impl MutexReady {
    ghost use Rattle.std.specs.Prelude.{◌≤◌, ◌<◌};

    /// A store with so many places for each priority, all of them free, and its first pass.
    pub fn new(alloc: Global, capacity: u32) -> Result<(MutexReady, MutexPass), Memory>
        requires { (0 < capacity) × (capacity ≤ 524288) }
        ensures { IfOk result (λ made. IsFresh made.1) }
    {
        let queues = Mutex::new(Queues::new(alloc, capacity as usize)?);
        Ok((MutexReady { queues }, MutexPass::fresh()))
    }
}

impl ReadyStore for MutexReady {
    ghost use Rattle.std.specs.Prelude.{⊤};
    ghost use Rattle.ready_queues.specs.Held.{TellsHeld};
    ghost use Rattle.ready_queues.specs.HeldLaws.{seen_in_time, one_look};

    type QPass = MutexPass;

    ghost is_pass = { λ _ _. ⊤ };

    ghost lanes = { λ _. 1 };

    ghost number = { λ q. q.number };

    ghost saw = { λ _. TellsHeld };

    ghost may_split = { λ _. ⊤ };

    fn push<R: Wait>(&self, rt: &R, qpass: &mut MutexPass, entry: Entry) -> Result<(), Entry> {
        let mut queues = self.queues.lock(rt);
        qpass.push(&mut queues, entry)
    }

    fn take<R: Wait>(&self, rt: &R, qpass: &mut MutexPass) -> Option<Entry> {
        let mut queues = self.queues.lock(rt);
        qpass.take(&mut queues)
    }

    fn split(&self, qpass: MutexPass) -> (MutexPass, MutexPass) {
        (qpass, MutexPass::fresh())
    }

    ghost seen = { seen_in_time };

    ghost agrees = { one_look };
}
