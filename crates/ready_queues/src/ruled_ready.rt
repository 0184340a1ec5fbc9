//! A store with three queues and no lock.
ghost use Rattle.std.specs.Prelude.{◌≡◌, ◌<◌, ◌≤◌, IfOk, IfSome, IfNone, OnOk, OnErr};
ghost use Rattle.std.specs.Bool.{OnTrue, OnFalse};
ghost use Rattle.ready_queues.specs.SightLaws.{SoleKnows};
ghost use Rattle.ready_queues.specs.Sights.{hand_of, room_of, IsPass, IsFirst, IsNoted, SameHands, PushesOne, TakesOne, SawFull, SawEmptyAbove, SawAllEmpty};

use crate::account::{Queue, QueuePass, another, empty, get, put};
use crate::entry::{Entry, Item};
use crate::store::ReadyStore;
use std::alloc::Global;
use std::sync::Wait;
use task_syntax::{Memory, Priority};

// What the last call of a pass found.
#[derive(Clone, Copy)]
enum Found {
    Nothing,
    Put(Entry),
    Full(Priority),
    Took(Entry),
    Dry,
}

/// A store whose queues stand under no lock.
#[derive(Drop)]
pub struct RuledReady {
    high: Queue,
    regular: Queue,
    low: Queue,
}

/// A pass of a `RuledReady`. It keeps what its last call found; what it pushed and took exists in
/// proofs alone.
#[derive(Drop)]
pub struct RuledPass {
    high: QueuePass,
    regular: QueuePass,
    low: QueuePass,
    number: u64,
    found: Found,
}

impl RuledPass {
    // Keeps what a call found.
    fn note(&mut self, found: Found)
        ensures { IsNoted self.old self.new found }
    {
        self.number = self.number.saturating_add(1);
        self.found = found;
    }
}

impl RuledReady {
    /// A store with so many places for each priority, all of them free, and its first pass.
    pub fn new(alloc: Global, capacity: u32) -> Result<(RuledReady, RuledPass), Memory>
        requires { (0 < capacity) × (capacity ≤ 524288) }
        ensures pass { IfOk result (λ made. IsPass made.0 made.1 × IsFirst made.1) }
        ensures room { IfOk result (λ made. (p : Priority) → room_of made.0 p ≡ capacity) }
    {
        let (high, high_pass) = empty(alloc, capacity as usize)?;
        let (regular, regular_pass) = empty(alloc, capacity as usize)?;
        let (low, low_pass) = empty(alloc, capacity as usize)?;
        let pass = RuledPass {
            high: high_pass,
            regular: regular_pass,
            low: low_pass,
            number: 0,
            found: Found::Nothing,
        };
        Ok((RuledReady { high, regular, low }, pass))
    }

    // Puts an entry at the back of the queue of its priority. The answer is false where that was
    // full at a moment of the call.
    fn put<R: Wait>(&self, rt: &R, qpass: &mut RuledPass, entry: Entry) -> bool
        requires { IsPass self.now qpass.old }
        ensures pass { IsPass self.now qpass.new }
        ensures number { qpass.new.number ≡ qpass.old.number }
        ensures put { OnTrue result (PushesOne entry qpass.old qpass.new) }
        ensures same { OnFalse result (SameHands qpass.old qpass.new) }
        ensures full { OnFalse result (SawFull self.now qpass.new entry.priority) }
    {
        let item = Item::of(entry);
        match entry.priority {
            Priority::High => put(rt, &self.high, &mut qpass.high, item),
            Priority::Regular => put(rt, &self.regular, &mut qpass.regular, item),
            Priority::Low => put(rt, &self.low, &mut qpass.low, item),
        }
    }

    // Takes the front of the first queue that is not empty, from the highest priority down.
    fn get<R: Wait>(&self, rt: &R, qpass: &mut RuledPass) -> Option<Entry>
        requires { IsPass self.now qpass.old }
        ensures pass { IsPass self.now qpass.new }
        ensures number { qpass.new.number ≡ qpass.old.number }
        ensures took { IfSome result (λ entry. TakesOne entry qpass.old qpass.new) }
        ensures higher { IfSome result (λ entry. SawEmptyAbove qpass.new entry.priority) }
        ensures same { IfNone result (SameHands qpass.old qpass.new) }
        ensures dry { IfNone result (SawAllEmpty qpass.new) }
    {
        if let Some(item) = get(rt, &self.high, &mut qpass.high) {
            return Some(item.at(Priority::High));
        }
        if let Some(item) = get(rt, &self.regular, &mut qpass.regular) {
            return Some(item.at(Priority::Regular));
        }
        if let Some(item) = get(rt, &self.low, &mut qpass.low) {
            return Some(item.at(Priority::Low));
        }
        None
    }
}

impl ReadyStore for RuledReady {
    ghost use Rattle.std.specs.Prelude.{⊤};
    ghost use Rattle.ready_queues.specs.Account.{parted, new_hand};
    ghost use Rattle.ready_queues.specs.Moments.{Moment, Rose, TellsPush, TellsTake};
    ghost use Rattle.ready_queues.specs.Sights.{Tells};
    ghost use Rattle.ready_queues.specs.SightLaws.{told_in_time, told_alike};

    type QPass = RuledPass;

    ghost is_pass = { IsPass };

    ghost lanes = { λ _. 1 };

    ghost number = { λ q. q.number };

    ghost saw = { Tells };

    ghost may_split = { λ _. ⊤ };

    fn push<R: Wait>(&self, rt: &R, qpass: &mut RuledPass, entry: Entry) -> Result<(), Entry>
        requires { IsPass self.now qpass.old }
        ensures pass { IsPass self.now qpass.new }
        ensures number { Rose qpass.old.number qpass.new.number }
        ensures told { TellsPush 1 qpass.old.number (Tells self.now qpass.new) entry result }

        // What the pass knows of all its calls.
        ensures pushed { OnOk result (PushesOne entry qpass.old qpass.new) }
        ensures kept { OnErr result (SameHands qpass.old qpass.new) }
    {
        let is_put = self.put(rt, qpass, entry);
        if is_put {
            qpass.note(Found::Put(entry));
            Ok(())
        } else {
            qpass.note(Found::Full(entry.priority));
            Err(entry)
        }
    }

    fn take<R: Wait>(&self, rt: &R, qpass: &mut RuledPass) -> Option<Entry>
        requires { IsPass self.now qpass.old }
        ensures pass { IsPass self.now qpass.new }
        ensures number { Rose qpass.old.number qpass.new.number }
        ensures told { TellsTake 1 qpass.old.number (Tells self.now qpass.new) result }

        // What the pass knows of all its calls.
        ensures took { IfSome result (λ entry. TakesOne entry qpass.old qpass.new) }
        ensures kept { IfNone result (SameHands qpass.old qpass.new) }
    {
        match self.get(rt, qpass) {
            Some(entry) => {
                qpass.note(Found::Took(entry));
                Some(entry)
            }
            None => {
                qpass.note(Found::Dry);
                None
            }
        }
    }

    fn split(&self, qpass: RuledPass) -> (RuledPass, RuledPass)
        requires { IsPass self.now qpass }
        ensures passes { IsPass self.now result.0 × IsPass self.now result.1 }
        ensures number { result.0.number ≡ qpass.number }
        ensures told { (m : Moment) → Tells self.now qpass m → Tells self.now result.0 m }

        // The second pass has done nothing, and neither is alone.
        ensures left { (p : Priority) → hand_of result.0 p ≡ parted (hand_of qpass p) }
        ensures right { (p : Priority) → hand_of result.1 p ≡ new_hand }
    {
        let mut first = qpass;
        let second = RuledPass {
            high: another(&self.high, &mut first.high),
            regular: another(&self.regular, &mut first.regular),
            low: another(&self.low, &mut first.low),
            number: 0,
            found: Found::Nothing,
        };
        (first, second)
    }

    ghost seen = { told_in_time };

    ghost agrees = { told_alike };
}

/// The only pass of a queue knows what the queue holds: what it pushed is what it took, and then
/// what is held.
pub fn sole_knows()
    ensures { SoleKnows }
{}
