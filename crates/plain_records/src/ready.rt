ghost use Rattle.std.specs.Prelude.{◌≡◌, ◌+◌, ◌≤◌, IfOk, slice_get};
ghost use Rattle.run_model.specs.State.{no_queues, queued};
ghost use Rattle.plain_state.specs.Store.{queued_count};
ghost use Rattle.plain_records.specs.Ready.{Takes, with_queues};

use circular_buffer::HeapCircularBuffer;
use std::alloc::{AllocError, Global};
use std::marker::Model;
use task_syntax::Priority;

/// The activations that may start, each by the unit of its task's record: a queue for each
/// priority.
#[derive(Drop)]
pub struct Ready {
    high: HeapCircularBuffer<u32>,
    regular: HeapCircularBuffer<u32>,
    low: HeapCircularBuffer<u32>,
}

impl Model for Ready {
    ghost use Rattle.std.specs.Prelude.{◌≡◌};
    ghost use Rattle.plain_records.specs.Ready.{ReadyState, ready_of};

    ghost Value = { ReadyState };

    ghost view = { λ r. ready_of r.high r.regular r.low };

    ghost invariant = { λ r. (r.regular.capacity ≡ r.high.capacity) × (r.low.capacity ≡ r.high.capacity) };
}

impl Ready {
    /// Empty queues, which have a place for so many in each.
    pub fn new(alloc: Global, capacity: usize) -> Result<Ready, AllocError>
        ensures { IfOk result (λ made. made ≡ record { queues = no_queues; capacity = capacity }) }
    {
        Ok(Ready {
            high: HeapCircularBuffer::with_capacity(alloc, capacity)?,
            regular: HeapCircularBuffer::with_capacity(alloc, capacity)?,
            low: HeapCircularBuffer::with_capacity(alloc, capacity)?,
        })
    }

    /// Joins the queue of the priority.
    pub fn push(&mut self, priority: Priority, unit: u32)
        requires { queued_count self.old.queues + 1 ≤ self.old.capacity }
        ensures { self.new ≡ with_queues self.old (queued priority unit self.old.queues) }
    {
        let _none_goes = match priority {
            Priority::High => self.high.push_back(unit),
            Priority::Regular => self.regular.push_back(unit),
            Priority::Low => self.low.push_back(unit),
        };
    }

    /// Takes the first of the highest queue that has one.
    pub fn pop(&mut self) -> Option<u32>
        ensures { Takes self.old result self.new }
    {
        if let Some(unit) = self.high.pop_front() {
            return Some(unit);
        }
        if let Some(unit) = self.regular.pop_front() {
            return Some(unit);
        }
        self.low.pop_front()
    }

    /// The unit at a place of the queue of regular priority, if there is one.
    pub fn regular_at(&self, place: usize) -> Option<u32>
        ensures { result ≡ slice_get self.now.queues.regular place }
    {
        match self.regular.get(place) {
            Some(unit) => Some(*unit),
            None => None,
        }
    }
}
