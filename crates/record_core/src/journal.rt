ghost use Rattle.std.specs.Prelude.{◌≡◌, ◌↔◌, ℕ, ◌<◌, ◌≤◌, IfOk, IfSome, IfNone, IsNone, Some, length};
ghost use Rattle.record_core.specs.Numbers.{by_number, HasTask};
ghost use Rattle.record_core.specs.Journal.{JournalState, empty_journal, next_number, with_accepted, with_begun, with_finished, IsJournal, IsUnderWay, MayBegin, MayCause};

use crate::packed::PackedRow;
use crate::rows::{ActivationRow, Cause, TaskRow};
use std::alloc::Global;
use std::marker::Model;
use task_syntax::Memory;

/// The journal of a run on one thread: what was accepted, in which order all started and finished, and why
/// tasks were cut.
#[derive(Drop)]
pub struct PlainJournal {
    rows: Vec<PackedRow>,
    stamps: u64,
    limit: u64,
}

impl Model for PlainJournal {
    ghost use Rattle.record_core.specs.Journal.{JournalState};
    ghost use Rattle.record_core.specs.JournalInvariant.{HasRoom};
    ghost use Rattle.record_core.specs.Packed.{journal_in};
    ghost use Rattle.std.specs.Prelude.{vec_capacity};

    ghost Value = { JournalState };

    ghost view = { λ j. journal_in j.rows.items j.stamps j.limit };

    ghost invariant = { λ j. HasRoom (journal_in j.rows.items j.stamps j.limit)
        (vec_capacity j.rows) };
}

impl PlainJournal {
    /// An empty journal with memory for 1 to 4,000,000 activations, 20 bytes for each. No later call takes memory.
    pub fn new(alloc: Global, limit: u64) -> Result<PlainJournal, Memory>
        requires some { 1 ≤ limit }
        requires few { limit ≤ 4000000 }
        ensures empty { IfOk result (λ made. made ≡ empty_journal limit) }
        ensures kept { IfOk result (λ made. IsJournal made) }
    {
        let rows = Vec::with_capacity(alloc, limit as usize)?;
        Ok(PlainJournal {
            rows,
            stamps: 0,
            limit,
        })
    }

    /// Draws the next number, for a further activation of a task or for the first one of a new task. There is
    /// none once as many are drawn as the journal has memory for.
    pub fn accept(&mut self, task: Option<u32>, after: Option<u32>) -> Option<u32>
        requires task { IfSome task (λ t. IsUnderWay self.old t) }
        requires after { IfSome after (λ u. HasTask self.old.rows u) }
        ensures number { IfSome result (λ n. n ≡ next_number self.old) }
        ensures accepted { IfSome result (λ n. self.new ≡ with_accepted self.old task after) }
        ensures none { IsNone result ↔ (self.old.limit ≤ length self.old.rows) }
        ensures unchanged { IfNone result (self.new ≡ self.old) }
        ensures kept { IsJournal self.new }
    {
        if self.rows.len() as u64 >= self.limit {
            return None;
        }
        let number = self.rows.len() as u32 + 1;
        let task = task.unwrap_or(number);
        let _fits = self.rows.push(PackedRow::new(task, after));
        Some(number)
    }

    /// Starts an activation, with the next stamp.
    pub fn begin(&mut self, number: u32)
        requires { MayBegin self.old number }
        ensures begun { self.new ≡ with_begun self.old number }
        ensures kept { IsJournal self.new }
    {
        self.stamps += 1;
        let row = &mut self.rows[number as usize - 1];
        row.begin(self.stamps);
    }

    /// Finishes a task, with the next stamp.
    pub fn finish(&mut self, task: u32, cause: Cause)
        requires under_way { IsUnderWay self.old task }
        requires cause { MayCause self.old cause }
        ensures finished { self.new ≡ with_finished self.old task cause }
        ensures kept { IsJournal self.new }
    {
        self.stamps += 1;
        let row = &mut self.rows[task as usize - 1];
        row.finish(self.stamps, cause);
    }

    /// Does nothing. Call it for the invariant of a journal that was handed in.
    pub fn keeps(&self)
        ensures { IsJournal self.now }
    {
        let _limit = &self.limit;
    }

    /// How many numbers were drawn.
    pub fn accepted(&self) -> u32
        ensures { result ≡ length self.now.rows }
    {
        self.rows.len() as u32
    }

    /// An activation, by its number.
    pub fn activation(&self, number: u32) -> ActivationRow
        requires some { 1 ≤ number }
        requires within { number ≤ length self.now.rows }
        ensures { by_number self.now.rows number ≡ Some result }
    {
        self.rows[number as usize - 1].activation()
    }

    /// A task, by the number of its first activation.
    pub fn task(&self, number: u32) -> TaskRow
        requires { HasTask self.now.rows number }
        ensures { by_number self.now.tasks number ≡ Some result }
    {
        self.rows[number as usize - 1].task()
    }
}
