//! The steps that write the two rows of a drawn number.
ghost use Rattle.std.specs.Prelude.{◌≡◌};
ghost use Rattle.schedule_rule.specs.Rows.{word_of_task};

use crate::pass::Pass;
use crate::row_layout::row_word;
use crate::shared::Shared;
use std::marker::Brand;

// The rows of a number: its task, and that of its predecessor.
const TASK: u8 = 0;

const AFTER: u8 = 1;

// A task as a word of the journal, 0 for none.
fn word_of(task: Option<u32>) -> u64
    ensures { result ≡ word_of_task task }
{
    match task {
        Some(task) => u64::from(task),
        None => 0,
    }
}

impl Shared {
    ghost use Rattle.step_table.specs.Passes.{view, plan, IsOf, IsSame};
    ghost use Rattle.step_table.specs.Sound.{AreSound};
    ghost use Rattle.step_table.specs.RowSteps.{MayWriteTask, WritesTask};
    ghost use Rattle.step_table.specs.RowSteps.{MayWriteAfter, WritesAfter};

    /// Writes the task of a number that the pass drew.
    pub fn write_task_row(&self, pass: &mut Pass, number: u32, task: u32)
        requires table { IsOf self.now pass.old }
        requires may { MayWriteTask (plan self.now) number task (view pass.old) }
        ensures pass { IsSame pass.old pass.new }
        ensures sound { AreSound self.now.setup (view pass.old) (view pass.new) }
        ensures row { WritesTask number pass.old pass.new }
    {
        let word = row_word(&self.setup.plan, number, TASK);
        self.store_as::<Brand, _>(&mut pass.seat, word, u64::from(task), &number);
    }

    /// Writes the predecessor of a number that the pass drew, or that it has none.
    pub fn write_after_row(&self, pass: &mut Pass, number: u32, behind: Option<u32>)
        requires table { IsOf self.now pass.old }
        requires may { MayWriteAfter (plan self.now) number behind (view pass.old) }
        ensures pass { IsSame pass.old pass.new }
        ensures sound { AreSound self.now.setup (view pass.old) (view pass.new) }
        ensures row { WritesAfter number pass.old pass.new }
    {
        let word = row_word(&self.setup.plan, number, AFTER);
        self.store_as::<Brand, _>(&mut pass.seat, word, word_of(behind), &number);
    }
}
