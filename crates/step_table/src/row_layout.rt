//! Where the rows of numbers and the totals lie.
ghost use Rattle.std.specs.Prelude.{◌≡◌, ◌≤◌, ◌<◌};
ghost use Rattle.table_core.specs.Addresses.{address, journal, sum};

use crate::layout::{superblock_words, units};
use kt_words::Plan;

// Where the journal begins: behind the rows of units, the arena and the roots.
fn journal_start(plan: &Plan) -> usize
    ensures start { result ≡ address plan.now (journal 0 0) }
    ensures few { result ≤ 7356432 }
{
    let geometry = &plan.geometry;
    superblock_words(geometry) + 14 * units(geometry) + 16
}

/// Where a row of a number lies: 0 its task, 1 the task of its predecessor.
pub fn row_word(plan: &Plan, number: u32, row: u8) -> usize
    requires number { number ≤ plan.now.limit }
    requires row { row < 2 }
    ensures { result ≡ address plan.now (journal number row) }
{
    let _limit = plan.limit;
    journal_start(plan) + 5 * number as usize + row as usize
}

/// Where a total lies: 0 the numbers drawn, 1 the living records, 4 the spill.
pub fn sum_word(plan: &Plan, total: u8) -> usize
    requires { total < 6 }
    ensures { result ≡ address plan.now (sum total) }
{
    let geometry = &plan.geometry;
    let journal = 5 * (plan.limit as usize + 1);
    journal_start(plan) + journal + geometry.superblocks as usize + 8 * total as usize
}
