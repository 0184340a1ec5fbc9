//! Where the words of records and roots lie.
ghost use Rattle.std.specs.Prelude.{◌≡◌, ◌+◌, ◌*◌, ◌<◌};
ghost use Rattle.table_core.specs.Addresses.{address, units_of, state, refs, arena, root};
ghost use Rattle.step_table.specs.Layout.{superblock_words_of};
ghost use Rattle.step_table.specs.RecordHands.{OwnAt, word_of_record};

use crate::layout::{superblock_words, units};
use crate::record_tokens::OwnWord;
use kt_words::Plan;

// A word in one of the rows that have one for each unit: 0 state, 1 references, 2 head, 3 next,
// 4 task, 5 result.
fn unit_word(plan: &Plan, row: usize, unit: u32) -> usize
    requires row { row < 6 }
    requires unit { unit < units_of plan.now }
    ensures { result ≡ superblock_words_of plan.now.geometry + row * units_of plan.now + unit }
{
    let geometry = &plan.geometry;
    superblock_words(geometry) + row * units(geometry) + unit as usize
}

// A word of the arena.
fn arena_word(plan: &Plan, place: usize) -> usize
    requires { place < 8 * units_of plan.now }
    ensures { result ≡ address plan.now (arena place) }
{
    let geometry = &plan.geometry;
    superblock_words(geometry) + 6 * units(geometry) + place
}

/// Where the state word of a unit lies.
pub fn state_word(plan: &Plan, unit: u32) -> usize
    requires { unit < units_of plan.now }
    ensures { result ≡ address plan.now (state unit) }
{
    unit_word(plan, 0, unit)
}

/// Where the reference word of a unit lies.
pub fn refs_word(plan: &Plan, unit: u32) -> usize
    requires { unit < units_of plan.now }
    ensures { result ≡ address plan.now (refs unit) }
{
    unit_word(plan, 1, unit)
}

/// Where the word of a root lies.
pub fn root_word(plan: &Plan, number: u8) -> usize
    requires { number < 16 }
    ensures { result ≡ address plan.now (root number) }
{
    let geometry = &plan.geometry;
    superblock_words(geometry) + 14 * units(geometry) + number as usize
}

/// Where a word of a record lies.
pub fn own_word(plan: &Plan, unit: u32, word: OwnWord) -> usize
    requires { OwnAt plan.now unit word }
    ensures { result ≡ address plan.now (word_of_record word unit) }
{
    match word {
        OwnWord::Frame(place) => arena_word(plan, 8 * unit as usize + place as usize),
        OwnWord::Next => unit_word(plan, 3, unit),
        OwnWord::Task => unit_word(plan, 4, unit),
        OwnWord::Result => unit_word(plan, 5, unit),
        OwnWord::References => unit_word(plan, 1, unit),
        OwnWord::Head => unit_word(plan, 2, unit),
    }
}
