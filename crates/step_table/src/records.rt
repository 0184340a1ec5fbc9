//! The steps on records of the pass.
ghost use Rattle.std.specs.Prelude.{◌≡◌, ◌<◌, true};
ghost use Rattle.table_core.specs.Addresses.{units_of};

use crate::pass::Pass;
use crate::record_layout::{own_word, state_word};
use crate::record_tokens::{Made, OwnWord};
use crate::shared::Shared;
use crate::tokens::Block;
use kt_words::StateWord;
use std::marker::Brand;

// The state words of a unit in no use, and of a record that is made and has no number.
const FREE: u64 = 0;

const MADE: u64 = 1;

impl Shared {
    ghost use Rattle.kt_words.specs.StateWords.{FitsStateWord};
    ghost use Rattle.step_table.specs.Passes.{view, plan, IsOf, IsSame, block_of, HasBlock};
    ghost use Rattle.step_table.specs.RecordHands.{MayUnmake, MayFill, MayRead};
    ghost use Rattle.step_table.specs.Sound.{AreSound};
    ghost use Rattle.step_table.specs.RecordSteps.{Founds, Unmakes, Fills, Reads, SeesState};

    /// Makes a record in a fresh block. It has no number yet, and nobody refers to it.
    pub fn found(&self, pass: &mut Pass, block: Block) -> Made
        requires table { IsOf self.now pass.old }
        requires hand { HasBlock (plan self.now) (block_of block) (view pass.old).blocks }
        requires fresh { block.fresh ≡ true }
        ensures pass { IsSame pass.old pass.new }
        ensures sound { AreSound self.now.setup (view pass.old) (view pass.new) }
        ensures made { Founds block pass.old result pass.new }
    {
        let word = state_word(&self.setup.plan, block.unit);
        self.store_as::<Brand, _>(&mut pass.seat, word, MADE, &block);
        Made {
            unit: block.unit,
            class: block.class,
        }
    }

    /// Turns a record that got no number into a fresh block again. It does not count as living.
    pub fn unmake(&self, pass: &mut Pass, made: Made) -> Block
        requires table { IsOf self.now pass.old }
        requires may { MayUnmake (plan self.now) made.unit made.class (view pass.old) }
        ensures pass { IsSame pass.old pass.new }
        ensures sound { AreSound self.now.setup (view pass.old) (view pass.new) }
        ensures block { Unmakes made pass.old result pass.new }
    {
        let word = state_word(&self.setup.plan, made.unit);
        self.store_as::<Brand, _>(&mut pass.seat, word, FREE, &made);
        Block {
            unit: made.unit,
            class: made.class,
            fresh: true,
        }
    }

    /// Writes a word of a record that the pass makes, or the frame or the result of one that it
    /// runs.
    pub fn fill(&self, pass: &mut Pass, unit: u32, word: OwnWord, value: u64)
        requires table { IsOf self.now pass.old }
        requires may { MayFill (plan self.now) unit word (view pass.old) }
        ensures pass { IsSame pass.old pass.new }
        ensures sound { AreSound self.now.setup (view pass.old) (view pass.new) }
        ensures view { Fills unit word value pass.old pass.new }
    {
        let lies = own_word(&self.setup.plan, unit, word);
        self.store_as::<Brand, _>(&mut pass.seat, lies, value, &(unit, word));
    }

    /// Reads a word of a record of the pass.
    pub fn read_own(&self, pass: &mut Pass, unit: u32, word: OwnWord) -> u64
        requires table { IsOf self.now pass.old }
        requires may { MayRead (plan self.now) unit word (view pass.old) }
        ensures pass { IsSame pass.old pass.new }
        ensures sound { AreSound self.now.setup (view pass.old) (view pass.new) }
        ensures value { Reads unit word pass.old result pass.new }
    {
        let lies = own_word(&self.setup.plan, unit, word);
        self.load_as::<Brand, _>(&mut pass.seat, lies, &(unit, word))
    }

    /// Loads the state word of any unit.
    pub fn see_state(&self, pass: &mut Pass, unit: u32) -> StateWord
        requires table { IsOf self.now pass.old }
        requires unit { unit < units_of (plan self.now) }
        ensures pass { IsSame pass.old pass.new }
        ensures sound { AreSound self.now.setup (view pass.old) (view pass.new) }
        ensures fits { FitsStateWord result }
        ensures view { SeesState unit pass.old result pass.new }
    {
        let word = state_word(&self.setup.plan, unit);
        let found = self.load_as::<Brand, _>(&mut pass.seat, word, &unit);
        StateWord::of(found)
    }
}
