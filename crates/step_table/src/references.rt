//! The steps on references.
ghost use Rattle.std.specs.Prelude.{◌≡◌, ◌+◌, ◌-◌, ◌<◌, ◌^◌};
ghost use Rattle.step_table.specs.RecordSteps.{IsLast};

use crate::layout::super_word;
use crate::pass::Pass;
use crate::record_layout::{refs_word, state_word};
use crate::record_tokens::{Finishing, Future, Retiring};
use crate::shared::Shared;
use crate::tokens::Block;
use kt_words::SuperWord;
use std::marker::Brand;

// What a unit says that is in no use.
const FREE: u64 = 0;

// The record is to be retired where the reference word was 1.
fn last_of(unit: u32, found: u64) -> Option<Retiring>
    ensures { IsLast unit found result }
{
    let last = found == 1;
    if last { Some(Retiring { unit }) } else { None }
}

impl Shared {
    ghost use Rattle.step_table.specs.Passes.{view, plan, IsOf, IsSame, IsSameWith};
    ghost use Rattle.step_table.specs.RecordHands.{HasFuture, MayLessen, MayGiveUp, HasRetiring};
    ghost use Rattle.step_table.specs.Sound.{AreSound};
    ghost use Rattle.step_table.specs.RecordSteps.{Refers, Lessens, GivesUp, Retires};

    /// Takes one more reference to a record to which the pass has one.
    pub fn more(&self, pass: &mut Pass, future: &Future) -> Future
        requires table { IsOf self.now pass.old }
        requires hand { HasFuture (plan self.now) future.now.unit (view pass.old) }
        requires room { pass.old.held < 2 ^ 32 }
        ensures pass { IsSameWith (pass.old.held + 1) pass.old pass.new }
        ensures sound { AreSound self.now.setup (view pass.old) (view pass.new) }
        ensures future { Refers future.now.unit pass.old result pass.new }
    {
        let word = refs_word(&self.setup.plan, future.unit);
        self.fetch_add_as::<Brand, _>(&mut pass.seat, word, 1, future);
        pass.held = pass.held + 1;
        Future { unit: future.unit }
    }

    /// Gives a reference up that no running frame of the pass needs. Some: it was the last, and the
    /// record is the pass's to retire.
    pub fn less(&self, pass: &mut Pass, future: Future) -> Option<Retiring>
        requires table { IsOf self.now pass.old }
        requires may { MayLessen self.now.setup future.unit (view pass.old) }
        ensures pass { IsSameWith (pass.old.held - 1) pass.old pass.new }
        ensures sound { AreSound self.now.setup (view pass.old) (view pass.new) }
        ensures view { Lessens future pass.old result pass.new }
    {
        let unit = future.unit;
        let word = refs_word(&self.setup.plan, unit);
        let found = self.fetch_sub_as::<Brand, _>(&mut pass.seat, word, 1, &future);
        pass.held = pass.held - 1;
        last_of(unit, found)
    }

    /// Gives up the scheduler's own reference to a record that is done, once its list is closed and it
    /// is counted out. Some: it was the last.
    pub fn give_up(&self, pass: &mut Pass, finishing: Finishing) -> Option<Retiring>
        requires table { IsOf self.now pass.old }
        requires may { MayGiveUp (plan self.now) finishing.unit (view pass.old) }
        ensures pass { IsSame pass.old pass.new }
        ensures sound { AreSound self.now.setup (view pass.old) (view pass.new) }
        ensures view { GivesUp finishing pass.old result pass.new }
    {
        let unit = finishing.unit;
        let word = refs_word(&self.setup.plan, unit);
        let found = self.fetch_sub_as::<Brand, _>(&mut pass.seat, word, 1, &finishing);
        last_of(unit, found)
    }

    /// Turns a record to which nobody refers into a block. A load after it tells the class.
    pub fn retire(&self, pass: &mut Pass, retiring: Retiring) -> Block
        requires table { IsOf self.now pass.old }
        requires hand { HasRetiring (plan self.now) retiring.unit (view pass.old) }
        ensures pass { IsSame pass.old pass.new }
        ensures sound { AreSound self.now.setup (view pass.old) (view pass.new) }
        ensures block { Retires (plan self.now) retiring pass.old result pass.new }
    {
        let unit = retiring.unit;
        let word = state_word(&self.setup.plan, unit);
        self.store_as::<Brand, _>(&mut pass.seat, word, FREE, &retiring);
        let superblock = unit / self.setup.plan.geometry.units;
        let word = super_word(&self.setup.plan, superblock);
        let found = self.load_as::<Brand, _>(&mut pass.seat, word, &retiring);
        Block {
            unit,
            class: SuperWord::of(found).class,
            fresh: false,
        }
    }
}
