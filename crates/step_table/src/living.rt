//! The steps on the count of living records, and on the word that says that a queue was full.
ghost use Rattle.std.specs.Prelude.{◌≡◌};

use crate::pass::Pass;
use crate::record_tokens::{Finishing, Made};
use crate::row_layout::sum_word;
use crate::shared::Shared;
use std::marker::Brand;

// The totals of living records and of spills.
const LIVE: u8 = 1;

const SPILL: u8 = 4;

// What the word of spills says once an entry found its queue full.
const SPILLED: u64 = 1;

impl Shared {
    ghost use Rattle.step_table.specs.Passes.{view, plan, IsOf, IsSame};
    ghost use Rattle.step_table.specs.Sound.{AreSound};
    ghost use Rattle.step_table.specs.LivingSteps.{MayCountIn, CountsIn, MayCountOut, CountsOut};
    ghost use Rattle.step_table.specs.LivingSteps.{SeesLive, Spills, SeesSpill};

    /// Counts a made record in that has its number.
    pub fn live_up(&self, pass: &mut Pass, made: &Made)
        requires table { IsOf self.now pass.old }
        requires may { MayCountIn (plan self.now) made.now.unit (view pass.old) }
        ensures pass { IsSame pass.old pass.new }
        ensures sound { AreSound self.now.setup (view pass.old) (view pass.new) }
        ensures count { CountsIn made.now.unit pass.old pass.new }
    {
        let word = sum_word(&self.setup.plan, LIVE);
        self.fetch_add_as::<Brand, _>(&mut pass.seat, word, 1, made);
    }

    /// Counts a done record out whose list is closed.
    pub fn live_down(&self, pass: &mut Pass, finishing: &Finishing)
        requires table { IsOf self.now pass.old }
        requires may { MayCountOut (plan self.now) finishing.now.unit (view pass.old) }
        ensures pass { IsSame pass.old pass.new }
        ensures sound { AreSound self.now.setup (view pass.old) (view pass.new) }
        ensures count { CountsOut finishing.now.unit pass.old pass.new }
    {
        let word = sum_word(&self.setup.plan, LIVE);
        self.fetch_sub_as::<Brand, _>(&mut pass.seat, word, 1, finishing);
    }

    /// How many records live: those that wait, are ready or run, and those that are counted in
    /// and not out.
    pub fn see_live(&self, pass: &mut Pass) -> u64
        requires table { IsOf self.now pass.old }
        ensures pass { IsSame pass.old pass.new }
        ensures sound { AreSound self.now.setup (view pass.old) (view pass.new) }
        ensures living { SeesLive (plan self.now).roots pass.old result pass.new }
    {
        let word = sum_word(&self.setup.plan, LIVE);
        self.load_as::<Brand, _>(&mut pass.seat, word, &())
    }

    /// Tells all passes that a queue was full, so that an entry lies in no queue.
    pub fn spill(&self, pass: &mut Pass)
        requires table { IsOf self.now pass.old }
        ensures pass { IsSame pass.old pass.new }
        ensures sound { AreSound self.now.setup (view pass.old) (view pass.new) }
        ensures spill { Spills pass.old pass.new }
    {
        let word = sum_word(&self.setup.plan, SPILL);
        self.store_as::<Brand, _>(&mut pass.seat, word, SPILLED, &());
    }

    /// Whether that was told: 0 where it was not.
    pub fn see_spill(&self, pass: &mut Pass) -> u64
        requires table { IsOf self.now pass.old }
        ensures pass { IsSame pass.old pass.new }
        ensures sound { AreSound self.now.setup (view pass.old) (view pass.new) }
        ensures spill { SeesSpill pass.old result pass.new }
    {
        let word = sum_word(&self.setup.plan, SPILL);
        self.load_as::<Brand, _>(&mut pass.seat, word, &())
    }
}
