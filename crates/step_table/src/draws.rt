//! The steps on the total of drawn numbers.
ghost use Rattle.std.specs.Prelude.{◌≡◌, ◌≤◌, ◌<◌, ◌+◌, SomeIff};
ghost use Rattle.task_meaning.specs.Worths.{Accepted};

use crate::pass::Pass;
use crate::record_tokens::{Made, Started};
use crate::row_layout::sum_word;
use crate::shared::Shared;
use std::marker::Brand;

// The total of drawn numbers.
const DRAWN: u8 = 0;

// The number that a draw gives where it found so many drawn. None: the limit is met.
fn number_after(found: u64, limit: u64) -> Option<u32>
    requires { limit ≤ 4000000 }
    ensures { SomeIff result (found < limit) (found + 1) }
{
    if found < limit {
        Some(found as u32 + 1)
    } else {
        None
    }
}

impl Shared {
    ghost use Rattle.step_table.specs.Passes.{view, IsOf, IsSame};
    ghost use Rattle.step_table.specs.Sound.{AreSound};
    ghost use Rattle.step_table.specs.DrawSteps.{Asking, MaySeeDrawn, SeesDrawn};
    ghost use Rattle.step_table.specs.DrawSteps.{MayDrawForRun, DrawsForRun};
    ghost use Rattle.step_table.specs.DrawSteps.{MayDrawForRoot, DrawsForRoot};
    ghost use Rattle.step_table.specs.DrawSteps.{MayDrawAgain, DrawsAgain};

    /// Whether fewer numbers are drawn than there may be, so that the pass may draw one. If not,
    /// this answers the asker, where one is named. A frame of the pass may have moved on before.
    pub fn see_drawn(&self, pass: &mut Pass) -> bool
        ghost asking: { Asking }
        requires table { IsOf self.now pass.old }
        requires may { MaySeeDrawn self.now.setup asking (view pass.old) }
        ensures pass { IsSame pass.old pass.new }
        ensures sound { AreSound self.now.setup (view pass.old) (view pass.new) }
        ensures drawn { SeesDrawn self.now.setup.plan.limit asking pass.old result pass.new }
    {
        let word = sum_word(&self.setup.plan, DRAWN);
        let found = self.load_as::<Brand, _>(&mut pass.seat, word, &());
        found < self.setup.plan.limit
    }

    /// Draws a number for a made record, by an act of a running one. None: the limit is met.
    pub fn draw_for_run(&self, pass: &mut Pass, made: &Made, by: &Started, task: u32) -> Option<u32>
        ghost call: { Accepted }
        requires table { IsOf self.now pass.old }
        requires may { MayDrawForRun self.now.setup made.now.unit by.now.unit task call
            (view pass.old) }
        ensures pass { IsSame pass.old pass.new }
        ensures sound { AreSound self.now.setup (view pass.old) (view pass.new) }
        ensures drawn { DrawsForRun self.now.setup.plan.limit made.now.unit by.now.unit task call
            pass.old result pass.new }
    {
        let word = sum_word(&self.setup.plan, DRAWN);
        let about = (made.unit, by.unit, task);
        let found = self.fetch_add_as::<Brand, _>(&mut pass.seat, word, 1, &about);
        let limit = self.setup.plan.limit;
        number_after(found, limit)
    }

    /// Draws a number for a made record, by the next root of the turn. None: the limit is met.
    pub fn draw_for_root(&self, pass: &mut Pass, made: &Made, root: u8) -> Option<u32>
        ghost call: { Accepted }
        requires table { IsOf self.now pass.old }
        requires may { MayDrawForRoot self.now.setup made.now.unit root call (view pass.old) }
        ensures pass { IsSame pass.old pass.new }
        ensures sound { AreSound self.now.setup (view pass.old) (view pass.new) }
        ensures drawn { DrawsForRoot self.now.setup.plan.limit made.now.unit root call
            pass.old result pass.new }
    {
        let word = sum_word(&self.setup.plan, DRAWN);
        let _program = self.setup.checked.program();
        let about = (made.unit, root);
        let found = self.fetch_add_as::<Brand, _>(&mut pass.seat, word, 1, &about);
        number_after(found, self.setup.plan.limit)
    }

    /// Draws the number of the next activation of a running record, behind a task or none. None:
    /// the limit is met.
    pub fn draw_again(
        &self,
        pass: &mut Pass,
        started: &Started,
        task: u32,
        behind: Option<u32>,
    ) -> Option<u32>
        requires table { IsOf self.now pass.old }
        requires may { MayDrawAgain self.now.setup started.now.unit task behind (view pass.old) }
        ensures pass { IsSame pass.old pass.new }
        ensures sound { AreSound self.now.setup (view pass.old) (view pass.new) }
        ensures drawn { DrawsAgain self.now.setup.plan.limit started.now.unit task behind
            pass.old result pass.new }
    {
        let word = sum_word(&self.setup.plan, DRAWN);
        let about = (started.unit, task, behind);
        let found = self.fetch_add_as::<Brand, _>(&mut pass.seat, word, 1, &about);
        number_after(found, self.setup.plan.limit)
    }
}
