//! The loads that tell of tasks, and the step that makes a waiter ready.
ghost use Rattle.std.specs.Prelude.{◌≡◌, ◌≤◌, IfSome};
ghost use Rattle.kt_words.specs.declared.phase.Phase.TheVariants.{Ready};
ghost use Rattle.schedule_rule.specs.Rows.{word_of_task};

use crate::pass::Pass;
use crate::record_layout::{own_word, state_word};
use crate::record_tokens::{Future, Linkable, OwnWord, Started};
use crate::row_layout::row_word;
use crate::shared::Shared;
use kt_words::{Phase, StateWord};
use std::marker::Brand;

// The rows of a number.
const TASK: u8 = 0;

const AFTER: u8 = 1;

// The task that a row names, where it names one.
fn task_named(row: u32) -> Option<u32>
    ensures word { word_of_task result ≡ row }
    ensures some { IfSome result (λ t. 1 ≤ t) }
{
    let none = row == 0;
    if none { None } else { Some(row) }
}

// The same word, of a record that is ready.
fn as_ready(word: StateWord) -> StateWord
    ensures { result ≡ record word { phase = Ready } }
{
    StateWord {
        phase: Phase::Ready,
        priority: word.priority,
        tag: word.tag,
        number: word.number,
    }
}

impl Shared {
    ghost use Rattle.step_table.specs.Passes.{view, plan, IsOf, IsSame};
    ghost use Rattle.step_table.specs.Sound.{AreSound};
    ghost use Rattle.step_table.specs.RecordHands.{HasFuture};
    ghost use Rattle.step_table.specs.SeeingSteps.{SeesTaskOf, SeesEnd, MaySeeResult, SeesResult};
    ghost use Rattle.step_table.specs.SeeingSteps.{KnowsWord, ReadsKnown, HasStarted};
    ghost use Rattle.step_table.specs.SeeingSteps.{ReadsTask, ReadsAfter, MayReady, Readies};

    /// Loads the task of a record to which the pass has a reference. The pass keeps it as a sight.
    pub fn see_task(&self, pass: &mut Pass, future: &Future) -> u32
        requires table { IsOf self.now pass.old }
        requires hand { HasFuture (plan self.now) future.now.unit (view pass.old) }
        ensures pass { IsSame pass.old pass.new }
        ensures task { SeesTaskOf (plan self.now) future.now.unit pass.old result pass.new }
        ensures sound { AreSound self.now.setup (view pass.old) (view pass.new) }
    {
        let word = own_word(&self.setup.plan, future.unit, OwnWord::Task);
        let found = self.load_as::<Brand, _>(&mut pass.seat, word, future);
        found as u32
    }

    /// Loads the state of a record to which the pass has a reference. Where it is done, the pass
    /// knows how each task ended that it saw there.
    pub fn see_done(&self, pass: &mut Pass, future: &Future) -> StateWord
        requires table { IsOf self.now pass.old }
        requires hand { HasFuture (plan self.now) future.now.unit (view pass.old) }
        ensures pass { IsSame pass.old pass.new }
        ensures word { SeesEnd future.now.unit pass.old result pass.new }
        ensures sound { AreSound self.now.setup (view pass.old) (view pass.new) }
    {
        let word = state_word(&self.setup.plan, future.unit);
        let found = self.load_as::<Brand, _>(&mut pass.seat, word, future);
        StateWord::of(found)
    }

    /// Loads the result of a record that the pass saw done, with the state word `seen`.
    pub fn see_result(&self, pass: &mut Pass, future: &Future, seen: StateWord) -> u64
        requires table { IsOf self.now pass.old }
        requires may { MaySeeResult (plan self.now) future.now.unit seen (view pass.old) }
        ensures pass { IsSame pass.old pass.new }
        ensures value { SeesResult future.now.unit seen pass.old result pass.new }
        ensures sound { AreSound self.now.setup (view pass.old) (view pass.new) }
    {
        let unit = future.unit;
        let word = own_word(&self.setup.plan, unit, OwnWord::Result);
        self.load_as::<Brand, _>(&mut pass.seat, word, &(unit, seen))
    }

    /// Reads a word of a record of the pass that the pass knows.
    pub fn read_known(&self, pass: &mut Pass, unit: u32, word: OwnWord) -> u64
        requires table { IsOf self.now pass.old }
        requires may { KnowsWord (plan self.now) unit word (view pass.old) }
        ensures pass { IsSame pass.old pass.new }
        ensures value { ReadsKnown unit word pass.old result pass.new }
        ensures sound { AreSound self.now.setup (view pass.old) (view pass.new) }
    {
        let lies = own_word(&self.setup.plan, unit, word);
        self.load_as::<Brand, _>(&mut pass.seat, lies, &(unit, word))
    }

    /// Reads the row that says of which task an activation of the pass is.
    pub fn read_task(&self, pass: &mut Pass, started: &Started) -> u32
        requires table { IsOf self.now pass.old }
        requires hand { HasStarted (plan self.now) started.now (view pass.old) }
        ensures pass { IsSame pass.old pass.new }
        ensures task { ReadsTask (plan self.now) started.now pass.old result pass.new }
        ensures sound { AreSound self.now.setup (view pass.old) (view pass.new) }
    {
        let word = row_word(&self.setup.plan, started.number, TASK);
        let found = self.load_as::<Brand, _>(&mut pass.seat, word, started);
        found as u32
    }

    /// Reads the row that says behind which task an activation of the pass is.
    pub fn read_after(&self, pass: &mut Pass, started: &Started) -> Option<u32>
        requires table { IsOf self.now pass.old }
        requires hand { HasStarted (plan self.now) started.now (view pass.old) }
        ensures pass { IsSame pass.old pass.new }
        ensures after { ReadsAfter (plan self.now) started.now pass.old result pass.new }
        ensures sound { AreSound self.now.setup (view pass.old) (view pass.new) }
    {
        let word = row_word(&self.setup.plan, started.number, AFTER);
        let found = self.load_as::<Brand, _>(&mut pass.seat, word, started);
        task_named(found as u32)
    }

    /// Makes a waiter of the pass ready that may start. It answers the word that says so.
    pub fn ready_waiting(&self, pass: &mut Pass, waiter: Linkable) -> StateWord
        requires table { IsOf self.now pass.old }
        requires may { MayReady (plan self.now) waiter.unit (view pass.old) }
        ensures pass { IsSame pass.old pass.new }
        ensures ready { Readies (plan self.now) waiter.unit pass.old result pass.new }
        ensures sound { AreSound self.now.setup (view pass.old) (view pass.new) }
    {
        let unit = waiter.unit;
        let word = state_word(&self.setup.plan, unit);
        let was = self.load_as::<Brand, _>(&mut pass.seat, word, &unit);
        let ready = as_ready(StateWord::of(was));
        let packed = ready.pack();
        self.store_as::<Brand, _>(&mut pass.seat, word, packed, &(unit, was));
        ready
    }
}
