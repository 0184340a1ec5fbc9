//! The steps that place a number in the state word of its record.
ghost use Rattle.std.specs.Prelude.{◌≡◌, ◌+◌, true, false};
ghost use Rattle.step_table.specs.PlacingSteps.{priority_code, word_placed};

use crate::pass::Pass;
use crate::record_layout::state_word;
use crate::record_tokens::{Future, Linkable, Made, Started};
use crate::shared::Shared;
use kt_words::{Phase, StateWord, Tag};
use std::marker::Brand;
use task_syntax::Priority;

// The code of a priority in a state word.
fn code_of(priority: Priority) -> u8
    ensures { result ≡ priority_code priority }
{
    match priority {
        Priority::High => 0,
        Priority::Regular => 1,
        Priority::Low => 2,
    }
}

// The state word of a record that waits.
fn waiting_word(number: u32, priority: Priority) -> StateWord
    ensures { result ≡ word_placed true number priority }
{
    StateWord {
        phase: Phase::Waiting,
        priority: code_of(priority),
        tag: Tag::Unset,
        number,
    }
}

/// The state word of a record that is ready.
pub fn ready_word(number: u32, priority: Priority) -> StateWord
    ensures { result ≡ word_placed false number priority }
{
    StateWord {
        phase: Phase::Ready,
        priority: code_of(priority),
        tag: Tag::Unset,
        number,
    }
}

impl Shared {
    ghost use Rattle.step_table.specs.Passes.{view, IsOf, IsSame, IsSameWith};
    ghost use Rattle.step_table.specs.Sound.{AreSound};
    ghost use Rattle.step_table.specs.PlacingSteps.{Placement, MayPlaceMade, PlacesMade};
    ghost use Rattle.step_table.specs.PlacingSteps.{MayPlaceNext, PlacesNext};

    /// Places the number of a made record: it waits from now on. The pass has a reference to it.
    pub fn wait_made(
        &self,
        pass: &mut Pass,
        made: Made,
        number: u32,
        priority: Priority,
    ) -> (Linkable, Future)
        ghost placement: { Placement }
        requires table { IsOf self.now pass.old }
        requires may { MayPlaceMade self.now.setup true made number placement pass.old }
        ensures pass { IsSameWith (pass.old.held + 1) pass.old pass.new }
        ensures sound { AreSound self.now.setup (view pass.old) (view pass.new) }
        ensures waiter { result.0.unit ≡ made.unit }
        ensures future { result.1.unit ≡ made.unit }
        ensures view { PlacesMade self.now.setup true made number priority placement
            pass.old pass.new }
    {
        let unit = made.unit;
        let word = state_word(&self.setup.plan, unit);
        let waiting = waiting_word(number, priority).pack();
        self.store_as::<Brand, _>(&mut pass.seat, word, waiting, &(made, number));
        pass.held = pass.held + 1;
        (Linkable { unit }, Future { unit })
    }

    /// Places the number of a made record that is behind no task that is not over: it is ready from
    /// now on, under the word that is returned. The pass has a reference to it.
    pub fn ready_made(
        &self,
        pass: &mut Pass,
        made: Made,
        number: u32,
        priority: Priority,
    ) -> (StateWord, Future)
        ghost placement: { Placement }
        requires table { IsOf self.now pass.old }
        requires may { MayPlaceMade self.now.setup false made number placement pass.old }
        ensures pass { IsSameWith (pass.old.held + 1) pass.old pass.new }
        ensures sound { AreSound self.now.setup (view pass.old) (view pass.new) }
        ensures word { result.0 ≡ word_placed false number priority }
        ensures future { result.1.unit ≡ made.unit }
        ensures view { PlacesMade self.now.setup false made number priority placement
            pass.old pass.new }
    {
        let unit = made.unit;
        let word = state_word(&self.setup.plan, unit);
        let ready = ready_word(number, priority);
        let new = ready.pack();
        self.store_as::<Brand, _>(&mut pass.seat, word, new, &(made, number));
        pass.held = pass.held + 1;
        (ready, Future { unit })
    }

    /// Places the number of a run's next activation, with these words in its frame: the record
    /// waits from now on.
    pub fn wait_again(
        &self,
        pass: &mut Pass,
        started: Started,
        number: u32,
        words: &[u64],
        priority: Priority,
    ) -> Linkable
        requires table { IsOf self.now pass.old }
        requires may { MayPlaceNext self.now.setup true started number words.now (view pass.old) }
        ensures pass { IsSame pass.old pass.new }
        ensures sound { AreSound self.now.setup (view pass.old) (view pass.new) }
        ensures waiter { result.unit ≡ started.unit }
        ensures view { PlacesNext self.now.setup true started number words.now priority
            pass.old pass.new }
    {
        let unit = started.unit;
        let word = state_word(&self.setup.plan, unit);
        let waiting = waiting_word(number, priority).pack();
        self.store_as::<Brand, _>(&mut pass.seat, word, waiting, &(started, number, words));
        Linkable { unit }
    }

    /// Places the number of a run's next activation, with these words in its frame, where that is
    /// behind no task that is not over: the record is ready from now on, under the word that is
    /// returned.
    pub fn ready_again(
        &self,
        pass: &mut Pass,
        started: Started,
        number: u32,
        words: &[u64],
        priority: Priority,
    ) -> StateWord
        requires table { IsOf self.now pass.old }
        requires may { MayPlaceNext self.now.setup false started number words.now (view pass.old) }
        ensures pass { IsSame pass.old pass.new }
        ensures sound { AreSound self.now.setup (view pass.old) (view pass.new) }
        ensures word { result ≡ word_placed false number priority }
        ensures view { PlacesNext self.now.setup false started number words.now priority
            pass.old pass.new }
    {
        let unit = started.unit;
        let word = state_word(&self.setup.plan, unit);
        let ready = ready_word(number, priority);
        let new = ready.pack();
        self.store_as::<Brand, _>(&mut pass.seat, word, new, &(started, number, words));
        ready
    }
}
