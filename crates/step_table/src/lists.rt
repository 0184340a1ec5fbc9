//! The steps on wait lists.
ghost use Rattle.std.specs.Prelude.{◌≡◌, ◌≢◌, ◌≤◌, ◌<◌, ◌+◌, ◌^◌, ◌↔◌, IsSome, IfSome, IfNone};
ghost use Rattle.kt_words.specs.HeadWords.{IsHeadWord, closed_word, head_word, link_code, link_of, length_of};
ghost use Rattle.step_table.specs.ListSteps.{SeesHead, Links, Pushed, TakesList, TakesFirst, Finishes};

use crate::ending::Ending;
use crate::pass::Pass;
use crate::record_layout::{own_word, state_word};
use crate::record_tokens::{Chain, Finishing, Future, Linkable, OwnWord, Started};
use crate::shared::Shared;
use kt_words::{HeadWord, Phase, StateWord};
use std::marker::Brand;

// What one more on a list adds to the word of its head. Below it is the link to the first.
const ONE_MORE: u64 = 1_048_576;

// The word of an open head once this unit is put first on its list.
fn pushed(head: u64, unit: u32) -> u64
    requires room { head < 2 ^ 42 }
    requires unit { unit < 2 ^ 20 }
    ensures { result ≡ head_word (unit + 1) (length_of head + 1) }
{
    head - head % ONE_MORE + ONE_MORE + u64::from(unit) + 1
}

// The chain of the list of an open head.
fn chain_of(head: u64) -> Chain
    requires word { IsHeadWord head }
    requires opened { head ≢ closed_word }
    ensures first { link_code result.first ≡ link_of head }
    ensures length { result.length ≡ length_of head }
{
    match HeadWord::of(head) {
        HeadWord::Listed { first, length } => Chain { first, length },
        HeadWord::Closed => unreachable!(),
    }
}

impl Shared {
    ghost use Rattle.step_table.specs.Passes.{view, plan, IsOf, IsSame};
    ghost use Rattle.step_table.specs.RecordHands.{HasFuture};
    ghost use Rattle.step_table.specs.ListHands.{MayLinkTo, MayPush, IsWaiter, IsUnclosed, MayFinish, IsChain};
    ghost use Rattle.step_table.specs.Sound.{AreSound};

    /// Loads the head of the list of a record. The pass keeps it as a sight.
    pub fn see_head(&self, pass: &mut Pass, future: &Future) -> HeadWord
        requires table { IsOf self.now pass.old }
        requires hand { HasFuture (plan self.now) future.now.unit (view pass.old) }
        ensures pass { IsSame pass.old pass.new }
        ensures sound { AreSound self.now.setup (view pass.old) (view pass.new) }
        ensures head { SeesHead (plan self.now) future.now.unit pass.old result pass.new }
    {
        let unit = future.unit;
        let word = own_word(&self.setup.plan, unit, OwnWord::Head);
        let found = self.load_as::<Brand, _>(&mut pass.seat, word, &unit);
        HeadWord::of(found)
    }

    /// Links a waiter to the first of the list of an open head, the last that the pass saw.
    pub fn link(&self, pass: &mut Pass, waiter: &Linkable, seen: HeadWord)
        requires table { IsOf self.now pass.old }
        requires hand { IsWaiter (plan self.now) waiter.now.unit (view pass.old) }
        requires seen { MayLinkTo seen (view pass.old) }
        ensures pass { IsSame pass.old pass.new }
        ensures sound { AreSound self.now.setup (view pass.old) (view pass.new) }
        ensures view { Links waiter.now seen pass.old pass.new }
    {
        let unit = waiter.unit;
        let word = own_word(&self.setup.plan, unit, OwnWord::Next);
        let head = seen.pack();
        let link = head % ONE_MORE;
        self.store_as::<Brand, _>(&mut pass.seat, word, link, &(unit, head));
    }

    /// Puts a waiter first on the list of the record of the task that its call is behind, where the
    /// head is as it was seen. Err: it is now a later one, which is returned with the waiter.
    pub fn push_head(
        &self,
        pass: &mut Pass,
        waiter: Linkable,
        future: &Future,
        seen: HeadWord,
    ) -> Result<(), (Linkable, HeadWord)>
        requires table { IsOf self.now pass.old }
        requires may { MayPush (plan self.now) future.now.unit waiter.unit seen (view pass.old) }
        ensures pass { IsSame pass.old pass.new }
        ensures sound { AreSound self.now.setup (view pass.old) (view pass.new) }
        ensures push { Pushed (plan self.now) future.now.unit waiter seen pass.old result pass.new }
    {
        let unit = future.unit;
        let word = own_word(&self.setup.plan, unit, OwnWord::Head);
        let old = seen.pack();
        let new = pushed(old, waiter.unit);
        let about = (unit, waiter.unit);
        let found = self.compare_exchange_as::<Brand, _>(&mut pass.seat, word, old, new, &about);
        if found == old {
            Ok(())
        } else {
            Err((waiter, HeadWord::of(found)))
        }
    }

    /// Closes the list of a done record, and takes all that wait in it.
    pub fn swap_head(&self, pass: &mut Pass, finishing: Finishing) -> (Finishing, Chain)
        requires table { IsOf self.now pass.old }
        requires hand { IsUnclosed (plan self.now) finishing.unit (view pass.old) }
        ensures pass { IsSame pass.old pass.new }
        ensures sound { AreSound self.now.setup (view pass.old) (view pass.new) }
        ensures chain { TakesList (plan self.now) finishing pass.old result pass.new }
    {
        let unit = finishing.unit;
        let word = own_word(&self.setup.plan, unit, OwnWord::Head);
        let closed = HeadWord::Closed.pack();
        let head = self.swap_as::<Brand, _>(&mut pass.seat, word, closed, &unit);
        let taken = chain_of(head);
        (finishing, taken)
    }

    /// Takes the first of a chain. None: the chain has no member, and nothing has changed.
    pub fn unchain(&self, pass: &mut Pass, chain: Chain) -> Option<(Linkable, Chain)>
        requires table { IsOf self.now pass.old }
        requires hand { IsChain (plan self.now) chain (view pass.old) }
        ensures pass { IsSame pass.old pass.new }
        ensures exactly { IsSome result ↔ (1 ≤ chain.length) }
        ensures none { IfNone result (view pass.new ≡ view pass.old) }
        ensures some { IfSome result (λ t. TakesFirst (plan self.now) chain pass.old t pass.new) }
        ensures sound { IfSome result (λ t.
            AreSound self.now.setup (view pass.old) (view pass.new)) }
    {
        let unit = chain.first?;
        let word = own_word(&self.setup.plan, unit, OwnWord::Next);
        let link = self.load_as::<Brand, _>(&mut pass.seat, word, &unit);
        let rest = Chain {
            first: (link as u32).checked_sub(1),
            length: chain.length - 1,
        };
        Some((Linkable { unit }, rest))
    }

    /// Says that a running record is done, and how its task ended.
    pub fn finish(&self, pass: &mut Pass, started: Started, ending: Ending) -> Finishing
        requires table { IsOf self.now pass.old }
        requires may { MayFinish (plan self.now) started ending (view pass.old) }
        ensures pass { IsSame pass.old pass.new }
        ensures done { Finishes (plan self.now) started ending pass.old result pass.new }
        ensures sound { AreSound self.now.setup (view pass.old) (view pass.new) }
    {
        let unit = started.unit;
        let word = state_word(&self.setup.plan, unit);
        let tag = ending.tag();
        let done = StateWord {
            phase: Phase::Complete,
            priority: 0,
            tag,
            number: started.number,
        };
        self.store_as::<Brand, _>(&mut pass.seat, word, done.pack(), &(unit, ending));
        Finishing { unit }
    }
}
