ghost use Rattle.std.specs.Prelude.{◌≡◌, ◌+◌, ◌≤◌, ◌↔◌, IsSome, IfSome, IfNone};
ghost use Rattle.table_core.specs.Addresses.{units_of};
ghost use Rattle.step_table.specs.Passes.{view, plan, IsOf, IsSame};
ghost use Rattle.step_table.specs.ListHands.{IsUnclosed, IsChain};
ghost use Rattle.step_table.specs.ListSteps.{TakesList, TakesFirst};
ghost use Rattle.step_table.specs.Sound.{AreSound};
ghost use Rattle.wait_lists.specs.Joining.{MayJoin, MayTry, TriesOnce};
ghost use Rattle.wait_lists.specs.Answers.{Joins};

use crate::joined::Joined;
use crossbeam_utils::Backoff;
use kt_words::HeadWord;
use step_table::{Chain, Finishing, Future, Linkable, Pass, Shared};

// One try to put a waiter first on a list whose head was seen open.
fn try_join(
    shared: &Shared,
    pass: &mut Pass,
    waiter: Linkable,
    future: &Future,
    seen: HeadWord,
) -> Result<(), (Linkable, HeadWord)>
    requires table { IsOf shared.now pass.old }
    requires may { MayTry (plan shared.now) future.now.unit waiter.unit seen (view pass.old) }
    ensures pass { IsSame pass.old pass.new }
    ensures sound { AreSound shared.now.setup (view pass.old) (view pass.new) }
    ensures tried { TriesOnce (plan shared.now) future.now.unit
        waiter seen pass.old result pass.new }
{
    shared.link(pass, &waiter, seen);
    shared.push_head(pass, waiter, future, seen)
}

/// Puts a waiting record on the list of the record of `predecessor`, the task that it is behind,
/// before all that wait there. Closed: the list is closed, and the record comes back. It takes at
/// most one try more than the table has units.
pub fn join_list(shared: &Shared, pass: &mut Pass, waiter: Linkable, predecessor: &Future) -> Joined
    requires table { IsOf shared.now pass.old }
    requires may { MayJoin (plan shared.now) predecessor.now.unit waiter.unit (view pass.old) }
    ensures pass { IsSame pass.old pass.new }
    ensures sound { AreSound shared.now.setup (view pass.old) (view pass.new) }
    ensures answer { Joins predecessor.now.unit waiter (view pass.old) result (view pass.new) }
    ensures tries { (view pass.new).tries
        ≤ (view pass.old).tries + (units_of (plan shared.now) + 1) }
{
    let backoff = Backoff::new();
    let mut waiter = waiter;
    let mut seen = shared.see_head(pass, predecessor);
    'tries: while let HeadWord::Listed { .. } = seen {
        match try_join(shared, pass, waiter, predecessor, seen) {
            Ok(()) => return Joined::Waits,
            Err((back, later)) => {
                waiter = back;
                seen = later;
            }
        }
        backoff.spin();
    }
    Joined::Closed(waiter)
}

/// Closes the list of a record that is done, and takes all that wait in it as one chain, the last
/// that joined first.
pub fn close_list(shared: &Shared, pass: &mut Pass, finished: Finishing) -> (Finishing, Chain)
    requires table { IsOf shared.now pass.old }
    requires hand { IsUnclosed (plan shared.now) finished.unit (view pass.old) }
    ensures pass { IsSame pass.old pass.new }
    ensures chain { TakesList (plan shared.now) finished pass.old result pass.new }
    ensures sound { AreSound shared.now.setup (view pass.old) (view pass.new) }
{
    shared.swap_head(pass, finished)
}

/// Takes the first record of a chain, which waits in the hand then. None: the chain has no record,
/// and nothing has changed.
pub fn next_of(shared: &Shared, pass: &mut Pass, chain: Chain) -> Option<(Linkable, Chain)>
    requires table { IsOf shared.now pass.old }
    requires hand { IsChain (plan shared.now) chain (view pass.old) }
    ensures pass { IsSame pass.old pass.new }
    ensures exactly { IsSome result ↔ (1 ≤ chain.length) }
    ensures none { IfNone result (view pass.new ≡ view pass.old) }
    ensures some { IfSome result (λ t. TakesFirst (plan shared.now) chain pass.old t pass.new) }
    ensures sound { IfSome result (λ t. AreSound shared.now.setup (view pass.old) (view pass.new)) }
{
    shared.unchain(pass, chain)
}
