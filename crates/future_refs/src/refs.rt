ghost use Rattle.std.specs.Prelude.{◌+◌, ◌-◌, ◌<◌, ◌^◌};
ghost use Rattle.step_table.specs.Passes.{view, plan, IsOf, IsSameWith};
ghost use Rattle.step_table.specs.RecordHands.{HasFuture, MayLessen};
ghost use Rattle.step_table.specs.RecordSteps.{Refers};
ghost use Rattle.step_table.specs.Sound.{AreSound};
ghost use Rattle.future_refs.specs.Drops.{Drops, GivesBack};

use step_table::{Future, Pass, Shared};

/// One more reference to the record of a future.
pub fn clone_future(shared: &Shared, pass: &mut Pass, future: &Future) -> Future
    requires table { IsOf shared.now pass.old }
    requires hand { HasFuture (plan shared.now) future.now.unit (view pass.old) }
    requires room { pass.old.held < 2 ^ 32 }
    ensures pass { IsSameWith (pass.old.held + 1) pass.old pass.new }
    ensures sound { AreSound shared.now.setup (view pass.old) (view pass.new) }
    ensures future { Refers future.now.unit pass.old result pass.new }
{
    shared.more(pass, future)
}

/// Gives up the reference of a future that no running frame of the pass needs. Where it was the last
/// one to the record, the record is in no use afterwards and its block is given back; otherwise
/// nothing else changes.
pub fn drop_future(shared: &Shared, pass: &mut Pass, future: Future)
    requires table { IsOf shared.now pass.old }
    requires may { MayLessen shared.now.setup future.unit (view pass.old) }
    ensures pass { IsSameWith (pass.old.held - 1) pass.old pass.new }
    ensures sound { AreSound shared.now.setup (view pass.old) (view pass.new) }
    ensures view { Drops (plan shared.now) future.unit (view pass.old) (view pass.new) }
    ensures hand { GivesBack future.unit (view pass.old) (view pass.new) }
{
    match shared.less(pass, future) {
        None => {}
        Some(retiring) => {
            let block = shared.retire(pass, retiring);
            shared.release_block(pass, block);
        }
    }
}
