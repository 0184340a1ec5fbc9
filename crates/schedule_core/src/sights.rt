//! The tasks of records are seen to which the pass has references.
ghost use Rattle.std.specs.Prelude.{◌≡◌, IfSome, map};
ghost use Rattle.std.specs.Option.{option_to_list};
ghost use Rattle.frame_code.specs.Entries.{future_of};
ghost use Rattle.frame_code.specs.Names.{present};
ghost use Rattle.step_table.specs.Passes.{view, plan, IsOf, IsSame};
ghost use Rattle.step_table.specs.RecordHands.{HasFuture};
ghost use Rattle.schedule_core.specs.References.{HasEach};
ghost use Rattle.schedule_core.specs.SeenTasks.{unit_behind, with_behind, SeesEach};

use crate::making::Behind;
use frame_code::Passed;
use step_table::{Future, Pass, Shared};

// The task of the record is seen that is passed, if one is.
fn see_one(shared: &Shared, pass: &mut Pass, passed: Passed)
    requires table { IsOf shared.now pass.old }
    requires has { HasEach (plan shared.now) (option_to_list (future_of passed)) (view pass.old) }
    ensures pass { IsSame pass.old pass.new }
    ensures seen { SeesEach (option_to_list (future_of passed)) (view pass.old) (view pass.new) }
{
    match passed {
        Passed::Number(_) => {}
        Passed::Future(unit) => {
            let future = Future::of(pass, unit as u32);
            shared.see_task(pass, &future);
        }
    }
}

/// The task of each record is seen that is passed.
pub(crate) fn see_passed(shared: &Shared, pass: &mut Pass, passed: &[Passed])
    requires table { IsOf shared.now pass.old }
    requires has { HasEach (plan shared.now) (present (map future_of passed.now)) (view pass.old) }
    ensures pass { IsSame pass.old pass.new }
    ensures seen { SeesEach (present (map future_of passed.now)) (view pass.old) (view pass.new) }
{
    'passed: for at in 0..passed.len() {
        see_one(shared, pass, passed[at]);
    }
}

/// The task of each of these records is seen.
pub(crate) fn see_members(shared: &Shared, pass: &mut Pass, units: &[u64])
    requires table { IsOf shared.now pass.old }
    requires has { HasEach (plan shared.now) units.now (view pass.old) }
    ensures pass { IsSame pass.old pass.new }
    ensures seen { SeesEach units.now (view pass.old) (view pass.new) }
{
    'units: for unit in units {
        see_one(shared, pass, Passed::Future(*unit));
    }
}

/// The task of a predecessor is seen, if there is one.
pub(crate) fn see_behind(shared: &Shared, pass: &mut Pass, unit: Option<u32>) -> Option<Behind>
    requires table { IsOf shared.now pass.old }
    requires has { IfSome unit (λ u. HasFuture (plan shared.now) u (view pass.old)) }
    ensures pass { IsSame pass.old pass.new }
    ensures behind { unit_behind result ≡ unit }
    ensures seen { view pass.new ≡ with_behind result (view pass.old) }
{
    match unit {
        Some(unit) => {
            let predecessor = Future::of(pass, unit);
            let task = shared.see_task(pass, &predecessor);
            Some(Behind { unit, task })
        }
        None => None,
    }
}
