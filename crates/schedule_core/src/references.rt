//! The references that the words of a frame name are taken or given up.
ghost use Rattle.std.specs.Prelude.{◌≡◌, ◌+◌, ◌-◌, ◌^◌, ◌≤◌, length, IfSome};
ghost use Rattle.std.specs.List.{filter_map};
ghost use Rattle.std.specs.Option.{option_to_list};
ghost use Rattle.frame_code.specs.Words.{unit_named};
ghost use Rattle.step_table.specs.Passes.{view, plan, IsOf, IsSameWith};
ghost use Rattle.schedule_core.specs.References.{HasEach, TakesEach, MayDropEach, DropsEach};

use frame_code::unit_of;
use future_refs::{clone_future, drop_future};
use step_table::{Future, Pass, Shared};

// One reference more to the record at the unit, if one is named.
fn take_if(shared: &Shared, pass: &mut Pass, unit: Option<u64>)
    requires table { IsOf shared.now pass.old }
    requires has { HasEach (plan shared.now) (option_to_list unit) (view pass.old) }
    requires room { pass.old.held + length (option_to_list unit) ≤ 2 ^ 32 }
    ensures pass { IsSameWith (pass.old.held + length (option_to_list unit)) pass.old pass.new }
    ensures taken { TakesEach (option_to_list unit) (view pass.old) (view pass.new) }
{
    match unit {
        None => {}
        Some(unit) => {
            let future = Future::of(pass, unit as u32);
            clone_future(shared, pass, &future);
        }
    }
}

/// One reference more to each record that these words name.
pub(crate) fn take_named(shared: &Shared, pass: &mut Pass, words: &[u64])
    requires table { IsOf shared.now pass.old }
    requires has { HasEach (plan shared.now) (filter_map unit_named words.now) (view pass.old) }
    requires room { pass.old.held + length (filter_map unit_named words.now) ≤ 2 ^ 32 }
    ensures pass { IsSameWith
        (pass.old.held + length (filter_map unit_named words.now)) pass.old pass.new }
    ensures taken { TakesEach (filter_map unit_named words.now) (view pass.old) (view pass.new) }
{
    'words: for word in words {
        take_if(shared, pass, unit_of(*word));
    }
}

/// The reference to the record at the unit is given up, if one is named.
pub(crate) fn drop_if(shared: &Shared, pass: &mut Pass, unit: Option<u64>)
    requires table { IsOf shared.now pass.old }
    requires may { MayDropEach shared.now.setup (option_to_list unit) (view pass.old) }
    ensures pass { IsSameWith (pass.old.held - length (option_to_list unit)) pass.old pass.new }
    ensures dropped { DropsEach (option_to_list unit) (view pass.old) (view pass.new) }
{
    match unit {
        None => {}
        Some(unit) => {
            let future = Future::of(pass, unit as u32);
            drop_future(shared, pass, future);
        }
    }
}

/// The references to the records that these words name are given up.
pub(crate) fn drop_named(shared: &Shared, pass: &mut Pass, words: &[u64])
    requires table { IsOf shared.now pass.old }
    requires may { MayDropEach shared.now.setup
        (filter_map unit_named words.now) (view pass.old) }
    ensures pass { IsSameWith
        (pass.old.held - length (filter_map unit_named words.now)) pass.old pass.new }
    ensures dropped { DropsEach (filter_map unit_named words.now) (view pass.old) (view pass.new) }
{
    'words: for word in words {
        drop_if(shared, pass, unit_of(*word));
    }
}
