//! The records of the roots that a root's line names.
ghost use Rattle.std.specs.Prelude.{◌≡◌, ◌+◌, ◌-◌, ◌<◌, ◌≤◌, ◌^◌, ◌∷◌, [], length, map};
ghost use Rattle.std.specs.List.{flat_map};
ghost use Rattle.std.specs.Option.{option_to_list};
ghost use Rattle.record_core.specs.RootEnds.{root_passed, root_waited, roots_named};
ghost use Rattle.frame_code.specs.Entries.{future_of};
ghost use Rattle.frame_code.specs.Names.{present};
ghost use Rattle.step_table.specs.Passes.{view, plan, IsOf, IsSameWith};
ghost use Rattle.step_table.specs.RootSteps.{HasRootRecord};
ghost use Rattle.schedule_core.specs.NamedRoots.{AreRoots, HasTurn, TellsMissing};
ghost use Rattle.schedule_core.specs.NamedRoots.{HaveRootRecords, TakesRoot, TakesBehind};
ghost use Rattle.schedule_core.specs.NamedRoots.{PassesRoot, PassesRoots};
ghost use Rattle.schedule_core.specs.References.{MayDropEach, DropsEach};
ghost use Rattle.schedule_core.specs.SeenTasks.{unit_behind};

use crate::making::Behind;
use crate::references::drop_if;
use arrayvec::ArrayVec;
use frame_code::Passed;
use step_table::{NamedRoot, Pass, Shared};
use task_syntax::{Root, RootArgument};

// The root, where it has no record.
fn missing_one(pass: &Pass, root: u8) -> Option<u8>
    requires root { root < 16 }
    requires turn { HasTurn (view pass.now) }
    ensures { TellsMissing (view pass.now) (root ∷ []) result }
{
    match pass.named(root) {
        Some(NamedRoot::Record(_)) => None,
        _ => Some(root),
    }
}

// The root that an argument names, where it has no record.
fn missing_in(pass: &Pass, argument: RootArgument) -> Option<u8>
    requires roots { AreRoots (root_passed argument) }
    requires turn { HasTurn (view pass.now) }
    ensures { TellsMissing (view pass.now) (root_passed argument) result }
{
    match argument {
        RootArgument::Number(_) => None,
        RootArgument::Root(root) => missing_one(pass, root),
    }
}

// The first of the roots that the arguments name without a record.
fn missing_argument(pass: &Pass, arguments: &[RootArgument]) -> Option<u8>
    requires roots { AreRoots (flat_map root_passed arguments.now) }
    requires turn { HasTurn (view pass.now) }
    ensures { TellsMissing (view pass.now) (flat_map root_passed arguments.now) result }
{
    'arguments: for at in 0..arguments.len() {
        match missing_in(pass, arguments[at]) {
            Some(root) => return Some(root),
            None => {}
        }
    }
    None
}

// The root that a line is behind, where it has no record.
fn missing_behind(pass: &Pass, behind: Option<u8>) -> Option<u8>
    requires roots { AreRoots (root_waited behind) }
    requires turn { HasTurn (view pass.now) }
    ensures { TellsMissing (view pass.now) (root_waited behind) result }
{
    match behind {
        Some(root) => missing_one(pass, root),
        None => None,
    }
}

/// The first of the roots that a line names without a record: of its arguments from left to right,
/// and then the one that it is behind.
pub(crate) fn missing_root(pass: &Pass, line: &Root) -> Option<u8>
    requires roots { AreRoots (roots_named line.now) }
    requires turn { HasTurn (view pass.now) }
    ensures { TellsMissing (view pass.now) (roots_named line.now) result }
{
    match missing_argument(pass, line.arguments.as_slice()) {
        Some(root) => Some(root),
        None => missing_behind(pass, line.behind),
    }
}

// A reference to the record of a root. Its task is read there.
fn take_root(shared: &Shared, pass: &mut Pass, root: u8) -> Behind
    requires table { IsOf shared.now pass.old }
    requires root { root < 16 }
    requires named { HasRootRecord (plan shared.now) root (view pass.old) }
    requires room { pass.old.held < 2 ^ 32 }
    ensures pass { IsSameWith (pass.old.held + 1) pass.old pass.new }
    ensures taken { TakesRoot (plan shared.now) root result (view pass.old) (view pass.new) }
{
    let future = shared.more_root(pass, root);
    let task = shared.see_task(pass, &future);
    Behind {
        unit: future.unit(),
        task,
    }
}

// What an argument passes: a number, or the record of a root, with a reference to it.
fn pass_root(shared: &Shared, pass: &mut Pass, argument: RootArgument) -> Passed
    requires table { IsOf shared.now pass.old }
    requires named { HaveRootRecords (plan shared.now) (root_passed argument) (view pass.old) }
    requires room { pass.old.held < 2 ^ 32 }
    ensures pass { IsSameWith (pass.old.held + length (option_to_list (future_of result)))
        pass.old pass.new }
    ensures passed { PassesRoot (plan shared.now) argument result (view pass.old) (view pass.new) }
{
    match argument {
        RootArgument::Number(number) => Passed::Number(number),
        RootArgument::Root(root) => {
            let taken = take_root(shared, pass, root);
            Passed::Future(u64::from(taken.unit))
        }
    }
}

/// What the arguments pass, with a reference to the record of each root among them.
pub(crate) fn pass_roots(
    shared: &Shared,
    pass: &mut Pass,
    arguments: &[RootArgument],
) -> ArrayVec<Passed, 16>
    requires table { IsOf shared.now pass.old }
    requires few { length arguments.now ≤ 16 }
    requires named { HaveRootRecords (plan shared.now)
        (flat_map root_passed arguments.now) (view pass.old) }
    requires room { pass.old.held + 16 ≤ 2 ^ 32 }
    ensures pass { IsSameWith (pass.old.held + length (present (map future_of result.items)))
        pass.old pass.new }
    ensures passed { PassesRoots (plan shared.now) arguments.now result.items
        (view pass.old) (view pass.new) }
{
    let mut passed = ArrayVec::new();
    'arguments: for at in 0..arguments.len() {
        let one = pass_root(shared, pass, arguments[at]);
        passed.push(one);
    }
    passed
}

/// A reference to the record of the root that a line is behind, if it is behind one.
pub(crate) fn take_behind(shared: &Shared, pass: &mut Pass, root: Option<u8>) -> Option<Behind>
    requires table { IsOf shared.now pass.old }
    requires named { HaveRootRecords (plan shared.now) (root_waited root) (view pass.old) }
    requires room { pass.old.held < 2 ^ 32 }
    ensures pass { IsSameWith (pass.old.held + length (option_to_list (unit_behind result)))
        pass.old pass.new }
    ensures taken { TakesBehind (plan shared.now) root result (view pass.old) (view pass.new) }
{
    match root {
        Some(root) => Some(take_root(shared, pass, root)),
        None => None,
    }
}

// The unit that is passed, if one is.
fn unit_passed(passed: Passed) -> Option<u64>
    ensures { result ≡ future_of passed }
{
    match passed {
        Passed::Number(_) => None,
        Passed::Future(unit) => Some(unit),
    }
}

/// The references to the records that are passed are given up.
pub(crate) fn drop_passed(shared: &Shared, pass: &mut Pass, passed: &[Passed])
    requires table { IsOf shared.now pass.old }
    requires may { MayDropEach shared.now.setup
        (present (map future_of passed.now)) (view pass.old) }
    ensures pass { IsSameWith
        (pass.old.held - length (present (map future_of passed.now))) pass.old pass.new }
    ensures dropped { DropsEach (present (map future_of passed.now))
        (view pass.old) (view pass.new) }
{
    'passed: for at in 0..passed.len() {
        drop_if(shared, pass, unit_passed(passed[at]));
    }
}

/// The reference to the record of a predecessor is given up, if there is one.
pub(crate) fn drop_behind(shared: &Shared, pass: &mut Pass, behind: Option<Behind>)
    requires table { IsOf shared.now pass.old }
    requires may { MayDropEach shared.now.setup
        (option_to_list (unit_behind behind)) (view pass.old) }
    ensures pass { IsSameWith
        (pass.old.held - length (option_to_list (unit_behind behind))) pass.old pass.new }
    ensures dropped { DropsEach (option_to_list (unit_behind behind))
        (view pass.old) (view pass.new) }
{
    match behind {
        Some(behind) => drop_if(shared, pass, Some(u64::from(behind.unit))),
        None => {}
    }
}
