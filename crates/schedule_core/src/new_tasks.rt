//! A record is made for what a running task asks for: a task of a kind, or an aggregate.
ghost use Rattle.std.specs.Prelude.{◌≡◌, ◌+◌, ◌≤◌, ◌^◌};
ghost use Rattle.step_table.specs.DrawSteps.{Asking};
ghost use Rattle.step_table.specs.Passes.{view, plan, IsOf, IsSame, IsSameWith};
ghost use Rattle.step_table.specs.PlacingSteps.{Placement};
ghost use Rattle.schedule_core.specs.NewTasks.{units_given, asking_of, refusal_in, made_in, held_spawned};
ghost use Rattle.schedule_core.specs.NewTasks.{MayMakeInBlock, MakesInBlock};
ghost use Rattle.schedule_core.specs.NewTasks.{MayMakeTask, MakesTask, MayPlaceTask};
ghost use Rattle.schedule_core.specs.References.{HasEach};
ghost use Rattle.schedule_core.specs.SeenTasks.{SeesEach};

use crate::answers::Spawned;
use crate::asking::{make_in, number_for_run};
use crate::making::{Behind, offer};
use crate::running::Running;
use crate::sights::{see_behind, see_members, see_passed};
use frame_code::{CheckedCode, Few, Frame, Passed};
use record_core::CutTag;
use step_table::{Block, Made, Pass, Shared};
use task_syntax::Priority;

/// What a new task is given: what is passed to one of a kind, or the members of an aggregate, by
/// the units of their records.
#[derive(Drop)]
pub(crate) enum Given {
    Call { kind: u16, passed: Few<Passed, 16> },
    Members(Few<u64, 8>),
}

/// What a running task asks for, with its first frame. `to` is the variable that is to name it, and
/// `behind` the unit of its predecessor's record.
#[derive(Drop)]
pub(crate) struct NewTask {
    pub given: Given,
    pub first: Frame,
    pub behind: Option<u32>,
    pub to: u16,
    pub priority: Priority,
}

// The task of each record is seen that is given.
fn see_given(shared: &Shared, pass: &mut Pass, given: &Given)
    requires table { IsOf shared.now pass.old }
    requires has { HasEach (plan shared.now) (units_given given.now) (view pass.old) }
    ensures pass { IsSame pass.old pass.new }
    ensures seen { SeesEach (units_given given.now) (view pass.old) (view pass.new) }
{
    match given {
        Given::Call { passed, .. } => see_passed(shared, pass, passed.as_slice()),
        Given::Members(units) => see_members(shared, pass, units.as_slice()),
    }
}

// A made record gets its number and is placed, unless the limit is met.
fn place_new(
    shared: &Shared,
    code: &CheckedCode,
    pass: &mut Pass,
    running: &Running,
    made: Made,
    new: &NewTask,
    behind: Option<Behind>,
) -> Spawned
    ghost placement: { Placement }
    requires table { IsOf shared.now pass.old }
    requires code { code.now ≡ shared.now.setup.checked }
    requires may { MayPlaceTask shared.now.setup running.now made new.now
        behind placement (view pass.old) }
    requires room { pass.old.held + 64 ≤ 2 ^ 32 }
    ensures pass { IsSameWith (held_spawned pass.old.held result) pass.old pass.new }
    ensures made { MakesTask shared.now.setup running.now made new.now
        (view pass.old) result (view pass.new) }
{
    let drawn = number_for_run(shared, pass, made, &running.started, running.task);
    match drawn {
        None => Spawned::Over,
        Some((made, number)) => {
            let (future, entry) = offer(
                shared,
                code,
                pass,
                made,
                number,
                behind,
                &new.first,
                new.priority,
            );
            Spawned::Future(future, entry)
        }
    }
}

// A made record becomes that of the new task, unless the limit is met.
fn make_task(
    shared: &Shared,
    code: &CheckedCode,
    pass: &mut Pass,
    running: &Running,
    made: Made,
    new: &NewTask,
) -> Spawned
    requires table { IsOf shared.now pass.old }
    requires code { code.now ≡ shared.now.setup.checked }
    requires may { MayMakeTask shared.now.setup running.now made new.now (view pass.old) }
    requires room { pass.old.held + 64 ≤ 2 ^ 32 }
    ensures pass { IsSameWith (held_spawned pass.old.held result) pass.old pass.new }
    ensures made { MakesTask shared.now.setup running.now made new.now
        (view pass.old) result (view pass.new) }
{
    see_given(shared, pass, &new.given);
    let behind = see_behind(shared, pass, new.behind);
    place_new(shared, code, pass, running, made, new, behind)
}

/// Makes a record in a block for what a running task asks for, unless the limit is met.
pub(crate) fn make_in_block(
    shared: &Shared,
    code: &CheckedCode,
    pass: &mut Pass,
    running: &Running,
    new: &NewTask,
    block: Block,
) -> Spawned
    ghost asking: { Asking }
    requires table { IsOf shared.now pass.old }
    requires code { code.now ≡ shared.now.setup.checked }
    requires asks { asking ≡ asking_of running.now }
    requires may { MayMakeInBlock shared.now.setup running.now new.now block (view pass.old) }
    requires room { pass.old.held + 64 ≤ 2 ^ 32 }
    ensures pass { IsSameWith (held_spawned pass.old.held result) pass.old pass.new }
    ensures made { MakesInBlock shared.now.setup running.now new.now block
        (view pass.old) result (view pass.new) }
{
    match make_in(shared, pass, block) {
        None => Spawned::Over,
        Some(made) => make_task(shared, code, pass, running, made, new),
    }
}

/// What was refused, if anything was.
pub(crate) fn refusal_of(spawned: &Spawned) -> Option<CutTag>
    ensures { result ≡ refusal_in spawned.now }
{
    match spawned {
        Spawned::Future(_, _) => None,
        Spawned::Null => Some(CutTag::Null),
        Spawned::Over => Some(CutTag::Limit),
    }
}

/// The unit of the record that was made, if one was.
pub(crate) fn made_of(spawned: &Spawned) -> Option<u32>
    ensures { result ≡ made_in spawned.now }
{
    match spawned {
        Spawned::Future(future, _) => Some(future.unit()),
        Spawned::Null => None,
        Spawned::Over => None,
    }
}
