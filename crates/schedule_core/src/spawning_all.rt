//! A running task asks for an aggregate over several futures.
ghost use Rattle.std.specs.Prelude.{◌≡◌, ◌+◌, ◌≤◌, ◌^◌};
ghost use Rattle.step_table.specs.Passes.{view, IsOf, IsSameWith};
ghost use Rattle.schedule_core.specs.NewTasks.{refusal_in, made_in, held_spawned};
ghost use Rattle.schedule_core.specs.Runs.{IsInStep};
ghost use Rattle.schedule_core.specs.SpawningAll.{MaySpawnAll, SpawnsAll};
ghost use Rattle.schedule_core.specs.SpawningAll.{MaySpawnAllBlock, SpawnsAllBlock};

use crate::answers::Spawned;
use crate::new_tasks::{Given, NewTask, made_of, make_in_block, refusal_of};
use crate::running::Running;
use crate::scheduler::Scheduler;
use frame_code::{AllRequest, CheckedCode, Frame, members_class, members_frame, units_named};
use memory_pool::{Allocated, allocate};
use ready_queues::ReadyStore;
use std::sync::Wait;
use step_table::{Block, Pass, Shared};

// In a block that was allocated, the aggregate is made. It begins behind its first member.
fn spawn_all_block(
    shared: &Shared,
    code: &CheckedCode,
    pass: &mut Pass,
    running: &Running,
    request: &AllRequest,
    block: Block,
) -> Spawned
    requires table { IsOf shared.now pass.old }
    requires code { code.now ≡ shared.now.setup.checked }
    requires may { MaySpawnAllBlock shared.now.setup running.now request.now block
        (view pass.old) }
    requires room { pass.old.held + 64 ≤ 2 ^ 32 }
    ensures pass { IsSameWith (held_spawned pass.old.held result) pass.old pass.new }
    ensures spawned { SpawnsAllBlock shared.now.setup running.now request.now block
        (view pass.old) result (view pass.new) }
{
    let _program = code.program();
    let members = units_named(code, &running.frame, request.members.as_slice());
    let mut first = Frame::new();
    members_frame(members.as_slice(), &mut first);
    let behind = members.as_slice()[0] as u32;
    let new = NewTask {
        given: Given::Members(members),
        first,
        behind: Some(behind),
        to: request.to,
        priority: request.priority,
    };
    make_in_block(shared, code, pass, running, &new, block)
}

/// Makes the aggregate that a running task asks for. The pass has a reference to it. A refusal takes
/// no reference, and a block that was won is given back before.
pub(crate) fn spawn_all(
    shared: &Shared,
    rt: &impl Wait,
    code: &CheckedCode,
    pass: &mut Pass,
    running: &mut Running,
    request: &AllRequest,
) -> Spawned
    requires table { IsOf shared.now pass.old }
    requires code { code.now ≡ shared.now.setup.checked }
    requires may { MaySpawnAll shared.now.setup running.old request.now (view pass.old) }
    requires room { pass.old.held + 64 ≤ 2 ^ 32 }
    ensures pass { IsSameWith (held_spawned pass.old.held result) pass.old pass.new }
    ensures running { running.new ≡ record running.old
        { refused = refusal_in result; made = made_in result } }
    ensures spawned { SpawnsAll shared.now.setup running.old request.now
        (view pass.old) result (view pass.new) }
    ensures in_step { IsInStep shared.now.setup running.new (view pass.new) }
{
    let _program = code.program();
    let class = members_class(request.members.as_slice().len() as u8);
    let spawned = match allocate(shared, rt, pass, class) {
        Allocated::Null => Spawned::Null,
        Allocated::Block(block) => spawn_all_block(shared, code, pass, running, request, block),
    };
    running.refused = refusal_of(&spawned);
    running.made = made_of(&spawned);
    spawned
}

impl<Q: ReadyStore> Scheduler<Q> {
    /// Makes the aggregate that a running task asks for, which is over once each of its members is.
    /// The pass has a reference to it. Null: the pool has no block. Over: the limit is met. Either
    /// takes no reference, and a block that was won is given back before.
    pub fn spawn_all(
        &self,
        rt: &impl Wait,
        code: &CheckedCode,
        pass: &mut Pass,
        running: &mut Running,
        request: &AllRequest,
    ) -> Spawned
        requires table { IsOf self.now.shared pass.old }
        requires code { code.now ≡ self.now.shared.setup.checked }
        requires may { MaySpawnAll self.now.shared.setup running.old request.now (view pass.old) }
        requires room { pass.old.held + 64 ≤ 2 ^ 32 }
        ensures pass { IsSameWith (held_spawned pass.old.held result) pass.old pass.new }
        ensures running { running.new ≡ record running.old
            { refused = refusal_in result; made = made_in result } }
        ensures spawned { SpawnsAll self.now.shared.setup running.old request.now
            (view pass.old) result (view pass.new) }
        ensures in_step { IsInStep self.now.shared.setup running.new (view pass.new) }
    {
        spawn_all(self.shared(), rt, code, pass, running, request)
    }
}
