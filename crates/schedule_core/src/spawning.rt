//! A running task asks for a new task.
ghost use Rattle.std.specs.Prelude.{◌≡◌, ◌+◌, ◌<◌, ◌≤◌, ◌^◌, IfSome};
ghost use Rattle.frame_code.specs.Frames.{IsFrame};
ghost use Rattle.frame_code.specs.Setting.{HasSort};
ghost use Rattle.task_syntax.specs.declared.program.Sort.TheVariants.{Future as FutureSort};
ghost use Rattle.step_table.specs.Passes.{view, IsOf, IsSameWith};
ghost use Rattle.schedule_core.specs.NewTasks.{refusal_in, made_in, held_spawned};
ghost use Rattle.schedule_core.specs.Runs.{IsInStep};
ghost use Rattle.schedule_core.specs.Spawning.{named_if};
ghost use Rattle.schedule_core.specs.Spawning.{MaySpawn, Spawns, MaySpawnBlock, SpawnsBlock};

use crate::answers::Spawned;
use crate::new_tasks::{Given, NewTask, made_of, make_in_block, refusal_of};
use crate::running::Running;
use crate::scheduler::Scheduler;
use frame_code::{CheckedCode, Few, Frame, SpawnRequest, class_of, entry_frame, future, passed_by};
use memory_pool::{Allocated, allocate};
use ready_queues::ReadyStore;
use std::sync::Wait;
use step_table::{Block, Pass, Shared};

// The unit that a variable names, if one is given.
fn unit_of(code: &CheckedCode, frame: &Frame, variable: Option<u16>) -> Option<u32>
    requires frame { IsFrame code.now frame.now.items }
    requires sort { IfSome variable (λ y. HasSort code.now FutureSort y frame.now.items) }
    requires small { IfSome (named_if code.now frame.now.items variable) (λ u. u < 2 ^ 32) }
    ensures { result ≡ named_if code.now frame.now.items variable }
{
    match variable {
        Some(variable) => match future(code, frame, variable) {
            Some(unit) => Some(unit as u32),
            None => None,
        },
        None => None,
    }
}

// In a block that was allocated, what is requested is made.
fn spawn_block(
    shared: &Shared,
    code: &CheckedCode,
    pass: &mut Pass,
    running: &Running,
    request: &SpawnRequest,
    block: Block,
) -> Spawned
    requires table { IsOf shared.now pass.old }
    requires code { code.now ≡ shared.now.setup.checked }
    requires may { MaySpawnBlock shared.now.setup running.now request.now block (view pass.old) }
    requires room { pass.old.held + 64 ≤ 2 ^ 32 }
    ensures pass { IsSameWith (held_spawned pass.old.held result) pass.old pass.new }
    ensures spawned { SpawnsBlock shared.now.setup running.now request.now block
        (view pass.old) result (view pass.new) }
{
    let _program = code.program();
    let mut passed = Few::new();
    passed_by(code, &running.frame, request, &mut passed);
    let mut first = Frame::new();
    entry_frame(code, request.kind, passed.as_slice(), &mut first);
    let new = NewTask {
        given: Given::Call {
            kind: request.kind,
            passed,
        },
        first,
        behind: unit_of(code, &running.frame, request.behind),
        to: request.to,
        priority: request.priority,
    };
    make_in_block(shared, code, pass, running, &new, block)
}

/// Makes the task that a running one asks for. The pass has a reference to it. A refusal takes no
/// reference, and a block that was won is given back before.
pub(crate) fn spawn(
    shared: &Shared,
    rt: &impl Wait,
    code: &CheckedCode,
    pass: &mut Pass,
    running: &mut Running,
    request: &SpawnRequest,
) -> Spawned
    requires table { IsOf shared.now pass.old }
    requires code { code.now ≡ shared.now.setup.checked }
    requires may { MaySpawn shared.now.setup running.old request.now (view pass.old) }
    requires room { pass.old.held + 64 ≤ 2 ^ 32 }
    ensures pass { IsSameWith (held_spawned pass.old.held result) pass.old pass.new }
    ensures running { running.new ≡ record running.old
        { refused = refusal_in result; made = made_in result } }
    ensures spawned { Spawns shared.now.setup running.old request.now
        (view pass.old) result (view pass.new) }
    ensures in_step { IsInStep shared.now.setup running.new (view pass.new) }
{
    let _checked = code.program();
    let class = class_of(code, request.kind);
    let spawned = match allocate(shared, rt, pass, class) {
        Allocated::Null => Spawned::Null,
        Allocated::Block(block) => spawn_block(shared, code, pass, running, request, block),
    };
    running.refused = refusal_of(&spawned);
    running.made = made_of(&spawned);
    spawned
}

impl<Q: ReadyStore> Scheduler<Q> {
    /// Makes the task that a running one asks for. The pass has a reference to it. Null: the pool has
    /// no block. Over: the limit is met. Either takes no reference, and a block that was won is given
    /// back before.
    pub fn spawn(
        &self,
        rt: &impl Wait,
        code: &CheckedCode,
        pass: &mut Pass,
        running: &mut Running,
        request: &SpawnRequest,
    ) -> Spawned
        requires table { IsOf self.now.shared pass.old }
        requires code { code.now ≡ self.now.shared.setup.checked }
        requires may { MaySpawn self.now.shared.setup running.old request.now (view pass.old) }
        requires room { pass.old.held + 64 ≤ 2 ^ 32 }
        ensures pass { IsSameWith (held_spawned pass.old.held result) pass.old pass.new }
        ensures running { running.new ≡ record running.old
            { refused = refusal_in result; made = made_in result } }
        ensures spawned { Spawns self.now.shared.setup running.old request.now
            (view pass.old) result (view pass.new) }
        ensures in_step { IsInStep self.now.shared.setup running.new (view pass.new) }
    {
        spawn(self.shared(), rt, code, pass, running, request)
    }
}
