//! The host asks for a root.
ghost use Rattle.std.specs.Prelude.{◌≡◌, ◌+◌, ◌≤◌, ◌^◌};
ghost use Rattle.task_meaning.specs.Worths.{Accepted};
ghost use Rattle.step_table.specs.DrawSteps.{MayDrawForRoot};
ghost use Rattle.step_table.specs.Passes.{view, plan, IsOf, IsSame};
ghost use Rattle.step_table.specs.PlacingSteps.{Placement};
ghost use Rattle.step_table.specs.RecordHands.{MayUnmake};
ghost use Rattle.schedule_core.specs.Hosting.{MayHostSpawn, HostSpawns};
ghost use Rattle.schedule_core.specs.RootStages.{NumbersForRoot, MayPlaceRoot, PlacesRoot};
ghost use Rattle.schedule_core.specs.RootStages.{MayMakeRoot, MakesRoot, MayRootIn, RootsIn};
ghost use Rattle.schedule_core.specs.RootStages.{MaySpawnRoot, SpawnsRoot};

use crate::answers::HostSpawned;
use crate::asking::{give_back, make_in};
use crate::making::{Behind, offer};
use crate::named_roots::{drop_behind, drop_passed, missing_root, pass_roots, take_behind};
use crate::scheduler::Scheduler;
use arrayvec::ArrayVec;
use frame_code::{CheckedCode, Frame, Passed, class_of, entry_frame};
use memory_pool::{Allocated, allocate};
use ready_queues::ReadyStore;
use std::sync::Wait;
use step_table::{Block, Made, Pass, RootWord, Shared};
use task_syntax::Root;

/// What the task of a root is passed, the record that it is behind, and its first frame.
#[derive(Drop)]
pub(crate) struct RootTask {
    pub passed: ArrayVec<Passed, 16>,
    pub behind: Option<Behind>,
    pub first: Frame,
}

// Draws the number of a made record, for the next root. None: the limit is met.
fn number_for_root(shared: &Shared, pass: &mut Pass, made: Made, root: u8) -> Option<(Made, u32)>
    ghost call: { Accepted }
    requires table { IsOf shared.now pass.old }
    requires may { MayDrawForRoot shared.now.setup made.unit root call (view pass.old) }
    requires back { MayUnmake (plan shared.now) made.unit made.class (view pass.old) }
    ensures pass { IsSame pass.old pass.new }
    ensures number { NumbersForRoot shared.now.setup made root call
        (view pass.old) result (view pass.new) }
{
    match shared.draw_for_root(pass, &made, root) {
        Some(number) => Some((made, number)),
        None => {
            give_back(shared, pass, made);
            None
        }
    }
}

// A made record gets its number and is placed, and the root's word names it, unless the limit is
// met.
fn place_root(
    shared: &Shared,
    code: &CheckedCode,
    pass: &mut Pass,
    root: u8,
    line: &Root,
    made: Made,
    task: &RootTask,
) -> HostSpawned
    ghost placement: { Placement }
    requires table { IsOf shared.now pass.old }
    requires code { code.now ≡ shared.now.setup.checked }
    requires may { MayPlaceRoot shared.now.setup root line.now made task.now
        placement (view pass.old) }
    requires room { pass.old.held + 64 ≤ 2 ^ 32 }
    ensures pass { IsSame pass.old pass.new }
    ensures placed { PlacesRoot shared.now.setup line.now made task.now placement
        (view pass.old) result (view pass.new) }
{
    match number_for_root(shared, pass, made, root) {
        None => {
            shared.name(pass, root, RootWord::Limit);
            HostSpawned::Over
        }
        Some((made, number)) => {
            let (future, entry) = offer(
                shared,
                code,
                pass,
                made,
                number,
                task.behind,
                &task.first,
                line.priority,
            );
            shared.name(pass, root, RootWord::Record(future));
            HostSpawned::Named(entry)
        }
    }
}

// A made record becomes that of the next root, unless the limit is met. The references to the
// records of the roots that it names are given back.
fn make_root(
    shared: &Shared,
    code: &CheckedCode,
    pass: &mut Pass,
    root: u8,
    line: &Root,
    made: Made,
) -> HostSpawned
    requires table { IsOf shared.now pass.old }
    requires code { code.now ≡ shared.now.setup.checked }
    requires may { MayMakeRoot shared.now.setup root line.now made (view pass.old) }
    requires room { pass.old.held + 128 ≤ 2 ^ 32 }
    ensures pass { IsSame pass.old pass.new }
    ensures made { MakesRoot shared.now.setup root line.now made
        (view pass.old) result (view pass.new) }
{
    let _program = code.program();
    let passed = pass_roots(shared, pass, line.arguments.as_slice());
    let behind = take_behind(shared, pass, line.behind);
    let mut first = Frame::new();
    entry_frame(code, line.kind, passed.as_slice(), &mut first);
    let task = RootTask {
        passed,
        behind,
        first,
    };
    let told = place_root(shared, code, pass, root, line, made, &task);
    drop_passed(shared, pass, task.passed.as_slice());
    drop_behind(shared, pass, behind);
    told
}

// A record is made in a block, and the rest follows, unless the limit is met.
fn root_in(
    shared: &Shared,
    code: &CheckedCode,
    pass: &mut Pass,
    root: u8,
    line: &Root,
    block: Block,
) -> HostSpawned
    requires table { IsOf shared.now pass.old }
    requires code { code.now ≡ shared.now.setup.checked }
    requires may { MayRootIn shared.now.setup root line.now block (view pass.old) }
    requires room { pass.old.held + 128 ≤ 2 ^ 32 }
    ensures pass { IsSame pass.old pass.new }
    ensures hosted { RootsIn shared.now.setup root line.now block
        (view pass.old) result (view pass.new) }
{
    match make_in(shared, pass, block) {
        None => {
            shared.name(pass, root, RootWord::Limit);
            HostSpawned::Over
        }
        Some(made) => make_root(shared, code, pass, root, line, made),
    }
}

// Makes the task of the next root, whose line names roots with records alone.
fn spawn_root(
    shared: &Shared,
    rt: &impl Wait,
    code: &CheckedCode,
    pass: &mut Pass,
    root: u8,
    line: &Root,
) -> HostSpawned
    requires table { IsOf shared.now pass.old }
    requires code { code.now ≡ shared.now.setup.checked }
    requires may { MaySpawnRoot shared.now.setup root line.now (view pass.old) }
    requires room { pass.old.held + 128 ≤ 2 ^ 32 }
    ensures pass { IsSame pass.old pass.new }
    ensures hosted { SpawnsRoot shared.now.setup root line.now
        (view pass.old) result (view pass.new) }
{
    let _program = code.program();
    match allocate(shared, rt, pass, class_of(code, line.kind)) {
        Allocated::Null => {
            shared.name(pass, root, RootWord::Null);
            HostSpawned::Null
        }
        Allocated::Block(block) => root_in(shared, code, pass, root, line, block),
    }
}

// Asks for the next root.
fn host_spawn(
    shared: &Shared,
    rt: &impl Wait,
    code: &CheckedCode,
    pass: &mut Pass,
    root: u8,
) -> HostSpawned
    requires table { IsOf shared.now pass.old }
    requires code { code.now ≡ shared.now.setup.checked }
    requires may { MayHostSpawn shared.now.setup root (view pass.old) }
    requires room { pass.old.held + 128 ≤ 2 ^ 32 }
    ensures pass { IsSame pass.old pass.new }
    ensures hosted { HostSpawns shared.now.setup root (view pass.old) result (view pass.new) }
{
    let line = &code.program().roots.as_slice()[root as usize];
    match missing_root(pass, line) {
        Some(missing) => {
            shared.name(pass, root, RootWord::Skipped(missing));
            HostSpawned::Skipped(missing)
        }
        None => spawn_root(shared, rt, code, pass, root, line),
    }
}

impl<Q: ReadyStore> Scheduler<Q> {
    /// Asks for the next root: its task is made by the line of the root, and the root's word names
    /// the record. Null: the pool has no block. Over: the limit is met, and a block that was won
    /// is given back before. Skipped: the line names this root first that has no record. The word
    /// says so then. Each answer counts the root as asked for, and the pass has the references that
    /// it had before.
    pub fn host_spawn(
        &self,
        rt: &impl Wait,
        code: &CheckedCode,
        pass: &mut Pass,
        root: u8,
    ) -> HostSpawned
        requires table { IsOf self.now.shared pass.old }
        requires code { code.now ≡ self.now.shared.setup.checked }
        requires may { MayHostSpawn self.now.shared.setup root (view pass.old) }
        requires room { pass.old.held + 128 ≤ 2 ^ 32 }
        ensures pass { IsSame pass.old pass.new }
        ensures hosted { HostSpawns self.now.shared.setup root
            (view pass.old) result (view pass.new) }
    {
        host_spawn(self.shared(), rt, code, pass, root)
    }
}
