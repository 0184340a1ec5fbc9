//! A running task goes on: along the lines that stop nothing, and past an act that changes what its
//! variables name.
ghost use Rattle.std.specs.Prelude.{◌≡◌, ◌+◌, ◌-◌, ◌<◌, ◌^◌, Some, None, length};
ghost use Rattle.std.specs.Option.{option_to_list};
ghost use Rattle.frame_code.specs.Setting.{unit_in};
ghost use Rattle.frame_code.specs.Told.{act_told};
ghost use Rattle.step_table.specs.DrawSteps.{Asking, MaySeeDrawn};
ghost use Rattle.step_table.specs.Passes.{view, plan, IsOf, IsSame, IsSameWith};
ghost use Rattle.step_table.specs.Sound.{AreSound};
ghost use Rattle.schedule_core.specs.Moves.{HasLoose, DropsLoose, MayPut, MayName, MayCopy, MayLetGo, SeesFrame};
ghost use Rattle.schedule_core.specs.Moves.{Puts, Names, Copies, LetsGo, RunsOn, TakesNamed, unit_at};
ghost use Rattle.schedule_core.specs.Runs.{IsInStep};

use crate::references::drop_if;
use crate::running::Running;
use crate::scheduler::Scheduler;
use frame_code::{Asked, CheckedCode, Requests, advance, assign, future, lift, pass_on};
use future_refs::clone_future;
use ready_queues::ReadyStore;
use step_table::{Future, Pass, Shared};

// A load of the total of drawn numbers, by which the table knows where the frame stands.
fn see_frame(shared: &Shared, pass: &mut Pass, _running: &Running)
    ghost asking: { Asking }
    requires table { IsOf shared.now pass.old }
    requires nobody { asking.asker ≡ None }
    requires may { MaySeeDrawn shared.now.setup asking (view pass.old) }
    ensures pass { IsSame pass.old pass.new }
    ensures sound { AreSound shared.now.setup (view pass.old) (view pass.new) }
    ensures seen { SeesFrame asking (view pass.old) (view pass.new) }
{
    let _open = shared.see_drawn(pass);
}

// The table knows where the frame stands, and a reference is given up that it names no more.
fn drop_loose(shared: &Shared, pass: &mut Pass, running: &Running, unit: Option<u64>)
    requires table { IsOf shared.now pass.old }
    requires loose { HasLoose shared.now.setup running.now (option_to_list unit) (view pass.old) }
    ensures pass { IsSameWith (pass.old.held - length (option_to_list unit)) pass.old pass.new }
    ensures dropped { DropsLoose shared.now.setup running.now (option_to_list unit)
        (view pass.old) (view pass.new) }
    ensures in_step { IsInStep shared.now.setup running.now (view pass.new) }
{
    see_frame(shared, pass, running);
    drop_if(shared, pass, unit);
}

// A reference to the record at the unit, which the pass has beside those of the frame, is put into
// the variable, and the task goes past its act. What the variable named before is given up.
fn put(
    shared: &Shared,
    code: &CheckedCode,
    pass: &mut Pass,
    running: &mut Running,
    to: u16,
    unit: u32,
)
    requires table { IsOf shared.now pass.old }
    requires code { code.now ≡ shared.now.setup.checked }
    requires may { MayPut shared.now.setup running.old to unit (view pass.old) }
    ensures pass { IsSameWith (pass.old.held - length (unit_at shared.now.setup running.old to))
        pass.old pass.new }
    ensures put { Puts shared.now.setup running.old to unit
        (view pass.old) running.new (view pass.new) }
{
    let _program = code.program();
    let before = assign(code, &mut running.frame, to, unit as u64);
    pass_on(code, &mut running.frame);
    drop_loose(shared, pass, running, before);
}

// The variable names the record that was made for the task.
fn name(
    shared: &Shared,
    code: &CheckedCode,
    pass: &mut Pass,
    running: &mut Running,
    to: u16,
    unit: u32,
)
    requires table { IsOf shared.now pass.old }
    requires code { code.now ≡ shared.now.setup.checked }
    requires may { MayName shared.now.setup running.old to unit (view pass.old) }
    ensures pass { IsSameWith (pass.old.held - length (unit_at shared.now.setup running.old to))
        pass.old pass.new }
    ensures named { Names shared.now.setup running.old to unit
        (view pass.old) running.new (view pass.new) }
{
    put(shared, code, pass, running, to, unit);
    running.made = None;
}

// One more reference to the record that a variable names.
fn clone_named(
    shared: &Shared,
    code: &CheckedCode,
    pass: &mut Pass,
    running: &Running,
    to: u16,
    source: u16,
) -> u32
    requires table { IsOf shared.now pass.old }
    requires code { code.now ≡ shared.now.setup.checked }
    requires may { MayCopy shared.now.setup running.now to source (view pass.old) }
    requires room { pass.old.held < 2 ^ 32 }
    ensures pass { IsSameWith (pass.old.held + 1) pass.old pass.new }
    ensures unit { unit_in code.now running.now.frame.items source ≡ Some result }
    ensures taken { TakesNamed shared.now.setup running.now result (view pass.old) (view pass.new) }
{
    let _program = code.program();
    let Some(unit) = future(code, &running.frame, source) else {
        unreachable!();
    };
    see_frame(shared, pass, running);
    let named = Future::of(pass, unit as u32);
    clone_future(shared, pass, &named);
    unit as u32
}

// One variable names the task that another names.
fn copy(
    shared: &Shared,
    code: &CheckedCode,
    pass: &mut Pass,
    running: &mut Running,
    to: u16,
    source: u16,
)
    requires table { IsOf shared.now pass.old }
    requires code { code.now ≡ shared.now.setup.checked }
    requires may { MayCopy shared.now.setup running.old to source (view pass.old) }
    requires room { pass.old.held < 2 ^ 32 }
    ensures pass { IsSameWith (pass.old.held + length (unit_at shared.now.setup running.old source)
        - length (unit_at shared.now.setup running.old to)) pass.old pass.new }
    ensures copied { Copies shared.now.setup running.old to source
        (view pass.old) running.new (view pass.new) }
{
    let unit = clone_named(shared, code, pass, running, to, source);
    put(shared, code, pass, running, to, unit);
}

// A variable names no task any more.
fn let_go(
    shared: &Shared,
    code: &CheckedCode,
    pass: &mut Pass,
    running: &mut Running,
    variable: u16,
)
    requires table { IsOf shared.now pass.old }
    requires code { code.now ≡ shared.now.setup.checked }
    requires may { MayLetGo shared.now.setup running.old variable (view pass.old) }
    ensures pass { IsSameWith
        (pass.old.held - length (unit_at shared.now.setup running.old variable))
        pass.old pass.new }
    ensures left { LetsGo shared.now.setup running.old variable
        (view pass.old) running.new (view pass.new) }
{
    let _program = code.program();
    let before = lift(code, &mut running.frame, variable);
    pass_on(code, &mut running.frame);
    drop_loose(shared, pass, running, before);
}

impl<Q: ReadyStore> Scheduler<Q> {
    /// Runs a task along the lines that stop nothing, and tells what it asks for where it stops.
    pub fn advance(
        &self,
        code: &CheckedCode,
        _pass: &Pass,
        running: &mut Running,
        requests: &mut Requests,
    ) -> Asked
        requires code { code.now ≡ self.now.shared.setup.checked }
        requires in_step { IsInStep self.now.shared.setup running.old (view _pass.now) }
        ensures on { RunsOn self.now.shared.setup running.old (view _pass.now)
            (act_told result requests.new) running.new }
    {
        advance(code, self.shared().columns(), &mut running.frame, requests)
    }

    /// A running task goes past its spawn: the variable names the new task, by the reference that
    /// the spawn gave. What it named before is given up.
    pub fn name(
        &self,
        code: &CheckedCode,
        pass: &mut Pass,
        running: &mut Running,
        to: u16,
        future: Future,
    )
        requires table { IsOf self.now.shared pass.old }
        requires code { code.now ≡ self.now.shared.setup.checked }
        requires may { MayName self.now.shared.setup running.old to future.unit (view pass.old) }
        ensures pass { IsSameWith
            (pass.old.held - length (unit_at self.now.shared.setup running.old to))
            pass.old pass.new }
        ensures named { Names self.now.shared.setup running.old to future.unit
            (view pass.old) running.new (view pass.new) }
    {
        name(self.shared(), code, pass, running, to, future.unit());
    }

    /// A running task goes past its copy: one variable names the task that another names. What it
    /// named before is given up.
    pub fn copy(
        &self,
        code: &CheckedCode,
        pass: &mut Pass,
        running: &mut Running,
        to: u16,
        source: u16,
    )
        requires table { IsOf self.now.shared pass.old }
        requires code { code.now ≡ self.now.shared.setup.checked }
        requires may { MayCopy self.now.shared.setup running.old to source (view pass.old) }
        requires room { pass.old.held < 2 ^ 32 }
        ensures pass { IsSameWith
            (pass.old.held + length (unit_at self.now.shared.setup running.old source)
            - length (unit_at self.now.shared.setup running.old to)) pass.old pass.new }
        ensures copied { Copies self.now.shared.setup running.old to source
            (view pass.old) running.new (view pass.new) }
    {
        copy(self.shared(), code, pass, running, to, source);
    }

    /// A running task goes past its drop: the variable names no task any more.
    pub fn let_go(&self, code: &CheckedCode, pass: &mut Pass, running: &mut Running, variable: u16)
        requires table { IsOf self.now.shared pass.old }
        requires code { code.now ≡ self.now.shared.setup.checked }
        requires may { MayLetGo self.now.shared.setup running.old variable (view pass.old) }
        ensures pass { IsSameWith
            (pass.old.held - length (unit_at self.now.shared.setup running.old variable))
            pass.old pass.new }
        ensures left { LetsGo self.now.shared.setup running.old variable
            (view pass.old) running.new (view pass.new) }
    {
        let_go(self.shared(), code, pass, running, variable);
    }
}
