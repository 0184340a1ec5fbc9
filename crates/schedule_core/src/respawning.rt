//! A running task goes on by a next activation of its record.
ghost use Rattle.std.specs.Prelude.{◌≡◌, ◌-◌, ◌<◌, ◌^◌, IfSome, Some, None, length};
ghost use Rattle.frame_code.specs.Frames.{IsFrame};
ghost use Rattle.frame_code.specs.Units.{named_in};
ghost use Rattle.frame_code.specs.Words.{body_of};
ghost use Rattle.step_table.specs.DrawSteps.{Asking, MaySeeDrawn, SeesDrawn};
ghost use Rattle.step_table.specs.Passes.{view, plan, IsOf, IsSame, IsSameWith};
ghost use Rattle.step_table.specs.Sound.{AreSound};
ghost use Rattle.schedule_core.specs.References.{MayDropEach, DropsEach};
ghost use Rattle.schedule_core.specs.NextNumbers.{MayNumber, NumbersNext};
ghost use Rattle.schedule_core.specs.NextPlaces.{MayPlaceFrame, MayPlaceBehind, PlacesAgain};
ghost use Rattle.schedule_core.specs.Respawning.{unit_next, priority_next};
ghost use Rattle.schedule_core.specs.Respawning.{IsBehindName, MayRespawn, Respawns};
ghost use Rattle.schedule_core.specs.Respawning.{MayEnterNext, EntersNext, held_respawned};
ghost use Rattle.schedule_core.specs.Respawning.{limited, MayRetry, Retries, MayStay, Stays};

use crate::answers::Respawned;
use crate::entries::entry_of;
use crate::frames::{count_named, write_frame};
use crate::making::{Behind, join, task_of};
use crate::running::Running;
use crate::scheduler::Scheduler;
use crate::sights::see_behind;
use frame_code::{
    CheckedCode, Few, Frame, RespawnRequest, enter_held, future, is_aggregate, member, naming_words,
};
use future_refs::{clone_future, drop_future};
use ready_queues::{Entry, ReadyStore};
use record_core::CutTag;
use step_table::{Future, Pass, Shared, Started};
use task_syntax::Priority;

// Whether fewer numbers are drawn than there may be. If not, the task is told so.
fn is_open(shared: &Shared, pass: &mut Pass, _task: u32) -> bool
    ghost asking: { Asking }
    requires table { IsOf shared.now pass.old }
    requires may { MaySeeDrawn shared.now.setup asking (view pass.old) }
    ensures pass { IsSame pass.old pass.new }
    ensures sound { AreSound shared.now.setup (view pass.old) (view pass.new) }
    ensures drawn { SeesDrawn (plan shared.now).limit asking pass.old result pass.new }
{
    shared.see_drawn(pass)
}

// The task of the predecessor, whose record is at this unit, is seen, and a number of the next
// activation is drawn. Both rows of the number are written. None: the limit is met.
fn number_next(
    shared: &Shared,
    pass: &mut Pass,
    running: &Running,
    unit: Option<u32>,
) -> Option<(u32, Option<Behind>)>
    requires table { IsOf shared.now pass.old }
    requires may { MayNumber shared.now.setup running.now unit (view pass.old) }
    ensures pass { IsSame pass.old pass.new }
    ensures number { NumbersNext shared.now.setup running.now unit
        (view pass.old) result (view pass.new) }
{
    let behind = see_behind(shared, pass, unit);
    let waits = task_of(behind);
    let number = shared.draw_again(pass, &running.started, running.task, waits)?;
    shared.write_task_row(pass, number, running.task);
    shared.write_after_row(pass, number, waits);
    Some((number, behind))
}

// Places the next activation, which is behind no task.
fn place_ready(
    shared: &Shared,
    pass: &mut Pass,
    started: Started,
    number: u32,
    next: &Frame,
    priority: Priority,
) -> Entry
    requires table { IsOf shared.now pass.old }
    requires may { MayPlaceFrame shared.now.setup started.unit number None
        next.now.items (view pass.old) }
    ensures pass { IsSame pass.old pass.new }
    ensures placed { PlacesAgain shared.now.setup started.unit number priority None
        next.now.items (view pass.old) (Some result) (view pass.new) }
{
    let unit = started.unit();
    write_frame(shared, pass, unit, next);
    let word = shared.ready_again(pass, started, number, next.as_slice(), priority);
    entry_of(unit, word)
}

// Places the next activation behind a task. Until it stands in that task's list or is ready, the
// pass keeps a reference to the record of the task beside that of the frame.
fn place_behind(
    shared: &Shared,
    pass: &mut Pass,
    started: Started,
    number: u32,
    behind: Behind,
    next: &Frame,
    priority: Priority,
) -> Option<Entry>
    requires table { IsOf shared.now pass.old }
    requires may { MayPlaceBehind shared.now.setup started.unit number (Some behind)
        next.now.items (view pass.old) }
    requires room { pass.old.held < 2 ^ 32 }
    ensures pass { IsSame pass.old pass.new }
    ensures placed { PlacesAgain shared.now.setup started.unit number priority (Some behind)
        next.now.items (view pass.old) result (view pass.new) }
{
    let unit = started.unit();
    let named = Future::of(pass, behind.unit);
    let kept = clone_future(shared, pass, &named);
    write_frame(shared, pass, unit, next);
    let waiter = shared.wait_again(pass, started, number, next.as_slice(), priority);
    let entry = join(shared, pass, waiter, behind);
    drop_future(shared, pass, kept);
    entry
}

// Places the next activation, behind a task or none.
fn place_again(
    shared: &Shared,
    pass: &mut Pass,
    started: Started,
    number: u32,
    behind: Option<Behind>,
    next: &Frame,
    priority: Priority,
) -> Option<Entry>
    requires table { IsOf shared.now pass.old }
    requires may { MayPlaceBehind shared.now.setup started.unit number behind
        next.now.items (view pass.old) }
    requires room { pass.old.held < 2 ^ 32 }
    ensures pass { IsSame pass.old pass.new }
    ensures placed { PlacesAgain shared.now.setup started.unit number priority behind
        next.now.items (view pass.old) result (view pass.new) }
{
    match behind {
        None => {
            let entry = place_ready(shared, pass, started, number, next, priority);
            Some(entry)
        }
        Some(behind) => place_behind(shared, pass, started, number, behind, next, priority),
    }
}

// The references to the records at these units are given up.
fn drop_units(shared: &Shared, pass: &mut Pass, units: &[u64])
    requires table { IsOf shared.now pass.old }
    requires may { MayDropEach shared.now.setup units.now (view pass.old) }
    ensures pass { IsSameWith (pass.old.held - length units.now) pass.old pass.new }
    ensures dropped { DropsEach units.now (view pass.old) (view pass.new) }
{
    'units: for unit in units {
        let future = Future::of(pass, *unit as u32);
        drop_future(shared, pass, future);
    }
}

// The unit that the next activation is to be behind, if one is named: by a future variable of a
// task's frame, or by the position of a member of an aggregate.
fn unit_of(code: &CheckedCode, frame: &Frame, behind: Option<u16>) -> Option<u32>
    requires frame { IsFrame code.now frame.now.items }
    requires names { IsBehindName code.now behind (body_of code.now frame.now.items) }
    requires small { IfSome (unit_next (body_of code.now frame.now.items) behind)
        (λ u. u < 2 ^ 32) }
    ensures { result ≡ unit_next (body_of code.now frame.now.items) behind }
{
    let behind = behind?;
    if is_aggregate(frame) {
        let unit = member(frame, behind);
        return Some(unit as u32);
    }
    let unit = future(code, frame, behind)?;
    Some(unit as u32)
}

// The priority of the next activation. An aggregate keeps that of its running one.
fn priority_after(running: &Running, request: &RespawnRequest) -> Priority
    requires { 0 < length running.now.frame.items }
    ensures { result ≡ priority_next running.now request.now }
{
    if is_aggregate(&running.frame) {
        running.priority
    } else {
        request.priority
    }
}

// The number of the next activation is drawn: its frame is that of the state to which the task
// respawns, and the futures that are not held there are given up. An aggregate's has the same
// members.
fn enter_next(
    shared: &Shared,
    code: &CheckedCode,
    pass: &mut Pass,
    running: Running,
    number: u32,
    behind: Option<Behind>,
    request: &RespawnRequest,
) -> Respawned
    requires table { IsOf shared.now pass.old }
    requires code { code.now ≡ shared.now.setup.checked }
    requires may { MayEnterNext shared.now.setup running number behind request.now
        (view pass.old) }
    requires room { pass.old.held < 2 ^ 32 }
    ensures pass { IsSameWith
        (held_respawned shared.now.setup running pass.old.held result) pass.old pass.new }
    ensures entered { EntersNext shared.now.setup running number behind request.now
        (view pass.old) result (view pass.new) }
{
    let _program = code.program();
    let held = pass.held();
    let priority = priority_after(&running, request);
    let Running { started, frame, .. } = running;
    let named = count_named(naming_words(code, &frame));
    let mut next = frame;
    let mut given_up = Few::new();
    enter_held(code, &mut next, request.target, &mut given_up);
    let entry = place_again(shared, pass, started, number, behind, &next, priority);
    drop_units(shared, pass, given_up.as_slice());
    pass.keep_count(held - named);
    match entry {
        None => Respawned::Waits,
        Some(entry) => Respawned::Ready(entry),
    }
}

// The limit was answered to a running task, which goes back.
fn refused(running: Running) -> Respawned
    ensures { result ≡ Respawned.Over (limited running) }
{
    let mut back = running;
    back.refused = Some(CutTag::Limit);
    Respawned::Over(back)
}

// Ends a running activation whose task goes on by a next one, behind a future of its frame or none;
// an aggregate behind its next member. Over: the limit is met, and the running task comes back.
fn respawn(
    shared: &Shared,
    code: &CheckedCode,
    pass: &mut Pass,
    running: Running,
    request: &RespawnRequest,
) -> Respawned
    requires table { IsOf shared.now pass.old }
    requires code { code.now ≡ shared.now.setup.checked }
    requires may { MayRespawn shared.now.setup running request.now (view pass.old) }
    requires room { pass.old.held < 2 ^ 32 }
    ensures pass { IsSameWith
        (held_respawned shared.now.setup running pass.old.held result) pass.old pass.new }
    ensures respawned { Respawns shared.now.setup running request.now
        (view pass.old) result (view pass.new) }
{
    let open = is_open(shared, pass, running.task);
    if !open {
        return refused(running);
    }
    let _program = code.program();
    let unit = unit_of(code, &running.frame, request.behind);
    match number_next(shared, pass, &running, unit) {
        None => refused(running),
        Some((number, behind)) => {
            enter_next(shared, code, pass, running, number, behind, request)
        }
    }
}

// The number of the next activation is drawn, which is behind no task: its frame is that of this
// one.
fn stay(
    shared: &Shared,
    code: &CheckedCode,
    pass: &mut Pass,
    running: Running,
    number: u32,
) -> Respawned
    requires table { IsOf shared.now pass.old }
    requires code { code.now ≡ shared.now.setup.checked }
    requires may { MayStay shared.now.setup running number (view pass.old) }
    ensures pass { IsSameWith
        (held_respawned shared.now.setup running pass.old.held result) pass.old pass.new }
    ensures stays { Stays shared.now.setup running number
        (view pass.old) result (view pass.new) }
{
    let held = pass.held();
    let Running { started, frame, .. } = running;
    let named = count_named(naming_words(code, &frame));
    let entry = place_ready(shared, pass, started, number, &frame, Priority::Low);
    pass.keep_count(held - named);
    Respawned::Ready(entry)
}

// Ends a running activation to whose request the pool had no block: its task tries the same act
// again in a next activation.
fn retry(shared: &Shared, code: &CheckedCode, pass: &mut Pass, running: Running) -> Respawned
    requires table { IsOf shared.now pass.old }
    requires code { code.now ≡ shared.now.setup.checked }
    requires may { MayRetry shared.now.setup running (view pass.old) }
    ensures pass { IsSameWith
        (held_respawned shared.now.setup running pass.old.held result) pass.old pass.new }
    ensures retried { Retries shared.now.setup running (view pass.old) result (view pass.new) }
{
    let open = is_open(shared, pass, running.task);
    if !open {
        return refused(running);
    }
    match number_next(shared, pass, &running, None) {
        None => refused(running),
        Some((number, _)) => stay(shared, code, pass, running, number),
    }
}

impl<Q: ReadyStore> Scheduler<Q> {
    /// Ends a running activation whose task goes on by a next one, behind a future of its frame or
    /// none. The futures that the next state does not hold are given up. An aggregate goes on
    /// behind its next member, with the priority of this activation. Over: the limit is met, and
    /// the running task comes back.
    pub fn respawn(
        &self,
        code: &CheckedCode,
        pass: &mut Pass,
        running: Running,
        request: &RespawnRequest,
    ) -> Respawned
        requires table { IsOf self.now.shared pass.old }
        requires code { code.now ≡ self.now.shared.setup.checked }
        requires may { MayRespawn self.now.shared.setup running request.now (view pass.old) }
        requires room { pass.old.held < 2 ^ 32 }
        ensures pass { IsSameWith
            (held_respawned self.now.shared.setup running pass.old.held result)
            pass.old pass.new }
        ensures respawned { Respawns self.now.shared.setup running request.now
            (view pass.old) result (view pass.new) }
    {
        respawn(self.shared(), code, pass, running, request)
    }

    /// Ends a running activation to whose last request the pool had no block, where the request
    /// asks for it: the task tries the same act again in a next activation, with low priority and
    /// behind no task. Over: the limit is met, and the running task comes back.
    pub fn retry(&self, code: &CheckedCode, pass: &mut Pass, running: Running) -> Respawned
        requires table { IsOf self.now.shared pass.old }
        requires code { code.now ≡ self.now.shared.setup.checked }
        requires may { MayRetry self.now.shared.setup running (view pass.old) }
        ensures pass { IsSameWith
            (held_respawned self.now.shared.setup running pass.old.held result)
            pass.old pass.new }
        ensures retried { Retries self.now.shared.setup running
            (view pass.old) result (view pass.new) }
    {
        retry(self.shared(), code, pass, running)
    }
}
