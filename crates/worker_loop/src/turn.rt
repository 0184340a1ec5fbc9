//! One turn of a worker: an activation is taken and run to its end.
ghost use Rattle.std.specs.Prelude.{◌≡◌, [], None};
ghost use Rattle.step_table.specs.Passes.{IsOf};
ghost use Rattle.worker_loop.specs.Serving.{Turns};
ghost use Rattle.worker_loop.specs.Working.{Runs, IsFree, GoesOn};

use crate::gate::Gate;
use crate::serving::serve;
use crate::worker::Worker;
use frame_code::{CheckedCode, Requests};
use ready_queues::ReadyStore;
use schedule_core::{Running, Scheduler, Taken};
use std::sync::Wait;

/// What became of a turn.
pub(crate) enum Turn {
    /// The worker goes on.
    Went,
    /// No record lives any more.
    Over,
    /// The activation with this number stands at an act that is not served.
    Stopped(u32),
}

// Runs an activation that was taken.
fn run_taken<Q: ReadyStore, G: Gate, R: Wait>(
    scheduler: &Scheduler<Q>,
    rt: &R,
    code: &CheckedCode,
    worker: &mut Worker<Q>,
    gate: &G,
    requests: &mut Requests,
    running: Running,
) -> Turn
    requires table { IsOf scheduler.now.shared worker.old.pass }
    requires code { code.now ≡ scheduler.now.shared.setup.checked }
    requires store { Q.is_pass scheduler.now.ready worker.old.qpass }
    requires runs { Runs scheduler.now.shared.setup running [] worker.old.pass }
    requires unrefused { running.refused ≡ None }
    ensures store { Q.is_pass scheduler.now.ready worker.new.qpass }
    ensures goes { GoesOn worker.old.pass worker.new.pass }
    ensures turns { Turns result worker.new.pass }
{
    let number = running.number();
    gate.before(number);
    if serve(scheduler, rt, code, worker, running, requests) {
        Turn::Went
    } else {
        Turn::Stopped(number)
    }
}

// Looks whether any record lives.
fn look<Q: ReadyStore>(scheduler: &Scheduler<Q>, worker: &mut Worker<Q>) -> Turn
    requires table { IsOf scheduler.now.shared worker.old.pass }
    requires free { IsFree worker.old.pass }
    ensures qpass { worker.new.qpass ≡ worker.old.qpass }
    ensures goes { GoesOn worker.old.pass worker.new.pass }
    ensures turns { Turns result worker.new.pass }
{
    let living = scheduler.see_live(&mut worker.pass);
    if living == 0 { Turn::Over } else { Turn::Went }
}

/// Takes an activation and runs it. Where nothing was there, it looks whether any record lives.
pub(crate) fn take_turn<Q: ReadyStore, G: Gate, R: Wait>(
    scheduler: &Scheduler<Q>,
    rt: &R,
    code: &CheckedCode,
    worker: &mut Worker<Q>,
    gate: &G,
    requests: &mut Requests,
) -> Turn
    requires table { IsOf scheduler.now.shared worker.old.pass }
    requires code { code.now ≡ scheduler.now.shared.setup.checked }
    requires store { Q.is_pass scheduler.now.ready worker.old.qpass }
    requires free { IsFree worker.old.pass }
    ensures store { Q.is_pass scheduler.now.ready worker.new.qpass }
    ensures goes { GoesOn worker.old.pass worker.new.pass }
    ensures turns { Turns result worker.new.pass }
{
    match scheduler.take(rt, code, &mut worker.pass, &mut worker.qpass) {
        Taken::Task(running) => run_taken(scheduler, rt, code, worker, gate, requests, running),
        Taken::Passed { .. } => Turn::Went,
        Taken::Empty => look(scheduler, worker),
    }
}
