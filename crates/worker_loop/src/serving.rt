//! What a running task asks for is served, until its activation ends.
ghost use Rattle.std.specs.Prelude.{◌≡◌, [], ◌∷◌, true, Some, None};
ghost use Rattle.record_core.specs.declared.rows.CutTag.TheVariants.{Null};
ghost use Rattle.frame_code.specs.Told.{act_told};
ghost use Rattle.frame_code.specs.Words.{body_of};
ghost use Rattle.frame_code.specs.declared.act.Act.TheVariants as act;
ghost use Rattle.table_core.specs.Views.{IsIdle};
ghost use Rattle.step_table.specs.Passes.{view, IsOf};
ghost use Rattle.schedule_core.specs.Completing.{WasRefused};
ghost use Rattle.schedule_core.specs.FrameWords.{OnlySees};
ghost use Rattle.schedule_core.specs.Moves.{Asks, unmade};
ghost use Rattle.schedule_core.specs.Respawning.{AsksOnNull};
ghost use Rattle.schedule_rule.specs.HeldNames.{StandsPutting};
ghost use Rattle.worker_loop.specs.Serving.{Places, Answers, Serves, EndsServed};
ghost use Rattle.worker_loop.specs.Working.{Runs, HasOnlyChain, LeavesChain, IsFree, GoesOn};

use crate::worker::Worker;
use frame_code::{AllRequest, Asked, CheckedCode, Requests, RespawnRequest, SpawnRequest};
use ready_queues::{Entry, ReadyStore};
use schedule_core::{Outcome, Respawned, Running, Scheduler, Spawned};
use std::sync::Wait;
use step_table::{Chain, Future};

/// What became of a running activation.
pub(crate) enum Served {
    /// It goes on.
    Goes(Running),
    /// It has ended.
    Ended,
    /// It stands at an act that is not served.
    Stopped,
}

// Puts an entry into the ready store, if one is given.
fn publish<Q: ReadyStore, R: Wait>(
    scheduler: &Scheduler<Q>,
    rt: &R,
    worker: &mut Worker<Q>,
    entry: Option<Entry>,
)
    requires table { IsOf scheduler.now.shared worker.old.pass }
    requires store { Q.is_pass scheduler.now.ready worker.old.qpass }
    ensures store { Q.is_pass scheduler.now.ready worker.new.qpass }
    ensures goes { GoesOn worker.old.pass worker.new.pass }
    ensures held { worker.new.pass.held ≡ worker.old.pass.held }
    ensures seen { OnlySees (view worker.old.pass) (view worker.new.pass) }
{
    match entry {
        Some(entry) => scheduler.publish(rt, &mut worker.pass, &mut worker.qpass, entry),
        None => {}
    }
}

// Makes the first record of a chain ready. None: the chain has no record.
fn start_one<Q: ReadyStore, R: Wait>(
    scheduler: &Scheduler<Q>,
    rt: &R,
    worker: &mut Worker<Q>,
    chain: Chain,
) -> Option<Chain>
    requires table { IsOf scheduler.now.shared worker.old.pass }
    requires store { Q.is_pass scheduler.now.ready worker.old.qpass }
    requires chain { HasOnlyChain scheduler.now.shared.setup chain (view worker.old.pass) }
    ensures store { Q.is_pass scheduler.now.ready worker.new.qpass }
    ensures goes { GoesOn worker.old.pass worker.new.pass }
    ensures held { worker.new.pass.held ≡ worker.old.pass.held }
    ensures left { LeavesChain scheduler.now.shared.setup result (view worker.new.pass) }
{
    match scheduler.next_ready(&mut worker.pass, chain) {
        Some((entry, rest)) => {
            scheduler.publish(rt, &mut worker.pass, &mut worker.qpass, entry);
            Some(rest)
        }
        None => None,
    }
}

// Makes all records of a chain ready.
fn start_all<Q: ReadyStore, R: Wait>(
    scheduler: &Scheduler<Q>,
    rt: &R,
    worker: &mut Worker<Q>,
    chain: Chain,
)
    requires table { IsOf scheduler.now.shared worker.old.pass }
    requires store { Q.is_pass scheduler.now.ready worker.old.qpass }
    requires chain { HasOnlyChain scheduler.now.shared.setup chain (view worker.old.pass) }
    ensures store { Q.is_pass scheduler.now.ready worker.new.qpass }
    ensures goes { GoesOn worker.old.pass worker.new.pass }
    ensures held { worker.new.pass.held ≡ worker.old.pass.held }
    ensures idle { IsIdle (view worker.new.pass) }
{
    let mut chain = chain;
    for _ in rt.forever() {
        match start_one(scheduler, rt, worker, chain) {
            Some(rest) => chain = rest,
            None => return,
        }
    }
    unreachable!()
}

// Ends a task.
fn finish<Q: ReadyStore, R: Wait>(
    scheduler: &Scheduler<Q>,
    rt: &R,
    code: &CheckedCode,
    worker: &mut Worker<Q>,
    running: Running,
    outcome: Outcome,
)
    requires table { IsOf scheduler.now.shared worker.old.pass }
    requires code { code.now ≡ scheduler.now.shared.setup.checked }
    requires store { Q.is_pass scheduler.now.ready worker.old.qpass }
    requires runs { Runs scheduler.now.shared.setup running [] worker.old.pass }
    requires refused { WasRefused outcome running (view worker.old.pass) }
    ensures store { Q.is_pass scheduler.now.ready worker.new.qpass }
    ensures goes { GoesOn worker.old.pass worker.new.pass }
    ensures free { IsFree worker.new.pass }
{
    let chain = scheduler.complete(code, &mut worker.pass, running, outcome);
    start_all(scheduler, rt, worker, chain);
}

// The next activation of a task is placed, or the task is cut by the limit.
fn follow<Q: ReadyStore, R: Wait>(
    scheduler: &Scheduler<Q>,
    rt: &R,
    code: &CheckedCode,
    worker: &mut Worker<Q>,
    respawned: Respawned,
)
    requires table { IsOf scheduler.now.shared worker.old.pass }
    requires code { code.now ≡ scheduler.now.shared.setup.checked }
    requires store { Q.is_pass scheduler.now.ready worker.old.qpass }
    requires placed { Places scheduler.now.shared.setup respawned worker.old.pass }
    ensures store { Q.is_pass scheduler.now.ready worker.new.qpass }
    ensures goes { GoesOn worker.old.pass worker.new.pass }
    ensures free { IsFree worker.new.pass }
{
    match respawned {
        Respawned::Waits => {}
        Respawned::Ready(entry) => {
            scheduler.publish(rt, &mut worker.pass, &mut worker.qpass, entry);
        }
        Respawned::Over(running) => {
            finish(scheduler, rt, code, worker, running, Outcome::RefusedLimit);
        }
    }
}

// A task goes on by a next activation.
fn respawn<Q: ReadyStore, R: Wait>(
    scheduler: &Scheduler<Q>,
    rt: &R,
    code: &CheckedCode,
    worker: &mut Worker<Q>,
    running: Running,
    request: RespawnRequest,
)
    requires table { IsOf scheduler.now.shared worker.old.pass }
    requires code { code.now ≡ scheduler.now.shared.setup.checked }
    requires store { Q.is_pass scheduler.now.ready worker.old.qpass }
    requires runs { Runs scheduler.now.shared.setup running [] worker.old.pass }
    requires unrefused { running.refused ≡ None }
    requires asks { Asks scheduler.now.shared.setup.checked scheduler.now.shared.setup.columns
        (act.Again request) (body_of scheduler.now.shared.setup.checked running.frame.items) }
    ensures store { Q.is_pass scheduler.now.ready worker.new.qpass }
    ensures goes { GoesOn worker.old.pass worker.new.pass }
    ensures free { IsFree worker.new.pass }
{
    let respawned = scheduler.respawn(code, &mut worker.pass, running, &request);
    follow(scheduler, rt, code, worker, respawned);
}

// The pool had no block for what a task asked for: it tries again later, or is cut.
fn refuse<Q: ReadyStore, R: Wait>(
    scheduler: &Scheduler<Q>,
    rt: &R,
    code: &CheckedCode,
    worker: &mut Worker<Q>,
    running: Running,
    retry: bool,
)
    requires table { IsOf scheduler.now.shared worker.old.pass }
    requires code { code.now ≡ scheduler.now.shared.setup.checked }
    requires store { Q.is_pass scheduler.now.ready worker.old.qpass }
    requires runs { Runs scheduler.now.shared.setup running [] worker.old.pass }
    requires refused { running.refused ≡ Some Null }
    requires asks { retry ≡ true → AsksOnNull
        scheduler.now.shared.setup.checked scheduler.now.shared.setup.columns
        (body_of scheduler.now.shared.setup.checked running.frame.items) }
    ensures store { Q.is_pass scheduler.now.ready worker.new.qpass }
    ensures goes { GoesOn worker.old.pass worker.new.pass }
    ensures free { IsFree worker.new.pass }
{
    if retry {
        let respawned = scheduler.retry(code, &mut worker.pass, running);
        follow(scheduler, rt, code, worker, respawned);
    } else {
        finish(scheduler, rt, code, worker, running, Outcome::RefusedNull);
    }
}

// A task has a new one, which its variable is to name, and goes on past its act.
fn name<Q: ReadyStore, R: Wait>(
    scheduler: &Scheduler<Q>,
    rt: &R,
    code: &CheckedCode,
    worker: &mut Worker<Q>,
    running: &mut Running,
    to: u16,
    future: Future,
    entry: Option<Entry>,
)
    requires table { IsOf scheduler.now.shared worker.old.pass }
    requires code { code.now ≡ scheduler.now.shared.setup.checked }
    requires store { Q.is_pass scheduler.now.ready worker.old.qpass }
    requires runs { Runs scheduler.now.shared.setup running.old (future.unit ∷ []) worker.old.pass }
    requires puts { StandsPutting scheduler.now.shared.setup.checked to
        (body_of scheduler.now.shared.setup.checked running.old.frame.items) }
    ensures store { Q.is_pass scheduler.now.ready worker.new.qpass }
    ensures goes { GoesOn worker.old.pass worker.new.pass }
    ensures runs { Runs scheduler.now.shared.setup running.new [] worker.new.pass }
    ensures same { running.new ≡ record (unmade running.old) { frame = running.new.frame } }
{
    publish(scheduler, rt, worker, entry);
    scheduler.name(code, &mut worker.pass, running, to, future);
}

// What came of asking for a new task: the task goes on past its act, or its activation ends.
fn answer<Q: ReadyStore, R: Wait>(
    scheduler: &Scheduler<Q>,
    rt: &R,
    code: &CheckedCode,
    worker: &mut Worker<Q>,
    running: Running,
    spawned: Spawned,
    to: u16,
    retry: bool,
) -> Served
    requires table { IsOf scheduler.now.shared worker.old.pass }
    requires code { code.now ≡ scheduler.now.shared.setup.checked }
    requires store { Q.is_pass scheduler.now.ready worker.old.qpass }
    requires answered { Answers scheduler.now.shared.setup running to retry spawned
        worker.old.pass }
    ensures store { Q.is_pass scheduler.now.ready worker.new.qpass }
    ensures goes { GoesOn worker.old.pass worker.new.pass }
    ensures served { Serves scheduler.now.shared.setup running result worker.new.pass }
{
    let mut running = running;
    match spawned {
        Spawned::Future(future, entry) => {
            name(scheduler, rt, code, worker, &mut running, to, future, entry);
            Served::Goes(running)
        }
        Spawned::Null => {
            refuse(scheduler, rt, code, worker, running, retry);
            Served::Ended
        }
        Spawned::Over => {
            finish(scheduler, rt, code, worker, running, Outcome::RefusedLimit);
            Served::Ended
        }
    }
}

// A task spawns another.
fn spawn<Q: ReadyStore, R: Wait>(
    scheduler: &Scheduler<Q>,
    rt: &R,
    code: &CheckedCode,
    worker: &mut Worker<Q>,
    running: Running,
    request: &SpawnRequest,
) -> Served
    requires table { IsOf scheduler.now.shared worker.old.pass }
    requires code { code.now ≡ scheduler.now.shared.setup.checked }
    requires store { Q.is_pass scheduler.now.ready worker.old.qpass }
    requires runs { Runs scheduler.now.shared.setup running [] worker.old.pass }
    requires unrefused { running.refused ≡ None }
    requires asks { Asks scheduler.now.shared.setup.checked scheduler.now.shared.setup.columns
        (act.Spawn request.now) (body_of scheduler.now.shared.setup.checked running.frame.items) }
    ensures store { Q.is_pass scheduler.now.ready worker.new.qpass }
    ensures goes { GoesOn worker.old.pass worker.new.pass }
    ensures served { Serves scheduler.now.shared.setup running result worker.new.pass }
{
    let mut running = running;
    let spawned = scheduler.spawn(rt, code, &mut worker.pass, &mut running, request);
    answer(
        scheduler,
        rt,
        code,
        worker,
        running,
        spawned,
        request.to,
        request.retry,
    )
}

// A task asks for an aggregate.
fn gather<Q: ReadyStore, R: Wait>(
    scheduler: &Scheduler<Q>,
    rt: &R,
    code: &CheckedCode,
    worker: &mut Worker<Q>,
    running: Running,
    request: &AllRequest,
) -> Served
    requires table { IsOf scheduler.now.shared worker.old.pass }
    requires code { code.now ≡ scheduler.now.shared.setup.checked }
    requires store { Q.is_pass scheduler.now.ready worker.old.qpass }
    requires runs { Runs scheduler.now.shared.setup running [] worker.old.pass }
    requires unrefused { running.refused ≡ None }
    requires asks { Asks scheduler.now.shared.setup.checked scheduler.now.shared.setup.columns
        (act.All request.now) (body_of scheduler.now.shared.setup.checked running.frame.items) }
    ensures store { Q.is_pass scheduler.now.ready worker.new.qpass }
    ensures goes { GoesOn worker.old.pass worker.new.pass }
    ensures served { Serves scheduler.now.shared.setup running result worker.new.pass }
{
    let mut running = running;
    let spawned = scheduler.spawn_all(rt, code, &mut worker.pass, &mut running, request);
    answer(
        scheduler,
        rt,
        code,
        worker,
        running,
        spawned,
        request.to,
        request.retry,
    )
}

// Serves what a running task asks for.
fn serve_one<Q: ReadyStore, R: Wait>(
    scheduler: &Scheduler<Q>,
    rt: &R,
    code: &CheckedCode,
    worker: &mut Worker<Q>,
    running: Running,
    requests: &Requests,
    asked: Asked,
) -> Served
    requires table { IsOf scheduler.now.shared worker.old.pass }
    requires code { code.now ≡ scheduler.now.shared.setup.checked }
    requires store { Q.is_pass scheduler.now.ready worker.old.qpass }
    requires runs { Runs scheduler.now.shared.setup running [] worker.old.pass }
    requires unrefused { running.refused ≡ None }
    requires asks { Asks scheduler.now.shared.setup.checked scheduler.now.shared.setup.columns
        (act_told asked requests.now)
        (body_of scheduler.now.shared.setup.checked running.frame.items) }
    ensures store { Q.is_pass scheduler.now.ready worker.new.qpass }
    ensures goes { GoesOn worker.old.pass worker.new.pass }
    ensures served { Serves scheduler.now.shared.setup running result worker.new.pass }
{
    let mut running = running;
    match asked {
        Asked::Spawn => spawn(scheduler, rt, code, worker, running, &requests.spawn),
        Asked::All => gather(scheduler, rt, code, worker, running, &requests.all),
        Asked::Copy { to, of } => {
            scheduler.copy(code, &mut worker.pass, &mut running, to, of);
            Served::Goes(running)
        }
        Asked::Drop { future } => {
            scheduler.let_go(code, &mut worker.pass, &mut running, future);
            Served::Goes(running)
        }
        Asked::NeedsValue { .. } => Served::Stopped,
        Asked::Again(request) => {
            respawn(scheduler, rt, code, worker, running, request);
            Served::Ended
        }
        Asked::Done(number) => {
            finish(
                scheduler,
                rt,
                code,
                worker,
                running,
                Outcome::Number(number),
            );
            Served::Ended
        }
        Asked::Trap(trap) => {
            finish(scheduler, rt, code, worker, running, Outcome::Trapped(trap));
            Served::Ended
        }
    }
}

/// Runs an activation to its end. False: it stands at an act that is not served.
pub(crate) fn serve<Q: ReadyStore, R: Wait>(
    scheduler: &Scheduler<Q>,
    rt: &R,
    code: &CheckedCode,
    worker: &mut Worker<Q>,
    running: Running,
    requests: &mut Requests,
) -> bool
    requires table { IsOf scheduler.now.shared worker.old.pass }
    requires code { code.now ≡ scheduler.now.shared.setup.checked }
    requires store { Q.is_pass scheduler.now.ready worker.old.qpass }
    requires runs { Runs scheduler.now.shared.setup running [] worker.old.pass }
    requires unrefused { running.refused ≡ None }
    ensures store { Q.is_pass scheduler.now.ready worker.new.qpass }
    ensures goes { GoesOn worker.old.pass worker.new.pass }
    ensures served { EndsServed scheduler.now.shared.setup running result worker.new.pass }
{
    let mut running = running;
    for _ in rt.forever() {
        let asked = scheduler.advance(code, &worker.pass, &mut running, requests);
        match serve_one(scheduler, rt, code, worker, running, requests, asked) {
            Served::Goes(back) => running = back,
            Served::Ended => return true,
            Served::Stopped => return false,
        }
    }
    unreachable!()
}
