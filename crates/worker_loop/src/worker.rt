//! Workers, and the loop of each.
ghost use Rattle.std.specs.Prelude.{◌≡◌, All};
ghost use Rattle.table_core.specs.Views.{IsIdle};
ghost use Rattle.step_table.specs.Passes.{view, IsOf};
ghost use Rattle.worker_loop.specs.Serving.{Works, HasWorked};
ghost use Rattle.worker_loop.specs.Working.{GoesOn};

use crate::gate::Gate;
use crate::turn::{Turn, take_turn};
use frame_code::{CheckedCode, Requests};
use ready_queues::ReadyStore;
use schedule_core::Scheduler;
use std::sync::Wait;
use std::thread;
use std::thread::Threads;
use step_table::Pass;

/// What a worker has: a pass of the table and one of the ready store.
#[derive(Drop)]
pub struct Worker<Q: ReadyStore> {
    pub pass: Pass,
    pub qpass: Q::QPass,
    /// What became of its last work, if it worked.
    pub worked: Option<Worked>,
}

/// What became of a worker's work.
#[derive(Debug, Clone, Copy, PartialEq, Eq)]
pub enum Worked {
    /// No record lives any more.
    Done,
    /// The activation with this number stands at an act that is not served, and is the worker's.
    Stopped(u32),
}

/// Takes what is ready and runs it, until no record lives any more.
pub fn work<Q: ReadyStore, G: Gate, R: Wait>(
    scheduler: &Scheduler<Q>,
    rt: &R,
    code: &CheckedCode,
    worker: &mut Worker<Q>,
    gate: &G,
) -> Worked
    requires table { IsOf scheduler.now.shared worker.old.pass }
    requires code { code.now ≡ scheduler.now.shared.setup.checked }
    requires store { Q.is_pass scheduler.now.ready worker.old.qpass }
    requires idle { IsIdle (view worker.old.pass) }
    ensures store { Q.is_pass scheduler.now.ready worker.new.qpass }
    ensures goes { GoesOn worker.old.pass worker.new.pass }
    ensures works { Works result worker.new.pass }
{
    let mut requests = Requests::new();
    worker.pass.keep_count(0);
    for _ in rt.forever() {
        match take_turn(scheduler, rt, code, worker, gate, &mut requests) {
            Turn::Went => {}
            Turn::Over => return Worked::Done,
            Turn::Stopped(number) => return Worked::Stopped(number),
        }
    }
    unreachable!()
}

// The work of a worker, which keeps what became of it.
fn work_once<Q: ReadyStore, G: Gate, R: Wait>(
    scheduler: &Scheduler<Q>,
    rt: &R,
    code: &CheckedCode,
    worker: &mut Worker<Q>,
    gate: &G,
)
    requires table { IsOf scheduler.now.shared worker.old.pass }
    requires code { code.now ≡ scheduler.now.shared.setup.checked }
    requires store { Q.is_pass scheduler.now.ready worker.old.qpass }
    requires idle { IsIdle (view worker.old.pass) }
    ensures store { Q.is_pass scheduler.now.ready worker.new.qpass }
    ensures goes { GoesOn worker.old.pass worker.new.pass }
    ensures worked { HasWorked worker.new.worked worker.new.pass }
{
    let worked = work(scheduler, rt, code, worker, gate);
    worker.worked = Some(worked);
}

/// The work of each worker, on a thread of its own. Where no thread can be made, one works after
/// the other.
pub fn run_all<Q: ReadyStore, G: Gate, R: Wait + Threads + Sync>(
    scheduler: &Scheduler<Q>,
    rt: &R,
    code: &CheckedCode,
    workers: &mut [Worker<Q>],
    gate: &G,
)
    requires code { code.now ≡ scheduler.now.shared.setup.checked }
    requires tables { All (λ w. IsOf scheduler.now.shared w.pass) workers.old }
    requires stores { All (λ w. Q.is_pass scheduler.now.ready w.qpass) workers.old }
    requires idle { All (λ w. IsIdle (view w.pass)) workers.old }
    ensures tables { All (λ w. IsOf scheduler.now.shared w.pass) workers.new }
    ensures stores { All (λ w. Q.is_pass scheduler.now.ready w.qpass) workers.new }
    ensures worked { All (λ w. HasWorked w.worked w.pass) workers.new }
{
    let threads = workers.len();
    if threads == 0 {
        return;
    }
    thread::for_each_mut(
        rt,
        workers,
        threads,
        &|_, worker| -> ()
            requires table { IsOf scheduler.now.shared worker.old.pass }
            requires code { code.now ≡ scheduler.now.shared.setup.checked }
            requires store { Q.is_pass scheduler.now.ready worker.old.qpass }
            requires idle { IsIdle (view worker.old.pass) }
            ensures left { IsOf scheduler.entry.now.shared worker.new.pass
                × Q.is_pass scheduler.entry.now.ready worker.new.qpass
                × HasWorked worker.new.worked worker.new.pass }
        { work_once(scheduler, rt, code, worker, gate) },
    );
}
