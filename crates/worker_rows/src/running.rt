//! A program is run by workers.
ghost use Rattle.std.specs.Prelude.{◌≡◌, ◌+◌, ◌<◌, ◌≤◌, [], length, All, IfOk, vec_len};
ghost use Rattle.table_core.specs.Views.{IsIdle};
ghost use Rattle.step_table.specs.Passes.{view, IsOf, IsSameWith};
ghost use Rattle.worker_loop.specs.Serving.{HasWorked};
ghost use Rattle.worker_rows.specs.Lead.{KeepsAll};

use crate::ended::{Ended, see_left, worked_of};
use crate::hosting::host_all;
use frame_code::CheckedCode;
use kt_words::Plan;
use ready_queues::ReadyStore;
use schedule_core::Scheduler;
use std::alloc::{AllocError, Global};
use std::sync::Wait;
use std::thread::Threads;
use step_table::Pass;
use task_syntax::{Checked, Columns};
use worker_loop::{NoGate, Worker, run_all};

/// Two workers of one: the first keeps what the one has, the second is idle.
pub fn split_worker<Q: ReadyStore>(
    scheduler: &Scheduler<Q>,
    worker: Worker<Q>,
) -> (Worker<Q>, Worker<Q>)
    requires table { IsOf scheduler.now.shared worker.pass }
    requires store { Q.is_pass scheduler.now.ready worker.qpass }
    requires split { Q.may_split worker.qpass }
    requires splits { 0 < worker.pass.splits }
    ensures tables { IsOf scheduler.now.shared result.0.pass × IsOf scheduler.now.shared result.1.pass }
    ensures stores { Q.is_pass scheduler.now.ready result.0.qpass
        × Q.is_pass scheduler.now.ready result.1.qpass }
    ensures split { Q.may_split result.0.qpass }
    ensures splits { result.0.pass.splits + 1 ≡ worker.pass.splits }
    ensures keeps { KeepsAll (view worker.pass) (view result.0.pass) }
    ensures idle { IsIdle (view result.1.pass) }
{
    let (pass, new_pass) = scheduler.shared().split(worker.pass);
    let (qpass, new_qpass) = scheduler.ready().split(worker.qpass);
    let first = Worker {
        pass,
        qpass,
        worked: worker.worked,
    };
    let second = Worker {
        pass: new_pass,
        qpass: new_qpass,
        worked: None,
    };
    (first, second)
}

/// So many idle workers beside one, which keeps what it has.
pub fn split_workers<Q: ReadyStore>(
    alloc: Global,
    scheduler: &Scheduler<Q>,
    worker: Worker<Q>,
    count: u32,
) -> Result<(Worker<Q>, Vec<Worker<Q>>), AllocError>
    requires table { IsOf scheduler.now.shared worker.pass }
    requires store { Q.is_pass scheduler.now.ready worker.qpass }
    requires split { Q.may_split worker.qpass }
    requires splits { count ≤ worker.pass.splits }
    ensures count { IfOk result (λ made. vec_len made.1 ≡ count) }
    ensures first { IfOk result (λ made. IsOf scheduler.now.shared made.0.pass) }
    ensures keeps { IfOk result (λ made. KeepsAll (view worker.pass) (view made.0.pass)) }
    ensures tables { IfOk result
        (λ made. All (λ w. IsOf scheduler.now.shared w.pass) made.1.items) }
    ensures stores { IfOk result
        (λ made. All (λ w. Q.is_pass scheduler.now.ready w.qpass) made.1.items) }
    ensures idle { IfOk result (λ made. All (λ w. IsIdle (view w.pass)) made.1.items) }
{
    let mut first = worker;
    let mut workers = Vec::new(alloc);
    'workers: for number in 0..count {
        let (rest, second) = split_worker(scheduler, first);
        first = rest;
        workers.push(second)?;
    }
    Ok((first, workers))
}

/// Runs what is ready by so many workers, beside the one that is handed in.
pub fn run_workers<Q: ReadyStore, R: Wait + Threads + Sync>(
    alloc: Global,
    rt: &R,
    scheduler: &Scheduler<Q>,
    code: &CheckedCode,
    worker: Worker<Q>,
    count: u32,
) -> Result<(Worker<Q>, Vec<Worker<Q>>), AllocError>
    requires table { IsOf scheduler.now.shared worker.pass }
    requires code { code.now ≡ scheduler.now.shared.setup.checked }
    requires store { Q.is_pass scheduler.now.ready worker.qpass }
    requires split { Q.may_split worker.qpass }
    requires splits { count ≤ worker.pass.splits }
    ensures count { IfOk result (λ made. vec_len made.1 ≡ count) }
    ensures first { IfOk result (λ made. IsOf scheduler.now.shared made.0.pass) }
    ensures keeps { IfOk result (λ made. KeepsAll (view worker.pass) (view made.0.pass)) }
    ensures tables { IfOk result
        (λ made. All (λ w. IsOf scheduler.now.shared w.pass) made.1.items) }
    ensures stores { IfOk result
        (λ made. All (λ w. Q.is_pass scheduler.now.ready w.qpass) made.1.items) }
    ensures worked { IfOk result (λ made. All (λ w. HasWorked w.worked w.pass) made.1.items) }
{
    let (first, mut workers) = split_workers(alloc, scheduler, worker, count)?;
    run_all(scheduler, rt, code, workers.as_mut_slice(), &NoGate);
    Ok((first, workers))
}

/// The first worker of a new scheduler, whose pass has no references.
pub fn first_worker<Q: ReadyStore>(pass: Pass, qpass: Q::QPass) -> Worker<Q>
    requires none { (view pass).futures ≡ [] }
    ensures pass { IsSameWith 0 pass result.pass }
    ensures view { view result.pass ≡ view pass }
    ensures qpass { result.qpass ≡ qpass }
{
    let mut pass = pass;
    pass.keep_count(0);
    Worker {
        pass,
        qpass,
        worked: None,
    }
}

/// Runs a program by so many workers, each on a thread of its own, and answers what is seen at the
/// end.
pub fn run_program<Q: ReadyStore + Drop, R: Wait + Threads + Sync>(
    alloc: Global,
    rt: &R,
    checked: Checked,
    plan: Plan,
    store: (Q, Q::QPass),
    workers: u32,
) -> Result<Ended, AllocError>
    requires roots { plan.roots ≡ length checked.roots }
    requires store { Q.is_pass store.0 store.1 }
    requires split { Q.may_split store.1 }
    requires workers { workers ≤ 4095 }
    ensures roots { IfOk result (λ ended. vec_len ended.roots ≡ length checked.roots) }
    ensures workers { IfOk result (λ ended. vec_len ended.worked ≡ workers) }
{
    let (ready, qpass) = store;
    let columns = Columns::none(alloc);
    let (scheduler, pass) = Scheduler::new(alloc, checked, columns, plan, ready)?;
    let code = CheckedCode::new(alloc, scheduler.shared().checked())?;
    let mut worker = first_worker(pass, qpass);
    let roots = host_all(alloc, rt, &scheduler, &code, &mut worker)?;
    let (mut first, workers) = run_workers(alloc, rt, &scheduler, &code, worker, workers)?;
    let left = see_left(&scheduler, &mut first.pass);
    let worked = worked_of(alloc, workers.as_slice())?;
    Ok(Ended {
        roots,
        worked,
        left,
    })
}
