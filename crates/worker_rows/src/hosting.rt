//! All roots of a program are asked for and published.
ghost use Rattle.std.specs.Prelude.{◌≡◌, ◌+◌, ◌≤◌, ◌^◌, IfOk, length, vec_len};
ghost use Rattle.schedule_core.specs.FrameWords.{OnlySees};
ghost use Rattle.schedule_rows.specs.Asked.{HasAsked};
ghost use Rattle.step_table.specs.Passes.{view, IsOf, IsSame};
ghost use Rattle.worker_rows.specs.Lead.{entry_told, PublishesAny};

use frame_code::CheckedCode;
use ready_queues::{Entry, ReadyStore};
use schedule_core::{HostSpawned, Scheduler};
use schedule_rows::host_roots;
use std::alloc::{AllocError, Global};
use std::sync::Wait;
use worker_loop::Worker;

// The entry of a root that waits for nothing.
fn entry_of(told: HostSpawned) -> Option<Entry>
    ensures { result ≡ entry_told told }
{
    match told {
        HostSpawned::Named(entry) => entry,
        _ => None,
    }
}

// Publishes a root that waits for nothing.
fn publish_root<Q: ReadyStore, R: Wait>(
    rt: &R,
    scheduler: &Scheduler<Q>,
    worker: &mut Worker<Q>,
    told: HostSpawned,
)
    requires table { IsOf scheduler.now.shared worker.old.pass }
    requires store { Q.is_pass scheduler.now.ready worker.old.qpass }
    ensures pass { IsSame worker.old.pass worker.new.pass }
    ensures store { Q.is_pass scheduler.now.ready worker.new.qpass }
    ensures split { Q.may_split worker.old.qpass → Q.may_split worker.new.qpass }
    ensures worked { worker.new.worked ≡ worker.old.worked }
    ensures seen { OnlySees (view worker.old.pass) (view worker.new.pass) }
    ensures published { PublishesAny (Q.lanes scheduler.now.ready) (Q.number worker.old.qpass)
        (Q.saw scheduler.now.ready worker.new.qpass) (entry_told told)
        (view worker.old.pass) (view worker.new.pass) }
{
    match entry_of(told) {
        Some(entry) => scheduler.publish(rt, &mut worker.pass, &mut worker.qpass, entry),
        None => {}
    }
}

/// Publishes the roots that wait for nothing, in their order.
pub fn publish_roots<Q: ReadyStore, R: Wait>(
    rt: &R,
    scheduler: &Scheduler<Q>,
    worker: &mut Worker<Q>,
    told: &[HostSpawned],
)
    requires table { IsOf scheduler.now.shared worker.old.pass }
    requires store { Q.is_pass scheduler.now.ready worker.old.qpass }
    ensures pass { IsSame worker.old.pass worker.new.pass }
    ensures store { Q.is_pass scheduler.now.ready worker.new.qpass }
    ensures split { Q.may_split worker.old.qpass → Q.may_split worker.new.qpass }
    ensures worked { worker.new.worked ≡ worker.old.worked }
    ensures seen { OnlySees (view worker.old.pass) (view worker.new.pass) }
{
    'roots: for one in told {
        publish_root(rt, scheduler, worker, *one);
    }
}

/// Asks for all roots of the program and publishes them. It answers what came of each.
pub fn host_all<Q: ReadyStore, R: Wait>(
    alloc: Global,
    rt: &R,
    scheduler: &Scheduler<Q>,
    code: &CheckedCode,
    worker: &mut Worker<Q>,
) -> Result<Vec<HostSpawned>, AllocError>
    requires table { IsOf scheduler.now.shared worker.old.pass }
    requires code { code.now ≡ scheduler.now.shared.setup.checked }
    requires store { Q.is_pass scheduler.now.ready worker.old.qpass }
    requires roots { scheduler.now.shared.setup.plan.roots ≡ length code.now.roots }
    requires none { HasAsked scheduler.now.shared.setup 0 (view worker.old.pass) }
    requires room { worker.old.pass.held + 128 ≤ 2 ^ 32 }
    ensures pass { IfOk result (λ _. IsSame worker.old.pass worker.new.pass) }
    ensures store { IfOk result (λ _. Q.is_pass scheduler.now.ready worker.new.qpass) }
    ensures split { IfOk result (λ _. Q.may_split worker.old.qpass → Q.may_split worker.new.qpass) }
    ensures each { IfOk result (λ told. vec_len told ≡ length code.now.roots) }
    ensures asked { IfOk result
        (λ told. HasAsked scheduler.now.shared.setup (vec_len told) (view worker.new.pass)) }
{
    let told = host_roots(alloc, rt, scheduler, code, &mut worker.pass)?;
    publish_roots(rt, scheduler, worker, told.as_slice());
    Ok(told)
}
