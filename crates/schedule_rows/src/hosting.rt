ghost use Rattle.std.specs.Prelude.{◌≡◌, ◌+◌, ◌≤◌, ◌^◌, IfOk, length, vec_len};
ghost use Rattle.step_table.specs.Passes.{view, IsOf, IsSame};
ghost use Rattle.schedule_rows.specs.Asked.{HasAsked};

use frame_code::CheckedCode;
use kt_words::Plan;
use ready_queues::ReadyStore;
use schedule_core::{HostSpawned, Scheduler};
use std::alloc::{AllocError, Global};
use std::sync::Wait;
use step_table::Pass;
use task_syntax::{Checked, Columns};

/// Asks for the roots of the program, one after the other, and answers what came of each.
pub fn host_roots<Q: ReadyStore>(
    alloc: Global,
    rt: &impl Wait,
    scheduler: &Scheduler<Q>,
    code: &CheckedCode,
    pass: &mut Pass,
) -> Result<Vec<HostSpawned>, AllocError>
    requires table { IsOf scheduler.now.shared pass.old }
    requires code { code.now ≡ scheduler.now.shared.setup.checked }
    requires roots { scheduler.now.shared.setup.plan.roots ≡ length code.now.roots }
    requires none { HasAsked scheduler.now.shared.setup 0 (view pass.old) }
    requires room { pass.old.held + 128 ≤ 2 ^ 32 }
    ensures pass { IfOk result (λ _. IsSame pass.old pass.new) }
    ensures each { IfOk result (λ told. vec_len told ≡ length code.now.roots) }
    ensures asked { IfOk result
        (λ told. HasAsked scheduler.now.shared.setup (vec_len told) (view pass.new)) }
{
    let mut told = Vec::new(alloc);
    let roots = code.program().roots.as_slice();
    'roots: for root in 0..roots.len() {
        let one = scheduler.host_spawn(rt, code, pass, root as u8);
        told.push(one)?;
    }
    Ok(told)
}

/// Asks for all roots of a program, on a table of its own, and answers what came of each.
pub fn host_program<Q: ReadyStore + Drop>(
    alloc: Global,
    rt: &impl Wait,
    checked: Checked,
    plan: Plan,
    ready: Q,
) -> Result<Vec<HostSpawned>, AllocError>
    requires roots { plan.roots ≡ length checked.roots }
{
    let columns = Columns::none(alloc);
    let (scheduler, mut pass) = Scheduler::new(alloc, checked, columns, plan, ready)?;
    pass.keep_count(0);
    let code = CheckedCode::new(alloc, scheduler.shared().checked())?;
    host_roots(alloc, rt, &scheduler, &code, &mut pass)
}
