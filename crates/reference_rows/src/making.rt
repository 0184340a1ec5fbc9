//! Records that run or are done, made by a maker.
ghost use Rattle.std.specs.Prelude.{◌≡◌, ◌<◌, ◌≤◌, ◌+◌, IfSome};
ghost use Rattle.step_table.specs.Passes.{view, plan, IsOf, IsSame};
ghost use Rattle.table_records.specs.Makers.{IsMaker};
ghost use Rattle.reference_rows.specs.Hands.{IsRunning, Runs, Settles, Dones};

use std::sync::Wait;
use step_table::{Ending, Finishing, Future, Pass, Shared, Started};
use table_records::ready_record;
use task_syntax::{Trap, Value};

// A pass with more references makes no more records.
const MANY: u64 = 1_000_000;

/// Makes a record that runs. None: there is no room for it.
pub fn running_record(
    shared: &Shared,
    rt: &impl Wait,
    pass: &mut Pass,
    maker: &Started,
) -> Option<(Started, Future)>
    requires table { IsOf shared.now pass.old }
    requires maker { IsMaker shared.now.setup maker.now (view pass.old) }
    ensures table { IsOf shared.now pass.new }
    ensures run { IfSome result (λ made.
        Runs (plan shared.now) made.0 made.1.unit (view pass.old) (view pass.new)) }
{
    if pass.held() > MANY {
        return None;
    }
    let (ready, future) = ready_record(shared, rt, pass, maker)?;
    match shared.take_ready(pass, future.unit(), ready) {
        Ok(started) => Some((started, future)),
        Err(_) => None,
    }
}

/// Ends the task of a record that runs. Its list is closed then, and it is counted out.
pub fn settle(shared: &Shared, pass: &mut Pass, started: Started) -> Finishing
    requires table { IsOf shared.now pass.old }
    requires running { IsRunning (plan shared.now) started (view pass.old) }
    ensures pass { IsSame pass.old pass.new }
    ensures unit { result.unit ≡ started.unit }
    ensures settled { Settles started.unit (view pass.old) (view pass.new) }
{
    let ending = Ending::Gave(Value::Trapped(Trap::Overflow));
    let finishing = shared.finish(pass, started, ending);
    let (closing, _chain) = shared.swap_head(pass, finishing);
    shared.live_down(pass, &closing);
    closing
}

/// Makes a record that is done, and whose list is closed. None: as for one that runs.
pub fn done_record(
    shared: &Shared,
    rt: &impl Wait,
    pass: &mut Pass,
    maker: &Started,
) -> Option<(Finishing, Future)>
    requires table { IsOf shared.now pass.old }
    requires maker { IsMaker shared.now.setup maker.now (view pass.old) }
    ensures table { IsOf shared.now pass.new }
    ensures done { IfSome result (λ made.
        Dones made.0 made.1.unit (view pass.old) (view pass.new)) }
{
    let (started, future) = running_record(shared, rt, pass, maker)?;
    let finishing = settle(shared, pass, started);
    Some((finishing, future))
}
