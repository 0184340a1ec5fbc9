ghost use Rattle.std.specs.Prelude.{◌≡◌, IfOk, length};
ghost use Rattle.record_core.specs.EndCounts.{EndCounts};
ghost use Rattle.record_core.specs.EndFaithful.{EndFaithful};
ghost use Rattle.record_core.specs.EndSeen.{plan_of};
ghost use Rattle.record_core.specs.EndSound.{EndComplete, EndSound};
ghost use Rattle.run_model.specs.End.{EndsAs};
ghost use Rattle.plain_state.specs.Engine.{unused_engine};
ghost use Rattle.plain_engine.specs.Going.{ComesToEnd, IsIdle};
ghost use Rattle.plain_engine.specs.Roots.{AsksAll, MayAskAll};

use crate::desk::Desk;
use crate::end::PlainEnd;
use crate::engine::Engine;
use frame_code::{CheckedCode, Frame, Requests};
use kt_words::Plan;
use std::alloc::Global;
use task_syntax::{Checked, Columns, Memory};

impl Engine {
    // Asks for each root, in their order.
    fn ask_roots(&mut self, checked: &CheckedCode)
        requires { MayAskAll checked.now self.old }
        ensures { AsksAll checked.now self.old self.new }
    {
        'roots: for root in checked.program().roots.as_slice() {
            self.ask_root(checked, root);
        }
    }

    // Turns, until none may start.
    fn turns(&mut self, checked: &CheckedCode, columns: &Columns)
        requires { IsIdle checked.now columns.now self.old }
        ensures { ComesToEnd checked.now columns.now self.old self.new }
    {
        let mut frame = Frame::new();
        let mut desk = Desk::new();
        let mut requests = Requests::new();
        'turns: loop {
            if !self.turn(checked, columns, &mut frame, &mut desk, &mut requests) {
                return;
            }
        }
    }
}

/// Runs a program with columns to its end, on an engine to which nothing has happened.
fn run_to_end(checked: &CheckedCode, columns: &Columns, plan: Plan, engine: Engine) -> PlainEnd
    requires roots { plan.roots ≡ length checked.now.roots }
    requires unused { engine ≡ unused_engine (plan_of plan) }
    ensures sound { EndSound checked.now columns.now (plan_of plan) result }
    ensures answers { EndsAs checked.now columns.now (plan_of plan) result }
    ensures faithful { EndFaithful checked.now result }
    ensures complete { EndComplete checked.now columns.now (plan_of plan) result }
    ensures counts { EndCounts checked.now columns.now result }
{
    // The program is well formed and valid.
    let _program = checked.program();
    let mut engine = engine;
    engine.ask_roots(checked);
    engine.turns(checked, columns);
    PlainEnd::new(plan.geometry, engine)
}

/// The runs on one thread.
#[derive(Debug, Clone, Copy)]
pub struct PlainRun;

impl PlainRun {
    /// Runs a program with columns to its end, within a plan. All memory is taken before the first
    /// root is asked for.
    pub fn run(
        alloc: Global,
        checked: &Checked,
        columns: &Columns,
        plan: Plan,
    ) -> Result<PlainEnd, Memory>
        requires { plan.roots ≡ length checked.now.roots }
        ensures sound { IfOk result (EndSound checked.now columns.now (plan_of plan)) }
        ensures answers { IfOk result (EndsAs checked.now columns.now (plan_of plan)) }
        ensures faithful { IfOk result (EndFaithful checked.now) }
        ensures complete { IfOk result (EndComplete checked.now columns.now (plan_of plan)) }
        ensures counts { IfOk result (EndCounts checked.now columns.now) }
    {
        let code = CheckedCode::new(alloc, checked)?;
        let engine = Engine::new(alloc, plan)?;
        Ok(run_to_end(&code, columns, plan, engine))
    }
}
