ghost use Rattle.std.specs.Prelude.{◌≡◌, length};
ghost use Rattle.record_core.specs.EndSeen.{plan_of};
ghost use Rattle.task_syntax.specs.Form.{IsWellFormed};
ghost use Rattle.ktask_cli.specs.Order.{bench_plan};

use kt_words::{Geometry, Plan};
use task_syntax::Checked;

/// The plan that was chosen, for the roots of a program.
pub(crate) fn run_plan(chosen: Plan, checked: &Checked) -> Plan
    ensures plan { plan_of result ≡ plan_of chosen }
    ensures roots { result.roots ≡ length checked.now.roots }
    ensures formed { IsWellFormed checked.now }
{
    let roots = checked.program().roots.len() as u8;
    Plan::new(chosen.geometry, chosen.limit, roots).unwrap()
}

/// The plan of a program of a family, for no roots yet.
pub(crate) fn bench_plan() -> Plan
    ensures { plan_of result ≡ bench_plan }
{
    let geometry = Geometry::new(1024, 512).unwrap();
    Plan::new(geometry, 1_000_000, 0).unwrap()
}
