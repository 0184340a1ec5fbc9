//! Tables to test on: one superblock of eight units.
ghost use Rattle.std.specs.Prelude.{◌≡◌, ◌≤◌, IfOk};
ghost use Rattle.step_table.specs.Passes.{view, IsOf};
ghost use Rattle.reference_rows.specs.Hands.{HasMaker};

use sample_programs::{plan_of, program_of};
use std::alloc::Global;
use std::sync::Wait;
use std::test::Fail;
use step_table::{Pass, Shared, Started};
use table_records::open_maker;
use task_syntax::Columns;

// Two roots, and a kind with one state.
const PROGRAM: &[u8] = b"ktask 1\nkind one\nstate start\ndone 1\nend\nroot p one\nroot q one\n";

// More activations than a test has.
const LIMIT: u64 = 100;

/// A table for a program with two roots.
pub fn table(alloc: Global) -> Result<(Shared, Pass), Fail>
    ensures { IfOk result (λ made. IsOf made.0 made.1) }
{
    let checked = program_of(alloc, PROGRAM)?.ok_or("no program")?;
    let plan = plan_of(&checked, 1, 8, LIMIT).ok_or("no plan")?;
    let (shared, pass) = Shared::new(alloc, checked, Columns::none(alloc), plan)?;
    Ok((shared, pass))
}

/// The same table with the record of the first root, which runs and makes others.
pub fn opened(rt: &impl Wait, alloc: Global) -> Result<(Shared, Pass, Started), Fail>
    ensures table { IfOk result (λ made. IsOf made.0 made.1) }
    ensures maker { IfOk result (λ made. HasMaker made.0.setup made.2 (view made.1)) }
{
    let checked = program_of(alloc, PROGRAM)?.ok_or("no program")?;
    let plan = plan_of(&checked, 1, 8, LIMIT).ok_or("no plan")?;
    let made = open_maker(alloc, rt, checked, plan)?.ok_or("no maker")?;
    Ok(made)
}
