ghost use Rattle.std.specs.Prelude.{◌≡◌, ◌≤◌, ◌+◌, ◌<◌, [], length, IfOk};
ghost use Rattle.std.specs.Thread.{IsSync};
ghost use Rattle.table_core.specs.Views.{HasOnlyBlocks, first_view};
ghost use Rattle.step_table.specs.Passes.{view, plan, IsOf, IsSame};

use crate::{Allocated, allocate, release};
use kt_words::{Geometry, Plan};
use std::alloc::{AllocError, Global};
use std::sync::Wait;
use std::test::Fail;
use std::thread::{Threads, join};
use step_table::{Pass, Shared};
use task_syntax::{Checked, Columns, List, Name, Program};

const ROUNDS: u32 = 10_000;

// A table for a program without kinds and roots.
pub fn table(alloc: Global, geometry: Geometry) -> Result<(Shared, Pass), Fail>
    ensures pass { IfOk result (λ made. IsOf made.0 made.1 × (view made.1 ≡ first_view)) }
    ensures splits { IfOk result (λ made. made.1.splits ≡ 4095) }
{
    let plan = Plan::new(geometry, 1, 0).ok_or("no plan")?;
    let program = Program {
        kinds: List::new(alloc),
        roots: List::new(alloc),
    };
    let (shared, pass) = Shared::new(alloc, Checked::seal(program), Columns::none(alloc), plan)?;
    Ok((shared, pass))
}

// A block is taken and given back.
fn turn(rt: &impl Wait, shared: &Shared, pass: &mut Pass, class: u8)
    requires table { IsOf shared.now pass.old }
    requires idle { HasOnlyBlocks (view pass.old) }
    requires class { class ≤ 3 }
    ensures pass { IsSame pass.old pass.new }
    ensures idle { HasOnlyBlocks (view pass.new) }
{
    match allocate(shared, rt, pass, class) {
        Allocated::Block(block) => release(shared, pass, block),
        Allocated::Null => {}
    }
}

// One thread takes a block and gives it back, over and over, in classes 0 to 3 by turns.
fn spin(rt: &impl Wait, shared: &Shared, pass: Pass) -> Pass
    requires table { IsOf shared.now pass }
    requires idle { HasOnlyBlocks (view pass) }
    ensures table { IsOf shared.now result }
    ensures idle { HasOnlyBlocks (view result) }
    ensures splits { result.splits ≡ pass.splits }
{
    let mut pass = pass;
    for round in 0..ROUNDS {
        turn(rt, shared, &mut pass, (round % 4) as u8);
    }
    pass
}

// So many threads, each with a pass of its own.
#[cycle(spins)]
fn spin_all<R: Threads + Wait + Sync>(rt: &R, shared: &Shared, pass: Pass, threads: u32) -> Pass
    requires table { IsOf shared.now pass }
    requires idle { HasOnlyBlocks (view pass) }
    requires few { threads ≤ pass.splits + 1 }
    ensures table { IsOf shared.now result }
    ensures idle { HasOnlyBlocks (view result) }
    ensures splits { result.splits ≡ pass.splits }
{
    if threads <= 1 {
        return spin(rt, shared, pass);
    }
    let (kept, other) = shared.split(pass);
    let one = || -> Pass
        requires { IsSync R.row × IsOf shared.now other × HasOnlyBlocks (view other) }
        ensures { IsOf shared.entry.now result × HasOnlyBlocks (view result)
            × (result.splits ≡ other.splits) }
    { spin(rt, shared, other) };
    let rest = || -> Pass
        requires { IsSync R.row × IsOf shared.now kept × HasOnlyBlocks (view kept)
            × (threads ≤ kept.splits + 2) × (1 < threads) }
        ensures { IsOf shared.entry.now result × HasOnlyBlocks (view result)
            × (result.splits ≡ kept.splits) }
    { spin_all(rt, shared, kept, threads - 1) };
    let (kept, other) = join(rt, rest, one);
    shared.join(kept, other)
}

fn counts(shared: &Shared, pass: &mut Pass) -> u64
    requires table { IsOf shared.now pass.old }
{
    let mut all = 0u64;
    for superblock in 0..shared.plan().geometry.superblocks {
        let word = shared.look(pass, superblock, 0);
        all = all.saturating_add(u64::from(word.count));
    }
    all
}

#[test]
fn gives_and_takes_back(rt: HostRuntime) -> Result<(), Fail> {
    let geometry = Geometry::new(2, 8).ok_or("no geometry")?;
    let (shared, mut pass) = table(rt.alloc(), geometry)?;
    let Allocated::Block(first) = allocate(&shared, &rt, &mut pass, 3) else {
        panic!(rt; "no block")
    };
    assert_eq!(rt; (first.unit(), first.class()), (0, 3));
    let Allocated::Block(second) = allocate(&shared, &rt, &mut pass, 0) else {
        panic!(rt; "no second block")
    };
    assert_eq!(rt; (second.unit(), second.class()), (8, 0));
    let Allocated::Null = allocate(&shared, &rt, &mut pass, 2) else {
        panic!(rt; "a third block")
    };
    assert_eq!(rt; pass.last_look(0).word, 1 + 3 * 65_536 + 1_048_576);
    assert_eq!(rt; pass.last_look(1).word, 1 + 1_048_576);
    release(&shared, &mut pass, first);
    let Allocated::Block(third) = allocate(&shared, &rt, &mut pass, 2) else {
        panic!(rt; "no third block")
    };
    assert_eq!(rt; third.unit(), 0);
    Ok(())
}

#[test]
fn tells_what_it_was_made_with(rt: HostRuntime) -> Result<(), Fail> {
    let geometry = Geometry::new(1, 512).ok_or("no geometry")?;
    let (shared, pass) = table(rt.alloc(), geometry)?;
    assert_eq!(rt; shared.plan().geometry.units, 512);
    assert_eq!(rt; shared.checked().program().roots.as_slice().len(), 0);
    assert_eq!(rt; shared.columns().rows(&Name::new(&[97])), 0);
    assert_eq!(rt; pass.splits(), 4095);
    Ok(())
}

#[test]
fn threads_leave_no_block(rt: HostRuntime) -> Result<(), Fail> {
    for threads in [1, 2, 3, 4, 8, 64] {
        let geometry = Geometry::new(4, 8).ok_or("no geometry")?;
        let (shared, pass) = table(rt.alloc(), geometry)?;
        let mut pass = spin_all(&rt, &shared, pass, threads);
        assert_eq!(rt; counts(&shared, &mut pass), 0);
        assert_eq!(rt; pass.splits(), 4095);
    }
    Ok(())
}
