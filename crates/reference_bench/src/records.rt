//! References to the records of a table.
ghost use Rattle.std.specs.Prelude.{◌≡◌, ◌≤◌, ◌<◌, ◌^◌, []};
ghost use Rattle.step_table.specs.Passes.{view, plan, IsOf, IsSame};
ghost use Rattle.step_table.specs.RecordHands.{HasFuture};
ghost use Rattle.reference_bench.specs.Hands.{HasEach};

use crate::filling::filled;
use crate::picks::picks;
use future_refs::{clone_future, drop_future};
use kt_words::Geometry;
use std::io;
use std::rt::Clock;
use std::sync::Wait;
use std::time::{Duration, Instant};
use step_table::{Future, Pass, Shared};

// A pass with more references takes no turn.
const MANY: u64 = 1_000_000;

// One more reference to the record at the unit, and one less.
fn take_turn(shared: &Shared, pass: &mut Pass, unit: u32)
    requires table { IsOf shared.now pass.old }
    requires idle { (view pass.old).runs ≡ [] }
    requires hand { HasFuture (plan shared.now) unit (view pass.old) }
    requires room { pass.old.held < 2 ^ 32 }
    ensures pass { IsSame pass.old pass.new }
    ensures idle { (view pass.new).runs ≡ [] }
    ensures hand { (view pass.new).futures ≡ (view pass.old).futures }
{
    let future = Future::of(pass, unit);
    let clone = clone_future(shared, pass, &future);
    drop_future(shared, pass, clone);
}

// A turn with each of the records that are picked.
fn take_turns(shared: &Shared, pass: &mut Pass, units: &[u32], picks: &[u32])
    requires table { IsOf shared.now pass.old }
    requires idle { (view pass.old).runs ≡ [] }
    requires hand { HasEach (plan shared.now) units.now (view pass.old) }
    requires room { pass.old.held < 2 ^ 32 }
    ensures pass { IsSame pass.old pass.new }
    ensures idle { (view pass.new).runs ≡ [] }
    ensures hand { (view pass.new).futures ≡ (view pass.old).futures }
{
    for pick in picks {
        if let Some(unit) = units.get(*pick as usize) {
            take_turn(shared, pass, *unit);
        }
    }
}

pub fn measure<R: Clock + AllocGlobal + Wait>(
    rt: &R,
    geometry: Geometry,
    records: u32,
    rounds: u32,
) -> io::Result<Option<Duration>>
    requires { 0 < records }
{
    let picks = picks(rt.alloc(), records)?;
    let Some((shared, pass, units)) = filled(rt.alloc(), rt, geometry, records)? else {
        return Ok(None);
    };
    let mut pass = pass;
    if pass.held() > MANY {
        return Ok(None);
    }
    let start = Instant::now(rt)?;
    for _round in 0..rounds {
        take_turns(&shared, &mut pass, units.as_slice(), picks.as_slice());
    }
    Ok(Some(start.elapsed(rt)?))
}
