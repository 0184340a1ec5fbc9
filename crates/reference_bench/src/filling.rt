//! A table with records.
ghost use Rattle.std.specs.Prelude.{IfOk, IfSome, IsTrue};
ghost use Rattle.step_table.specs.Passes.{IsOf};
ghost use Rattle.reference_bench.specs.Hands.{IsMaking, IsFilled};

use kt_words::{Geometry, Plan};
use sample_programs::program_of;
use std::alloc::{AllocError, Global};
use std::sync::Wait;
use step_table::{Ending, Pass, Shared, Started};
use table_records::{open_maker, ready_record};
use task_syntax::{Columns, Trap, Value};

// A kind without variables, and a root of it.
const PROGRAM: &[u8] = b"ktask 1\nkind one\nstate start\ndone 1\nend\nroot p one\n";

// More activations than there are records.
const LIMIT: u64 = 1_000;

// A pass with more references makes no more records.
const MANY: u64 = 1_000_000;

// The table with the maker, and the unit of that.
fn opened(
    alloc: Global,
    rt: &impl Wait,
    geometry: Geometry,
) -> Result<Option<(Shared, Pass, Started, Vec<u32>)>, AllocError>
    ensures making { IfOk result (λ made. IfSome made (λ t. IsMaking t.0 t.2 t.3.items t.1)) }
{
    let Some(checked) = program_of(alloc, PROGRAM)? else {
        return Ok(None);
    };
    if checked.program().roots.len() != 1 {
        return Ok(None);
    }
    let Some(plan) = Plan::new(geometry, LIMIT, 1) else {
        return Ok(None);
    };
    let Some((shared, pass, maker)) = open_maker(alloc, rt, checked, plan)? else {
        return Ok(None);
    };
    let mut units = Vec::new(alloc);
    units.push(maker.unit())?;
    Ok(Some((shared, pass, maker, units)))
}

// One record more. False: there is no room for it.
fn add_record(
    shared: &Shared,
    rt: &impl Wait,
    pass: &mut Pass,
    maker: &Started,
    units: &mut Vec<u32>,
) -> Result<bool, AllocError>
    requires making { IsMaking shared.now maker.now units.old.items pass.old }
    ensures making { IfOk result
        (λ made. IsTrue made → IsMaking shared.now maker.now units.new.items pass.new) }
{
    if pass.held() > MANY {
        return Ok(false);
    }
    let Some((_ready, future)) = ready_record(shared, rt, pass, maker) else {
        return Ok(false);
    };
    units.push(future.unit())?;
    Ok(true)
}

// So many records more.
fn add_records(
    shared: &Shared,
    rt: &impl Wait,
    pass: &mut Pass,
    maker: &Started,
    units: &mut Vec<u32>,
    records: u32,
) -> Result<bool, AllocError>
    requires making { IsMaking shared.now maker.now units.old.items pass.old }
    ensures making { IfOk result
        (λ made. IsTrue made → IsMaking shared.now maker.now units.new.items pass.new) }
{
    for _record in 0..records {
        if !add_record(shared, rt, pass, maker, units)? {
            return Ok(false);
        }
    }
    Ok(true)
}

// The maker is done too: the pass runs no record then.
fn end(shared: &Shared, pass: &mut Pass, maker: Started, _units: &Vec<u32>)
    requires making { IsMaking shared.now maker _units.now.items pass.old }
    ensures filled { IsFilled shared.now _units.now.items pass.new }
{
    let _finishing = shared.finish(pass, maker, Ending::Gave(Value::Trapped(Trap::Overflow)));
}

/// A table with so many records, and a reference to each: the maker, which is done, and others that
/// are ready. None: there is no room for them.
pub fn filled(
    alloc: Global,
    rt: &impl Wait,
    geometry: Geometry,
    records: u32,
) -> Result<Option<(Shared, Pass, Vec<u32>)>, AllocError>
    ensures filled { IfOk result (λ made. IfSome made (λ t. IsFilled t.0 t.2.items t.1)) }
{
    let Some((shared, pass, maker, units)) = opened(alloc, rt, geometry)? else {
        return Ok(None);
    };
    let mut pass = pass;
    let mut units = units;
    let others = records.saturating_sub(1);
    if !add_records(&shared, rt, &mut pass, &maker, &mut units, others)? {
        return Ok(None);
    }
    end(&shared, &mut pass, maker, &units);
    Ok(Some((shared, pass, units)))
}
