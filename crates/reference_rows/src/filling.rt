//! A table whose records are all done, with their hand.
ghost use Rattle.std.specs.Prelude.{◌≡◌, ◌<◌, ◌∷◌, [], IfOk};
ghost use Rattle.step_table.specs.Passes.{view, plan, IsOf};
ghost use Rattle.table_records.specs.Makers.{IsMaker};
ghost use Rattle.reference_rows.specs.Hands.{HasRecords, IsHand, IsAlone};

use crate::hand::Hand;
use crate::making::{done_record, settle};
use crate::tables::opened;
use std::alloc::Global;
use std::sync::Wait;
use std::test::Fail;
use step_table::{Pass, Shared, Started};

// The hand of a pass that has one reference, to the record at the unit.
fn first_hand(pass: &Pass, unit: u32) -> Hand
    requires unit { unit < 8 }
    requires refers { (view pass.now).futures ≡ unit ∷ [] }
    ensures { HasRecords result.futures result.own (view pass.now) }
{
    let mut futures = [0; 8];
    futures[unit as usize] = 1;
    Hand {
        futures,
        own: [None, None, None, None, None, None, None, None],
    }
}

// One record more that is done.
fn add_done(
    shared: &Shared,
    rt: &impl Wait,
    pass: &mut Pass,
    maker: &Started,
    hand: &mut Hand,
) -> Result<(), Fail>
    requires table { IsOf shared.now pass.old }
    requires maker { IsMaker shared.now.setup maker.now (view pass.old) }
    requires hand { HasRecords hand.old.futures hand.old.own (view pass.old) }
    ensures table { IfOk result (λ _. IsOf shared.now pass.new) }
    ensures runs { IfOk result (λ _. (view pass.new).runs ≡ (view pass.old).runs) }
    ensures hand { IfOk result (λ _. HasRecords hand.new.futures hand.new.own (view pass.new)) }
{
    let Some((finishing, future)) = done_record(shared, rt, pass, maker) else {
        return Err("no record".into());
    };
    let unit = future.unit();
    if unit >= 8 {
        return Err("no such place".into());
    }
    let references = hand.futures[unit as usize];
    if references >= 1_000_000 {
        return Err("too many references".into());
    }
    hand.own[unit as usize] = Some(finishing);
    hand.futures[unit as usize] = references + 1;
    Ok(())
}

// So many records more.
fn add_all(
    shared: &Shared,
    rt: &impl Wait,
    pass: &mut Pass,
    maker: &Started,
    hand: &mut Hand,
    records: u32,
) -> Result<(), Fail>
    requires table { IsOf shared.now pass.old }
    requires maker { IsMaker shared.now.setup maker.now (view pass.old) }
    requires hand { HasRecords hand.old.futures hand.old.own (view pass.old) }
    ensures table { IfOk result (λ _. IsOf shared.now pass.new) }
    ensures runs { IfOk result (λ _. (view pass.new).runs ≡ (view pass.old).runs) }
    ensures hand { IfOk result (λ _. HasRecords hand.new.futures hand.new.own (view pass.new)) }
{
    for _record in 0..records {
        add_done(shared, rt, pass, maker, hand)?;
    }
    Ok(())
}

// The maker is done too: the pass runs no record then.
fn settle_maker(shared: &Shared, pass: &mut Pass, maker: Started, hand: &mut Hand)
    requires table { IsOf shared.now pass.old }
    requires maker { IsAlone (plan shared.now) maker (view pass.old) }
    requires unit { maker.unit < 8 }
    requires hand { HasRecords hand.old.futures hand.old.own (view pass.old) }
    ensures table { IsOf shared.now pass.new }
    ensures hand { IsHand hand.new.futures hand.new.own (view pass.new) }
{
    let unit = maker.unit();
    let finishing = settle(shared, pass, maker);
    hand.own[unit as usize] = Some(finishing);
}

/// A table with the maker and so many records more, all of them done, and the hand of them.
pub fn filled(rt: &impl Wait, alloc: Global, records: u32) -> Result<(Shared, Pass, Hand), Fail>
    ensures table { IfOk result (λ made. IsOf made.0 made.1) }
    ensures hand { IfOk result (λ made. IsHand made.2.futures made.2.own (view made.1)) }
{
    let (shared, pass, maker) = opened(rt, alloc)?;
    let mut pass = pass;
    let unit = maker.unit();
    if unit >= 8 {
        return Err("no such place".into());
    }
    let mut hand = first_hand(&pass, unit);
    add_all(&shared, rt, &mut pass, &maker, &mut hand, records)?;
    settle_maker(&shared, &mut pass, maker, &mut hand);
    Ok((shared, pass, hand))
}
