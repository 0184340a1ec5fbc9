//! Tables with records, and the hand of their pass.
ghost use Rattle.std.specs.Prelude.{◌≡◌, ◌+◌, IfOk, vec_len};
ghost use Rattle.step_table.specs.Passes.{view, plan, IsOf};
ghost use Rattle.table_records.specs.Makers.{IsMaker};
ghost use Rattle.wait_rows.specs.Hands.{IsHand};
ghost use Rattle.wait_rows.specs.Making.{IsOpenHand};

use crate::hand::Hand;
use crate::making::{add_list, add_waiting};
use crate::no_hand::NoHand;
use sample_programs::{plan_of, program_of};
use std::alloc::Global;
use std::sync::Wait;
use step_table::{Pass, Shared, Started};
use table_records::open_maker;

// A root of a kind with one state.
const PROGRAM: &[u8] = b"ktask 1\nkind one\nstate start\ndone 1\nend\nroot p one\n";

// More activations than a table has records.
const LIMIT: u64 = 2000;

// A table with a record that makes others, over two superblocks of 512 units.
fn open_table(alloc: Global, rt: &impl Wait) -> Result<(Shared, Pass, Started), NoHand>
    ensures table { IfOk result (λ made. IsOf made.0 made.1) }
    ensures maker { IfOk result (λ made. IsMaker made.0.setup made.2 (view made.1)) }
{
    let checked = program_of(alloc, PROGRAM)?.ok_or(NoHand::Room)?;
    let plan = plan_of(&checked, 2, 512, LIMIT).ok_or(NoHand::Room)?;
    let made = open_maker(alloc, rt, checked, plan)?.ok_or(NoHand::Room)?;
    Ok(made)
}

// A hand with nothing.
fn empty_hand(alloc: Global, shared: &Shared, pass: &Pass) -> Hand
    ensures hand { IsOpenHand (plan shared.now) result (view pass.now) }
    ensures count { vec_len result.stages ≡ 0 }
{
    let _table = shared;
    let _pass = pass;
    Hand {
        waiting: Vec::new(alloc),
        back: Vec::new(alloc),
        owners: Vec::new(alloc),
        stages: Vec::new(alloc),
    }
}

// So many records with lists, where there were none.
fn add_lists(
    shared: &Shared,
    rt: &impl Wait,
    pass: &mut Pass,
    maker: &Started,
    hand: &mut Hand,
    lists: u32,
) -> Result<(), NoHand>
    requires table { IsOf shared.now pass.old }
    requires maker { IsMaker shared.now.setup maker.now (view pass.old) }
    requires hand { IsOpenHand (plan shared.now) hand.old (view pass.old) }
    requires none { vec_len hand.old.stages ≡ 0 }
    ensures table { IsOf shared.now pass.new }
    ensures maker { IfOk result (λ _. IsMaker shared.now.setup maker.now (view pass.new)) }
    ensures hand { IfOk result (λ _. IsOpenHand (plan shared.now) hand.new (view pass.new)) }
    ensures count { IfOk result (λ _. vec_len hand.new.stages ≡ lists) }
{
    for list in 0..lists {
        add_list(shared, rt, pass, maker, hand)?;
    }
    Ok(())
}

// One record for each of these lists, which is to join it. No room: there is no such list, too.
fn add_all(
    shared: &Shared,
    rt: &impl Wait,
    pass: &mut Pass,
    maker: &Started,
    hand: &mut Hand,
    joins: &[u32],
) -> Result<(), NoHand>
    requires table { IsOf shared.now pass.old }
    requires maker { IsMaker shared.now.setup maker.now (view pass.old) }
    requires hand { IsOpenHand (plan shared.now) hand.old (view pass.old) }
    ensures table { IsOf shared.now pass.new }
    ensures hand { IfOk result (λ _. IsOpenHand (plan shared.now) hand.new (view pass.new)) }
    ensures count { vec_len hand.new.stages ≡ vec_len hand.old.stages }
{
    for at in 0..joins.len() {
        let list = joins[at];
        if list as usize >= hand.stages.len() {
            return Err(NoHand::Room);
        }
        add_waiting(shared, rt, pass, maker, hand, list)?;
    }
    Ok(())
}

/// A table with so many records that run, and for each of `joins` one that waits behind the task of
/// the record with this list. No room: blocks or numbers are short, or there is no such list.
pub fn open_hand(
    alloc: Global,
    rt: &impl Wait,
    lists: u32,
    joins: &[u32],
) -> Result<(Shared, Pass, Hand), NoHand>
    ensures table { IfOk result (λ made. IsOf made.0 made.1) }
    ensures hand { IfOk result (λ made. IsHand (plan made.0) made.2 (view made.1)) }
    ensures count { IfOk result (λ made. vec_len made.2.stages ≡ lists) }
{
    let (shared, mut pass, maker) = open_table(alloc, rt)?;
    let mut hand = empty_hand(alloc, &shared, &pass);
    add_lists(&shared, rt, &mut pass, &maker, &mut hand, lists)?;
    add_all(&shared, rt, &mut pass, &maker, &mut hand, joins)?;
    Ok((shared, pass, hand))
}
