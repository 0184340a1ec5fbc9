//! Records that a maker makes for a hand.
ghost use Rattle.std.specs.Prelude.{◌≡◌, ◌<◌, ◌+◌, ◌++◌, ◌∷◌, [], IfOk, OnOk, vec_len};
ghost use Rattle.step_table.specs.Passes.{view, plan, IsOf};
ghost use Rattle.table_records.specs.Makers.{IsMaker};
ghost use Rattle.wait_rows.specs.declared.stage.Stage.TheVariants as stage;
ghost use Rattle.wait_rows.specs.Making.{Runs, IsOpenHand};

use crate::hand::Hand;
use crate::no_hand::NoHand;
use crate::stage::{Owner, Stage, Waiting};
use std::alloc::AllocError;
use std::sync::Wait;
use step_table::{Future, Pass, Shared, Started};
use table_records::{ready_record, waiting_record};

// A pass with more references makes no more records.
const MANY: u64 = 1_000_000;

// Makes a record that runs, where there is room for it.
fn running_record(
    shared: &Shared,
    rt: &impl Wait,
    pass: &mut Pass,
    maker: &Started,
) -> Result<(Started, Future), NoHand>
    requires table { IsOf shared.now pass.old }
    requires maker { IsMaker shared.now.setup maker.now (view pass.old) }
    ensures table { IsOf shared.now pass.new }
    ensures run { IfOk result (λ t.
        Runs shared.now.setup t.0 t.1.unit (view pass.old) (view pass.new)) }
{
    if pass.held() > MANY {
        return Err(NoHand::Room);
    }
    let Some((ready, future)) = ready_record(shared, rt, pass, maker) else {
        return Err(NoHand::Room);
    };
    match shared.take_ready(pass, future.unit(), ready) {
        Ok(started) => Ok((started, future)),
        Err(_) => Err(NoHand::Room),
    }
}

// A record that runs is the last of the hand's.
fn put_list(hand: &mut Hand, owner: Owner, started: Started) -> Result<(), AllocError>
    ensures owners { OnOk result
        (hand.new.owners.items ≡ hand.old.owners.items ++ owner ∷ []) }
    ensures stages { OnOk result
        (hand.new.stages.items ≡ hand.old.stages.items ++ stage.Running started ∷ []) }
    ensures same { (hand.new.waiting ≡ hand.old.waiting) × (hand.new.back ≡ hand.old.back) }
{
    hand.owners.push(owner)?;
    hand.stages.push(Stage::Running(started))?;
    Ok(())
}

// A record that waits is the last of the hand's.
fn put_waiting(hand: &mut Hand, waiting: Waiting) -> Result<(), AllocError>
    ensures waiting { OnOk result
        (hand.new.waiting.items ≡ hand.old.waiting.items ++ waiting ∷ []) }
    ensures back { hand.new.back ≡ hand.old.back }
    ensures same { (hand.new.owners ≡ hand.old.owners) × (hand.new.stages ≡ hand.old.stages) }
{
    hand.waiting.push(waiting)?;
    Ok(())
}

/// Makes a record that runs, with an open list, the last of the hand. No room: blocks or numbers
/// are short.
pub fn add_list(
    shared: &Shared,
    rt: &impl Wait,
    pass: &mut Pass,
    maker: &Started,
    hand: &mut Hand,
) -> Result<(), NoHand>
    requires table { IsOf shared.now pass.old }
    requires maker { IsMaker shared.now.setup maker.now (view pass.old) }
    requires hand { IsOpenHand (plan shared.now) hand.old (view pass.old) }
    ensures table { IsOf shared.now pass.new }
    ensures maker { IfOk result (λ _. IsMaker shared.now.setup maker.now (view pass.new)) }
    ensures hand { IfOk result (λ _. IsOpenHand (plan shared.now) hand.new (view pass.new)) }
    ensures count { IfOk result (λ _.
        vec_len hand.new.stages ≡ vec_len hand.old.stages + 1) }
{
    let (started, future) = running_record(shared, rt, pass, maker)?;
    let task = started.number();
    let owner = Owner { future, task };
    match put_list(hand, owner, started) {
        Ok(()) => Ok(()),
        Err(error) => Err(NoHand::from(error)),
    }
}

/// Makes a record that waits behind the task of the record with this list. No room: as for a list.
pub fn add_waiting(
    shared: &Shared,
    rt: &impl Wait,
    pass: &mut Pass,
    maker: &Started,
    hand: &mut Hand,
    list: u32,
) -> Result<(), NoHand>
    requires table { IsOf shared.now pass.old }
    requires maker { IsMaker shared.now.setup maker.now (view pass.old) }
    requires hand { IsOpenHand (plan shared.now) hand.old (view pass.old) }
    requires list { list < vec_len hand.old.stages }
    ensures table { IsOf shared.now pass.new }
    ensures maker { IfOk result (λ _. IsMaker shared.now.setup maker.now (view pass.new)) }
    ensures hand { IfOk result (λ _. IsOpenHand (plan shared.now) hand.new (view pass.new)) }
    ensures count { vec_len hand.new.stages ≡ vec_len hand.old.stages }
{
    if pass.held() > MANY {
        return Err(NoHand::Room);
    }
    let owner = &hand.owners[list as usize];
    let task = owner.task;
    let Some((waiter, _future)) = waiting_record(shared, rt, pass, maker, task) else {
        return Err(NoHand::Room);
    };
    let waiting = Waiting { waiter, list };
    match put_waiting(hand, waiting) {
        Ok(()) => Ok(()),
        Err(error) => Err(NoHand::from(error)),
    }
}
