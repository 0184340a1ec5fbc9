//! Joins, and the way through a closed list.
ghost use Rattle.std.specs.Prelude.{◌≡◌, vec_len};
ghost use Rattle.step_table.specs.Passes.{view, plan, IsOf};
ghost use Rattle.step_table.specs.ListHands.{IsChain};
ghost use Rattle.wait_rows.specs.Hands.{IsHand};

use std::alloc::AllocError;
use step_table::{Chain, Pass, Shared};
use wait_rows::{Hand, join_one, take_one};

/// So many records of the hand join their lists.
pub fn join_all(
    shared: &Shared,
    pass: &mut Pass,
    hand: &mut Hand,
    members: u32,
) -> Result<(), AllocError>
    requires table { IsOf shared.now pass.old }
    requires hand { IsHand (plan shared.now) hand.old (view pass.old) }
    ensures table { IsOf shared.now pass.new }
    ensures hand { IsHand (plan shared.now) hand.new (view pass.new) }
    ensures count { vec_len hand.new.stages ≡ vec_len hand.old.stages }
{
    for member in 0..members {
        join_one(shared, pass, hand)?;
    }
    Ok(())
}

/// Takes all records of a chain into the hand, one by one. How many there were.
pub fn take_all(
    shared: &Shared,
    pass: &mut Pass,
    hand: &mut Hand,
    chain: Chain,
) -> Result<u64, AllocError>
    requires table { IsOf shared.now pass.old }
    requires hand { IsHand (plan shared.now) hand.old (view pass.old) }
    requires chain { IsChain (plan shared.now) chain (view pass.old) }
    ensures table { IsOf shared.now pass.new }
    ensures hand { IsHand (plan shared.now) hand.new (view pass.new) }
    ensures count { vec_len hand.new.stages ≡ vec_len hand.old.stages }
{
    let mut chain = chain;
    let mut taken = 0u64;
    'records: while let Some((_record, rest)) = take_one(shared, pass, hand, chain)? {
        taken = taken.saturating_add(1);
        chain = rest;
    }
    Ok(taken)
}
