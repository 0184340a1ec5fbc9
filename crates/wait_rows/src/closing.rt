//! Records that join a list before it is closed, and one that comes after.
ghost use Rattle.std.specs.Prelude.{◌≡◌, IfOk, IfSome, vec_len};
ghost use Rattle.step_table.specs.Passes.{view, plan, IsOf};
ghost use Rattle.step_table.specs.ListHands.{IsChain};
ghost use Rattle.wait_rows.specs.Hands.{IsHand};

use crate::hand::{Hand, close_one, finish_one, join_one, take_one};
use crate::opening::open_hand;
use std::process::Abort;
use std::test::Fail;
use step_table::{Chain, Pass, Shared};

// The next record joins, and is told so or not. Its unit.
fn join_told(
    rt: &impl Abort,
    shared: &Shared,
    pass: &mut Pass,
    hand: &mut Hand,
    expected: bool,
) -> Result<u32, Fail>
    requires table { IsOf shared.now pass.old }
    requires hand { IsHand (plan shared.now) hand.old (view pass.old) }
    ensures table { IsOf shared.now pass.new }
    ensures hand { IsHand (plan shared.now) hand.new (view pass.new) }
    ensures count { vec_len hand.new.stages ≡ vec_len hand.old.stages }
    ensures chains { (view pass.new).chains ≡ (view pass.old).chains }
{
    let (_, unit, waits) = join_one(shared, pass, hand)?.ok_or("none waits")?;
    assert_eq!(rt; waits, expected);
    Ok(unit)
}

// The record of the first list is finished, and its list closed.
fn close_first(
    rt: &impl Abort,
    shared: &Shared,
    pass: &mut Pass,
    hand: &mut Hand,
) -> Result<Chain, Fail>
    requires table { IsOf shared.now pass.old }
    requires hand { IsHand (plan shared.now) hand.old (view pass.old) }
    requires count { vec_len hand.old.stages ≡ 1 }
    ensures table { IsOf shared.now pass.new }
    ensures hand { IsHand (plan shared.now) hand.new (view pass.new) }
    ensures chain { IfOk result (λ chain. IsChain (plan shared.now) chain (view pass.new)) }
{
    assert!(rt; finish_one(shared, pass, hand, 0));
    let chain = close_one(shared, pass, hand, 0).ok_or("the list is not closed")?;
    Ok(chain)
}

// The chain has these two records.
fn take_both(
    rt: &impl Abort,
    shared: &Shared,
    pass: &mut Pass,
    hand: &mut Hand,
    chain: Chain,
    expected: (u32, u32),
) -> Result<(), Fail>
    requires table { IsOf shared.now pass.old }
    requires hand { IsHand (plan shared.now) hand.old (view pass.old) }
    requires chain { IsChain (plan shared.now) chain (view pass.old) }
{
    let (first, chain) = take_one(shared, pass, hand, chain)?.ok_or("none waits")?;
    let (second, chain) = take_one(shared, pass, hand, chain)?.ok_or("one waits")?;
    assert_eq!(rt; (first, second), expected);
    assert!(rt; take_one(shared, pass, hand, chain)?.is_none());
    Ok(())
}

// After two have joined, the list is closed, and a third is told so.
fn close_between(
    rt: &impl Abort,
    shared: &Shared,
    pass: &mut Pass,
    hand: &mut Hand,
) -> Result<(), Fail>
    requires table { IsOf shared.now pass.old }
    requires hand { IsHand (plan shared.now) hand.old (view pass.old) }
    requires count { vec_len hand.old.stages ≡ 1 }
{
    let early = join_told(rt, shared, pass, hand, true)?;
    let later = join_told(rt, shared, pass, hand, true)?;
    let chain = close_first(rt, shared, pass, hand)?;
    let late = join_told(rt, shared, pass, hand, false)?;
    assert!(rt; late != early && late != later);
    take_both(rt, shared, pass, hand, chain, (later, early))
}

#[test]
fn last_joined_comes_first_and_a_late_one_is_told(rt: HostRuntime) -> Result<(), Fail> {
    let joins = [0u32; 3];
    let (shared, mut pass, mut hand) = open_hand(rt.alloc(), &rt, 1, joins.as_slice())?;
    close_between(&rt, &shared, &mut pass, &mut hand)
}
