//! Joins, finishes and closes in any order. Each waiting record may join one list, that of the
//! record whose task it is behind, which is drawn when it is made.
ghost use Rattle.std.specs.Prelude.{◌≡◌, ◌<◌, vec_len};
ghost use Rattle.step_table.specs.Passes.{view, plan, IsOf};
ghost use Rattle.step_table.specs.ListHands.{IsChain};
ghost use Rattle.wait_rows.specs.Hands.{IsHand};

use crate::hand::{Hand, close_one, finish_one, join_one, take_one};
use crate::opening::open_hand;
use crate::orders::Orders;
use rand_core::Rng;
use rand_pcg::Pcg32;
use std::alloc::{AllocError, Global};
use std::process::Abort;
use std::sync::Wait;
use std::test::Fail;
use step_table::{Chain, Pass, Shared};

const RUNNING: u32 = 32;

const WAITING: u32 = 400;

// What is kept by hand: which lists are open, and who stands in them.
#[derive(Drop)]
struct Kept {
    opened: [bool; 32],
    lists: Orders,
}

// Goes through a chain: it is the list as it was kept by hand, the last first.
fn walk(
    rt: &impl Abort,
    shared: &Shared,
    pass: &mut Pass,
    hand: &mut Hand,
    kept: &mut Orders,
    taken: (u32, Chain),
) -> Result<(), Fail>
    requires table { IsOf shared.now pass.old }
    requires hand { IsHand (plan shared.now) hand.old (view pass.old) }
    requires chain { IsChain (plan shared.now) taken.1 (view pass.old) }
    ensures table { IsOf shared.now pass.new }
    ensures hand { IsHand (plan shared.now) hand.new (view pass.new) }
    ensures count { vec_len hand.new.stages ≡ vec_len hand.old.stages }
{
    let (list, chain) = taken;
    let mut chain = chain;
    'records: while let Some((record, rest)) = take_one(shared, pass, hand, chain)? {
        assert_eq!(rt; kept.pop(list), Some(record), "the list {list}");
        chain = rest;
    }
    assert_eq!(rt; kept.pop(list), None, "the list {list}");
    Ok(())
}

// One record more joins its list: it stands there while the list is open.
fn join(
    rt: &impl Abort,
    shared: &Shared,
    pass: &mut Pass,
    hand: &mut Hand,
    kept: &mut Kept,
) -> Result<(), Fail>
    requires table { IsOf shared.now pass.old }
    requires hand { IsHand (plan shared.now) hand.old (view pass.old) }
    ensures table { IsOf shared.now pass.new }
    ensures hand { IsHand (plan shared.now) hand.new (view pass.new) }
    ensures count { vec_len hand.new.stages ≡ vec_len hand.old.stages }
{
    if let Some((list, record, waits)) = join_one(shared, pass, hand)? {
        assert_eq!(rt;
            waits,
            kept.opened[(list % RUNNING) as usize],
            "{record} at {list}"
        );
        if waits {
            kept.lists.push(list, record)?;
        }
    }
    Ok(())
}

// Closes the list where its record is done, and goes through it.
fn close(
    rt: &impl Abort,
    shared: &Shared,
    pass: &mut Pass,
    hand: &mut Hand,
    kept: &mut Kept,
    list: u32,
) -> Result<(), Fail>
    requires table { IsOf shared.now pass.old }
    requires hand { IsHand (plan shared.now) hand.old (view pass.old) }
    requires list { list < vec_len hand.old.stages }
    ensures table { IsOf shared.now pass.new }
    ensures hand { IsHand (plan shared.now) hand.new (view pass.new) }
    ensures count { vec_len hand.new.stages ≡ vec_len hand.old.stages }
{
    if let Some(chain) = close_one(shared, pass, hand, list) {
        kept.opened[(list % RUNNING) as usize] = false;
        walk(rt, shared, pass, hand, &mut kept.lists, (list, chain))?;
    }
    Ok(())
}

// A join, a finish or a close of one record, or nothing. Of 16 turns so many may join.
fn turn(
    rt: &impl Abort,
    shared: &Shared,
    pass: &mut Pass,
    hand: &mut Hand,
    kept: &mut Kept,
    drawn: (u32, u32),
) -> Result<(), Fail>
    requires table { IsOf shared.now pass.old }
    requires hand { IsHand (plan shared.now) hand.old (view pass.old) }
    requires count { vec_len hand.old.stages ≡ 32 }
    ensures table { IsOf shared.now pass.new }
    ensures hand { IsHand (plan shared.now) hand.new (view pass.new) }
    ensures count { vec_len hand.new.stages ≡ 32 }
{
    let (word, joining) = drawn;
    let list = word % RUNNING;
    match word / RUNNING % 64 {
        0 | 1 => {
            finish_one(shared, pass, hand, list);
            Ok(())
        }
        2 => close(rt, shared, pass, hand, kept, list),
        _ if word / 2048 % 16 < joining => join(rt, shared, pass, hand, kept),
        _ => Ok(()),
    }
}

// Finishes and closes all that is left.
fn end(
    rt: &impl Abort,
    shared: &Shared,
    pass: &mut Pass,
    hand: &mut Hand,
    kept: &mut Kept,
) -> Result<(), Fail>
    requires table { IsOf shared.now pass.old }
    requires hand { IsHand (plan shared.now) hand.old (view pass.old) }
    requires count { vec_len hand.old.stages ≡ 32 }
    ensures table { IsOf shared.now pass.new }
    ensures hand { IsHand (plan shared.now) hand.new (view pass.new) }
{
    for list in 0..RUNNING {
        finish_one(shared, pass, hand, list);
        close(rt, shared, pass, hand, kept, list)?;
    }
    Ok(())
}

// The units of the records that wait in the hand, the lowest first.
fn units_of(alloc: Global, hand: &Hand) -> Result<Vec<u32>, AllocError> {
    let mut units = Vec::new(alloc);
    for waiting in &hand.waiting {
        units.push(waiting.waiter.unit())?;
    }
    for record in &hand.back {
        units.push(record.unit())?;
    }
    units.sort()?;
    Ok(units)
}

// The list that each waiting record is to join.
fn joins_of(alloc: Global, random: &mut Pcg32) -> Result<Vec<u32>, AllocError> {
    let mut joins = Vec::new(alloc);
    for record in 0..WAITING {
        joins.push(random.next_u32() % RUNNING)?;
    }
    Ok(joins)
}

// So many turns.
fn turns(
    rt: &impl Abort,
    shared: &Shared,
    pass: &mut Pass,
    hand: &mut Hand,
    kept: &mut Kept,
    random: &mut Pcg32,
    count: (u32, u32),
) -> Result<(), Fail>
    requires table { IsOf shared.now pass.old }
    requires hand { IsHand (plan shared.now) hand.old (view pass.old) }
    requires count { vec_len hand.old.stages ≡ 32 }
    ensures table { IsOf shared.now pass.new }
    ensures hand { IsHand (plan shared.now) hand.new (view pass.new) }
    ensures count { vec_len hand.new.stages ≡ 32 }
{
    let (all, joining) = count;
    for number in 0..all {
        let word = random.next_u32();
        turn(rt, shared, pass, hand, kept, (word, joining))?;
    }
    Ok(())
}

// So many turns, and what is left. Each record that waits is in the hand once then.
fn play(
    rt: &impl Abort,
    alloc: Global,
    shared: &Shared,
    pass: &mut Pass,
    hand: &mut Hand,
    random: &mut Pcg32,
    count: (u32, u32),
) -> Result<(), Fail>
    requires table { IsOf shared.now pass.old }
    requires hand { IsHand (plan shared.now) hand.old (view pass.old) }
    requires count { vec_len hand.old.stages ≡ 32 }
{
    let mut kept = Kept {
        opened: [true; 32],
        lists: Orders::new(alloc, RUNNING as usize)?,
    };
    let units = units_of(alloc, hand)?;
    turns(rt, shared, pass, hand, &mut kept, random, count)?;
    end(rt, shared, pass, hand, &mut kept)?;
    assert_eq!(rt; units.len(), WAITING as usize);
    assert_eq!(rt; units_of(alloc, hand)?, units);
    Ok(())
}

// One table, and so many turns.
fn round<R: Abort + Wait>(
    rt: &R,
    alloc: Global,
    random: &mut Pcg32,
    count: (u32, u32),
) -> Result<(), Fail> {
    let joins = joins_of(alloc, random)?;
    let (shared, mut pass, mut hand) = open_hand(alloc, rt, RUNNING, joins.as_slice())?;
    play(rt, alloc, &shared, &mut pass, &mut hand, random, count)
}

#[test]
fn chains_are_the_lists_that_were_kept(rt: HostRuntime) -> Result<(), Fail> {
    let mut random = Pcg32::new(42, 54);
    for number in 1..21u32 {
        round(&rt, rt.alloc(), &mut random, (200 * number, 32 / number))?;
    }
    Ok(())
}
