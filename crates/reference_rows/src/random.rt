//! Clones and drops at random.
ghost use Rattle.std.specs.Prelude.{◌≡◌, ◌<◌};
ghost use Rattle.step_table.specs.Passes.{view, IsOf};
ghost use Rattle.reference_rows.specs.Hands.{IsHand};

use crate::filling::filled;
use crate::hand::{Hand, check, clone_one, drop_one, give_up_one};
use kt_words::Phase;
use rand_core::Rng;
use rand_pcg::Pcg32;
use std::alloc::Global;
use std::process::Abort;
use std::sync::Wait;
use std::test::Fail;
use step_table::{Pass, Shared};

const TURNS: u32 = 2_000;

// A clone or a drop of one record, or its own reference is given up. So many of 256 are clones.
// True: it was a clone or a drop.
fn turn(
    rt: &impl Abort,
    shared: &Shared,
    pass: &mut Pass,
    hand: &mut Hand,
    word: u32,
    clones: u32,
) -> bool
    requires table { IsOf shared.now pass.old }
    requires hand { IsHand hand.old.futures hand.old.own (view pass.old) }
    ensures table { IsOf shared.now pass.new }
    ensures hand { IsHand hand.new.futures hand.new.own (view pass.new) }
{
    let unit = word % 8;
    let choice = word / 8 % 256;
    if choice == 255 {
        let _last = give_up_one(shared, pass, hand, unit);
        return false;
    }
    if hand.futures[unit as usize] == 0 {
        return false;
    }
    if choice < clones {
        clone_one(rt, shared, pass, hand, unit);
    } else {
        drop_one(rt, shared, pass, hand, unit);
    }
    true
}

// Drops what is left of the record at the unit, and gives its own reference up before or after.
fn drain(
    rt: &impl Abort,
    shared: &Shared,
    pass: &mut Pass,
    hand: &mut Hand,
    unit: u32,
    own_first: bool,
)
    requires table { IsOf shared.now pass.old }
    requires hand { IsHand hand.old.futures hand.old.own (view pass.old) }
    requires unit { unit < 8 }
    ensures table { IsOf shared.now pass.new }
    ensures hand { IsHand hand.new.futures hand.new.own (view pass.new) }
{
    if own_first {
        let _last = give_up_one(shared, pass, hand, unit);
    }
    for reference in 0..hand.futures[unit as usize] {
        drop_one(rt, shared, pass, hand, unit);
    }
    let _last = give_up_one(shared, pass, hand, unit);
}

// Turns in which references become more, and then fewer. The number of clones and drops.
fn turns(
    rt: &impl Abort,
    shared: &Shared,
    pass: &mut Pass,
    hand: &mut Hand,
    random: &mut Pcg32,
) -> u32
    requires table { IsOf shared.now pass.old }
    requires hand { IsHand hand.old.futures hand.old.own (view pass.old) }
    ensures table { IsOf shared.now pass.new }
    ensures hand { IsHand hand.new.futures hand.new.own (view pass.new) }
{
    let mut made = 0u32;
    for number in 0..TURNS {
        let clones = if number < TURNS / 2 { 180 } else { 70 };
        if turn(rt, shared, pass, hand, random.next_u32(), clones) {
            made = made.saturating_add(1);
        }
        check(rt, shared, pass, hand);
    }
    made
}

// Drops all that is left, one record after the other.
fn drain_all(rt: &impl Abort, shared: &Shared, pass: &mut Pass, hand: &mut Hand, own_first: bool)
    requires table { IsOf shared.now pass.old }
    requires hand { IsHand hand.old.futures hand.old.own (view pass.old) }
    ensures table { IsOf shared.now pass.new }
{
    for unit in 0..8 {
        drain(rt, shared, pass, hand, unit, own_first);
        check(rt, shared, pass, hand);
    }
}

// The table is as it was before a record was made.
fn check_free(rt: &impl Abort, shared: &Shared, pass: &mut Pass)
    requires table { IsOf shared.now pass.old }
{
    for unit in 0..8 {
        assert_eq!(rt; shared.see_state(pass, unit).phase, Phase::Free);
    }
    assert_eq!(rt; shared.look(pass, 0, 0).count, 0);
}

// One table with eight records. The number of clones and drops before the last ones.
fn round(
    rt: &(impl Abort + Wait),
    alloc: Global,
    random: &mut Pcg32,
    own_first: bool,
) -> Result<u32, Fail> {
    let (shared, pass, hand) = filled(rt, alloc, 7)?;
    let mut pass = pass;
    let mut hand = hand;
    let made = turns(rt, &shared, &mut pass, &mut hand, random);
    drain_all(rt, &shared, &mut pass, &mut hand, own_first);
    check_free(rt, &shared, &mut pass);
    Ok(made)
}

#[test]
fn words_follow_the_hand(rt: HostRuntime) -> Result<(), Fail> {
    let mut random = Pcg32::new(42, 54);
    let mut made = 0u32;
    for number in 0..90 {
        made = made.saturating_add(round(&rt, rt.alloc(), &mut random, number % 2 == 0)?);
    }
    assert!(rt; made >= 100_000, "{made} clones and drops");
    Ok(())
}
