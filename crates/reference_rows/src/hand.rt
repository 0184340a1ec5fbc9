//! A count of references that is kept by hand, and steps that keep it.
ghost use Rattle.std.specs.Prelude.{◌≡◌, ◌<◌};
ghost use Rattle.step_table.specs.Passes.{view, IsOf};
ghost use Rattle.reference_rows.specs.Hands.{IsHand};

use future_refs::{clone_future, drop_future};
use kt_words::Phase;
use std::mem::replace;
use std::process::Abort;
use step_table::{Finishing, Future, OwnWord, Pass, Shared};

/// How many references a pass has to each of eight records, and the scheduler's own to those of
/// which it has it.
#[derive(Drop)]
pub struct Hand {
    pub futures: [u64; 8],
    pub own: [Option<Finishing>; 8],
}

impl Hand {
    /// Whether anything refers to the record.
    pub fn is_referred(&self, unit: u32) -> bool
        requires { unit < 8 }
    {
        self.futures[unit as usize] > 0 || self.own[unit as usize].is_some()
    }
}

/// Takes one more reference to the record at the unit.
pub fn clone_one(rt: &impl Abort, shared: &Shared, pass: &mut Pass, hand: &mut Hand, unit: u32)
    requires table { IsOf shared.now pass.old }
    requires hand { IsHand hand.old.futures hand.old.own (view pass.old) }
    requires unit { unit < 8 }
    ensures table { IsOf shared.now pass.new }
    ensures hand { IsHand hand.new.futures hand.new.own (view pass.new) }
{
    let references = hand.futures[unit as usize];
    assert!(rt; 0 < references && references < 1_000_000 && pass.held() < 1_000_000);
    let future = Future::of(pass, unit);
    let _new = clone_future(shared, pass, &future);
    hand.futures[unit as usize] = references + 1;
}

/// Drops one reference to the record at the unit.
pub fn drop_one(rt: &impl Abort, shared: &Shared, pass: &mut Pass, hand: &mut Hand, unit: u32)
    requires table { IsOf shared.now pass.old }
    requires hand { IsHand hand.old.futures hand.old.own (view pass.old) }
    requires unit { unit < 8 }
    ensures table { IsOf shared.now pass.new }
    ensures hand { IsHand hand.new.futures hand.new.own (view pass.new) }
{
    let references = hand.futures[unit as usize];
    assert!(rt; 0 < references);
    let future = Future::of(pass, unit);
    drop_future(shared, pass, future);
    hand.futures[unit as usize] = references - 1;
}

/// Gives up the scheduler's own reference to the record at the unit, where the hand has it. True:
/// it was the last, and the record's block is given back.
pub fn give_up_one(shared: &Shared, pass: &mut Pass, hand: &mut Hand, unit: u32) -> bool
    requires table { IsOf shared.now pass.old }
    requires hand { IsHand hand.old.futures hand.old.own (view pass.old) }
    requires unit { unit < 8 }
    ensures table { IsOf shared.now pass.new }
    ensures hand { IsHand hand.new.futures hand.new.own (view pass.new) }
{
    let Some(finishing) = replace(&mut hand.own[unit as usize], None) else {
        return false;
    };
    match shared.give_up(pass, finishing) {
        None => false,
        Some(retiring) => {
            let block = shared.retire(pass, retiring);
            shared.release_block(pass, block);
            true
        }
    }
}

// Compares the state of one record, and its reference word while the scheduler's own reference is
// in the hand.
fn check_one(rt: &impl Abort, shared: &Shared, pass: &mut Pass, hand: &Hand, unit: u32)
    requires table { IsOf shared.now pass.old }
    requires hand { IsHand hand.now.futures hand.now.own (view pass.old) }
    requires unit { unit < 8 }
    ensures table { IsOf shared.now pass.new }
    ensures hand { IsHand hand.now.futures hand.now.own (view pass.new) }
{
    let state = shared.see_state(pass, unit);
    let phase = if hand.is_referred(unit) {
        Phase::Complete
    } else {
        Phase::Free
    };
    assert_eq!(rt; state.phase, phase, "the state of {unit}");
    if let Some(finishing) = &hand.own[unit as usize] {
        let references = shared.read_own(pass, finishing.unit(), OwnWord::References);
        let futures = hand.futures[unit as usize];
        assert_eq!(rt;
            references.checked_sub(futures),
            Some(1),
            "the references to {unit}"
        );
    }
}

// How many of the records something refers to.
fn referred(hand: &Hand) -> u16 {
    let mut records = 0u16;
    for unit in 0..8 {
        if hand.is_referred(unit) {
            records = records.saturating_add(1);
        }
    }
    records
}

/// Compares each record and the count of the superblock with the hand.
pub fn check(rt: &impl Abort, shared: &Shared, pass: &mut Pass, hand: &Hand)
    requires table { IsOf shared.now pass.old }
    requires hand { IsHand hand.now.futures hand.now.own (view pass.old) }
    ensures table { IsOf shared.now pass.new }
    ensures hand { IsHand hand.now.futures hand.now.own (view pass.new) }
{
    for unit in 0..8 {
        check_one(rt, shared, pass, hand, unit);
    }
    let count = shared.look(pass, 0, 0).count;
    assert_eq!(rt; count, referred(hand), "the count");
}
