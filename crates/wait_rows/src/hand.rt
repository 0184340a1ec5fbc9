//! Steps that keep a hand.
ghost use Rattle.std.specs.Prelude.{◌≡◌, ◌<◌, IfOk, IfSome, vec_len};
ghost use Rattle.step_table.specs.Passes.{view, plan, IsOf};
ghost use Rattle.step_table.specs.ListHands.{IsChain};
ghost use Rattle.wait_rows.specs.Hands.{IsHand, IsShorter};

use crate::stage::{Owner, Stage, Waiting};
use std::alloc::AllocError;
use std::mem::replace;
use step_table::{Chain, Ending, Linkable, Pass, Shared};
use task_syntax::{Trap, Value};
use wait_lists::{Joined, close_list, join_list, next_of};

/// What a pass has of the records that were made for it.
#[derive(Drop)]
pub struct Hand {
    /// The records that wait, in no list so far.
    pub waiting: Vec<Waiting>,
    /// The records that came back from a list, or were told that it is closed.
    pub back: Vec<Linkable>,
    /// The records with lists.
    pub owners: Vec<Owner>,
    /// Where each of them stands.
    pub stages: Vec<Stage>,
}

/// The last of the waiting records joins its list. None: none waits in the hand. Else its list,
/// its unit, and whether it stands in the list.
pub fn join_one(
    shared: &Shared,
    pass: &mut Pass,
    hand: &mut Hand,
) -> Result<Option<(u32, u32, bool)>, AllocError>
    requires table { IsOf shared.now pass.old }
    requires hand { IsHand (plan shared.now) hand.old (view pass.old) }
    ensures table { IsOf shared.now pass.new }
    ensures hand { IsHand (plan shared.now) hand.new (view pass.new) }
    ensures count { vec_len hand.new.stages ≡ vec_len hand.old.stages }
    ensures list { IfOk result (λ o. IfSome o (λ t. t.0 < vec_len hand.new.stages)) }
    ensures chains { (view pass.new).chains ≡ (view pass.old).chains }
{
    let Some(next) = hand.waiting.pop() else {
        return Ok(None);
    };
    let list = next.list;
    let waiter = next.waiter;
    let unit = waiter.unit();
    let owner = &hand.owners[list as usize];
    match join_list(shared, pass, waiter, &owner.future) {
        Joined::Waits => Ok(Some((list, unit, true))),
        Joined::Closed(back) => {
            hand.back.push(back)?;
            Ok(Some((list, unit, false)))
        }
    }
}

/// Finishes the record of the list, where it runs. True: it ran.
pub fn finish_one(shared: &Shared, pass: &mut Pass, hand: &mut Hand, list: u32) -> bool
    requires table { IsOf shared.now pass.old }
    requires hand { IsHand (plan shared.now) hand.old (view pass.old) }
    requires list { list < vec_len hand.old.stages }
    ensures table { IsOf shared.now pass.new }
    ensures hand { IsHand (plan shared.now) hand.new (view pass.new) }
    ensures count { vec_len hand.new.stages ≡ vec_len hand.old.stages }
{
    match replace(&mut hand.stages[list as usize], Stage::Closed) {
        Stage::Running(started) => {
            let ending = Ending::Gave(Value::Trapped(Trap::Overflow));
            let done = shared.finish(pass, started, ending);
            hand.stages[list as usize] = Stage::Done(done);
            true
        }
        other => {
            hand.stages[list as usize] = other;
            false
        }
    }
}

/// Closes the list, where it is open and its record is done.
pub fn close_one(shared: &Shared, pass: &mut Pass, hand: &mut Hand, list: u32) -> Option<Chain>
    requires table { IsOf shared.now pass.old }
    requires hand { IsHand (plan shared.now) hand.old (view pass.old) }
    requires list { list < vec_len hand.old.stages }
    ensures table { IsOf shared.now pass.new }
    ensures hand { IsHand (plan shared.now) hand.new (view pass.new) }
    ensures count { vec_len hand.new.stages ≡ vec_len hand.old.stages }
    ensures chain { IfSome result (λ chain. IsChain (plan shared.now) chain (view pass.new)) }
{
    match replace(&mut hand.stages[list as usize], Stage::Closed) {
        Stage::Done(finishing) => {
            let (_closed, chain) = close_list(shared, pass, finishing);
            Some(chain)
        }
        other => {
            hand.stages[list as usize] = other;
            None
        }
    }
}

/// Takes the first record of a chain into the hand. Its unit, and the rest of the chain.
pub fn take_one(
    shared: &Shared,
    pass: &mut Pass,
    hand: &mut Hand,
    chain: Chain,
) -> Result<Option<(u32, Chain)>, AllocError>
    requires table { IsOf shared.now pass.old }
    requires hand { IsHand (plan shared.now) hand.old (view pass.old) }
    requires chain { IsChain (plan shared.now) chain (view pass.old) }
    ensures table { IsOf shared.now pass.new }
    ensures hand { IsHand (plan shared.now) hand.new (view pass.new) }
    ensures count { vec_len hand.new.stages ≡ vec_len hand.old.stages }
    ensures rest { IfOk result (λ o. IfSome o
        (λ t. IsShorter (plan shared.now) chain (view pass.new) t)) }
{
    match next_of(shared, pass, chain) {
        None => Ok(None),
        Some((waiter, rest)) => {
            let unit = waiter.unit();
            hand.back.push(waiter)?;
            Ok(Some((unit, rest)))
        }
    }
}
