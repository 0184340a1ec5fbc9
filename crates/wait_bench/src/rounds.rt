//! Rounds over tables, and the time of their parts.
ghost use Rattle.std.specs.Prelude.{◌≡◌, ◌<◌, IfSome, vec_len};
ghost use Rattle.step_table.specs.Passes.{view, plan, IsOf};
ghost use Rattle.step_table.specs.ListHands.{IsChain};
ghost use Rattle.wait_rows.specs.Hands.{IsHand};

use crate::steps::{join_all, take_all};
use crate::times::Times;
use std::alloc::{AllocError, Global};
use std::io;
use std::rt::Clock;
use std::sync::Wait;
use std::time::Instant;
use step_table::{Chain, Pass, Shared};
use wait_rows::{Hand, close_one, finish_one, open_hand};

// The time of two looks at the clock with nothing between.
fn time_clock<R: Clock>(rt: &R) -> io::Result<u128> {
    let start = Instant::now(rt)?;
    Ok(start.elapsed(rt)?.as_nanos())
}

// How long so many records take to join their lists.
fn time_joins<R: Clock>(
    rt: &R,
    shared: &Shared,
    pass: &mut Pass,
    hand: &mut Hand,
    members: u32,
) -> io::Result<u128>
    requires table { IsOf shared.now pass.old }
    requires hand { IsHand (plan shared.now) hand.old (view pass.old) }
    ensures table { IsOf shared.now pass.new }
    ensures hand { IsHand (plan shared.now) hand.new (view pass.new) }
    ensures count { vec_len hand.new.stages ≡ vec_len hand.old.stages }
{
    let start = Instant::now(rt)?;
    join_all(shared, pass, hand, members)?;
    Ok(start.elapsed(rt)?.as_nanos())
}

// How long it takes to go through a chain, and how many records were in it.
fn time_way<R: Clock>(
    rt: &R,
    shared: &Shared,
    pass: &mut Pass,
    hand: &mut Hand,
    chain: Option<Chain>,
) -> io::Result<(u128, u64)>
    requires table { IsOf shared.now pass.old }
    requires hand { IsHand (plan shared.now) hand.old (view pass.old) }
    requires chain { IfSome chain (λ chain. IsChain (plan shared.now) chain (view pass.old)) }
{
    let Some(chain) = chain else {
        return Ok((0, 0));
    };
    let start = Instant::now(rt)?;
    let taken = take_all(shared, pass, hand, chain)?;
    Ok((start.elapsed(rt)?.as_nanos(), taken))
}

// The lists that the records are to join: the first ones in turn.
fn joins_of(alloc: Global, lists: u32, members: u32) -> Result<Vec<u32>, AllocError>
    requires some { 0 < lists }
{
    let mut joins = Vec::new(alloc);
    for member in 0..members {
        joins.push(member % lists)?;
    }
    Ok(joins)
}

// One round, on a table of its own.
fn round<R: Clock + AllocGlobal + Wait>(
    rt: &R,
    lists: u32,
    members: u32,
    joins: &[u32],
) -> io::Result<Times>
    requires some { 0 < lists }
{
    let Ok(opened) = open_hand(rt.alloc(), rt, lists, joins) else {
        return Err(io::Error::from(io::ErrorKind::Other));
    };
    let (shared, mut pass, mut hand) = opened;
    let joins = time_joins(rt, &shared, &mut pass, &mut hand, members)?;
    finish_one(&shared, &mut pass, &mut hand, 0);
    let start = Instant::now(rt)?;
    let chain = close_one(&shared, &mut pass, &mut hand, 0);
    let close = start.elapsed(rt)?.as_nanos();
    let clock = time_clock(rt)?;
    let (way, taken) = time_way(rt, &shared, &mut pass, &mut hand, chain)?;
    Ok(Times {
        joins,
        close,
        way,
        clock,
        taken,
    })
}

/// So many rounds, each with so many lists and so many records that join them.
pub fn measure<R: Clock + AllocGlobal + Wait>(
    rt: &R,
    lists: u32,
    members: u32,
    rounds: u32,
) -> io::Result<Times>
    requires some { 0 < lists }
{
    let joins = joins_of(rt.alloc(), lists, members)?;
    let mut times = Times::none();
    for _round in 0..rounds {
        times.add(&round(rt, lists, members, joins.as_slice())?);
    }
    Ok(times)
}
