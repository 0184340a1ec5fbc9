//! `journal_bench LIMIT ROUNDS`: how many nanoseconds of processor time it takes to accept so many tasks, to accept, begin and
//! finish so many, and to read the rows of so many activations, all in so many rounds, each with a new journal. With other
//! words it prints nothing.
#![tactic(auto)]

ghost use Rattle.std.specs.Prelude.{◌≤◌};

use record_core::{Cause, PlainJournal};
use std::alloc::Alloc;
use std::env::Env;
use std::time::CpuClock;
use std::{env, io};

/// The numbers among the words.
fn numbers<R: Env + Alloc>(rt: &R) -> io::Result<Vec<u64, R::A>> {
    let mut numbers = Vec::new(rt.alloc());
    for word in env::args(rt)? {
        if let Ok(number) = word.as_str().parse::<u64>() {
            numbers.push(number)?;
        }
    }
    Ok(numbers)
}

/// A new task begins and finishes.
fn take_turn(journal: &mut PlainJournal) -> Option<u32> {
    let number = journal.accept(None, None)?;
    journal.begin(number);
    journal.finish(number, Cause::Clear);
    Some(number)
}

/// Accepts tasks until all numbers are drawn, and asks for one more.
fn accept_all(journal: &mut PlainJournal, limit: u64) -> Option<u32> {
    for _task in 0..limit {
        let _number = journal.accept(None, None);
    }
    journal.accept(None, None)
}

/// Takes turns until all numbers are drawn, and one more.
fn take_all_turns(journal: &mut PlainJournal, limit: u64) -> Option<u32> {
    for _turn in 0..limit {
        let _number = take_turn(journal);
    }
    take_turn(journal)
}

/// The sum of the stamps of all starts.
fn sum_of_starts(journal: &PlainJournal) -> u64 {
    let mut sum: u64 = 0;
    for number in 1..=journal.accepted() {
        let row = journal.activation(number);
        sum = sum.wrapping_add(row.start.unwrap_or(0));
    }
    sum
}

/// What the rounds took so far, in nanoseconds.
#[derive(Clone, Copy)]
struct Spent {
    accepting: u128,
    turns: u128,
    reading: u128,
}

/// Accepts so many tasks once more. Where there is no memory, nothing is added.
fn add_accepting<R: CpuClock + AllocGlobal>(rt: &R, limit: u64, spent: &mut Spent) -> io::Result<()>
    requires some { 1 ≤ limit }
    requires few { limit ≤ 4000000 }
{
    let Ok(mut journal) = PlainJournal::new(rt.alloc(), limit) else {
        return Ok(());
    };
    let start = rt.thread_cpu_time()?;
    let refused = accept_all(&mut journal, limit).is_none();
    let accepting = rt.thread_cpu_time()?.saturating_sub(start);
    if refused {
        spent.accepting = spent.accepting.saturating_add(accepting.as_nanos());
    }
    Ok(())
}

/// Takes so many turns once more, and reads the rows. Where there is no memory, nothing is added.
fn add_turns<R: CpuClock + AllocGlobal>(rt: &R, limit: u64, spent: &mut Spent) -> io::Result<()>
    requires some { 1 ≤ limit }
    requires few { limit ≤ 4000000 }
{
    let Ok(mut journal) = PlainJournal::new(rt.alloc(), limit) else {
        return Ok(());
    };
    let start = rt.thread_cpu_time()?;
    let refused = take_all_turns(&mut journal, limit).is_none();
    let taken = rt.thread_cpu_time()?;
    let sum = sum_of_starts(&journal);
    let read = rt.thread_cpu_time()?;
    if refused && sum > 0 {
        let (turns, reading) = (taken.saturating_sub(start), read.saturating_sub(taken));
        spent.turns = spent.turns.saturating_add(turns.as_nanos());
        spent.reading = spent.reading.saturating_add(reading.as_nanos());
    }
    Ok(())
}

fn measure<R: CpuClock + AllocGlobal + Print>(rt: &R, limit: u64, rounds: u64) -> io::Result<()>
    requires some { 1 ≤ limit }
    requires few { limit ≤ 4000000 }
{
    let mut spent = Spent {
        accepting: 0,
        turns: 0,
        reading: 0,
    };
    for _round in 0..rounds {
        add_accepting(rt, limit, &mut spent)?;
        add_turns(rt, limit, &mut spent)?;
    }
    let Spent {
        accepting,
        turns,
        reading,
    } = spent;
    println!(rt; "{accepting} {turns} {reading}")
}

fn main(rt: HostRuntime) -> io::Result<()> {
    let numbers = numbers(&rt)?;
    match numbers.as_slice() {
        [limit, rounds] if *limit >= 1 && *limit <= 4_000_000 => measure(&rt, *limit, *rounds),
        _ => Ok(()),
    }
}
