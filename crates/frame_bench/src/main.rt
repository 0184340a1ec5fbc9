//! `frame_bench FILE NUMBER ROUNDS`: how many nanoseconds of processor time it takes to make so many
//! frames of the first kind of a program at its entry, with a number for its first variable where
//! that is one, and how many to make as many and run each to the first line where it stops. With
//! other words, or where there is no such program, it prints nothing.
#![tactic(auto)]

ghost use Rattle.std.specs.Prelude.{◌<◌, length};
ghost use Rattle.frame_code.specs.Frames.{IsFrame};

use frame_code::{CheckedCode, Frame, Requests, advance, at_entry, has_sort, set_number};
use sample_programs::program_of;
use std::alloc::Alloc;
use std::env::Env;
use std::time::CpuClock;
use std::{env, fs, io};
use task_syntax::{Checked, Columns, Sort};

/// The words after the program's name.
fn words<R: Env + Alloc>(rt: &R) -> io::Result<Vec<String<R::A>, R::A>> {
    let mut words = Vec::new(rt.alloc());
    for word in env::args(rt)?.skip(1) {
        words.push(word)?;
    }
    Ok(words)
}

/// Makes a frame that of the first kind at its entry.
fn enter(checked: &CheckedCode, frame: &mut Frame, number: u64)
    requires { 0 < length checked.now.kinds }
    ensures { IsFrame checked.now frame.new.items }
{
    at_entry(checked, 0, frame);
    if has_sort(checked, frame, Sort::Number, 0) {
        set_number(checked, frame, 0, number);
    }
}

/// The last word of a frame.
fn last_word(frame: &Frame) -> u64 {
    match frame.as_slice().last() {
        Some(word) => *word,
        None => 0,
    }
}

/// Makes frames, and gives the sum of their last words.
fn enter_all(checked: &CheckedCode, frame: &mut Frame, number: u64, rounds: u64) -> u64
    requires { 0 < length checked.now.kinds }
{
    let mut sum = 0u64;
    for _round in 0..rounds {
        enter(checked, frame, number);
        sum = sum.wrapping_add(last_word(frame));
    }
    sum
}

/// Makes frames, runs each to the first line where it stops, and gives the sum of their last words.
fn advance_all(
    checked: &CheckedCode,
    columns: &Columns,
    frame: &mut Frame,
    number: u64,
    rounds: u64,
) -> u64
    requires { 0 < length checked.now.kinds }
{
    let mut requests = Requests::new();
    let mut sum = 0u64;
    for _round in 0..rounds {
        enter(checked, frame, number);
        let _asked = advance(checked, columns, frame, &mut requests);
        sum = sum.wrapping_add(last_word(frame));
    }
    sum
}

/// Measures both, and prints the times and the sums.
fn measure<R: CpuClock + AllocGlobal + Print>(
    rt: &R,
    checked: &Checked,
    number: u64,
    rounds: u64,
) -> io::Result<()> {
    let columns = Columns::none(rt.alloc());
    let code = CheckedCode::new(rt.alloc(), checked)?;
    if code.program().kinds.len() == 0 {
        return Ok(());
    }
    let mut frame = Frame::new();
    let start = rt.thread_cpu_time()?;
    let entered_sum = enter_all(&code, &mut frame, number, rounds);
    let entered = rt.thread_cpu_time()?;
    let advanced_sum = advance_all(&code, &columns, &mut frame, number, rounds);
    let advanced = rt.thread_cpu_time()?;
    let entering = entered.saturating_sub(start).as_nanos();
    let advancing = advanced.saturating_sub(entered).as_nanos();
    println!(rt; "{entering} {advancing} {entered_sum} {advanced_sum}")
}

fn main(rt: HostRuntime) -> io::Result<()> {
    let words = words(&rt)?;
    let [file, number, rounds] = words.as_slice() else {
        return Ok(());
    };
    let (Ok(number), Ok(rounds)) = (
        number.as_str().parse::<u64>(),
        rounds.as_str().parse::<u64>(),
    ) else {
        return Ok(());
    };
    let text = fs::read(&rt, file.as_str())?;
    match program_of(rt.alloc(), text.as_slice())? {
        Some(checked) => measure(&rt, &checked, number, rounds),
        None => Ok(()),
    }
}
