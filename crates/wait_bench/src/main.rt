//! `wait_bench LISTS MEMBERS ROUNDS`: how long one thread takes on wait lists. In each round a
//! table is opened with so many records that run and so many that wait, together at most 512. The
//! waiting ones are behind the running ones in turn, and join their lists; the first of these is
//! finished, its list is closed, and gone through to its end. It prints four times in nanoseconds, each the least
//! of all rounds: of the joins, the close, the way through, and of two looks at the clock with
//! nothing between; and how many records were taken from the closed lists. With other words it
//! prints nothing.
#![tactic(auto)]

mod rounds;
mod steps;
mod times;

use crate::rounds::measure;
use std::alloc::Alloc;
use std::env::Env;
use std::{env, io};

// The numbers among the words.
fn numbers<R: Env + Alloc>(rt: &R) -> io::Result<Vec<u32, R::A>> {
    let mut numbers = Vec::new(rt.alloc());
    for word in env::args(rt)? {
        if let Ok(number) = word.as_str().parse::<u32>() {
            numbers.push(number)?;
        }
    }
    Ok(numbers)
}

fn main(rt: HostRuntime) -> io::Result<()> {
    let numbers = numbers(&rt)?;
    let [lists, members, rounds] = numbers.as_slice() else {
        return Ok(());
    };
    let lists = *lists;
    let members = *members;
    if lists == 0 || lists > 256 || members > 512 - lists {
        return Ok(());
    }
    let times = measure(&rt, lists, members, *rounds)?;
    println!(rt;
        "{} {} {} {} {}",
        times.joins, times.close, times.way, times.clock, times.taken
    )
}
