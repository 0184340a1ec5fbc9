//! `reference_bench WHAT RECORDS ROUNDS`: how many nanoseconds one thread takes to clone a reference
//! and drop it again, so many rounds of 4,096 times. Each time it is one of so many records, at most
//! 512, at random. WHAT is 0 for the records of a table, 1 for the library's `Arc`, and 2 for the
//! choice of a record alone. With other words it prints nothing.
#![tactic(auto)]

mod arcs;
mod filling;
mod picks;
mod records;

use kt_words::Geometry;
use std::alloc::Alloc;
use std::env::Env;
use std::{env, io};

const UNITS: u32 = 512;

/// The numbers among the words.
fn numbers<R: Env + Alloc>(rt: &R) -> io::Result<Vec<u32, R::A>> {
    let mut numbers = Vec::new(rt.alloc());
    for word in env::args(rt)? {
        if let Ok(number) = word.as_str().parse::<u32>() {
            numbers.push(number)?;
        }
    }
    Ok(numbers)
}

fn main(rt: HostRuntime) -> io::Result<()> {
    let numbers = numbers(&rt)?;
    let [what, records, rounds] = numbers.as_slice() else {
        return Ok(());
    };
    let Some(geometry) = Geometry::new(1, UNITS) else {
        return Ok(());
    };
    let records = *records;
    if records == 0 || records > geometry.cap(0) {
        return Ok(());
    }
    let spent = match what {
        0 => {
            let Some(spent) = records::measure(&rt, geometry, records, *rounds)? else {
                return Ok(());
            };
            spent
        }
        1 => arcs::measure(&rt, records, *rounds)?,
        _ => picks::measure(&rt, records, *rounds)?,
    };
    println!(rt; "{}", spent.as_nanos())
}
