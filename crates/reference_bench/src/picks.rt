//! Records to choose, at random.
ghost use Rattle.std.specs.Prelude.{◌<◌, IfOk, All};

use std::alloc::{AllocError, Global};
use std::hint::black_box;
use std::io;
use std::rt::Clock;
use std::time::{Duration, Instant};

const PICKS: u32 = 4_096;

/// So many records to take in turn.
pub fn picks(alloc: Global, records: u32) -> Result<Vec<u32>, AllocError>
    requires { 0 < records }
    ensures { IfOk result (λ picks. All (λ unit. unit < records) picks.items) }
{
    let mut picks = Vec::new(alloc);
    let mut state = 1u32;
    for _pick in 0..PICKS {
        state = state.wrapping_mul(1_664_525).wrapping_add(1_013_904_223);
        picks.push((state >> 16) % records)?;
    }
    Ok(picks)
}

/// The time in which records are chosen and nothing is done with them.
pub fn measure<R: Clock + AllocGlobal>(rt: &R, records: u32, rounds: u32) -> io::Result<Duration>
    requires { 0 < records }
{
    let picks = picks(rt.alloc(), records)?;
    let start = Instant::now(rt)?;
    for _round in 0..rounds {
        for unit in picks.as_slice() {
            black_box(*unit);
        }
    }
    start.elapsed(rt)
}
