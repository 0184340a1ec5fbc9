//! The library's counted references.
ghost use Rattle.std.specs.Prelude.{◌<◌, ◌≤◌};

use crate::picks::picks;
use std::alloc::Global;
use std::io;
use std::rt::Clock;
use std::sync::Arc;
use std::time::{Duration, Instant};

pub fn measure<R: Clock + AllocGlobal>(rt: &R, records: u32, rounds: u32) -> io::Result<Duration>
    requires { 0 < records }
{
    let picks = picks(rt.alloc(), records)?;
    let mut arcs = Vec::new(rt.alloc());
    for record in 0..records {
        arcs.push(Arc::new(rt.alloc(), u64::from(record))?)?;
    }
    let start = Instant::now(rt)?;
    for _round in 0..rounds {
        for unit in picks.as_slice() {
            if let Some(arc) = arcs.as_slice().get(*unit as usize) {
                let clone = Arc::try_clone(arc)?;
                drop(clone);
            }
        }
    }
    start.elapsed(rt)
}
