ghost use Rattle.std.specs.Prelude.{◌≡◌, ◌+◌, ◌<◌, ◌≤◌, length, IfOk, Some, Contains, vec_capacity, vec_len, OnErr, IsTrue, IsFalse, ◌⊎◌};
ghost use Rattle.std.specs.Io.{WritesAtMost};
ghost use Rattle.std.specs.Io.KnownBytes.{WriteAppends};
ghost use Rattle.tool_io.specs.Fault.{ErrOnlyByFault};
ghost use Rattle.tool_io.specs.Count.{one_more};

use crate::count::{is_listed, one_more};
use crate::failed::Failed;
use crate::sink::Sink;
use std::alloc::Global;
use task_syntax::Memory;

/// A sink in memory, which fails in the calls that it is told, counted from 1, and where its room ends.
#[derive(Drop)]
pub struct MemorySink {
    pub bytes: Vec<u8>,
    pub fail: Vec<u64>,
    pub calls: u64,
    pub faults: u64,
    pub room: u64,
    ghost reserved: { room ≤ vec_capacity bytes },
    ghost within: { vec_len bytes ≤ room },
}

impl MemorySink {
    ghost use Rattle.tool_io.specs.MemorySink.{IsFresh};

    /// A sink that has taken nothing yet, with memory for `room` bytes.
    pub fn new(alloc: Global, room: u64, fail: Vec<u64>) -> Result<MemorySink, Memory>
        ensures { IfOk result (λ sink. IsFresh sink room fail) }
    {
        let Ok(bytes) = Vec::with_capacity(alloc, room as usize) else {
            return Err(Memory);
        };
        Ok(MemorySink {
            bytes,
            fail,
            calls: 0,
            faults: 0,
            room,
        })
    }

    fn takes(&self, call: u64, piece: &[u8]) -> bool
        ensures fits { IsTrue result →
            length self.now.bytes.items + length piece.now ≤ self.now.room }
        ensures unlisted { IsTrue result → ¬ Contains self.now.fail.items call }
        ensures refuses { IsFalse result → Contains self.now.fail.items call
            ⊎ (self.now.room < length self.now.bytes.items + length piece.now) }
    {
        let used = self.bytes.len() as u64;
        !is_listed(&self.fail, call) && piece.len() as u64 <= self.room - used
    }
}

impl Sink for MemorySink {
    ghost use Rattle.tool_io.specs.MemorySink.{Fails, Counts};

    ghost seen = { λ sink. record { taken = Some sink.bytes.items; faults = sink.faults } };

    fn put(&mut self, piece: &[u8]) -> Result<usize, Failed>
        ensures bound { WritesAtMost result piece.now }
        ensures bytes { WriteAppends (Some self.old.bytes.items) (Some self.new.bytes.items)
            result piece.now }
        ensures some { 0 < length piece.now → IfOk result (λ count. 0 < count) }
        ensures cause { ErrOnlyByFault result self.old.faults self.new.faults }

        // It fails exactly in the listed calls and where the room ends, and takes a whole piece else.
        ensures fails { OnErr result (Fails self.old piece.now) }
        ensures whole { IfOk result
            (λ count. (count ≡ length piece.now) × ¬ Fails self.old piece.now) }
        ensures counts { Counts self.old self.new result }
    {
        self.calls = one_more(self.calls);
        if !self.takes(self.calls, piece) {
            self.faults = one_more(self.faults);
            return Err(Failed);
        }
        self.bytes.extend_from_slice(piece).unwrap();
        Ok(piece.len())
    }
}
