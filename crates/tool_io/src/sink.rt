ghost use Rattle.std.specs.Prelude.{◌<◌, length, IfOk};
ghost use Rattle.std.specs.Io.{WritesAtMost};
ghost use Rattle.std.specs.Io.KnownBytes.{WriteAppends};
ghost use Rattle.tool_io.specs.Fault.{ErrOnlyByFault};
ghost use Rattle.tool_io.specs.Seen.{SinkSeen};

use crate::failed::Failed;

/// What takes the text that a tool prints.
pub trait Sink {
    // All that a clause sees of it.
    ghost seen: { Self → SinkSeen };

    /// Takes the first bytes of the piece, and answers how many.
    fn put(&mut self, piece: &[u8]) -> Result<usize, Failed>
        ensures bound { WritesAtMost result piece.now }
        ensures bytes { WriteAppends (seen self.old).taken (seen self.new).taken result piece.now }
        ensures some { 0 < length piece.now → IfOk result (λ count. 0 < count) }
        ensures cause { ErrOnlyByFault result (seen self.old).faults (seen self.new).faults };
}
