ghost use Rattle.std.specs.Prelude.{◌≡◌};

use crate::count::one_more;
use crate::failed::Failed;
use crate::sink::Sink;
use std::io::Write;

/// Any writer as a sink, which counts the writes that failed.
#[derive(Drop)]
pub struct OutSink<W: Write> {
    pub writer: W,
    pub faults: u64,
}

impl<W: Write> OutSink<W> {
    /// A sink over the writer, with no fault yet.
    pub fn new(writer: W) -> OutSink<W>
        ensures { result ≡ record { writer = writer; faults = 0 } }
    {
        OutSink { writer, faults: 0 }
    }
}

impl<W: Write> Sink for OutSink<W> {
    ghost seen = { λ sink. record { taken = W.contents sink.writer; faults = sink.faults } };

    fn put(&mut self, piece: &[u8]) -> Result<usize, Failed> {
        match self.writer.write(piece) {
            Ok(count) if count > 0 || piece.is_empty() => Ok(count),
            _ => {
                self.faults = one_more(self.faults);
                Err(Failed)
            }
        }
    }
}
