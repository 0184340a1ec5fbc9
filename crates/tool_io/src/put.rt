ghost use Rattle.std.specs.Prelude.{◌≡◌, [], OnOk, OnErr, IsOk};
ghost use Rattle.tool_io.specs.Fault.{ErrOnlyByFault};
ghost use Rattle.tool_io.specs.Sink.{Adds, AddsFront};

use crate::failed::Failed;
use crate::sink::Sink;

/// Puts the whole piece, offered again from where the sink stopped. An empty piece makes no call.
pub fn put_all<O: Sink>(out: &mut O, piece: &[u8]) -> Result<(), Failed>
    ensures ok { OnOk result (Adds (O.seen out.old) (O.seen out.new) piece.now) }
    ensures err { OnErr result (AddsFront (O.seen out.old) (O.seen out.new) piece.now) }
    ensures cause { ErrOnlyByFault result (O.seen out.old).faults (O.seen out.new).faults }
    ensures unasked { piece.now ≡ [] → IsOk result × (out.new ≡ out.old) }
{
    let mut rest = piece;
    while !rest.is_empty() {
        let count = out.put(rest)?;
        let (_, ahead) = rest.split_at(count);
        rest = ahead;
    }
    Ok(())
}
