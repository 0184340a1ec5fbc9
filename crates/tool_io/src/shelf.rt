ghost use Rattle.std.specs.Prelude.{◌≡◌, ◌≤◌, [], Some, length, OnOk, OnErr, IsErrOf};
ghost use Rattle.tool_io.specs.Fetch.{FailedOnlyByFault};
ghost use Rattle.tool_io.specs.Seen.{ShelfSeen, Holds, HoldsMore};

use crate::fetch_error::FetchError;

/// Where a tool reads its files from.
pub trait Shelf {
    // All that a clause sees of it.
    ghost seen: { Self → ShelfSeen };

    /// Fills `into`, which is empty, with the content under the name, if that is at most `most` bytes.
    fn fetch(&mut self, name: &str, most: u64, into: &mut Vec<u8>) -> Result<(), FetchError>
        requires { into.old.items ≡ [] }
        ensures content { OnOk result (Holds (seen self.old) name.now into.new.items) }
        ensures short { OnOk result (length into.new.items ≤ most) }
        ensures long { IsErrOf result FetchError.TooLong → HoldsMore (seen self.old) name.now most }
        ensures empty { OnErr result (into.new.items ≡ []) }
        ensures kept { (seen self.new).holds ≡ (seen self.old).holds }
        ensures told { (seen self.new).last ≡ Some result }
        ensures cause { FailedOnlyByFault result (seen self.old).faults (seen self.new).faults };
}
