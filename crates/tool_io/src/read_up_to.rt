ghost use Rattle.std.specs.Prelude.{◌≡◌, ◌<◌, ◌≤◌, [], length, OnOk, OnErr, IfSome, IsErrOf};
ghost use Rattle.tool_io.specs.Fetch.{FailedOnlyByFault};

use crate::count::one_more;
use crate::fetch_error::FetchError;
use std::io::Read;

/// Fills `into` with all that the reader has left, if that is at most `most` bytes.
pub(crate) fn read_up_to<R: Read>(
    reader: &mut R,
    most: u64,
    into: &mut Vec<u8>,
    faults: &mut u64,
) -> Result<(), FetchError>
    requires { into.old.items ≡ [] }
    ensures content { OnOk result
        (IfSome (R.remaining reader.old) (λ bytes. into.new.items ≡ bytes)) }
    ensures short { OnOk result (length into.new.items ≤ most) }
    ensures long { IsErrOf result FetchError.TooLong →
        IfSome (R.remaining reader.old) (λ bytes. most < length bytes) }
    ensures empty { OnErr result (into.new.items ≡ []) }
    ensures cause { FailedOnlyByFault result faults.old faults.new }
{
    let mut chunk = [0u8; 4096];
    loop {
        let Ok(count) = reader.read(&mut chunk) else {
            into.clear();
            *faults = one_more(*faults);
            return Err(FetchError::Failed);
        };
        if count == 0 {
            return Ok(());
        }
        if count as u64 > most - into.len() as u64 {
            into.clear();
            return Err(FetchError::TooLong);
        }
        let Ok(()) = into.extend_from_slice(&chunk[..count]) else {
            into.clear();
            return Err(FetchError::Memory);
        };
    }
}
