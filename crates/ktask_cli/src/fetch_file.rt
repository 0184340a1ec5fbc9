ghost use Rattle.std.specs.Prelude.{◌≤◌, IfOk, length};
ghost use Rattle.std.specs.Result.{result_map_both};
ghost use Rattle.ktask_cli.specs.Plan.{content_of};
ghost use Rattle.ktask_cli.specs.Stop.{longest_file};

use crate::stop::{InputFile, Stop};
use std::alloc::Global;
use tool_io::{FetchError, Shelf};

/// The greatest length of a file that is read.
pub const FILE_LIMIT: u64 = 16_777_216;

/// Fetches a file of the command.
pub fn fetch_file<S: Shelf>(
    alloc: Global,
    shelf: &mut S,
    which: InputFile,
    name: &str,
) -> Result<Vec<u8>, Stop>
    ensures short { IfOk result (λ bytes. length bytes.items ≤ longest_file) }
    ensures follows { content_of which name.now
        (S.seen shelf.old) (S.seen shelf.new)
        (result_map_both (λ bytes. bytes.items) (λ stop. stop) result) }
{
    let mut bytes = Vec::new(alloc);
    match shelf.fetch(name, FILE_LIMIT, &mut bytes) {
        Ok(()) => Ok(bytes),
        Err(FetchError::Failed) => Err(Stop::CannotRead(which)),
        Err(FetchError::TooLong) => Err(Stop::TooLong(which)),
        Err(FetchError::Memory) => Err(Stop::WantOfMemory),
    }
}
