ghost use Rattle.std.specs.Prelude.{◌≡◌, None, [], length, ◌≤◌, OnOk, OnErr};
ghost use Rattle.tool_io.specs.Fetch.{FailedOnlyByFault};

use crate::count::one_more;
use crate::fetch_error::FetchError;
use crate::read_up_to::read_up_to;
use crate::shelf::Shelf;
use std::fs::File;
use std::rt::Files;

/// The files of the system. Nothing is told of what they hold.
#[derive(Drop)]
pub struct FileShelf<'r, R: Files> {
    files: &'r R,
    pub faults: u64,
    pub last: Option<Result<(), FetchError>>,
}

impl<'r, R: Files> FileShelf<'r, R> {
    /// A shelf that has no fault and was not asked yet.
    pub fn new(files: &'r R) -> FileShelf<'r, R>
        ensures faults { result.faults ≡ 0 }
        ensures last { result.last ≡ None }
    {
        FileShelf {
            files,
            faults: 0,
            last: None,
        }
    }

    fn read_file(&mut self, name: &str, most: u64, into: &mut Vec<u8>) -> Result<(), FetchError>
        requires { into.old.items ≡ [] }
        ensures short { OnOk result (length into.new.items ≤ most) }
        ensures empty { OnErr result (into.new.items ≡ []) }
        ensures cause { FailedOnlyByFault result self.old.faults self.new.faults }
    {
        let Ok(mut file) = File::open(self.files, name) else {
            self.faults = one_more(self.faults);
            return Err(FetchError::Failed);
        };
        read_up_to(&mut file, most, into, &mut self.faults)
    }
}

impl<'r, R: Files> Shelf for FileShelf<'r, R> {
    ghost seen = { λ shelf.
        record { holds = λ _. None; last = shelf.last; faults = shelf.faults } };

    fn fetch(&mut self, name: &str, most: u64, into: &mut Vec<u8>) -> Result<(), FetchError> {
        let result = self.read_file(name, most, into);
        self.last = Some(result);
        result
    }
}
