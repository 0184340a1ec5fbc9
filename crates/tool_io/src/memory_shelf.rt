ghost use Rattle.std.specs.Prelude.{◌≡◌, ◌≤◌, [], Some, None, length, OnOk, OnErr, IsErrOf, option_map};
ghost use Rattle.tool_io.specs.Fetch.{FailedOnlyByFault};
ghost use Rattle.tool_io.specs.Seen.{Holds, HoldsMore};

use crate::count::{faults_after, is_listed, one_more};
use crate::fetch_error::FetchError;
use crate::shelf::Shelf;

/// A shelf in memory, which fails in the calls that it is told, counted from 1, and at absent names.
#[derive(Drop)]
pub struct MemoryShelf {
    pub names: Vec<(String, Vec<u8>)>,
    pub fail: Vec<u64>,
    pub calls: u64,
    pub faults: u64,
    pub last: Option<Result<(), FetchError>>,
}

impl MemoryShelf {
    ghost use Rattle.tool_io.specs.MemoryShelf.{Answers, bytes_under};

    /// A shelf with these contents, of which no call was made yet.
    pub fn new(names: Vec<(String, Vec<u8>)>, fail: Vec<u64>) -> MemoryShelf
        ensures { result ≡
            record { names = names; fail = fail; calls = 0; faults = 0; last = None } }
    {
        MemoryShelf {
            names,
            fail,
            calls: 0,
            faults: 0,
            last: None,
        }
    }

    // The content of the first entry of this name.
    fn find(&self, name: &str) -> Option<&Vec<u8>>
        ensures { option_map (λ bytes. bytes.now.items) result ≡ bytes_under self.now name.now }
    {
        self.names
            .iter()
            .find(|entry| entry.0.as_str() == name)
            .map(|entry| &entry.1)
    }

    // What the next call answers.
    fn copy_out(&self, name: &str, most: u64, into: &mut Vec<u8>) -> Result<(), FetchError>
        requires { into.old.items ≡ [] }
        ensures answers { Answers self.now name.now most result into.new.items }
        ensures empty { OnErr result (into.new.items ≡ []) }
    {
        if is_listed(&self.fail, one_more(self.calls)) {
            return Err(FetchError::Failed);
        }
        let Some(bytes) = self.find(name) else {
            return Err(FetchError::Failed);
        };
        if bytes.len() as u64 > most {
            return Err(FetchError::TooLong);
        }
        match into.extend_from_slice(bytes) {
            Ok(()) => Ok(()),
            Err(_) => Err(FetchError::Memory),
        }
    }
}

impl Shelf for MemoryShelf {
    ghost use Rattle.tool_io.specs.MemoryShelf.{Answers, Records, seen_of};

    ghost seen = { seen_of };

    fn fetch(&mut self, name: &str, most: u64, into: &mut Vec<u8>) -> Result<(), FetchError>
        requires { into.old.items ≡ [] }
        ensures content { OnOk result (Holds (seen_of self.old) name.now into.new.items) }
        ensures short { OnOk result (length into.new.items ≤ most) }
        ensures long { IsErrOf result FetchError.TooLong →
            HoldsMore (seen_of self.old) name.now most }
        ensures empty { OnErr result (into.new.items ≡ []) }
        ensures kept { (seen_of self.new).holds ≡ (seen_of self.old).holds }
        ensures told { self.new.last ≡ Some result }
        ensures cause { FailedOnlyByFault result self.old.faults self.new.faults }

        // The list of failing calls and the contents decide, and want of memory alone is free.
        ensures answers { Answers self.old name.now most result into.new.items }
        ensures records { Records self.old self.new result }
    {
        let result = self.copy_out(name, most, into);
        self.calls = one_more(self.calls);
        self.faults = faults_after(result, self.faults);
        self.last = Some(result);
        result
    }
}
