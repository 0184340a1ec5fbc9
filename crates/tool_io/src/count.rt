ghost use Rattle.std.specs.Prelude.{◌≡◌, ◌↔◌, IsTrue, Contains};
ghost use Rattle.tool_io.specs.Count.{one_more};
ghost use Rattle.tool_io.specs.Fetch.{faults_after};

use crate::fetch_error::FetchError;

/// One more, where a count at its greatest value stands still.
pub fn one_more(count: u64) -> u64
    ensures { result ≡ one_more count }
{
    count.saturating_add(1)
}

/// Whether the call of this number is in the list of those that are to fail.
pub fn is_listed(calls: &[u64], call: u64) -> bool
    ensures { IsTrue result ↔ Contains calls.now call }
{
    calls.contains(&call)
}

/// The count of faults of a shelf after this answer.
pub(crate) fn faults_after(answer: Result<(), FetchError>, faults: u64) -> u64
    ensures { result ≡ faults_after answer faults }
{
    match answer {
        Err(FetchError::Failed) => one_more(faults),
        _ => faults,
    }
}
