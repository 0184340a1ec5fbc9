//! Entries of the ready store, and the state words of the records that they name.
ghost use Rattle.std.specs.Prelude.{◌≡◌};
ghost use Rattle.schedule_core.specs.Entries.{priority_at, entry_of as entry_as};

use kt_words::StateWord;
use ready_queues::Entry;
use task_syntax::Priority;

// The priority with this code.
fn priority_of(code: u8) -> Priority
    ensures { result ≡ priority_at code }
{
    match code {
        0 => Priority::High,
        1 => Priority::Regular,
        _ => Priority::Low,
    }
}

/// The entry of a record whose state word says this.
pub(crate) fn entry_of(unit: u32, word: StateWord) -> Entry
    ensures { result ≡ entry_as unit word }
{
    Entry {
        unit,
        number: word.number,
        priority: priority_of(word.priority),
    }
}
