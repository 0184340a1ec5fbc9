ghost use Rattle.std.specs.Prelude.{◌≡◌};

use task_syntax::Priority;

/// An activation that is ready to run: the unit of its record, its number and its priority.
#[derive(Debug, Clone, Copy, PartialEq, Eq)]
pub struct Entry {
    pub unit: u32,
    pub number: u32,
    pub priority: Priority,
}

// An entry without its priority, which the queue that holds it tells.
#[derive(Clone, Copy)]
pub(crate) struct Item {
    unit: u32,
    number: u32,
}

impl Item {
    ghost use Rattle.ready_queues.specs.Entries.{entry_at, item_of};

    pub(crate) fn of(entry: Entry) -> Item
        ensures { result ≡ item_of entry }
    {
        Item {
            unit: entry.unit,
            number: entry.number,
        }
    }

    // The entry that this is in a queue of this priority.
    pub(crate) fn at(self, priority: Priority) -> Entry
        ensures { result ≡ entry_at priority self }
    {
        Entry {
            unit: self.unit,
            number: self.number,
            priority,
        }
    }
}
