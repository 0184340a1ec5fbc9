use crate::ready::Ready;
use crate::slot::Slot;
use crate::store::BEFORE;

/// So many tasks are read ahead at a time.
const MANY: usize = 8;

/// What was read ahead: for how many more tasks it counts, and the words themselves. Nothing hangs
/// on the words; they are kept so that no compiler leaves out the reads.
#[derive(Clone, Copy, Drop)]
pub struct Ahead {
    left: usize,
    words: u64,
}

impl Ahead {
    /// Nothing was read.
    pub fn none() -> Ahead {
        Ahead { left: 0, words: 0 }
    }

    /// The next task is about to be taken. Where none is left that was read ahead, the next ones
    /// are. A read that memory takes long to answer holds a task up; many that are made together are
    /// answered in little more than the time of one.
    pub fn next(self, records: &[Slot], words: &[u64], ready: &Ready) -> Ahead {
        if self.left > 0 {
            return Ahead {
                left: self.left - 1,
                words: self.words,
            };
        }
        Ahead {
            left: MANY - 1,
            words: words_ahead(records, words, ready),
        }
    }
}

/// Reads the records and frames of the next tasks of regular priority.
fn words_ahead(records: &[Slot], words: &[u64], ready: &Ready) -> u64 {
    let mut read = 0u64;
    'next: for place in 0..MANY {
        if let Some(unit) = ready.regular_at(place) {
            read = read ^ words_at(records, words, unit);
        }
    }
    read
}

/// A word of each half of a record, and of its frame.
fn words_at(records: &[Slot], words: &[u64], unit: u32) -> u64 {
    let unit = unit as usize;
    match (records.get(unit), words.get(BEFORE + unit * 8)) {
        (Some(slot), Some(word)) => slot.record().number as u64 ^ slot.length() as u64 ^ *word,
        _ => 0,
    }
}
