ghost use Rattle.std.specs.Prelude.{◌≡◌, ◌+◌, ◌*◌, ◌≤◌, drop, length, take};
ghost use Rattle.plain_state.specs.Store.{FitsAt, HasUnit, changed, frame_at, stored, units_of, with_length, written};
ghost use Rattle.plain_records.specs.Allocated.{HasFrame, with_written};

use crate::store::{BEFORE, Records};
use frame_code::Frame;

/// Reads so many of the words, from a place on, into a frame. The frame that was read before often
/// had as many words: then these are written over, and nothing is cleared.
fn read_at(words: &[u64], at: usize, count: usize, frame: &mut Frame)
    requires within { at + count ≤ length words.now }
    requires few { count ≤ 64 }
    ensures { frame.new.items ≡ take count (drop at words.now) }
{
    let read = &words[at..at + count];
    if frame.len() == count {
        frame.as_mut_slice().copy_from_slice(read);
    } else {
        frame.clear();
        let _fits = frame.try_extend_from_slice(read);
    }
}

/// Writes words over those from a place on.
fn write_at(words: &mut Vec<u64>, at: usize, new: &[u64])
    requires within { at + length new.now ≤ length words.old.items }
    ensures { words.new.items ≡ written at new.now words.old.items }
{
    words[at..at + new.len()].copy_from_slice(new);
}

impl Records {
    /// Reads the frame of a task.
    pub fn read(&self, unit: u32, frame: &mut Frame)
        requires { HasFrame self.now unit }
        ensures { frame.new.items ≡ frame_at self.now unit }
    {
        let count = self.records[unit as usize].length() as usize;
        read_at(
            self.words.as_slice(),
            BEFORE + unit as usize * 8,
            count,
            frame,
        );
    }

    /// Keeps the frame of a task.
    pub fn store(&mut self, unit: u32, frame: &Frame)
        requires unit { HasUnit self.old unit }
        requires fits { FitsAt self.old unit (length frame.now.items) }
        ensures { self.new ≡ stored unit frame.now.items self.old }
    {
        self.set_length(unit, frame.len() as u8);
        self.write(unit as usize * 8, frame.as_slice());
    }

    // The frame of a task has so many words.
    fn set_length(&mut self, unit: u32, length: u8)
        requires { HasUnit self.old unit }
        ensures { self.new ≡ changed (with_length length) unit self.old }
    {
        self.records[unit as usize].set_length(length);
    }

    // Writes words over those from a place on.
    fn write(&mut self, at: usize, words: &[u64])
        requires { at + length words.now ≤ units_of self.old * 8 }
        ensures { self.new ≡ with_written at words.now self.old }
    {
        write_at(&mut self.words, BEFORE + at, words);
    }
}
