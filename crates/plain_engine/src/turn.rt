ghost use Rattle.std.specs.Prelude.{◌≡◌, Some, slice_get};
ghost use Rattle.frame_code.specs.Frames.{IsFrame};
ghost use Rattle.plain_state.specs.Store.{frame_at};
ghost use Rattle.plain_records.specs.Allocated.{HasFrame};
ghost use Rattle.plain_engine.specs.Ending.{EndsCut, MayBeCut};
ghost use Rattle.plain_engine.specs.Going.{IsIdle, IsRunning, MayStart, RunsToItsEnd};
ghost use Rattle.plain_engine.specs.Going.{TakesNext, TakesStart, Turns, started};

use crate::desk::Desk;
use crate::engine::Engine;
use frame_code::{CheckedCode, Frame, Requests, advance};
use plain_state::{Outcome, Record};
use record_core::{Cause, CutTag};
use task_syntax::Columns;

impl Engine {
    /// Starts the next activation that may start, if there is one, and runs it to its end. What is
    /// worked on stands in a frame, on a desk and in requests that are used again at each turn.
    pub fn turn(
        &mut self,
        checked: &CheckedCode,
        columns: &Columns,
        frame: &mut Frame,
        desk: &mut Desk,
        requests: &mut Requests,
    ) -> bool
        requires { IsIdle checked.now columns.now self.old }
        ensures turns { Turns checked.now columns.now self.old result self.new }
        ensures fewer { TakesStart result self.old self.new }
    {
        let Some(unit) = self.take_next() else {
            return false;
        };
        let record = self.begin(unit);
        self.frame(unit, frame);
        match record.cut {
            Some(tag) => self.cut(checked, unit, frame, record.number, tag),
            None => self.run(checked, columns, unit, frame, desk, requests),
        }
        true
    }

    // Takes the next task out of the queues, by its unit.
    fn take_next(&mut self) -> Option<u32>
        ensures { TakesNext self.old result self.new }
    {
        self.records.next_ready()
    }

    // The last activation of the task in a block begins.
    fn begin(&mut self, unit: u32) -> Record
        requires { MayStart self.old unit }
        ensures record { slice_get self.old.store.records unit ≡ Some result }
        ensures begun { self.new ≡ started result.number self.old }
    {
        let record = self.records.record(unit);
        self.journal.begin(record.number);
        record
    }

    // Reads the frame of the task in a block.
    fn frame(&self, unit: u32, frame: &mut Frame)
        requires { HasFrame self.now.store unit }
        ensures { frame.new.items ≡ frame_at self.now.store unit }
    {
        self.records.read(unit, frame);
    }

    // The started task is cut, as the task was that it is behind.
    #[cold]
    fn cut(&mut self, checked: &CheckedCode, unit: u32, frame: &Frame, number: u32, tag: CutTag)
        requires frame { IsFrame checked.now frame.now.items }
        requires cut { MayBeCut checked.now self.old unit frame.now.items number tag }
        ensures { EndsCut checked.now self.old unit frame.now.items number tag self.new }
    {
        let Some(after) = self.journal.activation(number).after else {
            unreachable!();
        };
        self.finish(checked, unit, frame, Outcome::WasCut(tag), Cause::By(after));
    }

    // The started task runs until its activation ends.
    fn run(
        &mut self,
        checked: &CheckedCode,
        columns: &Columns,
        unit: u32,
        frame: &mut Frame,
        desk: &mut Desk,
        requests: &mut Requests,
    )
        requires { IsRunning checked.now columns.now self.old unit frame.old.items }
        ensures { RunsToItsEnd checked.now columns.now self.old unit frame.old.items self.new }
    {
        'acts: loop {
            let asked = advance(checked, columns, frame, requests);
            if !self.carry_out(checked, unit, frame, desk, requests, asked) {
                return;
            }
        }
    }
}
