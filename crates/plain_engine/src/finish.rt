ghost use Rattle.std.specs.Prelude.{◌≡◌};
ghost use Rattle.std.specs.List.{filter_map};
ghost use Rattle.frame_code.specs.Words.{unit_named};
ghost use Rattle.frame_code.specs.Frames.{IsFrame};
ghost use Rattle.record_core.specs.declared.rows.Cause.TheVariants.{Clear};
ghost use Rattle.plain_state.specs.declared.record.Outcome.TheVariants.{Gave, WasCut};
ghost use Rattle.plain_state.specs.Store.{MayLetGoAll, let_go_all};
ghost use Rattle.plain_state.specs.Engine.{with_store};
ghost use Rattle.plain_engine.specs.Asking.{units_in};
ghost use Rattle.plain_engine.specs.Ending.{Ends, MayEnd, MayFinishAt, finished_at};

use crate::engine::Engine;
use frame_code::{CheckedCode, Frame, naming_words, unit_of};
use plain_state::Outcome;
use record_core::{Cause, CutTag};
use task_syntax::Value;

/// The cause of what a task was refused.
fn cause_of_refusal(tag: CutTag) -> Cause
    ensures { result ≡ Rattle.plain_engine.specs.Ending.cause_of_refusal tag }
{
    match tag {
        CutTag::Null => Cause::Null,
        CutTag::Limit => Cause::Limit,
    }
}

impl Engine {
    /// The running task ends. Its waiters may start, and it gives up what its frame names.
    #[inline(always)]
    fn end_task(
        &mut self,
        checked: &CheckedCode,
        unit: u32,
        frame: &Frame,
        outcome: Outcome,
        cause: Cause,
    )
        requires frame { IsFrame checked.now frame.now.items }
        requires may { MayFinishAt unit (units_in checked.now frame.now.items)
            outcome cause self.old }
        ensures { self.new ≡ finished_at unit (units_in checked.now frame.now.items) outcome cause
            self.old }
    {
        let task = self.records.record(unit).task;
        self.journal.finish(task, cause);
        self.records.complete(unit, outcome);
        self.let_go_named(naming_words(checked, frame));
        self.records.let_go(unit);
    }

    /// The running task ends so.
    #[inline(always)]
    pub fn finish(
        &mut self,
        checked: &CheckedCode,
        unit: u32,
        frame: &Frame,
        outcome: Outcome,
        cause: Cause,
    )
        requires frame { IsFrame checked.now frame.now.items }
        requires ends { MayEnd checked.now self.old unit frame.now.items outcome cause }
        ensures { Ends checked.now self.old unit frame.now.items outcome cause self.new }
    {
        self.end_task(checked, unit, frame, outcome, cause);
    }

    /// The running task gives a value.
    #[inline(always)]
    pub fn gives(&mut self, checked: &CheckedCode, unit: u32, frame: &Frame, value: Value)
        requires frame { IsFrame checked.now frame.now.items }
        requires ends { MayEnd checked.now self.old unit frame.now.items (Gave value) Clear }
        ensures { Ends checked.now self.old unit frame.now.items (Gave value) Clear self.new }
    {
        self.finish(checked, unit, frame, Outcome::Gave(value), Cause::Clear);
    }

    /// The running task is refused what it asked for.
    #[cold]
    pub fn refuse(&mut self, checked: &CheckedCode, unit: u32, frame: &Frame, tag: CutTag)
        requires frame { IsFrame checked.now frame.now.items }
        requires ends { MayEnd checked.now self.old unit frame.now.items (WasCut tag)
            (Rattle.plain_engine.specs.Ending.cause_of_refusal tag) }
        ensures { Ends checked.now self.old unit frame.now.items (WasCut tag)
            (Rattle.plain_engine.specs.Ending.cause_of_refusal tag) self.new }
    {
        let cause = cause_of_refusal(tag);
        self.finish(checked, unit, frame, Outcome::WasCut(tag), cause);
    }

    // The tasks that these words name are named once less.
    fn let_go_named(&mut self, words: &[u64])
        requires { MayLetGoAll (filter_map unit_named words.now) self.old.store }
        ensures { self.new ≡ with_store self.old (let_go_all (filter_map unit_named words.now)
            self.old.store) }
    {
        'words: for word in words {
            self.let_go_if(unit_of(*word));
        }
    }

    /// These are named once less.
    pub fn let_go_all(&mut self, units: &[u64])
        requires { MayLetGoAll units.now self.old.store }
        ensures { self.new ≡ with_store self.old (let_go_all units.now self.old.store) }
    {
        'units: for unit in units {
            self.let_go(*unit);
        }
    }
}
