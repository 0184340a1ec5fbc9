ghost use Rattle.std.specs.Prelude.{◌≡◌, IfSome, false};
ghost use Rattle.task_syntax.specs.declared.program.Sort.TheVariants.{Future};
ghost use Rattle.frame_code.specs.Words.{body_of};
ghost use Rattle.frame_code.specs.Frames.{IsFrame};
ghost use Rattle.frame_code.specs.Setting.{HasSort};
ghost use Rattle.frame_code.specs.declared.act.Act.TheVariants as act;
ghost use Rattle.plain_state.specs.Store.{HasUnit};
ghost use Rattle.plain_state.specs.Laws.{respawn_unit, unit_in_if};
ghost use Rattle.plain_state.specs.Moves.{behind_at};
ghost use Rattle.plain_engine.specs.Asking.{IsKnown};
ghost use Rattle.plain_engine.specs.Ending.{IsRenewed, MayGoOn, MayRenewAt, MayRetry, Retries};
ghost use Rattle.plain_engine.specs.Ending.{gone_on};
ghost use Rattle.plain_engine.specs.Going.{CarriesOut, MayBeBehindNext};
ghost use Rattle.plain_engine.specs.Going.{MayCarryOut, PriorityIs};

use crate::arrive::behind_nothing;
use crate::desk::Desk;
use crate::engine::Engine;
use frame_code::{CheckedCode, Frame, RespawnRequest, enter_held, future, is_aggregate, member};
use plain_state::Behind;
use record_core::CutTag;
use task_syntax::Priority;

impl Engine {
    /// What a task is to be behind that names it by a variable, if by any.
    pub fn behind_variable(&self, checked: &CheckedCode, frame: &Frame, x: Option<u16>) -> Behind
        requires frame { IsFrame checked.now frame.now.items }
        requires variable { IfSome x (λ at. HasSort checked.now Future at frame.now.items) }
        requires known { IsKnown self.now (unit_in_if (body_of checked.now frame.now.items) x) }
        ensures { result ≡ behind_at self.now.store
            (unit_in_if (body_of checked.now frame.now.items) x) }
    {
        match x {
            None => behind_nothing(),
            Some(x) => self.behind(future(checked, frame, x)),
        }
    }

    // What the running task is to be behind next: of an aggregate, a member.
    fn behind_next(&self, checked: &CheckedCode, frame: &Frame, x: Option<u16>) -> Behind
        requires frame { IsFrame checked.now frame.now.items }
        requires next { MayBeBehindNext checked.now frame.now.items x }
        requires known { IsKnown self.now (respawn_unit (body_of checked.now frame.now.items) x) }
        ensures { result ≡ behind_at self.now.store
            (respawn_unit (body_of checked.now frame.now.items) x) }
    {
        match x {
            Some(at) if is_aggregate(frame) => self.behind(Some(member(frame, at))),
            _ => self.behind_variable(checked, frame, x),
        }
    }

    // An aggregate keeps its priority.
    fn next_priority(
        &self,
        checked: &CheckedCode,
        unit: u32,
        frame: &Frame,
        asked: Priority,
    ) -> Priority
        requires frame { IsFrame checked.now frame.now.items }
        requires unit { HasUnit self.now.store unit }
        ensures { PriorityIs checked.now self.now unit frame.now.items asked result }
    {
        if is_aggregate(frame) {
            self.records.record(unit).priority
        } else {
            asked
        }
    }

    /// The running activation ends, and its task goes on by a further one. At the limit it is cut.
    pub fn respawn(
        &mut self,
        checked: &CheckedCode,
        unit: u32,
        frame: &mut Frame,
        desk: &mut Desk,
        request: RespawnRequest,
    )
        requires { MayCarryOut checked.now self.old unit frame.old.items (act.Again request) }
        ensures { CarriesOut checked.now self.old unit frame.old.items (act.Again request) false
            self.new frame.new.items }
    {
        let behind = self.behind_next(checked, frame, request.behind);
        let priority = self.next_priority(checked, unit, frame, request.priority);
        if self.renews(unit, behind, priority) {
            enter_held(checked, frame, request.target, &mut desk.given_up);
            self.go_on(unit, frame, behind, desk.given_up.as_slice());
        } else {
            self.refuse(checked, unit, frame, CutTag::Limit);
        }
    }

    // A further activation goes on with a frame, which does not name these any more.
    fn go_on(&mut self, unit: u32, frame: &Frame, behind: Behind, given_up: &[u64])
        requires { MayGoOn unit behind given_up.now frame.now.items self.old.store }
        ensures { self.new ≡ gone_on unit behind given_up.now frame.now.items self.old }
    {
        self.let_go_all(given_up);
        self.records.store(unit, frame);
        self.arrive(unit, behind);
    }

    /// The running activation ends, and its task tries the same line again by a further one, with
    /// low priority. At the limit it is cut.
    #[cold]
    pub fn retry(&mut self, checked: &CheckedCode, unit: u32, frame: &Frame)
        requires frame { IsFrame checked.now frame.now.items }
        requires retries { MayRetry checked.now self.old unit frame.now.items }
        ensures { Retries checked.now self.old unit frame.now.items self.new }
    {
        let behind = behind_nothing();
        if self.renews(unit, behind, Priority::Low) {
            self.records.store(unit, frame);
            self.arrive(unit, behind);
        } else {
            self.refuse(checked, unit, frame, CutTag::Limit);
        }
    }

    // Draws a number for a further activation of the task, if one is left.
    fn renews(&mut self, unit: u32, behind: Behind, priority: Priority) -> bool
        requires { MayRenewAt unit behind self.old }
        ensures { IsRenewed unit priority behind self.old result self.new }
    {
        let task = self.records.record(unit).task;
        match self.journal.accept(Some(task), behind.task) {
            Some(number) => {
                self.records.renew(unit, number, priority, behind.cut);
                true
            }
            None => false,
        }
    }
}
