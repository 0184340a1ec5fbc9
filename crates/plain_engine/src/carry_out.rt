ghost use Rattle.std.specs.Prelude.{◌≡◌, ◌≤◌, IfSome, true, slice_get};
ghost use Rattle.task_syntax.specs.declared.program.Sort.TheVariants.{Future};
ghost use Rattle.frame_code.specs.Words.{body_of};
ghost use Rattle.frame_code.specs.Frames.{IsFrame};
ghost use Rattle.frame_code.specs.Moves.{MayPass};
ghost use Rattle.frame_code.specs.Setting.{HasSort};
ghost use Rattle.frame_code.specs.Told.{act_told};
ghost use Rattle.frame_code.specs.declared.act.Act.TheVariants as act;
ghost use Rattle.plain_engine.specs.Ending.{EndsRefused, MayBeRefused};
ghost use Rattle.plain_engine.specs.Going.{CarriesOut, MayCarryOut, MayCarryOutAny};
ghost use Rattle.plain_engine.specs.Going.{CarriesOutAny, TakesLine, MayReadValue, IsValueRead};
ghost use Rattle.plain_engine.specs.Going.{MayAskNew, SpawnsNew, wanted};
ghost use Rattle.plain_engine.specs.Asking.{IsKnown};
ghost use Rattle.plain_state.specs.Laws.{unit_in_if};

use crate::ask::Answer;
use crate::desk::Desk;
use crate::engine::Engine;
use frame_code::{
    AllRequest, Asked, CheckedCode, Frame, Requests, SpawnRequest, class_of, entry_frame, future,
    give, lift, members_class, members_frame, pass_on, passed_by, units_named,
};
use plain_state::Outcome;
use record_core::CutTag;
use task_syntax::{Priority, Value};

/// The unit that a variable names, if one is given and it names one.
fn named_if(checked: &CheckedCode, frame: &Frame, x: Option<u16>) -> Option<u64>
    requires frame { IsFrame checked.now frame.now.items }
    requires variable { IfSome x (λ at. HasSort checked.now Future at frame.now.items) }
    ensures { result ≡ unit_in_if (body_of checked.now frame.now.items) x }
{
    match x {
        Some(x) => future(checked, frame, x),
        None => None,
    }
}

/// The first of some units, if there is one.
fn first_of(units: &[u64]) -> Option<u64>
    ensures { result ≡ slice_get units.now 0 }
{
    match units.get(0) {
        Some(unit) => Some(*unit),
        None => None,
    }
}

impl Engine {
    /// Carries out what the running task asks for, and tells whether it goes on.
    pub fn carry_out(
        &mut self,
        checked: &CheckedCode,
        unit: u32,
        frame: &mut Frame,
        desk: &mut Desk,
        requests: &Requests,
        asked: Asked,
    ) -> bool
        requires { MayCarryOut checked.now self.old unit frame.old.items
            (act_told asked requests.now) }
        ensures steps { CarriesOut checked.now self.old unit frame.old.items
            (act_told asked requests.now) result self.new frame.new.items }
        ensures fewer { TakesLine checked.now result frame.old.items frame.new.items }
    {
        match asked {
            Asked::Spawn => self.spawn(checked, unit, frame, desk, &requests.spawn),
            Asked::All => self.gather(checked, unit, frame, desk, &requests.all),
            Asked::Copy { to, of } => {
                self.copy(checked, frame, to, of);
                true
            }
            Asked::Drop { future } => {
                self.drop_future(checked, frame, future);
                true
            }
            Asked::NeedsValue { future } => self.read(checked, unit, frame, future),
            Asked::Again(request) => {
                self.respawn(checked, unit, frame, desk, request);
                false
            }
            Asked::Done(number) => {
                self.gives(checked, unit, frame, Value::Number(number));
                false
            }
            Asked::Trap(trap) => {
                self.gives(checked, unit, frame, Value::Trapped(trap));
                false
            }
        }
    }

    // One variable names the task that another names.
    fn copy(&mut self, checked: &CheckedCode, frame: &mut Frame, to: u16, of: u16)
        requires { MayCarryOutAny checked.now self.old frame.old.items (act.Copy to of) }
        ensures steps { CarriesOutAny checked.now self.old frame.old.items (act.Copy to of) self.new
            frame.new.items }
        ensures fewer { TakesLine checked.now true frame.old.items frame.new.items }
    {
        let Some(unit) = future(checked, frame, of) else {
            unreachable!();
        };
        self.hold(unit);
        self.name(checked, frame, to, unit as u32);
    }

    // A variable names no task any more.
    fn drop_future(&mut self, checked: &CheckedCode, frame: &mut Frame, x: u16)
        requires { MayCarryOutAny checked.now self.old frame.old.items (act.Drop x) }
        ensures steps { CarriesOutAny checked.now self.old frame.old.items (act.Drop x) self.new
            frame.new.items }
        ensures fewer { TakesLine checked.now true frame.old.items frame.new.items }
    {
        let old = lift(checked, frame, x);
        pass_on(checked, frame);
        self.let_go_if(old);
    }

    // The running task reads what another gave. A trap ends it.
    fn read(&mut self, checked: &CheckedCode, unit: u32, frame: &mut Frame, x: u16) -> bool
        requires { MayCarryOut checked.now self.old unit frame.old.items (act.NeedsValue x) }
        ensures steps { CarriesOut checked.now self.old unit frame.old.items
            (act.NeedsValue x) result
            self.new frame.new.items }
        ensures fewer { TakesLine checked.now result frame.old.items frame.new.items }
    {
        match self.value(checked, frame, x) {
            Value::Number(number) => {
                give(checked, frame, number);
                true
            }
            Value::Trapped(trap) => {
                self.gives(checked, unit, frame, Value::Trapped(trap));
                false
            }
        }
    }

    // What the task gave that a variable names.
    fn value(&self, checked: &CheckedCode, frame: &Frame, x: u16) -> Value
        requires frame { IsFrame checked.now frame.now.items }
        requires value { MayReadValue checked.now self.now frame.now.items x }
        ensures { IsValueRead checked.now self.now frame.now.items x result }
    {
        let Some(source) = future(checked, frame, x) else {
            unreachable!();
        };
        self.records.keeps();
        match self.records.record(source as u32).outcome {
            Some(Outcome::Gave(value)) => value,
            _ => unreachable!(),
        }
    }

    // The running task spawns another.
    fn spawn(
        &mut self,
        checked: &CheckedCode,
        unit: u32,
        frame: &mut Frame,
        desk: &mut Desk,
        request: &SpawnRequest,
    ) -> bool
        requires { MayCarryOut checked.now self.old unit frame.old.items (act.Spawn request.now) }
        ensures steps { CarriesOut checked.now self.old unit frame.old.items
            (act.Spawn request.now) result
            self.new frame.new.items }
        ensures fewer { TakesLine checked.now result frame.old.items frame.new.items }
    {
        let class = class_of(checked, request.kind);
        let after = named_if(checked, frame, request.behind);
        passed_by(checked, frame, request, &mut desk.passed);
        entry_frame(
            checked,
            request.kind,
            desk.passed.as_slice(),
            &mut desk.first,
        );
        self.spawn_new(
            checked,
            unit,
            frame,
            class,
            after,
            request.priority,
            request.retry,
            request.to,
            &desk.first,
        )
    }

    // The running task spawns an aggregate.
    fn gather(
        &mut self,
        checked: &CheckedCode,
        unit: u32,
        frame: &mut Frame,
        desk: &mut Desk,
        request: &AllRequest,
    ) -> bool
        requires { MayCarryOut checked.now self.old unit frame.old.items (act.All request.now) }
        ensures steps { CarriesOut checked.now self.old unit frame.old.items
            (act.All request.now) result
            self.new frame.new.items }
        ensures fewer { TakesLine checked.now result frame.old.items frame.new.items }
    {
        self.records.keeps();
        let members = units_named(checked, frame, request.members.as_slice());
        let class = members_class(members.as_slice().len() as u8);
        let after = first_of(members.as_slice());
        members_frame(members.as_slice(), &mut desk.gathered);
        self.spawn_new(
            checked,
            unit,
            frame,
            class,
            after,
            request.priority,
            request.retry,
            request.to,
            &desk.gathered,
        )
    }

    // The running task asks for a new one, of a class, behind a task, with a first frame.
    #[inline(always)]
    fn spawn_new(
        &mut self,
        checked: &CheckedCode,
        unit: u32,
        frame: &mut Frame,
        class: u8,
        after: Option<u64>,
        priority: Priority,
        retry: bool,
        to: u16,
        first: &Frame,
    ) -> bool
        requires frame { IsFrame checked.now frame.old.items }
        requires class { class ≤ 3 }
        requires variable { HasSort checked.now Future to frame.old.items }
        requires passes { MayPass checked.now (body_of checked.now frame.old.items) }
        requires first { IsFrame checked.now first.now.items }
        requires known { IsKnown self.old after }
        requires asks { MayAskNew checked.now self.old unit frame.old.items
            (wanted checked.now class after priority retry to first.now.items) }
        ensures steps { SpawnsNew checked.now self.old unit frame.old.items
            (wanted checked.now class after priority retry to first.now.items) result self.new
            frame.new.items }
        ensures fewer { TakesLine checked.now result frame.old.items frame.new.items }
    {
        let behind = self.behind(after);
        match self.ask(class, behind.task) {
            Answer::Given(block, number) => {
                self.place(checked, frame, to, block, number, behind, priority, first);
                true
            }
            Answer::Refused(tag) => {
                self.refused(checked, unit, frame, tag, retry);
                false
            }
        }
    }

    // The running task was refused a new one. After a null answer it may try again later.
    #[cold]
    fn refused(&mut self, checked: &CheckedCode, unit: u32, frame: &Frame, tag: CutTag, retry: bool)
        requires frame { IsFrame checked.now frame.now.items }
        requires refused { MayBeRefused checked.now self.old unit frame.now.items tag retry }
        ensures { EndsRefused checked.now self.old unit frame.now.items tag retry self.new }
    {
        if tag == CutTag::Null && retry {
            self.retry(checked, unit, frame);
        } else {
            self.refuse(checked, unit, frame, tag);
        }
    }
}
