ghost use Rattle.std.specs.Prelude.{◌≡◌, ◌+◌, ◌≤◌, length};
ghost use Rattle.std.specs.List.{flat_map};
ghost use Rattle.task_meaning.specs.Meant.{future_at};
ghost use Rattle.record_core.specs.RootEnds.{root_passed, roots_named};
ghost use Rattle.plain_state.specs.Laws.{first_without_task, root_after, root_units};
ghost use Rattle.plain_state.specs.Laws.{taskless as taskless_at};
ghost use Rattle.plain_engine.specs.Roots.{ArgumentHasTask, ArgumentsHaveTasks, IsAskedFor};
ghost use Rattle.plain_engine.specs.Roots.{IsPassedFor, IsPassedTo, MayAskRoot, NamesTasks, RootIs};

use crate::ask::Answer;
use crate::engine::{Engine, put};
use arrayvec::ArrayVec;
use frame_code::{CheckedCode, Frame, Passed, class_of, entry_frame};
use plain_state::RootState;
use record_core::CutTag;
use task_syntax::{Root, RootArgument};

/// How a root was cut that has no task.
fn cut_without_task(root: RootState) -> Option<CutTag>
    ensures { result ≡ Rattle.plain_state.specs.Laws.cut_without_task root }
{
    match root {
        RootState::Named(_) => None,
        RootState::Refused(tag) => Some(tag),
        RootState::Skipped(_, tag) => Some(tag),
    }
}

impl Engine {
    /// Asks for a root. One that names an earlier root without a task is skipped.
    pub fn ask_root(&mut self, checked: &CheckedCode, root: &Root)
        requires { MayAskRoot checked.now self.old root.now }
        ensures asked { IsAskedFor checked.now self.old root.now self.new }
        ensures more { length self.new.roots ≡ length self.old.roots + 1 }
    {
        let state = self.root_state(checked, root);
        put(&mut self.roots, state);
    }

    // What becomes of a root that is asked for.
    fn root_state(&mut self, checked: &CheckedCode, root: &Root) -> RootState
        requires { MayAskRoot checked.now self.old root.now }
        ensures { RootIs checked.now self.old root.now self.new result }
    {
        match self.first_taskless(root) {
            Some((earlier, tag)) => RootState::Skipped(earlier, tag),
            None => self.spawn_root(checked, root),
        }
    }

    // Asks for a root whose earlier roots have tasks.
    #[cold]
    fn spawn_root(&mut self, checked: &CheckedCode, root: &Root) -> RootState
        requires asked { MayAskRoot checked.now self.old root.now }
        requires tasks { NamesTasks self.old root.now }
        ensures { RootIs checked.now self.old root.now self.new result }
    {
        self.records.keeps();
        let class = class_of(checked, root.kind);
        let behind = self.behind(self.unit_behind(root));
        match self.ask(class, behind.task) {
            Answer::Given(block, number) => {
                let passed = self.passed_to(root);
                let mut frame = Frame::new();
                entry_frame(checked, root.kind, passed.as_slice(), &mut frame);
                let unit = block.unit();
                self.make(checked, block, number, behind, root.priority, &frame);
                self.arrive(unit, behind);
                RootState::Named(unit)
            }
            Answer::Refused(tag) => RootState::Refused(tag),
        }
    }

    // The unit of the task of an earlier root, where it has one.
    fn root_unit(&self, root: u8) -> Option<u64>
        ensures { result ≡ future_at (root_units self.now.roots) root }
    {
        match *self.roots.get(root as usize)? {
            RootState::Named(unit) => Some(unit as u64),
            _ => None,
        }
    }

    // The unit of the task of the root that a root is behind, if it is behind one.
    fn unit_behind(&self, root: &Root) -> Option<u64>
        ensures { result ≡ root_after self.now.roots root.now }
    {
        self.root_unit(root.behind?)
    }

    // What is passed for an argument that is a number, or a root with a task.
    fn passed_by_argument(&self, argument: RootArgument) -> Passed
        requires { ArgumentHasTask self.now.roots argument }
        ensures { IsPassedFor self.now.roots argument result }
    {
        match argument {
            RootArgument::Number(number) => Passed::Number(number),
            RootArgument::Root(earlier) => match self.root_unit(earlier) {
                Some(unit) => Passed::Future(unit),
                None => unreachable!(),
            },
        }
    }

    // What is passed to a root whose earlier roots have tasks.
    fn passed_to(&self, root: &Root) -> ArrayVec<Passed, 16>
        requires tasks { ArgumentsHaveTasks self.now.roots root.now }
        requires few { length root.now.arguments ≤ 16 }
        ensures { IsPassedTo self.now.roots root.now result.items }
    {
        let mut passed = ArrayVec::new();
        'arguments: for argument in root.arguments.as_slice() {
            passed.push(self.passed_by_argument(*argument));
        }
        passed
    }

    // A root without a task, with how it was cut.
    fn taskless(&self, root: u8) -> Option<(u8, CutTag)>
        ensures { result ≡ taskless_at self.now.roots root }
    {
        let tag = cut_without_task(*self.roots.get(root as usize)?)?;
        Some((root, tag))
    }

    // The root that is passed, where it has no task.
    fn passed_taskless(&self, argument: RootArgument) -> Option<(u8, CutTag)>
        ensures { result ≡ first_without_task self.now.roots (root_passed argument) }
    {
        match argument {
            RootArgument::Number(_) => None,
            RootArgument::Root(earlier) => self.taskless(earlier),
        }
    }

    // The first root that is passed and has no task.
    fn first_passed(&self, arguments: &[RootArgument]) -> Option<(u8, CutTag)>
        ensures { result ≡ first_without_task self.now.roots (flat_map root_passed arguments.now) }
    {
        'arguments: for argument in arguments {
            if let Some(found) = self.passed_taskless(*argument) {
                return Some(found);
            }
        }
        None
    }

    // The first root that is named and has no task.
    fn first_taskless(&self, root: &Root) -> Option<(u8, CutTag)>
        ensures { result ≡ first_without_task self.now.roots (roots_named root.now) }
    {
        if let Some(found) = self.first_passed(root.arguments.as_slice()) {
            return Some(found);
        }
        self.taskless(root.behind?)
    }
}
