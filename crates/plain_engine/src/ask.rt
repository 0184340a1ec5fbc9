ghost use Rattle.std.specs.Prelude.{◌≡◌, ◌≤◌, Some, IfSome};
ghost use Rattle.task_syntax.specs.declared.program.Sort.TheVariants.{Future};
ghost use Rattle.std.specs.List.{filter_map};
ghost use Rattle.frame_code.specs.Words.{body_of, unit_named};
ghost use Rattle.frame_code.specs.Frames.{IsFrame};
ghost use Rattle.frame_code.specs.Moves.{MayPass};
ghost use Rattle.frame_code.specs.Setting.{HasSort, unit_in};
ghost use Rattle.record_core.specs.Numbers.{HasTask};
ghost use Rattle.plain_state.specs.Store.{MayHoldAll, MayLetGo, MayHold, held, held_all, let_go};
ghost use Rattle.plain_state.specs.Engine.{with_store};
ghost use Rattle.plain_state.specs.Moves.{MayLetGoIf};
ghost use Rattle.plain_engine.specs.Asking.{IsAnswer, IsNamed, MayCountNull, MayHoldIf, MayMake, held_if, units_in};
ghost use Rattle.plain_engine.specs.Asking.{MayPlace, placed, with_task, without_named};

use crate::engine::Engine;
use frame_code::{CheckedCode, Frame, assign, naming_words, pass_on, unit_of};
use plain_state::Behind;
use pool_core::Block;
use record_core::CutTag;
use task_syntax::Priority;

/// What comes of asking for a new task: a block and a number, or which of the two is wanting.
pub enum Answer {
    Given(Block, u32),
    Refused(CutTag),
}

impl Engine {
    /// Asks for a block of a class, and for a number behind a task. The pool is asked first. A null
    /// answer is counted.
    #[inline(always)]
    pub fn ask(&mut self, class: u8, after: Option<u32>) -> Answer
        requires class { class ≤ 3 }
        requires after { IfSome after (HasTask self.old.journal.rows) }
        requires null { MayCountNull self.old class }
        ensures { IsAnswer self.old class after result self.new }
    {
        let Some(block) = self.records.allocate(class) else {
            self.count_null(class);
            return Answer::Refused(CutTag::Null);
        };
        match self.journal.accept(None, after) {
            Some(number) => Answer::Given(block, number),
            None => {
                self.records.release(block);
                Answer::Refused(CutTag::Limit)
            }
        }
    }

    /// Makes the record of a new task, which is about to be named once.
    #[inline(always)]
    pub fn make(
        &mut self,
        checked: &CheckedCode,
        block: Block,
        number: u32,
        behind: Behind,
        priority: Priority,
        frame: &Frame,
    )
        requires frame { IsFrame checked.now frame.now.items }
        requires may { MayMake block (units_in checked.now frame.now.items)
            frame.now.items self.old.store }
        ensures { self.new ≡ with_task block number priority behind
            (units_in checked.now frame.now.items) frame.now.items self.old }
    {
        self.hold_named(naming_words(checked, frame));
        let unit = block.unit();
        self.records.make(block, number, priority, behind.cut);
        self.records.store(unit, frame);
    }

    /// A variable of the running task names a new task, which waits for what it is behind or may
    /// start, and the running task goes on.
    #[inline(always)]
    pub fn place(
        &mut self,
        checked: &CheckedCode,
        frame: &mut Frame,
        to: u16,
        block: Block,
        number: u32,
        behind: Behind,
        priority: Priority,
        first: &Frame,
    )
        requires frame { IsFrame checked.now frame.old.items }
        requires variable { HasSort checked.now Future to frame.old.items }
        requires passes { MayPass checked.now (body_of checked.now frame.old.items) }
        requires first { IsFrame checked.now first.now.items }
        requires may { MayPlace block number priority behind (units_in checked.now first.now.items)
            first.now.items (unit_in checked.now frame.old.items to) self.old }
        ensures frame { IsFrame checked.now frame.new.items }
        ensures named { IsNamed checked.now to block.unit frame.old.items frame.new.items }
        ensures placed { self.new ≡ placed block number priority behind
            (units_in checked.now first.now.items)
            first.now.items (unit_in checked.now frame.old.items to) self.old }
    {
        let new = block.unit();
        self.make(checked, block, number, behind, priority, first);
        self.name(checked, frame, to, new);
        self.arrive(new, behind);
    }

    /// The tasks that these words name are named once more.
    fn hold_named(&mut self, words: &[u64])
        requires { MayHoldAll (filter_map unit_named words.now) self.old.store }
        ensures { self.new ≡ with_store self.old
            (held_all (filter_map unit_named words.now) self.old.store) }
    {
        'words: for word in words {
            self.hold_if(unit_of(*word));
        }
    }

    /// The task that a word names, if any, is named once more.
    fn hold_if(&mut self, unit: Option<u64>)
        requires { MayHoldIf unit self.old.store }
        ensures { self.new ≡ with_store self.old (held_if unit self.old.store) }
    {
        if let Some(unit) = unit {
            self.hold(unit);
        }
    }

    /// The task in the block at a unit is named once more.
    pub fn hold(&mut self, unit: u64)
        requires { MayHold unit self.old.store }
        ensures { self.new ≡ with_store self.old (held unit self.old.store) }
    {
        self.records.keeps();
        self.records.hold(unit as u32);
    }

    /// A variable of the running task names the task in a block, which was held for it, and the
    /// task goes on.
    #[inline(always)]
    pub fn name(&mut self, checked: &CheckedCode, frame: &mut Frame, to: u16, unit: u32)
        requires frame { IsFrame checked.now frame.old.items }
        requires variable { HasSort checked.now Future to frame.old.items }
        requires passes { MayPass checked.now (body_of checked.now frame.old.items) }
        requires old { MayLetGoIf (unit_in checked.now frame.old.items to) self.old.store }
        ensures frame { IsFrame checked.now frame.new.items }
        ensures named { IsNamed checked.now to unit frame.old.items frame.new.items }
        ensures left { self.new ≡ without_named (unit_in checked.now frame.old.items to) self.old }
    {
        let old = assign(checked, frame, to, unit as u64);
        pass_on(checked, frame);
        self.let_go_if(old);
    }

    /// The task that a variable named, if any, is named once less.
    pub fn let_go_if(&mut self, unit: Option<u64>)
        requires { MayLetGoIf unit self.old.store }
        ensures { self.new ≡ without_named unit self.old }
    {
        if let Some(unit) = unit {
            self.let_go(unit);
        }
    }

    /// The task in the block at a unit is named once less.
    pub fn let_go(&mut self, unit: u64)
        requires { MayLetGo unit self.old.store }
        ensures { self.new ≡ with_store self.old (let_go unit self.old.store) }
    {
        self.records.keeps();
        self.records.let_go(unit as u32);
    }
}
