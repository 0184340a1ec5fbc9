ghost use Rattle.std.specs.Prelude.{◌≡◌, ◌-◌, ◌<◌, ◌≤◌, ◌^◌, ◌↔◌, length, IfOk, IsSome, IfSome, IfNone};
ghost use Rattle.frame_code.specs.Units.{named_in};
ghost use Rattle.table_core.specs.Addresses.{sum};
ghost use Rattle.table_core.specs.Views.{first_view, saw as saw_step};
ghost use Rattle.ready_queues.specs.Moments.{Rose};
ghost use Rattle.schedule_rule.specs.DrawViews.{saw_live};
ghost use Rattle.step_table.specs.ListHands.{IsChain};
ghost use Rattle.step_table.specs.Passes.{view, plan, IsOf, IsMadeWith, IsSame, IsSameWith};
ghost use Rattle.schedule_core.specs.Completing.{MayComplete, Completes, GivesFirst};
ghost use Rattle.schedule_core.specs.Publishing.{Publishes};
ghost use Rattle.schedule_core.specs.Taking.{Takes, held_with, run_taken};

use crate::answers::{Outcome, Taken};
use crate::completing;
use crate::publishing::tell_full;
use crate::running::Running;
use crate::taking::{take_entry, take_spilled};
use frame_code::CheckedCode;
use kt_words::Plan;
use ready_queues::{Entry, ReadyStore};
use std::alloc::{AllocError, Global};
use std::sync::Wait;
use step_table::{Chain, Pass, Shared};
use task_syntax::{Checked, Columns};

/// The table of a run with the store of what is ready. Any number of threads call it at once, each
/// with a pass of the table and one of the store.
#[derive(Drop)]
pub struct Scheduler<Q: ReadyStore> {
    shared: Shared,
    ready: Q,
}

impl<Q: ReadyStore + Drop> Scheduler<Q> {
    /// A scheduler with the first pass of its table. No root is asked for yet.
    pub fn new(
        alloc: Global,
        checked: Checked,
        columns: Columns,
        plan: Plan,
        ready: Q,
    ) -> Result<(Scheduler<Q>, Pass), AllocError>
        requires roots { plan.roots ≡ length checked.roots }
        ensures table { IfOk result (λ made. IsMadeWith made.0.shared checked columns plan) }
        ensures ready { IfOk result (λ made. made.0.ready ≡ ready) }
        ensures pass { IfOk result (λ made. IsOf made.0.shared made.1
            × (view made.1 ≡ first_view)) }
        ensures numbers { IfOk result (λ made. (made.1.splits ≡ 4095) × (made.1.number ≡ 0)) }
    {
        let (shared, pass) = Shared::new(alloc, checked, columns, plan)?;
        Ok((Scheduler { shared, ready }, pass))
    }
}

impl<Q: ReadyStore> Scheduler<Q> {
    /// The table.
    pub fn shared(&self) -> &Shared
        ensures { result.now ≡ self.now.shared }
    {
        &self.shared
    }

    /// The store of what is ready.
    pub fn ready(&self) -> &Q
        ensures { result.now ≡ self.now.ready }
    {
        &self.ready
    }

    /// How many records live. A pass that knows that all roots were asked for and sees none knows
    /// that none will live any more.
    pub fn see_live(&self, pass: &mut Pass) -> u64
        requires { IsOf self.now.shared pass.old }
        ensures pass { IsSame pass.old pass.new }
        ensures living { view pass.new ≡ saw_step (sum 1) result
            (saw_live (plan self.now.shared).roots result (view pass.old)) }
    {
        self.shared.see_live(pass)
    }

    /// Takes an activation: of an entry out of the ready store or, where all its queues were empty
    /// and one was told to have been full, of a record that is seen ready.
    pub fn take<R: Wait>(
        &self,
        rt: &R,
        code: &CheckedCode,
        pass: &mut Pass,
        qpass: &mut Q::QPass,
    ) -> Taken
        requires table { IsOf self.now.shared pass.old }
        requires code { code.now ≡ self.now.shared.setup.checked }
        requires store { Q.is_pass self.now.ready qpass.old }
        requires room { pass.old.held < 2 ^ 32 }
        ensures pass { IsSameWith
            (held_with self.now.shared.setup pass.old.held (run_taken result))
            pass.old pass.new }
        ensures store { Q.is_pass self.now.ready qpass.new }
        ensures number { Rose (Q.number qpass.old) (Q.number qpass.new) }
        ensures split { Q.may_split qpass.old → Q.may_split qpass.new }
        ensures taken { Takes self.now.shared.setup (Q.lanes self.now.ready) (Q.number qpass.old)
            (Q.saw self.now.ready qpass.new) (view pass.old) result (view pass.new) }
    {
        match self.ready.take(rt, qpass) {
            Some(entry) => match take_entry(&self.shared, code, pass, entry) {
                Ok(running) => Taken::Task(running),
                Err(seen) => Taken::Passed { entry, seen },
            },
            None => take_spilled(&self.shared, code, pass),
        }
    }

    /// Ends the task of a running activation. Its list is closed, and who waited in it is the chain.
    pub fn complete(
        &self,
        code: &CheckedCode,
        pass: &mut Pass,
        running: Running,
        outcome: Outcome,
    ) -> Chain
        requires table { IsOf self.now.shared pass.old }
        requires code { code.now ≡ self.now.shared.setup.checked }
        requires may { MayComplete self.now.shared.setup running outcome (view pass.old) }
        ensures pass { IsSameWith
            (pass.old.held - length (named_in code.now running.frame.items))
            pass.old pass.new }
        ensures done { Completes self.now.shared.setup running outcome
            (view pass.old) result (view pass.new) }
    {
        completing::complete(&self.shared, code, pass, running, outcome)
    }

    /// Makes the first record of a chain ready. None: the chain has no record, and nothing has
    /// changed.
    pub fn next_ready(&self, pass: &mut Pass, chain: Chain) -> Option<(Entry, Chain)>
        requires table { IsOf self.now.shared pass.old }
        requires chain { IsChain (plan self.now.shared) chain (view pass.old) }
        ensures pass { IsSame pass.old pass.new }
        ensures exactly { IsSome result ↔ (1 ≤ chain.length) }
        ensures none { IfNone result (view pass.new ≡ view pass.old) }
        ensures some { IfSome result (λ left. GivesFirst self.now.shared.setup chain
            (view pass.old) left (view pass.new)) }
    {
        completing::next_ready(&self.shared, pass, chain)
    }

    /// Puts an entry into the ready store. Where its queue is full, all passes are told so, and a
    /// sweep finds the record: the word that tells them was seen set when this returns.
    pub fn publish<R: Wait>(&self, rt: &R, pass: &mut Pass, qpass: &mut Q::QPass, entry: Entry)
        requires table { IsOf self.now.shared pass.old }
        requires store { Q.is_pass self.now.ready qpass.old }
        ensures pass { IsSame pass.old pass.new }
        ensures store { Q.is_pass self.now.ready qpass.new }
        ensures number { Rose (Q.number qpass.old) (Q.number qpass.new) }
        ensures split { Q.may_split qpass.old → Q.may_split qpass.new }
        ensures published { Publishes (Q.lanes self.now.ready) (Q.number qpass.old)
            (Q.saw self.now.ready qpass.new) entry (view pass.old) (view pass.new) }
    {
        match self.ready.push(rt, qpass, entry) {
            Ok(()) => {}
            Err(_) => tell_full(&self.shared, rt, pass),
        }
    }
}
