ghost use Rattle.std.specs.Prelude.{◌≡◌, ℕ, ◌+◌, ◌<◌, ◌≤◌, ◌^◌, IfSome, Some};
ghost use Rattle.plain_state.specs.Store.{less, more, no_record, renewed_by, with_cut, with_first, with_length, with_next, with_outcome};
ghost use Rattle.plain_state.specs.Moves.{new_record};
ghost use Rattle.plain_records.specs.Slots.{code_told, cut_told, number_given, outcome_told};

use plain_state::{Outcome, Record};
use record_core::CutTag;
use std::marker::Model;
use task_syntax::{Priority, Trap, Value};

/// How a task ended, the number that it gave apart.
#[derive(Clone, Copy)]
pub enum Ended {
    UnderWay,
    Number,
    Overflow,
    Divide,
    NoRow,
    Null,
    Limit,
}

/// How a task was cut that another is behind, if it was.
#[derive(Clone, Copy)]
pub enum Cut {
    Not,
    Null,
    Limit,
}

/// How a task ended so, without the number that it gave.
fn kept_end(outcome: Outcome) -> Ended
    ensures { (number : ℕ) → number ≡ number_given outcome
        → outcome_told result number ≡ Some outcome }
{
    match outcome {
        Outcome::Gave(Value::Number(_)) => Ended::Number,
        Outcome::Gave(Value::Trapped(Trap::Overflow)) => Ended::Overflow,
        Outcome::Gave(Value::Trapped(Trap::Divide)) => Ended::Divide,
        Outcome::Gave(Value::Trapped(Trap::NoRow)) => Ended::NoRow,
        Outcome::WasCut(CutTag::Null) => Ended::Null,
        Outcome::WasCut(CutTag::Limit) => Ended::Limit,
    }
}

/// The number that a task gave, or 0.
fn number(outcome: Outcome) -> u64
    ensures { result ≡ number_given outcome }
{
    match outcome {
        Outcome::Gave(Value::Number(number)) => number,
        _ => 0,
    }
}

/// The outcome that was kept so.
fn outcome(ended: Ended, number: u64) -> Option<Outcome>
    ensures { result ≡ outcome_told ended number }
{
    match ended {
        Ended::UnderWay => None,
        Ended::Number => Some(Outcome::Gave(Value::Number(number))),
        Ended::Overflow => Some(Outcome::Gave(Value::Trapped(Trap::Overflow))),
        Ended::Divide => Some(Outcome::Gave(Value::Trapped(Trap::Divide))),
        Ended::NoRow => Some(Outcome::Gave(Value::Trapped(Trap::NoRow))),
        Ended::Null => Some(Outcome::WasCut(CutTag::Null)),
        Ended::Limit => Some(Outcome::WasCut(CutTag::Limit)),
    }
}

/// A cut as it is kept.
fn kept_cut(cut: Option<CutTag>) -> Cut
    ensures { cut_told result ≡ cut }
{
    match cut {
        None => Cut::Not,
        Some(CutTag::Null) => Cut::Null,
        Some(CutTag::Limit) => Cut::Limit,
    }
}

/// The cut that was kept so.
fn cut_kept_so(kept: Cut) -> Option<CutTag>
    ensures { result ≡ cut_told kept }
{
    match kept {
        Cut::Not => None,
        Cut::Null => Some(CutTag::Null),
        Cut::Limit => Some(CutTag::Limit),
    }
}

/// A unit as it is kept: 1 more, or 0 for none.
fn code(unit: Option<u32>) -> u32
    requires { IfSome unit (λ u. u + 1 < 2 ^ 32) }
    ensures { code_told result ≡ unit }
{
    match unit {
        None => 0,
        Some(unit) => unit + 1,
    }
}

/// The unit that was kept so.
fn unit(code: u32) -> Option<u32>
    ensures told { result ≡ code_told code }
    ensures small { IfSome result (λ u. u + 1 < 2 ^ 32) }
{
    match code {
        0 => None,
        _ => Some(code - 1),
    }
}

/// A record in 32 bytes. Contracts see the record.
#[derive(Drop)]
pub struct Slot {
    given: u64,
    task: u32,
    number: u32,
    references: u32,
    first: u32,
    next: u32,
    ended: Ended,
    cut: Cut,
    priority: Priority,
    length: u8,
}

impl Model for Slot {
    ghost use Rattle.plain_state.specs.declared.record.Record.{Record};
    ghost use Rattle.plain_records.specs.Slots.{code_told, cut_told, outcome_told};

    ghost Value = { Record };

    ghost view = { λ s. record {
      task = s.task;
      number = s.number;
      priority = s.priority;
      references = s.references;
      outcome = outcome_told s.ended s.given;
      cut = cut_told s.cut;
      first = code_told s.first;
      next = code_told s.next;
      length = s.length;
    } };
}

impl Slot {
    /// What was never written is not read.
    pub fn unused() -> Slot
        ensures { result ≡ no_record }
    {
        Slot {
            given: 0,
            task: 0,
            number: 0,
            references: 0,
            first: 0,
            next: 0,
            ended: Ended::UnderWay,
            cut: Cut::Not,
            priority: Priority::Regular,
            length: 0,
        }
    }

    /// The record of a new task, which is under way and is about to be named once.
    pub fn new(number: u32, priority: Priority, cut: Option<CutTag>) -> Slot
        ensures { result ≡ new_record number priority cut }
    {
        Slot {
            given: 0,
            task: number,
            number,
            references: 2,
            first: 0,
            next: 0,
            ended: Ended::UnderWay,
            cut: kept_cut(cut),
            priority,
            length: 0,
        }
    }

    /// The record.
    pub fn record(&self) -> Record
        ensures { result ≡ self.now }
    {
        Record {
            task: self.task,
            number: self.number,
            priority: self.priority,
            references: self.references,
            outcome: outcome(self.ended, self.given),
            cut: cut_kept_so(self.cut),
            first: unit(self.first),
            next: unit(self.next),
            length: self.length,
        }
    }

    /// The priority.
    pub fn priority(&self) -> Priority
        ensures { result ≡ self.now.priority }
    {
        self.priority
    }

    /// How many words the frame has.
    pub fn length(&self) -> u8
        ensures { result ≡ self.now.length }
    {
        self.length
    }

    /// How often the task is referred to.
    pub fn references(&self) -> u32
        ensures { result ≡ self.now.references }
    {
        self.references
    }

    /// The task that joined its waiters last.
    pub fn first(&self) -> Option<u32>
        ensures told { result ≡ self.now.first }
        ensures small { IfSome result (λ u. u + 1 < 2 ^ 32) }
    {
        unit(self.first)
    }

    /// The task behind this one among the waiters of another.
    pub fn next(&self) -> Option<u32>
        ensures { result ≡ self.now.next }
    {
        unit(self.next)
    }

    /// It is referred to once more.
    pub fn hold(&mut self)
        requires { self.old.references + 1 < 2 ^ 32 }
        ensures { self.new ≡ more self.old }
    {
        self.references += 1;
    }

    /// It is referred to once less.
    pub fn let_go(&mut self)
        requires { 1 ≤ self.old.references }
        ensures { self.new ≡ less self.old }
    {
        self.references -= 1;
    }

    /// Its frame has so many words.
    pub fn set_length(&mut self, length: u8)
        ensures { self.new ≡ with_length length self.old }
    {
        self.length = length;
    }

    /// A further activation was accepted.
    pub fn renew(&mut self, number: u32, priority: Priority, cut: Option<CutTag>)
        ensures { self.new ≡ renewed_by number priority cut self.old }
    {
        self.number = number;
        self.priority = priority;
        self.cut = kept_cut(cut);
    }

    /// It has ended so, and has no waiters any more.
    pub fn end(&mut self, outcome: Outcome)
        ensures { self.new ≡ with_outcome outcome self.old }
    {
        self.ended = kept_end(outcome);
        self.given = number(outcome);
        self.first = 0;
    }

    /// What it is behind was cut so, or was not cut.
    pub fn set_cut(&mut self, cut: Option<CutTag>)
        ensures { self.new ≡ with_cut cut self.old }
    {
        self.cut = kept_cut(cut);
    }

    /// This task joined its waiters last.
    pub fn set_first(&mut self, waiter: u32)
        requires { waiter + 1 < 2 ^ 32 }
        ensures { self.new ≡ with_first (Some waiter) self.old }
    {
        self.first = waiter + 1;
    }

    /// This task is behind it among the waiters of another.
    pub fn set_next(&mut self, next: Option<u32>)
        requires { IfSome next (λ u. u + 1 < 2 ^ 32) }
        ensures { self.new ≡ with_next next self.old }
    {
        self.next = code(next);
    }
}
