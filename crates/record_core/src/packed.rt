ghost use Rattle.std.specs.Prelude.{◌≡◌, ◌<◌, ◌≤◌, ◌^◌, IfSome, None, Some};
ghost use Rattle.record_core.specs.Journal.{unfinished};
ghost use Rattle.record_core.specs.Packed.{FitsCause, cause_told, number_told};

use crate::rows::{ActivationRow, Cause, TaskRow};
use std::marker::Model;

/// A number from 1 on, or none, which is 0.
fn told(number: u32) -> Option<u32>
    ensures { result ≡ number_told number }
{
    match number {
        0 => None,
        _ => Some(number),
    }
}

/// The same as a stamp.
fn stamp_told(number: u32) -> Option<u64>
    ensures { result ≡ number_told number }
{
    match number {
        0 => None,
        _ => Some(number as u64),
    }
}

/// A cause as it is kept.
fn code(cause: Cause) -> u32
    requires { FitsCause cause }
    ensures { cause_told result ≡ cause }
{
    match cause {
        Cause::Clear => 0,
        Cause::Null => 1,
        Cause::Limit => 2,
        Cause::By(task) => task + 3,
    }
}

/// The cause that was kept so.
fn cause(code: u32) -> Cause
    ensures { result ≡ cause_told code }
{
    match code {
        0 => Cause::Clear,
        1 => Cause::Null,
        2 => Cause::Limit,
        _ => Cause::By(code - 3),
    }
}

/// An activation in 20 bytes, with the task that begins with it. Contracts see the two rows.
#[derive(Drop)]
pub struct PackedRow {
    task: u32,
    after: u32,
    start: u32,
    finish: u32,
    cause: u32,
}

impl Model for PackedRow {
    ghost use Rattle.record_core.specs.Packed.{NumberRow, cause_told, number_told};

    ghost Value = { NumberRow };

    ghost view = { λ r. record {
      activation = record { task = r.task; after = number_told r.after; start = number_told r.start };
      task = record { finish = number_told r.finish; cause = cause_told r.cause };
    } };
}

impl PackedRow {
    /// An activation that was accepted, and a task that has not finished.
    pub fn new(task: u32, after: Option<u32>) -> PackedRow
        requires { IfSome after (λ u. 1 ≤ u) }
        ensures { result ≡ record {
          activation = record { task = task; after = after; start = None };
          task = unfinished;
        } }
    {
        PackedRow {
            task,
            after: after.unwrap_or(0),
            start: 0,
            finish: 0,
            cause: 0,
        }
    }

    /// The activation begins, with a stamp.
    pub fn begin(&mut self, stamp: u64)
        requires some { 1 ≤ stamp }
        requires few { stamp < 2 ^ 32 }
        ensures { self.new ≡ record self.old {
          activation = record self.old.activation { start = Some stamp };
        } }
    {
        self.start = stamp as u32;
    }

    /// The task finishes, with a stamp and a cause.
    pub fn finish(&mut self, stamp: u64, cause: Cause)
        requires some { 1 ≤ stamp }
        requires few { stamp < 2 ^ 32 }
        requires cause { FitsCause cause }
        ensures { self.new ≡ record self.old {
          task = record { finish = Some stamp; cause = cause };
        } }
    {
        self.finish = stamp as u32;
        self.cause = code(cause);
    }

    /// The row of the activation.
    pub fn activation(&self) -> ActivationRow
        ensures { result ≡ self.now.activation }
    {
        ActivationRow {
            task: self.task,
            after: told(self.after),
            start: stamp_told(self.start),
        }
    }

    /// The row of the task.
    pub fn task(&self) -> TaskRow
        ensures { result ≡ self.now.task }
    {
        TaskRow {
            finish: stamp_told(self.finish),
            cause: cause(self.cause),
        }
    }
}
