//! What the calls of the scheduler answer.
use crate::running::Running;
use kt_words::StateWord;
use ready_queues::Entry;
use step_table::Future;
use task_syntax::Trap;

/// What came of a spawn.
#[derive(Drop)]
pub enum Spawned {
    /// A new task. An entry is given where nothing is waited for.
    Future(Future, Option<Entry>),
    /// The pool had no block.
    Null,
    /// The limit of activations is met.
    Over,
}

/// What came of asking for a root. The root's word says the same.
#[derive(Debug, Clone, Copy, PartialEq, Eq)]
pub enum HostSpawned {
    /// A new task, whose reference is in the root's word. An entry is given where nothing is waited
    /// for.
    Named(Option<Entry>),
    /// The pool had no block.
    Null,
    /// The limit of activations is met.
    Over,
    /// The line names this root, which has no task.
    Skipped(u8),
}

/// What came of a respawn.
#[derive(Drop)]
pub enum Respawned {
    /// The activation waits for its predecessor.
    Waits,
    /// It is ready.
    Ready(Entry),
    /// The limit of activations is met.
    Over(Running),
}

/// What a worker took.
#[derive(Drop)]
pub enum Taken {
    /// An activation, which the pass runs from now on.
    Task(Running),
    /// An entry whose record was not ready under its number any more.
    Passed { entry: Entry, seen: StateWord },
    /// Nothing was there.
    Empty,
}

/// How a task ends.
#[derive(Debug, Clone, Copy, PartialEq, Eq)]
pub enum Outcome {
    /// It gives this number.
    Number(u64),
    /// It gives this trap.
    Trapped(Trap),
    /// It is cut, since the pool had no block for what it asked for.
    RefusedNull,
    /// It is cut, since the limit of activations was met.
    RefusedLimit,
}
