use record_core::CutTag;
use task_syntax::{Priority, Value};

/// How a task ended: it gave a value, or it was cut.
#[derive(Debug, Clone, Copy, PartialEq, Eq)]
pub enum Outcome {
    Gave(Value),
    WasCut(CutTag),
}

/// What is known of the task in a block. Other records are named by the first unit of their block.
#[derive(Debug, Clone, Copy)]
pub struct Record {
    /// The number of its first activation.
    pub task: u32,
    /// Its last activation, and the queue that it joins.
    pub number: u32,
    pub priority: Priority,
    /// One while it is under way, and one for each variable, member and root that names it.
    pub references: u32,
    /// How it ended, once it has.
    pub outcome: Option<Outcome>,
    /// How the task was cut that its last activation is behind, once that has ended.
    pub cut: Option<CutTag>,
    /// The task that joined its waiters last.
    pub first: Option<u32>,
    /// The task behind this one among the waiters of another.
    pub next: Option<u32>,
    /// How many words its frame has.
    pub length: u8,
}

/// What became of a root: it has the task in the block at this unit, it was refused one, or it
/// names this earlier root, which has none and was cut so.
#[derive(Debug, Clone, Copy, PartialEq, Eq)]
pub enum RootState {
    Named(u32),
    Refused(CutTag),
    Skipped(u8, CutTag),
}

/// What an activation is behind.
#[derive(Debug, Clone, Copy, PartialEq, Eq)]
pub struct Behind {
    /// The task, if it is behind one.
    pub task: Option<u32>,
    /// The unit of that task's record, where it has not ended.
    pub waits: Option<u32>,
    /// How that task was cut, where it ended so.
    pub cut: Option<CutTag>,
}
