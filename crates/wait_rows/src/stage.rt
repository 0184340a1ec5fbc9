use step_table::{Finishing, Future, Linkable, Started};

/// A record whose list others join.
#[derive(Drop)]
pub struct Owner {
    pub future: Future,
    /// Its task, which those that join the list are behind.
    pub task: u32,
}

/// Where the record of a list stands.
#[derive(Drop)]
pub enum Stage {
    /// It runs.
    Running(Started),
    /// It is done, and its list is still open.
    Done(Finishing),
    /// Its list is closed.
    Closed,
}

/// A record that waits, and the list that it is to join.
#[derive(Drop)]
pub struct Waiting {
    pub waiter: Linkable,
    pub list: u32,
}
