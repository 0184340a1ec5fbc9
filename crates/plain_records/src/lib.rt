//! The records of tasks in the blocks of a pool: by the first unit of a block, what is known of its
//! task, with the words of the task's frame; and the activations that may start.
//!
//! `plain_state` says what the records are seen as and what each call does to them.
#![tactic(auto)]

mod ahead;
mod frames;
mod queues;
mod ready;
mod references;
mod slot;
mod store;

pub use store::Records;
