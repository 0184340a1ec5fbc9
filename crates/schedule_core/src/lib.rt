//! The scheduler on the table that threads share: tasks spawn, respawn, are taken and complete,
//! each by single steps of `step_table`. No call but `Scheduler::new` asks the system for memory.
//!
//! `scheduler.rt` has the calls, but for those that a running task makes: they stand with what they
//! do. Each is a function of the table, in a file by its subject; what the calls need and tell stands
//! in `specs/`.
#![tactic(auto)]

mod answers;
mod asking;
mod completing;
mod entries;
mod frames;
mod hosting;
mod making;
mod moves;
mod named_roots;
mod new_tasks;
mod publishing;
mod references;
mod respawning;
mod running;
mod scheduler;
mod sights;
mod spawning;
mod spawning_all;
mod taking;

pub use answers::{HostSpawned, Outcome, Respawned, Spawned, Taken};
pub use running::Running;
pub use scheduler::Scheduler;
