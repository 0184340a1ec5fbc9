//! Programs that workers run on threads, each on a table of its own: to test the loop of workers and
//! to measure it. A run is `run_program`; `running.rt` and `hosting.rt` have its steps, `ended.rt`
//! what is seen once it has ended.
#![tactic(auto)]

mod ended;
mod hosting;
mod running;
#[cfg(test)]
mod tests;

pub use ended::{Ended, Left, see_left, worked_of};
pub use hosting::{host_all, publish_roots};
pub use running::{first_worker, run_program, run_workers, split_worker, split_workers};
