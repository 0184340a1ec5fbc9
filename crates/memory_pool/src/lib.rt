//! A pool of memory blocks for any number of threads, without a lock. It stands on the steps of
//! `step_table`; what its calls tell stands in `specs/Answers.antt`.
#![tactic(auto)]

mod allocated;
mod claims;
mod found;
mod pool;
mod search;
#[cfg(test)]
mod step_tests;
#[cfg(test)]
mod tests;

pub use allocated::Allocated;
pub use pool::{allocate, release};
