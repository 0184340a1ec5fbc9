//! The scheduler's calls on small programs, and all roots of a program asked for in their order.
#![tactic(auto)]

mod hosting;
#[cfg(test)]
mod tests;

pub use hosting::{host_program, host_roots};
