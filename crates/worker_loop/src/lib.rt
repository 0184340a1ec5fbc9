//! The loop of a worker: it takes what is ready and runs it, until no record lives any more.
#![tactic(auto)]

mod gate;
mod serving;
mod turn;
mod worker;

pub use gate::{Gate, NoGate};
pub use worker::{Worked, Worker, run_all, work};
