//! The run of a program on one thread: tasks in records of a pool, which wait for one another in
//! lists and start from queues, each activation to its end.
//!
//! `plain_state` says what the state of an engine is, what each move does to it and when it stands
//! for a state of the run. `specs/Asking.antt` says what comes of asking for a task,
//! `specs/Ending.antt` how a task ends, `specs/Going.antt` what a turn does, and `specs/Roots.antt`
//! what is asked for roots.
#![tactic(auto)]

mod arrive;
mod ask;
mod carry_out;
mod desk;
mod end;
mod engine;
mod finish;
mod respawn;
mod roots;
mod run;
mod turn;

pub use end::PlainEnd;
pub use run::PlainRun;
