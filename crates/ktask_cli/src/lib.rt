//! The tool itself: what it does with its words, and how it refuses.
#![tactic(auto)]

mod bench;
mod columns;
mod fault_line;
pub mod fetch_file;
mod help;
pub mod outcome;
mod plain;
mod program;
pub mod refuse;
mod report;
mod run;
mod run_plan;
mod run_status;
pub mod stop;
mod tool;
mod write_text;

pub use outcome::Outcome;
pub use plain::plain_tool;
pub use tool::run_tool;
