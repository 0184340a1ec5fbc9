//! The words of the command line: which are accepted, and what they choose.
//!
//! `specs/Commands.antt` has the commands as `clap` reads them, and `specs/Choice.antt` which words are accepted, and what
//! they choose.
#![tactic(auto)]

mod choice;
mod commands;
mod numbers;
mod parse;
mod words;
mod words_error;

pub use choice::{BenchWords, Choice, RunWords};
pub use words::choose;
pub use words_error::WordsError;
