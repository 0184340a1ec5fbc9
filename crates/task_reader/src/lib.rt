//! Task programs as text: reading them, with the first fault where the text is no program.
//!
//! `specs/Read.antt` says what is read; the rows, lines and grammar that it stands on are those of
//! the crates below. `specs/Asked.antt` is the language as a table, and `specs/Faults.antt` says by
//! it which fault a text has first.
#![tactic(auto)]

mod ahead;
mod error;
mod instr;
mod kind;
mod lists;
mod names;
mod place;
mod positions;
mod program;
mod reading;
mod root;
mod state;
mod unknown;
mod uses;

pub use error::ReadError;
pub use reading::read_program;
