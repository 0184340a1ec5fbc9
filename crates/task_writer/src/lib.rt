//! Task programs as text: writing them in one form, which reads back as the program.
//!
//! `specs/Text.antt` says what is written, `specs/Canonical.antt` what makes such a text canonical,
//! and `specs/Laws.antt` what holds of it.
#![tactic(auto)]

mod instr;
mod laws;
mod line;
mod list;
mod name;
mod part;
#[cfg(test)]
mod tests;
mod word;
mod writing;

pub use laws::{
    keeps_the_rest, prints_canonically, prints_the_same, prints_what_it_read, reads_back,
};
pub use writing::write_program;
