//! The families of programs that are run to measure: a program for each number, its canonical text, and the laws that each of
//! them is well formed, valid, and read from its text.
//!
//! `specs/Programs.antt` says which programs they are, and `specs/Laws.antt` what holds of them.
#![tactic(auto)]

mod checked;
mod family;
mod laws;
#[cfg(test)]
mod tests;
mod text;

pub use checked::family_checked;
pub use family::Family;
pub use laws::{
    each_is_faultless, each_is_valid, each_is_well_formed, each_reads_back, each_text_fits,
};
pub use text::family_text;
