//! A text as rows of words, each with its place, and the cursor that reads the words of a row.
//!
//! `specs/Text.antt` says which rows a text has, and `specs/Scan.antt` how the words of a row are
//! read.
#![tactic(auto)]

mod fault;
mod lines;
mod number;
mod rows;
mod split;
mod word;
mod words;

pub use fault::{Cause, Fault, TextError};
pub use lines::count_lines;
pub use number::{is_number, number_of};
pub use rows::Rows;
pub use word::{
    begins_with_digit, is_among, is_future, is_missing, is_name, is_no_bad_number, is_operand,
    is_text,
};
pub use words::Words;
