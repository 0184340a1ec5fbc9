//! The checker of task programs: whether a well-formed program is valid, and if not, its first fault.
#![tactic(auto)]

mod arriving;
mod asks;
mod fault;
mod known;
mod laws;
mod line;
mod program;
mod root;
mod set;
mod state;

pub use fault::{Cause, CheckError};
pub use laws::{
    asked_is_there, each_place_has_way, handed_over_is_held, handed_over_is_settled, known_is_held,
    valid_is_faultless,
};
pub use program::check;
