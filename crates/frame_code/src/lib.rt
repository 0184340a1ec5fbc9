//! The frames of tasks as words, and what a task does next.
//!
//! `specs/Words.antt` says what the words of a frame say, `specs/Frames.antt` which words are a
//! frame of a program, `specs/Stops.antt` where a task stops and what it asks for,
//! `specs/Told.antt` how that is told, and `specs/Moves.antt` how it goes on. `specs/Meant.antt`
//! ties both to the meaning and to the rules of the checker. `specs/Units.antt` says which units a
//! frame names and gives up, and `specs/Entries.antt` what is passed to a new task, and its first
//! frame.
#![tactic(auto)]

mod act;
mod arithmetic;
mod bare_frame;
mod code;
mod entries;
mod few;
mod held;
mod laws;
mod line;
mod lookup;
mod moves;
mod naming;
mod places;
mod request;
mod run;
mod set_variables;
mod size;
mod words;

pub use act::{Act, AllRequest, Asked, Requests, RespawnRequest, SpawnRequest};
pub use code::CheckedCode;
pub use entries::{Passed, entry_frame, members_frame, passed_by};
pub use few::Few;
pub use held::enter_held;
pub use laws::{
    aggregates_are_in_turn, frames_have_ways, one_name_changes, stops_are_acts,
    words_are_their_body,
};
pub use moves::{enter, give, pass_on};
pub use naming::{is_aggregate, member, naming_words, units_named};
pub use run::advance;
pub use set_variables::{assign, at_entry, future, has_sort, lift, set_number, unit_of};
pub use size::{class_of, members_class, words_of};
pub use words::Frame;
