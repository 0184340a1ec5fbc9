//! The meaning of a task program on one thread: a spawn is a call that is made at once, a future is the value of that
//! call, and nothing is refused.
//!
//! `specs/Meaning.antt` defines the meaning of a place and of a call, `specs/Roots.antt` that of a program's roots, and
//! `specs/Worths.antt` the worth of each task of a run. The functions here do nothing: the contract of each is a law.
#![tactic(auto)]

mod accepted_laws;
mod act_laws;
mod aggregate_laws;
mod frame_laws;
mod held_laws;
mod laws;
mod root_laws;
mod worth_laws;

pub use accepted_laws::{accepted_calls_add_counts, accepted_calls_keep_rest, retries_keep_rest};
pub use act_laws::{ends, goes_on, goes_on_behind_call, one_meaning, roots_in_turn};
pub use aggregate_laws::{
    aggregates_begin, aggregates_go_on, aggregates_need_worths, members_left,
};
pub use frame_laws::{frames_add_counts, frames_end, frames_go_on};
pub use held_laws::held_futures_alone_matter;
pub use laws::{act_by_act, counts_add_up, counts_need_value, more_fuel};
pub use root_laws::{root_tasks_count, roots_left};
pub use worth_laws::{
    acts_keep_under_names, rests_of_frames, root_tasks, worths_are_means, worths_stay,
};
