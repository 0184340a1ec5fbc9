//! Wait lists of task records, for any number of threads, without a lock. Each record has a list of
//! the records that wait for it, until its list is closed. A record joins the list or learns that it
//! is closed; who completes the record takes the whole list in one step. What the calls tell stands
//! in `specs/Joining.antt` and `specs/Answers.antt`.
#![tactic(auto)]

mod joined;
mod lists;

pub use joined::Joined;
pub use lists::{close_list, join_list, next_of};
