//! The table that all threads of a run share, as plain data: its words by what they are, the view
//! that each pass has of it, and the rule that holds between any two steps. Nothing here runs.
//!
//! `specs/Addresses.antt` says where each word lies, `Views.antt` what a step does to a view, and
//! `Story.antt` what has happened. The rule is a list of parts (`Parts.antt`); what they say stands
//! in the files that it names. `Steps.antt` says what every step tells.
#![tactic(auto)]

mod laws;
mod setup;
mod view;

pub use laws::{pool_is_shared, waiters_stand_once};
pub use setup::Setup;
pub use view::View;
