//! The lines of the task language: each row of words is read to an item, with names as they are
//! written.
//!
//! `specs/Table.antt` is the table of the language: which parts each line has, how they are read and
//! which words spell them. `specs/Reading.antt` says how a text is read, and `specs/Grammar.antt`
//! where lines may stand, apart from how they are read.
#![tactic(auto)]

mod instruction;
mod item;
mod keyword;
mod line;
mod list;
mod part;
mod reading;
mod row;
mod scope;
mod step;

pub use item::{Item, RootTerm, What};
pub use keyword::Keyword;
pub use reading::items_of;
pub use scope::{Place, Scope};
pub use step::{Passed, Step, Term};
