//! Tables with records, for tests and to measure. The records are made by the table's own steps: a
//! root's task is placed and taken, and all others are made by its acts. They are of a kind
//! without variables, so no record names another.
#![tactic(auto)]

mod opening;
mod plain;
mod records;
mod stages;

pub use opening::open_maker;
pub use plain::is_plain;
pub use records::{ready_record, waiting_record};
pub use stages::begin as made_record;
