//! Records that wait on a table, kept by hand: for tests of wait lists, and to measure them. The
//! records are made by a run of the table, and a `Hand` has what its pass has of them. A record
//! that waits may join only the list of the record whose task it is behind.
#![tactic(auto)]

#[cfg(test)]
mod closing;
mod hand;
mod making;
mod no_hand;
mod opening;
mod orders;
#[cfg(test)]
mod random;
mod stage;

pub use hand::{Hand, close_one, finish_one, join_one, take_one};
pub use no_hand::NoHand;
pub use opening::open_hand;
pub use orders::Orders;
pub use stage::{Owner, Stage, Waiting};
