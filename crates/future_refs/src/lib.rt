//! References to task records, for any number of threads, without a lock. Whoever gives up the last
//! reference to a record gives its block back to the pool, and nobody else does. What the calls
//! tell stands in `specs/Drops.antt`.
#![tactic(auto)]

mod refs;

pub use refs::{clone_future, drop_future};
