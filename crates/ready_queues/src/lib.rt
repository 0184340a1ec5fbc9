//! What is ready to run, in a store that workers share: three priorities, first in first out in
//! each.
//!
//! `ReadyStore` is what a store promises. `MutexReady` keeps its queues under a lock, `RuledReady`
//! has none. What a caller learns of a shared queue it learns of single moments:
//! `specs/Moments.antt` says what a moment tells, `specs/Held.antt` what the queues under a lock
//! become, `specs/Account.antt` which rule the queues without a lock keep, and
//! `specs/Sights.antt` what their passes tell.
#![tactic(auto)]

mod account;
mod entry;
mod mutex_ready;
mod order;
mod ruled_ready;
mod store;
#[cfg(test)]
mod tests;

pub use entry::Entry;
pub use mutex_ready::{MutexPass, MutexReady};
pub use order::take_twice;
pub use ruled_ready::{RuledPass, RuledReady, sole_knows};
pub use store::ReadyStore;
