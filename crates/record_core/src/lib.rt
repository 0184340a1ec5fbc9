//! What a run leaves behind: the rows of its activations and tasks, the journal that holds them while it goes on, and the
//! trait through which a run that has ended is read.
//!
//! `specs/Journal.antt` says what is written into a journal and what every journal keeps. `specs/EndSound.antt` says which
//! end may be trusted and which must be complete, and `specs/EndItems.antt` has its items one by one.
//! `specs/EndFaithful.antt` says that no cut is hidden in it and that its tasks are those of its roots, by calls of which
//! `specs/EndCalls.antt` speaks, each asked for by an instruction as `specs/EndAsks.antt` says; `specs/EndCounts.antt` says
//! what it counts where nothing was refused, and `specs/EndLaws.antt` what no such end shows. `specs/Sums.antt` and
//! `specs/Counting.antt` have sums and counts over lists. The functions on definitions do nothing, and the contract of
//! each is a law.
#![tactic(auto)]

mod counts;
mod end_laws;
mod ended;
mod journal;
mod journal_laws;
mod packed;
mod rows;
mod sums_below;
#[cfg(test)]
mod tests;
mod totals;

pub use counts::{counts_change, counts_tell, first_dropped};
pub use end_laws::{counted_ends, faithful_ends, sound_ends};
pub use ended::Ended;
pub use journal::PlainJournal;
pub use journal_laws::{journal_grows, journal_is_whole, journal_keeps};
pub use rows::{ActivationRow, Cause, CutFrom, CutTag, RootEnd, TaskRow};
pub use sums_below::{sums_below_change, sums_below_compare};
pub use totals::{totals_change, totals_compare, totals_join};
