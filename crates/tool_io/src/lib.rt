//! What a tool reads files from and writes text to, in memory and as the system has them, with a count of what failed.
//!
//! `specs/Seen.antt` says what a clause sees of a shelf and of a sink, `specs/Fetch.antt` and `specs/Fault.antt` when a call
//! may fail, and `specs/Sink.antt` what a sink took.
#![tactic(auto)]

mod count;
mod failed;
mod fetch_error;
mod file_shelf;
mod line;
mod memory_shelf;
mod memory_sink;
mod out_sink;
mod put;
mod read_up_to;
mod shelf;
#[cfg(test)]
mod shelf_tests;
mod sink;
#[cfg(test)]
mod sink_tests;

pub use count::{is_listed, one_more};
pub use failed::Failed;
pub use fetch_error::FetchError;
pub use file_shelf::FileShelf;
pub use line::Line;
pub use memory_shelf::MemoryShelf;
pub use memory_sink::MemorySink;
pub use out_sink::OutSink;
pub use put::put_all;
pub use shelf::Shelf;
pub use sink::Sink;
