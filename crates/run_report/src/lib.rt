//! The report of an ended run: how each root ended, what was counted, why roots were cut, what was seen where there was no
//! room, and on demand a trace.
//!
//! `specs/Report.antt` has the lines of a report, each a list of words, and `specs/CanReport.antt` which ends can be reported.
#![tactic(auto)]

mod causes;
mod check_lines;
mod counts;
mod evidence;
mod laws;
mod pieces;
mod report;
mod roots;
mod trace;

pub use check_lines::write_check;
pub use laws::{paths_are_whole, sound_ends_can_be_reported};
pub use report::write_report;
pub use tool_io::{Failed, MemorySink, OutSink, Sink, put_all};
