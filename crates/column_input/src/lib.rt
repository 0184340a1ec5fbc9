//! Columns of numbers from files with comma separated fields, and the shelf that files come from.
//!
//! `specs/Records.antt` says which records a file has, and `specs/Reading.antt` which columns they give or what their first fault is;
//! `specs/Table.antt` and `specs/Faults.antt` say the same place by place.
#![tactic(auto)]

mod fault;
mod header;
mod laws;
mod reading;
mod rows;
mod source;
#[cfg(test)]
mod tests;

pub use fault::{Cause, ColumnError};
pub use laws::{columns_or_fault, each_record_is_read, name_finds_column};
pub use reading::read_columns;
pub use tool_io::{FetchError, FileShelf, MemoryShelf, Shelf};
