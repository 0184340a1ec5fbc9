//! Ended runs that are given by their rows, and whether such an end can be reported. Its tests compare whole reports.
#![tactic(auto)]

mod given_end;
mod leads;
mod numbers;
mod reportable;
#[cfg(test)]
mod samples;
#[cfg(test)]
mod tests;

pub use given_end::GivenEnd;
pub use reportable::can_report;
