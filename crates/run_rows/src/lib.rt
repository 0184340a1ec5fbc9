//! Programs with their plans and reports. Its tests run each program and compare its whole report.
#![tactic(auto)]

mod reported;
#[cfg(test)]
mod samples;
#[cfg(test)]
mod tests;

pub use reported::report;
