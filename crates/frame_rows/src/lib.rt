//! Tests of the frames of tasks: how long they are, and their words at the entry.
#![tactic(auto)]

#[cfg(test)]
mod tests;
