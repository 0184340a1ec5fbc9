//! Tests of how a text is read: its rows and words, and the items of its lines.
#![tactic(auto)]

#[cfg(test)]
mod lines;
#[cfg(test)]
mod tables;
#[cfg(test)]
mod words;
