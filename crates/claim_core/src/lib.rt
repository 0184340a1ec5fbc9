//! A bitset for one thread that reserves by count: room is counted first, and a bit is found for it afterwards.
#![tactic(auto)]

mod claim_bits;
#[cfg(test)]
mod tests;
mod words;

pub use claim_bits::ClaimBits;
