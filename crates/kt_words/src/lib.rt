//! The shape of a memory pool, and the words that a shared table keeps: each is a `u64` that packs a few numbers.
//!
//! Packing is exact both ways. The files of `specs/` say where each number stands in its word; the functions of `laws` do
//! nothing, and their contracts are laws of these words as numbers.
#![tactic(auto)]

mod class;
mod geometry;
mod head_word;
mod laws;
mod phase;
mod plan;
mod root_status;
mod state_word;
mod super_word;
mod tag;
#[cfg(test)]
mod tests;

pub use class::class_for;
pub use geometry::Geometry;
pub use head_word::HeadWord;
pub use laws::{
    classes, geometries, head_words, head_words_change, plans, root_words, state_words,
    state_words_change, super_words, super_words_change,
};
pub use phase::Phase;
pub use plan::Plan;
pub use root_status::RootStatus;
pub use state_word::StateWord;
pub use super_word::SuperWord;
pub use tag::Tag;
