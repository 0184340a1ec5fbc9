//! What the scheduler keeps of the shared table, as plain data: beside the table's own rule, that
//! each accepted number stands in one place, that each task does or has ended, what rows and frames
//! say, and that the count of living records is right. Nothing here runs.
//!
//! `specs/Parts.antt` lists the parts of the rule; what they say stands in the files that it names.
#![tactic(auto)]

mod laws;

pub use laws::{
    activations_are_taken_once, draws_keep_rule, life_keeps_rule, naming_keeps_rule,
    nothing_is_lost, placing_keeps_rule, references_cover, references_cover_moves, rule_opens,
    rule_tells, seeing_keeps_rule, steps_keep_rule, taking_keeps_rule, words_begin_with_frame,
};
