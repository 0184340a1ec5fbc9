//! The run of a program on one thread, as plain data: a state, one step, and its end. Nothing here
//! runs; an engine shows that it ends as this run ends.
//!
//! `specs/State.antt` has the state, `specs/Placing.antt` says which blocks are in use and where
//! the next one is placed, `specs/Step.antt` what one step does, `specs/Move.antt` which moves that
//! may be, and `specs/End.antt` when the run is over and what it answers. `specs/RuleRuns.antt` and
//! `specs/ExampleRuns.antt` have worked runs.
//! The functions do nothing: the contract of each is a law of these definitions, in
//! `specs/Laws.antt`.
#![tactic(auto)]

mod laws;

pub use laws::{
    blocks_are_apart, counts_where_nothing_is_refused, ends_are_complete, ends_are_faithful,
    ends_are_in_order, ends_are_sound, ends_count, ends_show_the_pool, one_end,
    places_as_pools_give, pools_are_sound, rules_by_example, runs_end, starts_once,
    steps_are_moves, worked_runs,
};
