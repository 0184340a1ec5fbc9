//! The state of a run on one thread as an engine keeps it: tasks in records, by the first unit of
//! their block, which name one another by units. Nothing here runs.
//!
//! `specs/Store.antt` says what the records are seen as and what each call does to them,
//! `specs/Engine.antt` what an engine is seen as, `specs/Moves.antt` what it does at each move, and
//! `specs/Sees.antt` when it stands for a state of the run. The functions do nothing: the contract
//! of each says, by `specs/Laws.antt`, that what an engine does is what a step of the run does.
#![tactic(auto)]

mod known_laws;
mod line_laws;
mod new_task_laws;
mod record;
mod turn_laws;

pub use known_laws::known_records;
pub use line_laws::lines;
pub use new_task_laws::{lines_run_out, new_tasks, roots};
pub use record::{Behind, Outcome, Record, RootState};
pub use turn_laws::turns;
