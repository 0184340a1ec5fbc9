//! The table that all threads of a run share, and single atomic steps on it. Each step keeps the
//! rule of `schedule_rule`, so the rule holds between any two steps of any number of threads.
//!
//! `shared.rt` and `pass.rt` are the table and a thread's part in it; `atomic.rt` and `raw.rt` have
//! functions for each atomic operation; `passes.rt`, `pool.rt`, `records.rt`, `references.rt`,
//! `roots.rt` and `lists.rt` have one call for each kind of step. What they tell stands in
//! `specs/Steps.antt`, `RecordSteps.antt`, `RootSteps.antt` and `ListSteps.antt`. Each call tells
//! besides what the rule says of its pass alone (`Sound.antt`).
#![tactic(auto)]

mod atomic;
mod draws;
mod ending;
mod halves;
mod last_looks;
mod layout;
mod lists;
mod living;
mod making;
mod order;
mod pass;
mod passes;
mod placing;
mod pool;
mod raw;
mod raw_records;
mod record_layout;
mod record_tokens;
mod records;
mod references;
mod roots;
mod row_layout;
mod rows;
mod seeing;
mod shared;
mod taking;
mod tokens;
mod told;
mod turn;

pub use ending::Ending;
pub use last_looks::LastLook;
pub use pass::Pass;
pub use placing::ready_word;
pub use record_tokens::{Chain, Finishing, Future, Linkable, Made, OwnWord, Retiring, Started};
pub use roots::RootWord;
pub use shared::Shared;
pub use tokens::{Block, Debt, Reserved};
pub use turn::NamedRoot;
