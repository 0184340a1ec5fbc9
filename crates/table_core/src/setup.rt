use kt_words::Plan;
use task_syntax::{Checked, Columns};

/// What a table is made with: the program that is run, the columns that it reads, and how much the
/// run may take.
#[derive(Drop)]
pub struct Setup {
    pub checked: Checked,
    pub columns: Columns,
    pub plan: Plan,
}
