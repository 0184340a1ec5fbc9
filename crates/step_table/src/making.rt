ghost use Rattle.std.specs.Prelude.{◌≡◌, length, IfOk};
ghost use Rattle.table_core.specs.Views.{first_view};
ghost use Rattle.step_table.specs.Passes.{view, IsOf, IsMadeWith};

use crate::last_looks::LastLooks;
use crate::layout::words;
use crate::pass::Pass;
use crate::shared::Shared;
use crate::turn::Turn;
use atomic_table::Table;
use kt_words::Plan;
use std::alloc::{AllocError, Global};
use table_core::Setup;
use task_syntax::{Checked, Columns};

impl Shared {
    /// A table with its first pass: no block is taken, no record made, and no call accepted. While
    /// it is made it takes twice the memory that it keeps.
    pub fn new(
        alloc: Global,
        checked: Checked,
        columns: Columns,
        plan: Plan,
    ) -> Result<(Shared, Pass), AllocError>
        requires roots { plan.roots ≡ length checked.roots }
        ensures setup { IfOk result (λ made. IsMadeWith made.0 checked columns plan) }
        ensures pass { IfOk result (λ made. IsOf made.0 made.1 × (view made.1 ≡ first_view)) }
        ensures numbers { IfOk result (λ made. (made.1.splits ≡ 4095) × (made.1.number ≡ 0)) }
        ensures held { IfOk result (λ made. made.1.held ≡ 0) }
    {
        let zeros = Vec::from_elem(alloc, 0u64, words(&plan))?;
        let setup = Setup {
            checked,
            columns,
            plan,
        };
        let (table, seat) = Table::of_words(alloc, zeros.as_slice(), &setup)?;
        let shared = Shared { table, setup };
        let pass = Pass {
            seat,
            splits: 4095,
            number: 0,
            starts: [0; 4],
            last: LastLooks::none(),
            held: 0,
            turn: Some(Turn::first()),
        };
        Ok((shared, pass))
    }

    /// The program that the table was made with.
    pub fn checked(&self) -> &Checked
        ensures { result.now ≡ self.now.setup.checked }
    {
        &self.setup.checked
    }

    /// The columns that the table was made with.
    pub fn columns(&self) -> &Columns
        ensures { result.now ≡ self.now.setup.columns }
    {
        &self.setup.columns
    }

    /// The plan that the table was made with.
    pub fn plan(&self) -> Plan
        ensures { result ≡ self.now.setup.plan }
    {
        self.setup.plan
    }
}
