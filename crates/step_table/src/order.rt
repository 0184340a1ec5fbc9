ghost use Rattle.table_core.specs.Views.{first_view};
ghost use Rattle.schedule_rule.specs.Parts.{Holds};

use atomic_table::TableRule;
use table_core::{Setup, View};

/// The rule that holds between any two steps.
pub struct Order;

impl TableRule<(), View, Setup> for Order {
    ghost holds = { λ g s. Holds g s.words s.views };

    ghost first = { λ g. first_view };
}
