ghost use Rattle.table_core.specs.Views.{kept_half, idle_half, joined, spent as spent_view};

use atomic_table::{Join, Split};
use table_core::View;

/// How views are split and joined.
pub struct Halves;

impl Split<View> for Halves {
    ghost left = { kept_half };

    ghost right = { idle_half };
}

impl Join<View> for Halves {
    ghost both = { joined };

    ghost spent = { spent_view };
}
