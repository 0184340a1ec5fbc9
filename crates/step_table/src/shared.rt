ghost use Rattle.std.specs.Prelude.{◌≡◌};
ghost use Rattle.table_core.specs.Addresses.{words_of};

use crate::order::Order;
use atomic_table::Table;
use std::alloc::Global;
use table_core::{Setup, View};

/// The table of a run. Any number of threads step on it at once, each with a pass of its own.
#[derive(Drop)]
pub struct Shared {
    pub(crate) table: Table<(), View, Setup, Order, Global>,
    pub(crate) setup: Setup,
    pub ghost keyed: { table.shared.key ≡ setup },
    pub ghost sized: { table.shared.table_id.words ≡ words_of setup.plan },
}
