ghost use Rattle.std.specs.Prelude.{ℕ};
ghost use Rattle.table_core.specs.Addresses.{Addr, super};
ghost use Rattle.table_core.specs.Steps.{Tells, TellsStored};
ghost use Rattle.table_core.specs.declared.view.View.{View};

use atomic_table::Play;
use std::marker::{Brand, PhantomData};
use table_core::View;

/// The word of one step, and what the step tells of the number found and of the view after it. The
/// proof of each call picks it.
pub trait Wish {
    ghost at: { Addr };

    ghost told: { ℕ → View → Type 0 };
}

impl Wish for Brand {
    ghost at = { super 0 };

    ghost told = { λ found new. Unit {0} };
}

/// A step that tells what is wished for.
pub struct Told<W: Wish> {
    marker: PhantomData<W>,
}

impl<W: Wish> Play<(), View> for Told<W> {
    ghost then = { λ step old. Tells W.at W.told old };
}

/// A store that tells what is wished for, of the number that it writes.
pub struct Stored<W: Wish> {
    marker: PhantomData<W>,
}

impl<W: Wish> Play<(), View> for Stored<W> {
    ghost then = { λ step old. TellsStored W.at W.told old };
}
