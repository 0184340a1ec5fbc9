//! Those of them that only steps on records make.
ghost use Rattle.std.specs.Prelude.{◌≡◌, ℕ};
ghost use Rattle.table_core.specs.Steps.{LogsWritten};

use crate::shared::Shared;
use crate::told::Wish;
use atomic_table::Seat;
use std::marker::Brand;
use table_core::View;

impl Shared {
    ghost use Rattle.step_table.specs.Seats.{IsSameSeat, HasSeen, LiesAt, MayStep, more_by, always};
    ghost use Rattle.step_table.specs.Sound.{AreSound};

    pub(crate) fn fetch_add_as<W: Wish, A>(
        &self,
        seat: &mut Seat<(), View>,
        word: usize,
        k: u64,
        _about: &A,
    ) -> u64
        requires table { seat.old.table_id ≡ self.now.table.shared.table_id }
        requires word { LiesAt self.now.setup.plan W.at word }
        requires rule { MayStep self.now.setup seat.old W.at (more_by k) W.told }
        ensures same { IsSameSeat seat.old seat.new }
        ensures seen { HasSeen W.at result seat.old.me.0 seat.new.me.0 }
        ensures told { W.told result seat.new.me.0 }
        ensures sound { AreSound self.now.setup seat.old.me.0 seat.new.me.0 }
    {
        self.fetch_add_of::<Brand>(seat, word, k)
    }

    pub(crate) fn swap_as<W: Wish, A>(
        &self,
        seat: &mut Seat<(), View>,
        word: usize,
        new: u64,
        _about: &A,
    ) -> u64
        requires table { seat.old.table_id ≡ self.now.table.shared.table_id }
        requires word { LiesAt self.now.setup.plan W.at word }
        requires rule { MayStep self.now.setup seat.old W.at (always new) W.told }
        ensures same { IsSameSeat seat.old seat.new }
        ensures seen { HasSeen W.at result seat.old.me.0 seat.new.me.0 }
        ensures told { W.told result seat.new.me.0 }
        ensures sound { AreSound self.now.setup seat.old.me.0 seat.new.me.0 }
    {
        self.swap_of::<Brand>(seat, word, new)
    }

    pub(crate) fn store_as<W: Wish, A>(
        &self,
        seat: &mut Seat<(), View>,
        word: usize,
        new: u64,
        _about: &A,
    )
        requires table { seat.old.table_id ≡ self.now.table.shared.table_id }
        requires word { LiesAt self.now.setup.plan W.at word }
        requires rule { MayStep self.now.setup seat.old W.at (always new) (λ _. W.told new) }
        ensures same { IsSameSeat seat.old seat.new }
        ensures seen { (found : ℕ) × HasSeen W.at found seat.old.me.0 seat.new.me.0 }
        ensures logged { LogsWritten W.at new seat.old.me.0 seat.new.me.0 }
        ensures told { W.told new seat.new.me.0 }
        ensures sound { AreSound self.now.setup seat.old.me.0 seat.new.me.0 }
    {
        self.store_of::<Brand>(seat, word, new)
    }
}
