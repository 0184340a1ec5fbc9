//! One function for each atomic operation on one word. What a step tells is picked by its call.
ghost use Rattle.std.specs.Prelude.{◌≡◌, ◌==◌, ℕ, bit_and, bit_or};
ghost use prog.Atomic.{either};
ghost use Rattle.table_core.specs.Steps.{LogsWritten};

use crate::shared::Shared;
use crate::told::{Stored, Told, Wish};
use atomic_table::Seat;
use table_core::View;

impl Shared {
    ghost use Rattle.step_table.specs.Seats.{IsSameSeat, HasSeen, LiesAt, MayStep, less_by, more_by, always};

    pub(crate) fn load_of<W: Wish>(&self, seat: &mut Seat<(), View>, word: usize) -> u64
        requires table { seat.old.table_id ≡ self.now.table.shared.table_id }
        requires word { LiesAt self.now.setup.plan W.at word }
        requires rule { MayStep self.now.setup seat.old W.at (λ n. n) W.told }
        ensures same { IsSameSeat seat.old seat.new }
        ensures seen { HasSeen W.at result seat.old.me.0 seat.new.me.0 }
        ensures told { W.told result seat.new.me.0 }
    {
        self.table.shared.load::<Told<W>>(seat, word)
    }

    pub(crate) fn compare_exchange_of<W: Wish>(
        &self,
        seat: &mut Seat<(), View>,
        word: usize,
        old: u64,
        new: u64,
    ) -> u64
        requires table { seat.old.table_id ≡ self.now.table.shared.table_id }
        requires word { LiesAt self.now.setup.plan W.at word }
        requires rule { MayStep self.now.setup seat.old W.at (λ n. either (n == old) new n) W.told }
        ensures same { IsSameSeat seat.old seat.new }
        ensures seen { HasSeen W.at result seat.old.me.0 seat.new.me.0 }
        ensures told { W.told result seat.new.me.0 }
    {
        self.table
            .shared
            .compare_exchange::<Told<W>>(seat, word, old, new)
    }

    pub(crate) fn fetch_or_of<W: Wish>(
        &self,
        seat: &mut Seat<(), View>,
        word: usize,
        mask: u64,
    ) -> u64
        requires table { seat.old.table_id ≡ self.now.table.shared.table_id }
        requires word { LiesAt self.now.setup.plan W.at word }
        requires rule { MayStep self.now.setup seat.old W.at (λ n. bit_or n mask) W.told }
        ensures same { IsSameSeat seat.old seat.new }
        ensures seen { HasSeen W.at result seat.old.me.0 seat.new.me.0 }
        ensures told { W.told result seat.new.me.0 }
    {
        self.table.shared.fetch_or::<Told<W>>(seat, word, mask)
    }

    pub(crate) fn fetch_and_of<W: Wish>(
        &self,
        seat: &mut Seat<(), View>,
        word: usize,
        mask: u64,
    ) -> u64
        requires table { seat.old.table_id ≡ self.now.table.shared.table_id }
        requires word { LiesAt self.now.setup.plan W.at word }
        requires rule { MayStep self.now.setup seat.old W.at (λ n. bit_and n mask) W.told }
        ensures same { IsSameSeat seat.old seat.new }
        ensures seen { HasSeen W.at result seat.old.me.0 seat.new.me.0 }
        ensures told { W.told result seat.new.me.0 }
    {
        self.table.shared.fetch_and::<Told<W>>(seat, word, mask)
    }

    pub(crate) fn fetch_sub_of<W: Wish>(
        &self,
        seat: &mut Seat<(), View>,
        word: usize,
        k: u64,
    ) -> u64
        requires table { seat.old.table_id ≡ self.now.table.shared.table_id }
        requires word { LiesAt self.now.setup.plan W.at word }
        requires rule { MayStep self.now.setup seat.old W.at (less_by k) W.told }
        ensures same { IsSameSeat seat.old seat.new }
        ensures seen { HasSeen W.at result seat.old.me.0 seat.new.me.0 }
        ensures told { W.told result seat.new.me.0 }
    {
        self.table.shared.fetch_sub::<Told<W>>(seat, word, k)
    }

    pub(crate) fn fetch_add_of<W: Wish>(
        &self,
        seat: &mut Seat<(), View>,
        word: usize,
        k: u64,
    ) -> u64
        requires table { seat.old.table_id ≡ self.now.table.shared.table_id }
        requires word { LiesAt self.now.setup.plan W.at word }
        requires rule { MayStep self.now.setup seat.old W.at (more_by k) W.told }
        ensures same { IsSameSeat seat.old seat.new }
        ensures seen { HasSeen W.at result seat.old.me.0 seat.new.me.0 }
        ensures told { W.told result seat.new.me.0 }
    {
        self.table.shared.fetch_add::<Told<W>>(seat, word, k)
    }

    pub(crate) fn swap_of<W: Wish>(&self, seat: &mut Seat<(), View>, word: usize, new: u64) -> u64
        requires table { seat.old.table_id ≡ self.now.table.shared.table_id }
        requires word { LiesAt self.now.setup.plan W.at word }
        requires rule { MayStep self.now.setup seat.old W.at (always new) W.told }
        ensures same { IsSameSeat seat.old seat.new }
        ensures seen { HasSeen W.at result seat.old.me.0 seat.new.me.0 }
        ensures told { W.told result seat.new.me.0 }
    {
        self.table.shared.swap::<Told<W>>(seat, word, new)
    }

    // A store does not tell what it found. What it places it has written.
    pub(crate) fn store_of<W: Wish>(&self, seat: &mut Seat<(), View>, word: usize, new: u64)
        requires table { seat.old.table_id ≡ self.now.table.shared.table_id }
        requires word { LiesAt self.now.setup.plan W.at word }
        requires rule { MayStep self.now.setup seat.old W.at (always new) (λ _. W.told new) }
        ensures same { IsSameSeat seat.old seat.new }
        ensures seen { (found : ℕ) × HasSeen W.at found seat.old.me.0 seat.new.me.0 }
        ensures logged { LogsWritten W.at new seat.old.me.0 seat.new.me.0 }
        ensures told { W.told new seat.new.me.0 }
    {
        self.table.shared.store::<Stored<W>>(seat, word, new)
    }
}
