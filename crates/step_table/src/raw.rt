//! The same operations, which tell besides that the views before and after are sound.
ghost use Rattle.std.specs.Prelude.{◌≡◌, ◌==◌, bit_and, bit_or};
ghost use prog.Atomic.{either};

use crate::shared::Shared;
use crate::told::Wish;
use atomic_table::Seat;
use std::marker::Brand;
use table_core::View;

impl Shared {
    ghost use Rattle.step_table.specs.Seats.{IsSameSeat, HasSeen, LiesAt, MayStep, less_by};
    ghost use Rattle.step_table.specs.Sound.{AreSound};

    pub(crate) fn load_as<W: Wish, A>(
        &self,
        seat: &mut Seat<(), View>,
        word: usize,
        _about: &A,
    ) -> u64
        requires table { seat.old.table_id ≡ self.now.table.shared.table_id }
        requires word { LiesAt self.now.setup.plan W.at word }
        requires rule { MayStep self.now.setup seat.old W.at (λ n. n) W.told }
        ensures same { IsSameSeat seat.old seat.new }
        ensures seen { HasSeen W.at result seat.old.me.0 seat.new.me.0 }
        ensures told { W.told result seat.new.me.0 }
        ensures sound { AreSound self.now.setup seat.old.me.0 seat.new.me.0 }
    {
        self.load_of::<Brand>(seat, word)
    }

    pub(crate) fn compare_exchange_as<W: Wish, A>(
        &self,
        seat: &mut Seat<(), View>,
        word: usize,
        old: u64,
        new: u64,
        _about: &A,
    ) -> u64
        requires table { seat.old.table_id ≡ self.now.table.shared.table_id }
        requires word { LiesAt self.now.setup.plan W.at word }
        requires rule { MayStep self.now.setup seat.old W.at (λ n. either (n == old) new n) W.told }
        ensures same { IsSameSeat seat.old seat.new }
        ensures seen { HasSeen W.at result seat.old.me.0 seat.new.me.0 }
        ensures told { W.told result seat.new.me.0 }
        ensures sound { AreSound self.now.setup seat.old.me.0 seat.new.me.0 }
    {
        self.compare_exchange_of::<Brand>(seat, word, old, new)
    }

    pub(crate) fn fetch_or_as<W: Wish, A>(
        &self,
        seat: &mut Seat<(), View>,
        word: usize,
        mask: u64,
        _about: &A,
    ) -> u64
        requires table { seat.old.table_id ≡ self.now.table.shared.table_id }
        requires word { LiesAt self.now.setup.plan W.at word }
        requires rule { MayStep self.now.setup seat.old W.at (λ n. bit_or n mask) W.told }
        ensures same { IsSameSeat seat.old seat.new }
        ensures seen { HasSeen W.at result seat.old.me.0 seat.new.me.0 }
        ensures told { W.told result seat.new.me.0 }
        ensures sound { AreSound self.now.setup seat.old.me.0 seat.new.me.0 }
    {
        self.fetch_or_of::<Brand>(seat, word, mask)
    }

    pub(crate) fn fetch_and_as<W: Wish, A>(
        &self,
        seat: &mut Seat<(), View>,
        word: usize,
        mask: u64,
        _about: &A,
    ) -> u64
        requires table { seat.old.table_id ≡ self.now.table.shared.table_id }
        requires word { LiesAt self.now.setup.plan W.at word }
        requires rule { MayStep self.now.setup seat.old W.at (λ n. bit_and n mask) W.told }
        ensures same { IsSameSeat seat.old seat.new }
        ensures seen { HasSeen W.at result seat.old.me.0 seat.new.me.0 }
        ensures told { W.told result seat.new.me.0 }
        ensures sound { AreSound self.now.setup seat.old.me.0 seat.new.me.0 }
    {
        self.fetch_and_of::<Brand>(seat, word, mask)
    }

    pub(crate) fn fetch_sub_as<W: Wish, A>(
        &self,
        seat: &mut Seat<(), View>,
        word: usize,
        k: u64,
        _about: &A,
    ) -> u64
        requires table { seat.old.table_id ≡ self.now.table.shared.table_id }
        requires word { LiesAt self.now.setup.plan W.at word }
        requires rule { MayStep self.now.setup seat.old W.at (less_by k) W.told }
        ensures same { IsSameSeat seat.old seat.new }
        ensures seen { HasSeen W.at result seat.old.me.0 seat.new.me.0 }
        ensures told { W.told result seat.new.me.0 }
        ensures sound { AreSound self.now.setup seat.old.me.0 seat.new.me.0 }
    {
        self.fetch_sub_of::<Brand>(seat, word, k)
    }
}
