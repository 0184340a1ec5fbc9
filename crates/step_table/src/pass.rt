ghost use Rattle.std.specs.Prelude.{◌≡◌, ◌+◌, ◌<◌, ◌≤◌, [], length, slice_index};
ghost use Rattle.table_core.specs.Holdings.{Look};
ghost use Rattle.step_table.specs.LastLooks.{KeepsNewest, IsNewest};
ghost use Rattle.step_table.specs.Turns.{turn_of};

use crate::last_looks::{LastLook, LastLooks};
use crate::turn::{NamedRoot, Turn};
use atomic_table::Seat;
use table_core::View;

/// A thread's part in a table: what it holds and knows there. A table that lost a pass can not be
/// closed, and that is all.
#[derive(Drop)]
pub struct Pass {
    pub(crate) seat: Seat<(), View>,
    pub(crate) splits: u32,
    // Where the pass begins what it may begin anywhere: a number that differs from pass to pass,
    // and of each class the superblock where it last found room.
    pub(crate) number: u32,
    pub(crate) starts: [u32; 4],
    pub(crate) last: LastLooks,
    // It has no more references than this.
    pub(crate) held: u64,
    // What it knows of the roots, where it has the turn of asking for them.
    pub(crate) turn: Option<Turn>,
    pub ghost bare: { seat.me.1 ≡ [] },
    pub ghost shares: { splits + 1 ≡ seat.me.0.parts },
    pub ghost counts: { length seat.me.0.futures ≤ held },
    pub ghost turns: { turn_of turn ≡ seat.me.0.turn },
    pub ghost ages: { seat.me.0.old_looks ≤ length seat.me.0.looks },
    pub ghost looks: { KeepsNewest last seat.me.0.old_looks seat.me.0.looks },
}

impl Pass {
    ghost use Rattle.step_table.specs.Passes.{view, IsSameWith};

    /// How often this pass may be split. The numbers of all passes of a table, each with one more,
    /// are 4,096 together.
    pub fn splits(&self) -> u32
        ensures { result ≡ self.now.splits }
    {
        self.splits
    }

    /// A number that differs from pass to pass, for what a pass may begin at any place.
    pub fn number(&self) -> u32
        ensures { result ≡ self.now.number }
    {
        self.number
    }

    /// A number of references that the pass has at most.
    pub fn held(&self) -> u64
        ensures count { result ≡ self.now.held }
        ensures references { length (view self.now).futures ≤ result }
    {
        self.held
    }

    /// The pass counts so many references from now on, which are as many as it has or more.
    pub fn keep_count(&mut self, held: u64)
        requires { length (view self.old).futures ≤ held }
        ensures pass { IsSameWith held self.old self.new }
        ensures view { view self.new ≡ view self.old }
        ensures starts { self.new.starts ≡ self.old.starts }
    {
        self.held = held;
    }

    /// The superblock where this pass last reserved a place of the class.
    pub fn start(&self, class: u8) -> u32
        requires { class ≤ 3 }
        ensures { result ≡ slice_index self.now.starts class }
    {
        self.starts[class as usize]
    }

    /// The last look at a superblock since the last null answer.
    pub fn last_look(&self, superblock: u32) -> LastLook
        requires { superblock < 1024 }
        ensures { IsNewest superblock self.now.seat.me.0 result }
    {
        self.last.at(superblock)
    }
}
