ghost use Rattle.std.specs.Prelude.{◌≡◌, ℕ, ◌+◌, ◌*◌, ◌^◌, ◌<◌, ◌≤◌, ◌↔◌, ◌⊎◌, IsTrue, Some, length, slice_get};
ghost use Rattle.claim_core.specs.Claims.{set_count, IsSet, IsLowestClear};
ghost use Rattle.kt_words.specs.Capacity.{capacity};
ghost use Rattle.pool_core.specs.Superblocks.{given, taken_back, unused, HasRoom, IsEmpty, IsKept};

use claim_core::ClaimBits;
use kt_words::SuperWord;
use std::marker::Model;

const MOST_EVER: u64 = 17_592_186_044_415;

#[derive(Drop)]
pub struct Superblock {
    class: u8,
    ever: u64,
    bits: ClaimBits,
}

impl Model for Superblock {
    ghost use Rattle.pool_core.specs.Superblocks.{SuperblockState};

    ghost Value = { SuperblockState };

    ghost view = { λ s. record { class = s.class; count = s.bits.count; ever = s.ever; set = s.bits.set } };
}

impl Superblock {
    pub fn new(units: u32) -> Superblock
        requires some { 0 < units }
        requires few { units ≤ 512 }
        ensures { result ≡ unused units }
    {
        Superblock {
            class: 0,
            ever: 0,
            bits: ClaimBits::new(units),
        }
    }

    pub fn class(&self) -> u8
        ensures { result ≡ self.now.class }
    {
        self.class
    }

    pub fn count(&self) -> u32
        ensures count { result ≡ self.now.count }
        ensures few { self.now.count ≤ 512 }
    {
        self.bits.count()
    }

    pub fn ever(&self) -> u64
        ensures { result ≡ self.now.ever }
    {
        self.ever
    }

    pub fn is_set(&self, bit: u32) -> bool
        requires { bit < length self.now.set }
        ensures { slice_get self.now.set bit ≡ Some result }
    {
        self.bits.is_set(bit)
    }

    pub fn word(&self) -> SuperWord
        ensures { result ≡ record { count = self.now.count; class = self.now.class; ever = self.now.ever } }
    {
        SuperWord {
            count: self.count() as u16,
            class: self.class,
            ever: self.ever,
        }
    }

    // Whether a block of the class can be given, of which there are `room` in all.
    pub fn has_room(&self, class: u8, room: u32) -> bool
        ensures { IsTrue result ↔ HasRoom class room self.now }
    {
        self.class == class && self.bits.count() < room
    }

    pub fn is_empty(&self) -> bool
        ensures { IsTrue result ↔ IsEmpty self.now }
    {
        self.bits.count() == 0
    }

    // Gives a block of the class, of which there are `room` in all, and answers its place.
    pub fn give(&mut self, class: u8, room: u32) -> u32
        requires counted { self.old.count ≡ set_count self.old.set }
        requires ever_fits { self.old.ever < 2 ^ 44 }
        requires within { room ≤ length self.old.set }
        requires below { self.old.count < room }
        ensures lowest { IsLowestClear self.old.set result }
        ensures inside { result < room }
        ensures after { self.new ≡ given self.old class result }
    {
        self.class = class;
        self.ever = (self.ever + 1).min(MOST_EVER);
        self.bits.reserve(room);
        self.bits.claim()
    }

    // Takes back the block of a place.
    pub fn take_back(&mut self, bit: u32)
        requires counted { self.old.count ≡ set_count self.old.set }
        requires out { IsSet self.old.set bit }
        ensures { self.new ≡ taken_back self.old bit }
    {
        self.bits.clear(bit);
        self.bits.settle();
    }
}
