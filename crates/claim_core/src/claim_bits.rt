ghost use Rattle.std.specs.Prelude.{◌≡◌, ℕ, ◌+◌, ◌-◌, ◌<◌, ◌≤◌, ◌↔◌, Bool, true, false, IsTrue, Some, length, slice_get, slice_set, replicate, if◌then◌else◌};
ghost use Rattle.claim_core.specs.Claims.{set_count, IsSet, IsLowestClear};

use crate::words::{clear_bit, is_bit_set, lowest_clear, set_bit};
use std::marker::Model;

const WORDS: usize = 8;

/// Bits of which at most so many are set as were reserved.
#[derive(Drop)]
pub struct ClaimBits {
    words: [u64; WORDS],
    bits: u32,
    count: u32,
}

impl Model for ClaimBits {
    ghost use Rattle.claim_core.specs.Claims.{Claims, IsWithin};
    ghost use Rattle.claim_core.specs.Bits.{first_bits};

    ghost Value = { Claims };

    ghost view = { λ b. record { count = b.count; set = first_bits b.bits b.words } };

    ghost invariant = { λ b. IsWithin b.bits (record { count = b.count; set = first_bits b.bits b.words }) };
}

impl ClaimBits {
    /// So many bits, all clear and none reserved.
    pub fn new(bits: u32) -> ClaimBits
        requires some { 0 < bits }
        requires few { bits ≤ 512 }
        ensures { result ≡ record { count = 0; set = replicate bits false } }
    {
        ClaimBits {
            words: [0; WORDS],
            bits,
            count: 0,
        }
    }

    /// Counts one more, if fewer than the bound are counted.
    pub fn reserve(&mut self, bound: u32) -> bool
        requires within { bound ≤ length self.old.set }
        requires below { self.old.count ≤ bound }
        ensures room { IsTrue result ↔ (self.old.count < bound) }
        ensures after { self.new ≡ (if result then record self.old { count = self.old.count + 1 } else self.old) }
    {
        if self.count == bound {
            return false;
        }
        self.count += 1;
        true
    }

    /// Sets the lowest bit that is clear, for one that was reserved.
    pub fn claim(&mut self) -> u32
        requires { set_count self.old.set < self.old.count }
        ensures lowest { IsLowestClear self.old.set result }
        ensures within { result < self.old.count }
        ensures after { self.new ≡ record self.old { set = slice_set self.old.set result true } }
        ensures more { set_count self.new.set ≡ set_count self.old.set + 1 }
    {
        let bit = lowest_clear(&self.words);
        set_bit(&mut self.words, bit);
        bit
    }

    /// Clears a bit. What is reserved stays so until it is settled.
    pub fn clear(&mut self, bit: u32)
        requires { IsSet self.old.set bit }
        ensures after { self.new ≡ record self.old { set = slice_set self.old.set bit false } }
        ensures fewer { set_count self.new.set + 1 ≡ set_count self.old.set }
    {
        clear_bit(&mut self.words, bit);
    }

    /// Counts one less, for a bit that was cleared.
    pub fn settle(&mut self)
        requires { set_count self.old.set < self.old.count }
        ensures { self.new ≡ record self.old { count = self.old.count - 1 } }
    {
        self.count -= 1;
    }

    /// How many bits there are.
    pub fn bits(&self) -> u32
        ensures bits { result ≡ length self.now.set }
        ensures few { result ≤ 512 }
    {
        self.bits
    }

    /// How many are reserved: at least those that are set, and at most all.
    pub fn count(&self) -> u32
        ensures count { result ≡ self.now.count }
        ensures few { result ≤ 512 }
        ensures most { self.now.count ≤ length self.now.set }
        ensures least { set_count self.now.set ≤ self.now.count }
    {
        self.count
    }

    /// Whether a bit is set.
    pub fn is_set(&self, bit: u32) -> bool
        requires { bit < length self.now.set }
        ensures { slice_get self.now.set bit ≡ Some result }
    {
        is_bit_set(&self.words, bit)
    }
}
