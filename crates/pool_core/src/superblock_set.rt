ghost use Rattle.std.specs.Prelude.{◌≡◌, ◌≢◌, ◌↔◌, ℕ, ◌<◌, ◌≤◌, Bool, true, false, IsNone, IfSome, length, slice_set};
ghost use Rattle.std.specs.Int.{bit_at};
ghost use Rattle.claim_core.specs.Claims.{IsSet};
ghost use Rattle.pool_core.specs.Vacancies.{AreBelow, IsFirstSet, IsNoneSet};

use std::marker::Model;

const WORDS: usize = 16;

/// A set of superblocks, by their positions below 1,024: a bit each.
#[derive(Drop)]
pub struct SuperblockSet {
    words: [u64; WORDS],
}

impl Model for SuperblockSet {
    ghost use Rattle.std.specs.Prelude.{Bool, List};
    ghost use Rattle.claim_core.specs.Bits.{first_bits};

    ghost Value = { List Bool };

    ghost view = { λ s. first_bits 1024 s.words };
}

impl SuperblockSet {
    fn new() -> SuperblockSet
        ensures size { length result ≡ 1024 }
        ensures none { IsNoneSet result }
    {
        SuperblockSet { words: [0; WORDS] }
    }

    /// The first so many superblocks.
    pub fn below(number: u32) -> SuperblockSet
        requires { number ≤ 1024 }
        ensures { AreBelow number result }
    {
        let mut set = SuperblockSet::new();
        for superblock in 0..number {
            set.insert(superblock);
        }
        set
    }

    fn insert(&mut self, superblock: u32)
        requires { superblock < 1024 }
        ensures { self.new ≡ slice_set self.old superblock true }
    {
        self.words[(superblock / 64) as usize] |= 1 << (superblock % 64);
    }

    fn remove(&mut self, superblock: u32)
        requires { superblock < 1024 }
        ensures { self.new ≡ slice_set self.old superblock false }
    {
        self.words[(superblock / 64) as usize] &= !(1 << (superblock % 64));
    }

    /// Puts a superblock in, or takes it out.
    pub fn put(&mut self, superblock: u32, is_in: bool)
        requires { superblock < 1024 }
        ensures { self.new ≡ slice_set self.old superblock is_in }
    {
        if is_in {
            self.insert(superblock);
        } else {
            self.remove(superblock);
        }
    }

    /// The first superblock of the set.
    pub fn first(&self) -> Option<u32>
        ensures first { IfSome result (λ superblock. IsFirstSet self.now superblock) }
        ensures within { IfSome result (λ superblock. superblock < 1024) }
        ensures none { IsNone result ↔ IsNoneSet self.now }
    {
        let mut passed = 0u32;
        for word in &self.words {
            if *word != 0 {
                return Some(passed + lowest_in(*word));
            }
            passed += 64;
        }
        None
    }
}

// The lowest bit of a word that is set.
fn lowest_in(word: u64) -> u32
    requires { word ≢ 0 }
    ensures within { result < 64 }
    ensures one { bit_at word result ≡ 1 }
    ensures below { (bit : ℕ) → bit < result → bit_at word bit ≡ 0 }
{
    word.trailing_zeros()
}
