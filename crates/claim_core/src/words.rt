ghost use Rattle.std.specs.Prelude.{◌≡◌, ◌≢◌, ℕ, ◌*◌, ◌<◌, ◌≤◌, Bool, true, false, length, slice_set};
ghost use Rattle.std.specs.Int.{bit_at};
ghost use Rattle.claim_core.specs.Bits.{is_one, first_bits};

/// Whether a bit of the words is set.
pub fn is_bit_set(words: &[u64], bit: u32) -> bool
    requires { bit < 64 * length words.now }
    ensures { result ≡ is_one words.now bit }
{
    words[(bit / 64) as usize] >> (bit % 64) & 1 == 1
}

/// Sets one bit of the words.
pub fn set_bit(words: &mut [u64], bit: u32)
    requires { bit < 64 * length words.old }
    ensures { (size : ℕ) → first_bits size words.new ≡ slice_set (first_bits size words.old) bit true }
{
    words[(bit / 64) as usize] |= 1 << (bit % 64);
}

/// Clears one bit of the words.
pub fn clear_bit(words: &mut [u64], bit: u32)
    requires { bit < 64 * length words.old }
    ensures { (size : ℕ) → first_bits size words.new ≡ slice_set (first_bits size words.old) bit false }
{
    words[(bit / 64) as usize] &= !(1 << (bit % 64));
}

// The lowest bit of a word that is clear.
#[tactic(auto, using(crate::proofs::FirstBits::lowest_zero))]
fn lowest_in(word: u64) -> u32
    requires { word ≢ u64.MAX }
    ensures within { result < 64 }
    ensures clear { bit_at word result ≡ 0 }
    ensures below { (bit : ℕ) → bit < result → bit_at word bit ≡ 1 }
{
    word.trailing_ones()
}

/// The lowest bit of the words that is clear, or how many bits they have where none is.
pub fn lowest_clear(words: &[u64]) -> u32
    requires { length words.now ≤ 8 }
    ensures within { result ≤ 64 * length words.now }
    ensures clear { result < 64 * length words.now → is_one words.now result ≡ false }
    ensures below { (bit : ℕ) → bit < result → is_one words.now bit ≡ true }
{
    let mut passed = 0u32;
    for word in words {
        if *word != u64::MAX {
            return passed + lowest_in(*word);
        }
        passed += 64;
    }
    passed
}
