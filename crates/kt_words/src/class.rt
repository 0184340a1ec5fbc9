ghost use Rattle.std.specs.Prelude.{◌≡◌, ◌≤◌};
ghost use Rattle.kt_words.specs.Capacity.{IsLeastClass};
ghost use Rattle.kt_words.specs.Capacity.{class_for as least_class};

/// The least class whose blocks hold so many words, for up to 64: blocks have 8, 16, 32 or 64 words, by class.
pub fn class_for(words: usize) -> u8
    ensures least { words ≤ 64 → IsLeastClass words result }
    ensures same { result ≡ least_class words }
    ensures fits { result ≤ 3 }
{
    match words {
        0..=8 => 0,
        9..=16 => 1,
        17..=32 => 2,
        _ => 3,
    }
}
