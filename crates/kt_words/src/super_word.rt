ghost use Rattle.std.specs.Prelude.{◌≡◌, ◌+◌, ◌<◌, ◌≤◌, ◌^◌, ◌↔◌, IsSome, IfSome};
ghost use Rattle.kt_words.specs.SuperWords.{FitsSuperWord, HasSuperWord, IsSuperWord, ReadsSuper, packed_super, reserved_word, risen};
ghost use Rattle.kt_words.specs.declared.super_word.SuperWord.{SuperWord};

/// What a superblock's word says.
#[derive(Debug, Clone, Copy, PartialEq, Eq)]
pub struct SuperWord {
    /// How many blocks are reserved.
    pub count: u16,
    /// The class of its blocks, at most 3.
    pub class: u8,
    /// How many reservations it ever had, below 2^44.
    pub ever: u64,
}

const MOST_EVER: u64 = 17_592_186_044_415;

impl SuperWord {
    /// The word that says this.
    pub fn pack(self) -> u64
        requires { FitsSuperWord self }
        ensures packed { result ≡ packed_super self }
        ensures word { IsSuperWord result }
    {
        u64::from(self.count) + 65_536 * u64::from(self.class) + 1_048_576 * self.ever
    }

    /// What a superblock's word says.
    pub fn of(word: u64) -> SuperWord
        requires { IsSuperWord word }
        ensures packed { HasSuperWord word result }
        ensures numbers { ReadsSuper word result }
    {
        SuperWord {
            count: (word % 65_536) as u16,
            class: (word / 65_536 % 16) as u8,
            ever: word / 1_048_576,
        }
    }

    /// What the word says, where it is the word of such numbers.
    pub fn unpack(word: u64) -> Option<SuperWord>
        ensures packed { IfSome result (λ value. HasSuperWord word value) }
        ensures every { (value : SuperWord) → HasSuperWord word value → result ≡ Some value }
        ensures exactly { IsSome result ↔ IsSuperWord word }
        ensures numbers { IfSome result (λ value. ReadsSuper word value) }
    {
        if word / 65_536 % 16 > 3 {
            return None;
        }
        Some(SuperWord::of(word))
    }

    /// After one more reservation, of a block of the class. `ever` stays at its greatest value, 2^44 - 1.
    pub fn reserved(self, class: u8) -> SuperWord
        requires fits { FitsSuperWord self }
        requires room { self.count < 65535 }
        requires class { class ≤ 3 }
        ensures packed { packed_super result ≡ reserved_word (packed_super self) class }
        ensures count { result.count ≡ self.count + 1 }
        ensures class { result.class ≡ class }
        ensures ever { result.ever ≡ risen self.ever }
        ensures rises { self.ever + 1 < 2 ^ 44 → result.ever ≡ self.ever + 1 }
        ensures stands { self.ever + 1 ≡ 2 ^ 44 → result.ever ≡ self.ever }
        ensures fits { FitsSuperWord result }
    {
        SuperWord {
            count: self.count + 1,
            class,
            ever: (self.ever + 1).min(MOST_EVER),
        }
    }
}
