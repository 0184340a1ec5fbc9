ghost use Rattle.std.specs.Prelude.{◌≡◌, ◌≤◌, ◌↔◌, IsSome, IfSome};
ghost use Rattle.kt_words.specs.HeadWords.{FitsHeadWord, HasHeadWord, IsHeadWord, ReadsHead, packed_head};
ghost use Rattle.kt_words.specs.declared.head_word.HeadWord.{HeadWord};

/// The head of a list of waiting tasks.
#[derive(Debug, Clone, Copy, PartialEq, Eq)]
pub enum HeadWord {
    /// The list is open.
    Listed {
        /// The unit of the first that waits, below 2^20 - 1.
        first: Option<u32>,
        /// How many wait, below 2^22.
        length: u32,
    },
    /// Nothing more is put on the list.
    Closed,
}

const CLOSED: u64 = 1 << 63;

impl HeadWord {
    /// The word that says this.
    pub fn pack(self) -> u64
        requires { FitsHeadWord self }
        ensures packed { result ≡ packed_head self }
        ensures word { IsHeadWord result }
    {
        match self {
            HeadWord::Listed { first, length } => {
                let link = match first {
                    Some(unit) => unit + 1,
                    None => 0,
                };
                u64::from(link) + 1_048_576 * u64::from(length)
            }
            HeadWord::Closed => CLOSED,
        }
    }

    /// What the word of a head says.
    pub fn of(word: u64) -> HeadWord
        requires { IsHeadWord word }
        ensures packed { HasHeadWord word result }
        ensures numbers { ReadsHead word result }
    {
        if word == CLOSED {
            return HeadWord::Closed;
        }
        HeadWord::Listed {
            first: ((word % 1_048_576) as u32).checked_sub(1),
            length: (word / 1_048_576) as u32,
        }
    }

    /// What the word says, where it is the word of such a head.
    pub fn unpack(word: u64) -> Option<HeadWord>
        ensures packed { IfSome result (λ value. HasHeadWord word value) }
        ensures every { (value : HeadWord) → HasHeadWord word value → result ≡ Some value }
        ensures exactly { IsSome result ↔ IsHeadWord word }
        ensures numbers { IfSome result (λ value. ReadsHead word value) }
    {
        if word != CLOSED && word / 1_048_576 >= 4_194_304 {
            return None;
        }
        Some(HeadWord::of(word))
    }
}
