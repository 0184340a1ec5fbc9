ghost use Rattle.std.specs.Prelude.{◌≡◌, ◌≤◌, ◌↔◌, IsSome, IfSome};
ghost use Rattle.kt_words.specs.StateWords.{FitsStateWord, HasStateWord, IsStateWord, ReadsState, packed_state};
ghost use Rattle.kt_words.specs.declared.state_word.StateWord.{StateWord};

use crate::phase::Phase;
use crate::tag::Tag;

/// What the state word of a task's record says.
#[derive(Debug, Clone, Copy, PartialEq, Eq)]
pub struct StateWord {
    pub phase: Phase,
    /// At most 2.
    pub priority: u8,
    pub tag: Tag,
    /// The number of its activation, below 2^24.
    pub number: u32,
}

impl StateWord {
    /// The word that says this.
    pub fn pack(self) -> u64
        requires { FitsStateWord self }
        ensures packed { result ≡ packed_state self }
        ensures word { IsStateWord result }
    {
        u64::from(self.phase.code())
            + 8 * u64::from(self.priority)
            + 32 * u64::from(self.tag.code())
            + 256 * u64::from(self.number)
    }

    /// What the word of a state says.
    pub fn of(word: u64) -> StateWord
        requires { IsStateWord word }
        ensures packed { HasStateWord word result }
        ensures numbers { ReadsState word result }
    {
        StateWord {
            phase: Phase::of((word % 8) as u8),
            priority: (word / 8 % 4) as u8,
            tag: Tag::of((word / 32 % 8) as u8),
            number: (word / 256) as u32,
        }
    }

    /// What the word says, where it is the word of such a state.
    pub fn unpack(word: u64) -> Option<StateWord>
        ensures packed { IfSome result (λ value. HasStateWord word value) }
        ensures every { (value : StateWord) → HasStateWord word value → result ≡ Some value }
        ensures exactly { IsSome result ↔ IsStateWord word }
        ensures numbers { IfSome result (λ value. ReadsState word value) }
    {
        if word % 8 > 5 || word / 8 % 4 > 2 || word / 32 % 8 > 6 || word / 256 >= 16_777_216 {
            return None;
        }
        Some(StateWord::of(word))
    }
}
