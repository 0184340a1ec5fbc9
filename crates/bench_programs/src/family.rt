ghost use Rattle.std.specs.Prelude.{◌≡◌, IsNone, IfSome};
ghost use Rattle.bench_programs.specs.Family.{word_of, family_of as family_of_word, greatest_of, IsUnknown};

/// A family of programs, one for each number.
#[derive(Debug, Clone, Copy, PartialEq, Eq)]
pub enum Family {
    /// The Fibonacci number, by two tasks and an aggregate for each sum.
    Fib,
    /// Four tasks for each task but the last ones, with three priorities.
    Grid,
    /// A task that goes on again and again, each time behind a new task.
    Chain,
}

impl Family {
    /// The word for the family.
    pub fn word(self) -> &'static str
        ensures { result.now ≡ word_of self }
    {
        match self {
            Family::Fib => "fib",
            Family::Grid => "grid",
            Family::Chain => "chain",
        }
    }

    /// The family of a word, and none where the word is that of no family.
    pub fn of_word(word: &str) -> Option<Family>
        ensures named { IfSome result (λ family. word.now ≡ word_of family) }
        ensures unknown { IsNone result → IsUnknown word.now }
        ensures exact { result ≡ family_of_word word.now }
    {
        match word {
            "fib" => Some(Family::Fib),
            "grid" => Some(Family::Grid),
            "chain" => Some(Family::Chain),
            _ => None,
        }
    }

    /// The greatest number whose program is run to measure.
    pub fn greatest(self) -> u64
        ensures { result ≡ greatest_of self }
    {
        match self {
            Family::Fib => 22,
            Family::Grid => 8,
            Family::Chain => 100_000,
        }
    }
}
