ghost use Rattle.std.specs.Prelude.{◌≡◌, ℕ, ◌+◌, ◌<◌, ◌≤◌, false, not, ◌&&◌, ◌||◌, nat_eq, nat_lt};
ghost use Rattle.task_syntax.specs.Facts.{has};
ghost use Rattle.task_syntax.specs.Places.{Each};

/// A set of positions below 256, as a mask.
#[derive(Debug, Clone, Copy)]
pub struct VariableSet {
    words: [u64; 4],
}

impl VariableSet {
    ghost use Rattle.task_check.specs.Known.{in_set};

    /// The empty set.
    pub fn none() -> VariableSet
        ensures { (x : ℕ) → in_set x result ≡ false }
    {
        VariableSet { words: [0; 4] }
    }

    /// The set of the members of a list.
    pub fn of(list: &[u16]) -> VariableSet
        requires { Each list.now (λ x. x < 256) }
        ensures { (x : ℕ) → in_set x result ≡ has x list.now }
    {
        let mut set = VariableSet::none();
        'members: for i in 0..list.len() {
            set = set.with(list[i]);
        }
        set
    }

    /// The set of the positions below a count.
    pub fn below(count: u16) -> VariableSet
        requires { count ≤ 256 }
        ensures { (x : ℕ) → in_set x result ≡ nat_lt x count }
    {
        let mut set = VariableSet::none();
        'positions: for position in 0..count {
            set = set.with(position);
        }
        set
    }

    /// Whether the position is in the set.
    pub fn contains(&self, position: u16) -> bool
        requires { position < 256 }
        ensures { result ≡ in_set position self.now }
    {
        let word = self.words[position as usize / 64];
        (word >> (position % 64)) & 1 == 1
    }

    /// The set with one more position.
    pub fn with(self, position: u16) -> VariableSet
        requires { position < 256 }
        ensures { (x : ℕ) → in_set x result ≡ (nat_eq x position || in_set x self) }
    {
        let mut words = self.words;
        words[position as usize / 64] |= 1 << (position % 64);
        VariableSet { words }
    }

    /// The set without a position.
    pub fn without(self, position: u16) -> VariableSet
        requires { position < 256 }
        ensures { (x : ℕ) → in_set x result ≡ (not (nat_eq position x) && in_set x self) }
    {
        let mut words = self.words;
        words[position as usize / 64] &= !(1 << (position % 64));
        VariableSet { words }
    }

    /// What both sets have.
    pub fn common(self, other: VariableSet) -> VariableSet
        ensures { (x : ℕ) → in_set x result ≡ (in_set x self && in_set x other) }
    {
        let mut words = self.words;
        'words: for k in 0..4 {
            words[k] &= other.words[k];
        }
        VariableSet { words }
    }

    /// What one of the sets has.
    pub fn union(self, other: VariableSet) -> VariableSet
        ensures { (x : ℕ) → in_set x result ≡ (in_set x self || in_set x other) }
    {
        let mut words = self.words;
        'words: for k in 0..4 {
            words[k] |= other.words[k];
        }
        VariableSet { words }
    }
}
