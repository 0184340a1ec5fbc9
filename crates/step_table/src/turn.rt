ghost use Rattle.std.specs.Prelude.{◌≡◌, ◌<◌, ◌+◌, ◌∷◌, ◌++◌, [], length, slice_get};
ghost use Rattle.step_table.specs.Turns.{taken, turn_of, says_of, said};

/// What is said of a root that was asked for.
#[derive(Debug, Clone, Copy, PartialEq, Eq)]
pub enum NamedRoot {
    /// Its task has the record at this unit.
    Record(u32),
    /// Cut, since the pool had no block.
    Null,
    /// Cut, since the limit of activations was met.
    Limit,
    /// Skipped, since the root of this number has no task.
    Skipped(u8),
}

// What the pass with the turn knows: so many roots are asked for, and what is said of each.
#[derive(Clone, Copy)]
pub(crate) struct Turn {
    pub(crate) named: [NamedRoot; 16],
    pub(crate) asked: u8,
}

impl Turn {
    // No root is asked for.
    pub(crate) fn first() -> Turn
        ensures { taken result ≡ [] }
    {
        Turn {
            named: [NamedRoot::Null; 16],
            asked: 0,
        }
    }

    // What is said of a root, where it is asked for.
    pub(crate) fn at(self, root: u8) -> Option<NamedRoot>
        requires { root < 16 }
        ensures { said result ≡ slice_get (taken self) root }
    {
        if root < self.asked {
            Some(self.named[root as usize])
        } else {
            None
        }
    }

    // One root more is asked for.
    pub(crate) fn with(self, named: NamedRoot) -> Turn
        requires { self.asked < 16 }
        ensures { taken result ≡ taken self ++ says_of named ∷ [] }
    {
        let mut names = self.named;
        names[self.asked as usize] = named;
        Turn {
            named: names,
            asked: self.asked + 1,
        }
    }
}

// The turn of two passes of which one has it at most.
pub(crate) fn either(keep: Option<Turn>, other: Option<Turn>) -> Option<Turn>
    requires { length (turn_of other) + length (turn_of keep) < 2 }
    ensures { turn_of result ≡ turn_of other ++ turn_of keep }
{
    match keep {
        Some(turn) => Some(turn),
        None => other,
    }
}
