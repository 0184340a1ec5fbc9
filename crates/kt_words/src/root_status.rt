ghost use Rattle.std.specs.Prelude.{◌≡◌, ◌↔◌, IsSome, IfSome};
ghost use Rattle.kt_words.specs.RootWords.{FitsRootWord, HasRootWord, IsRootWord, packed_root};
ghost use Rattle.kt_words.specs.declared.root_status.RootStatus.{RootStatus};

/// What has become of a root of the program.
#[derive(Debug, Clone, Copy, PartialEq, Eq)]
pub enum RootStatus {
    /// It was not asked for yet.
    NotAsked,
    /// Its task has the record at this unit, below 2^19.
    Record(u32),
    /// Cut, since the pool had no block.
    Null,
    /// Cut, since the limit of activations was met.
    Limit,
    /// Skipped, since the root of this number, below 16, has no task.
    Skipped(u8),
}

const NULL: u64 = 1_048_577;

const LIMIT: u64 = 1_048_578;

const SKIPPED: u64 = 1_048_579;

impl RootStatus {
    /// The word that says this.
    pub fn pack(self) -> u64
        requires { FitsRootWord self }
        ensures packed { result ≡ packed_root self }
        ensures word { IsRootWord result }
    {
        match self {
            RootStatus::NotAsked => 0,
            RootStatus::Record(unit) => u64::from(unit) + 1,
            RootStatus::Null => NULL,
            RootStatus::Limit => LIMIT,
            RootStatus::Skipped(root) => SKIPPED + u64::from(root),
        }
    }

    /// What the word says, where it is the word of such a root.
    pub fn unpack(word: u64) -> Option<RootStatus>
        ensures packed { IfSome result (λ value. HasRootWord word value) }
        ensures every { (value : RootStatus) → HasRootWord word value → result ≡ Some value }
        ensures exactly { IsSome result ↔ IsRootWord word }
    {
        match word {
            0 => Some(RootStatus::NotAsked),
            1..=524_288 => Some(RootStatus::Record((word - 1) as u32)),
            NULL => Some(RootStatus::Null),
            LIMIT => Some(RootStatus::Limit),
            SKIPPED..=1_048_594 => Some(RootStatus::Skipped((word - SKIPPED) as u8)),
            _ => None,
        }
    }
}
