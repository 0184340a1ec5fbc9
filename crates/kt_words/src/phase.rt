ghost use Rattle.std.specs.Prelude.{◌≡◌, ◌≤◌};
ghost use Rattle.kt_words.specs.StateWords.{phase_code};

/// Where a task's record stands.
#[derive(Debug, Clone, Copy, PartialEq, Eq)]
pub enum Phase {
    /// In no use.
    Free,
    /// Made, and not yet handed out.
    Made,
    /// Behind a task that is not complete.
    Waiting,
    /// It may be started.
    Ready,
    /// Started.
    Running,
    /// It has its result.
    Complete,
}

impl Phase {
    pub(crate) fn code(self) -> u8
        ensures coded { result ≡ phase_code self }
        ensures few { result ≤ 5 }
    {
        match self {
            Phase::Free => 0,
            Phase::Made => 1,
            Phase::Waiting => 2,
            Phase::Ready => 3,
            Phase::Running => 4,
            Phase::Complete => 5,
        }
    }

    pub(crate) fn of(code: u8) -> Phase
        requires { code ≤ 5 }
        ensures { phase_code result ≡ code }
    {
        match code {
            0 => Phase::Free,
            1 => Phase::Made,
            2 => Phase::Waiting,
            3 => Phase::Ready,
            4 => Phase::Running,
            _ => Phase::Complete,
        }
    }
}
