/// Why a task ended without a number.
#[derive(Debug, Clone, Copy, PartialEq, Eq)]
pub enum Trap {
    /// A sum, difference or product outside the 64-bit numbers.
    Overflow,
    /// A division or remainder by 0.
    Divide,
    /// A row of a column that is not there.
    NoRow,
}

/// What a complete task gives.
#[derive(Debug, Clone, Copy, PartialEq, Eq)]
pub enum Value {
    Number(u64),
    Trapped(Trap),
}

/// How soon a ready task is started, against other ready tasks.
#[derive(Debug, Clone, Copy, PartialEq, Eq)]
pub enum Priority {
    High = 0,
    Regular = 1,
    Low = 2,
}
