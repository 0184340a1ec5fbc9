ghost use Rattle.std.specs.Prelude.{◌≡◌, IfOk, Some};
ghost use Rattle.task_check.specs.Causes.{code_of, word_of, names_future as names_a_future, rank as rank_of};
ghost use Rattle.task_check.specs.Faults.{precedes as comes_before, found_at};
ghost use Rattle.task_check.specs.Parts.{earlier_of};

use std::alloc::AllocError;
use task_syntax::Name;

/// Why a line of a program is refused, in the order of the causes in one line.
#[derive(Debug, Clone, Copy, PartialEq, Eq)]
pub enum Cause {
    /// A kind has more than 63 variables.
    FrameTooLarge,
    /// The arguments do not agree with the kind in number and sort.
    BadCount,
    /// A future is not held on each way.
    NotHeld,
    /// A future that is got is not settled on each way.
    NotSettled,
    /// A state needs a future that is not held, or that is not settled when the state starts.
    StateNeeds,
}

impl Cause {
    /// The number of the cause.
    pub fn code(self) -> u8
        ensures { result ≡ code_of self }
    {
        match self {
            Cause::NotHeld => 1,
            Cause::NotSettled => 2,
            Cause::BadCount => 3,
            Cause::StateNeeds => 4,
            Cause::FrameTooLarge => 5,
        }
    }

    /// The word for the cause.
    pub fn word(self) -> &'static str
        ensures { result.now ≡ word_of self }
    {
        match self {
            Cause::NotHeld => "NotHeld",
            Cause::NotSettled => "NotSettled",
            Cause::BadCount => "BadCount",
            Cause::StateNeeds => "StateNeeds",
            Cause::FrameTooLarge => "FrameTooLarge",
        }
    }

    /// Whether a fault of this cause names a future, which is written with an `@`. Else it names a kind.
    pub fn names_future(self) -> bool
        ensures { result ≡ names_a_future self }
    {
        match self {
            Cause::NotHeld | Cause::NotSettled | Cause::StateNeeds => true,
            Cause::BadCount | Cause::FrameTooLarge => false,
        }
    }

    /// The place of the cause among those of one line.
    fn rank(self) -> u8
        ensures { result ≡ rank_of self }
    {
        match self {
            Cause::FrameTooLarge => 0,
            Cause::BadCount => 1,
            Cause::NotHeld => 2,
            Cause::NotSettled => 3,
            Cause::StateNeeds => 4,
        }
    }
}

/// Why a program is refused.
#[derive(Debug, Drop)]
pub enum CheckError {
    /// The first fault: its cause, its line, and the future or the kind that it names.
    Fault { cause: Cause, line: u32, name: Name },
    /// Want of memory.
    Memory,
}

impl From<AllocError> for CheckError {
    ghost use Rattle.task_check.specs.declared.fault.CheckError.TheVariants.{Memory};

    ghost from_gives = { λ _ e. e ≡ Memory };

    fn from(_refused: AllocError) -> CheckError {
        CheckError::Memory
    }
}

/// A fault with its place: the line, and the position from the left among those of its cause.
#[derive(Debug, Drop)]
pub struct Found {
    pub line: u32,
    pub cause: Cause,
    pub position: usize,
    pub name: Name,
}

impl Found {
    /// Whether this fault comes before another.
    fn precedes(&self, other: &Found) -> bool
        ensures { result ≡ comes_before self.now other.now }
    {
        if self.line != other.line {
            return self.line < other.line;
        }
        if self.cause.rank() != other.cause.rank() {
            return self.cause.rank() < other.cause.rank();
        }
        self.position < other.position
    }
}

/// The earlier one of two faults.
pub fn earlier(first: Option<Found>, second: Option<Found>) -> Option<Found>
    ensures { result ≡ earlier_of first second }
{
    match (first, second) {
        (Some(one), Some(other)) => {
            if other.precedes(&one) {
                Some(other)
            } else {
                Some(one)
            }
        }
        (None, other) => other,
        (one, None) => one,
    }
}

/// A fault that gives a name.
pub fn fault_at(
    line: u32,
    cause: Cause,
    position: usize,
    name: &Name,
) -> Result<Option<Found>, AllocError>
    ensures { IfOk result (λ r. r ≡ Some (found_at line cause position name.now)) }
{
    let name = copied(name)?;
    Ok(Some(Found {
        line,
        cause,
        position,
        name,
    }))
}

/// The same name again.
fn copied(name: &Name) -> Result<Name, AllocError>
    ensures { IfOk result (λ n. n ≡ name.now) }
{
    let bytes = name.bytes.clone()?;
    Ok(Name { bytes })
}
