ghost use Rattle.std.specs.Prelude.{◌≡◌, ◌≤◌, ◌<◌, ◌^◌, ◌↔◌, IsTrue};
ghost use Rattle.record_core.specs.Counting.{times};

use crate::pass::Pass;

/// A record that a pass makes in a block: 2^class units.
#[derive(Drop)]
pub struct Made {
    pub(crate) unit: u32,
    pub(crate) class: u8,
}

/// A reference to a task's record. It tells nothing of the task but where its record is.
#[derive(Drop)]
pub struct Future {
    pub(crate) unit: u32,
}

/// A record to which nobody refers any more. Its pass gives the block back.
#[derive(Drop)]
pub struct Retiring {
    pub(crate) unit: u32,
}

/// A record that its pass completes.
#[derive(Drop)]
pub struct Finishing {
    pub(crate) unit: u32,
}

/// A record that its pass runs, with the number of its activation.
#[derive(Drop)]
pub struct Started {
    pub(crate) unit: u32,
    pub(crate) number: u32,
    pub ghost number_fits: { number < 2 ^ 24 },
}

/// A record that waits, and that only its pass may link or start.
#[derive(Drop)]
pub struct Linkable {
    pub(crate) unit: u32,
}

/// A list of records that wait, which its pass took from a record.
#[derive(Drop)]
pub struct Chain {
    // The unit of the first, and how many there are.
    pub(crate) first: Option<u32>,
    pub(crate) length: u32,
}

/// A word of a record: of its frame, by its place there, or of its header.
#[derive(Debug, Clone, Copy, PartialEq, Eq)]
pub enum OwnWord {
    Frame(u32),
    Next,
    Task,
    Result,
    References,
    Head,
}

impl Made {
    /// The first unit of its block.
    pub fn unit(&self) -> u32
        ensures { result ≡ self.now.unit }
    {
        self.unit
    }

    /// The class of its block.
    pub fn class(&self) -> u8
        ensures { result ≡ self.now.class }
    {
        self.class
    }
}

impl Future {
    ghost use Rattle.step_table.specs.Passes.{view};

    /// The future of a reference that the pass has. The pass has no more references for it.
    pub fn of(_pass: &Pass, unit: u32) -> Future
        requires { 1 ≤ times unit (view _pass.now).futures }
        ensures { result.unit ≡ unit }
    {
        Future { unit }
    }

    /// The first unit of the record.
    pub fn unit(&self) -> u32
        ensures { result ≡ self.now.unit }
    {
        self.unit
    }
}

impl Retiring {
    /// The first unit of the record.
    pub fn unit(&self) -> u32
        ensures { result ≡ self.now.unit }
    {
        self.unit
    }
}

impl Finishing {
    /// The first unit of the record.
    pub fn unit(&self) -> u32
        ensures { result ≡ self.now.unit }
    {
        self.unit
    }
}

impl Started {
    /// The first unit of the record.
    pub fn unit(&self) -> u32
        ensures { result ≡ self.now.unit }
    {
        self.unit
    }

    /// The number of its activation.
    pub fn number(&self) -> u32
        ensures { result ≡ self.now.number }
    {
        self.number
    }
}

impl Linkable {
    /// The first unit of the record.
    pub fn unit(&self) -> u32
        ensures { result ≡ self.now.unit }
    {
        self.unit
    }
}

impl Chain {
    /// How many records the chain has.
    pub fn len(&self) -> u32
        ensures { result ≡ self.now.length }
    {
        self.length
    }

    /// Whether the chain has no record.
    pub fn is_empty(&self) -> bool
        ensures { IsTrue result ↔ (self.now.length ≡ 0) }
    {
        self.length == 0
    }
}
