ghost use Rattle.std.specs.Prelude.{◌≡◌};

/// A place that a pass reserved in the count of a superblock.
#[derive(Drop)]
pub struct Reserved {
    pub(crate) superblock: u32,
    pub(crate) class: u8,
}

/// A place that a block left in the count of its superblock.
#[derive(Drop)]
pub struct Debt {
    pub(crate) superblock: u32,
    pub(crate) class: u8,
}

/// A block of memory that a pass has: 2^class units.
#[derive(Drop)]
pub struct Block {
    pub(crate) unit: u32,
    pub(crate) class: u8,
    pub(crate) fresh: bool,
}

impl Block {
    /// The first unit.
    pub fn unit(&self) -> u32
        ensures { result ≡ self.now.unit }
    {
        self.unit
    }

    /// The class: the block has two to its power units.
    pub fn class(&self) -> u8
        ensures { result ≡ self.now.class }
    {
        self.class
    }
}

impl Reserved {
    /// The class of the place.
    pub fn class(&self) -> u8
        ensures { result ≡ self.now.class }
    {
        self.class
    }
}
