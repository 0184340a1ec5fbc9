ghost use Rattle.std.specs.Prelude.{◌≡◌};

use std::marker::Model;

/// Some units of a pool, one after the other. It is not copied: the pool takes it back once.
#[derive(Debug, Drop)]
pub struct Block {
    unit: u32,
    class: u8,
}

impl Model for Block {
    ghost use Rattle.pool_core.specs.Blocks.{BlockState};

    ghost Value = { BlockState };

    ghost view = { λ b. record { unit = b.unit; class = b.class } };
}

impl Block {
    pub(crate) fn new(unit: u32, class: u8) -> Block
        ensures { result ≡ record { unit = unit; class = class } }
    {
        Block { unit, class }
    }

    /// The first unit.
    pub fn unit(&self) -> u32
        ensures { result ≡ self.now.unit }
    {
        self.unit
    }

    /// The class: there are two to its power units.
    pub fn class(&self) -> u8
        ensures { result ≡ self.now.class }
    {
        self.class
    }
}
