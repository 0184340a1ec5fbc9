use std::alloc::AllocError;

/// Why there is no table with these records.
#[derive(Debug, Drop)]
pub enum NoHand {
    /// Want of memory.
    Memory,
    /// Blocks or numbers are short, or a list is named that there is not.
    Room,
}

impl From<AllocError> for NoHand {
    ghost use Rattle.std.specs.Prelude.{◌≡◌};
    ghost use Rattle.wait_rows.specs.declared.no_hand.NoHand.TheVariants.{Memory};

    ghost from_gives = { λ _ e. e ≡ Memory };

    fn from(_refused: AllocError) -> NoHand {
        NoHand::Memory
    }
}
