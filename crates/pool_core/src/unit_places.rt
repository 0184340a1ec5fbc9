ghost use Rattle.std.specs.Prelude.{◌≡◌, ◌/◌, ◌%◌};
ghost use Rattle.kt_words.specs.Ranges.{IsUnitCount};
ghost use Rattle.pool_core.specs.VacancyInvariant.{IsShiftOf};

/// The power of two that a number of units is.
pub fn shift_of(units: u32) -> u32
    requires { IsUnitCount units }
    ensures { IsShiftOf result units }
{
    match units {
        8 => 3,
        16 => 4,
        32 => 5,
        64 => 6,
        128 => 7,
        256 => 8,
        _ => 9,
    }
}

/// The superblock of a unit, and where in it the unit stands: told without a division, which takes
/// long.
pub fn parted(unit: u32, units: u32, shift: u32) -> (u32, u32)
    requires { IsShiftOf shift units }
    ensures superblock { result.0 ≡ unit / units }
    ensures within { result.1 ≡ unit % units }
{
    let superblock = unit >> shift;
    (superblock, unit - superblock * units)
}
