//! Where the words of a table lie.
ghost use Rattle.std.specs.Prelude.{◌≡◌, ◌+◌, ◌*◌, ◌/◌, ◌<◌, ◌≤◌};
ghost use Rattle.table_core.specs.Addresses.{address, super, bits, words_of};
ghost use Rattle.step_table.specs.Layout.{superblock_words_of};

use kt_words::{Geometry, Plan};

pub(crate) fn units(geometry: &Geometry) -> usize
    ensures product { result ≡ geometry.now.superblocks * geometry.now.units }
    ensures few { result ≤ 524288 }
{
    geometry.superblocks as usize * geometry.units as usize
}

fn bit_words_of(geometry: &Geometry) -> usize
    ensures whole { result ≡ (geometry.now.units + 63) / 64 }
    ensures few { result ≤ 8 }
{
    (geometry.units as usize + 63) / 64
}

// The words of all superblocks, with their bits.
pub(crate) fn superblock_words(geometry: &Geometry) -> usize
    ensures sum { result ≡ superblock_words_of geometry.now }
    ensures few { result ≤ 16384 }
{
    let superblocks = geometry.superblocks as usize;
    superblocks * 8 + superblocks * bit_words_of(geometry)
}

/// How many words a table has for the plan.
pub fn words(plan: &Plan) -> usize
    ensures { result ≡ words_of plan.now }
{
    let geometry = &plan.geometry;
    let units = units(geometry);
    let journal = (plan.limit as usize + 1) * 5;
    superblock_words(geometry) + 14 * units + 16 + journal + geometry.superblocks as usize + 48
}

/// Where the word of a superblock lies.
pub fn super_word(plan: &Plan, superblock: u32) -> usize
    requires { superblock < plan.now.geometry.superblocks }
    ensures { result ≡ address plan.now (super superblock) }
{
    let _superblocks = plan.geometry.superblocks;
    superblock as usize * 8
}

/// Where the word with a bit of a superblock lies.
pub fn bit_word(plan: &Plan, superblock: u32, bit: u32) -> usize
    requires superblock { superblock < plan.now.geometry.superblocks }
    requires bit { bit < 512 }
    ensures { result ≡ address plan.now (bits superblock (bit / 64)) }
{
    let geometry = &plan.geometry;
    let row = bit_words_of(geometry) * superblock as usize;
    geometry.superblocks as usize * 8 + (row + bit as usize / 64)
}
