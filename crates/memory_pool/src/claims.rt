//! A reserved place is turned into a block.
ghost use Rattle.std.specs.Prelude.{◌<◌, ◌≤◌};
ghost use Rattle.step_table.specs.Passes.{view, plan, place_of, IsOf, IsSame, HasPlace};
ghost use Rattle.step_table.specs.Sound.{AreSound};
ghost use Rattle.memory_pool.specs.Searches.{SeesMore, TurnsInto};

use std::sync::Wait;
use step_table::{Block, Pass, Reserved, Shared};

// The bit that a pass tries first. Passes with other numbers begin elsewhere.
fn first_bit(number: u32, room: u32) -> u32
    requires { 0 < room }
    ensures { result < room }
{
    number.wrapping_mul(11) % room
}

// The bit to try after this one was found set: the next clear one of the word that was found, or
// else its lowest clear one, or else a bit of the next word.
fn next_bit(found: u64, bit: u32, room: u32) -> u32
    requires few { room ≤ 512 }
    requires inside { bit < room }
    ensures { result < room }
{
    let first = bit / 64 * 64;
    let ahead = bit + (found >> (bit % 64)).trailing_ones();
    let lowest = first + found.trailing_ones();
    let end = room.min(first + 64);
    if ahead < end {
        ahead
    } else if lowest < end {
        lowest
    } else if bit + 64 < room {
        bit + 64
    } else {
        bit % 64
    }
}

/// Turns a reserved place into a block.
pub fn claim_in(shared: &Shared, rt: &impl Wait, pass: &mut Pass, reserved: Reserved) -> Block
    requires table { IsOf shared.now pass.old }
    requires hand { HasPlace (plan shared.now) (place_of reserved) (view pass.old).reserved }
    ensures pass { IsSame pass.old pass.new }
    ensures sound { AreSound shared.now.setup (view pass.old) (view pass.new) }
    ensures later { SeesMore (view pass.old) (view pass.new) }
    ensures block { TurnsInto (plan shared.now) reserved pass.old result pass.new }
{
    let room = shared.plan().geometry.cap(reserved.class());
    let mut reserved = reserved;
    let mut bit = first_bit(pass.number(), room);
    for _ in rt.forever() {
        match shared.claim(pass, reserved, bit) {
            Ok(block) => return block,
            Err((back, found)) => {
                reserved = back;
                bit = next_bit(found, bit, room);
            }
        }
    }
    unreachable!()
}
