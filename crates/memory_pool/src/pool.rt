ghost use Rattle.std.specs.Prelude.{◌≤◌};
ghost use Rattle.step_table.specs.Passes.{view, plan, IsOf, IsSame, block_of, HasBlock};
ghost use Rattle.step_table.specs.Steps.{Releases};
ghost use Rattle.step_table.specs.Sound.{AreSound};
ghost use Rattle.memory_pool.specs.Searches.{SeesMore};
ghost use Rattle.memory_pool.specs.Answers.{Allocates, KeepsRefusal};

use crate::allocated::Allocated;
use crate::claims::claim_in;
use crate::search::find;
use std::sync::Wait;
use step_table::{Block, Pass, Shared};

/// Takes a block of a class from some superblock that has room for it. It asks the system for no
/// memory.
pub fn allocate(shared: &Shared, rt: &impl Wait, pass: &mut Pass, class: u8) -> Allocated
    requires table { IsOf shared.now pass.old }
    requires class { class ≤ 3 }
    ensures pass { IsSame pass.old pass.new }
    ensures sound { AreSound shared.now.setup (view pass.old) (view pass.new) }
    ensures later { SeesMore (view pass.old) (view pass.new) }
    ensures answer { Allocates (plan shared.now) class (view pass.old) result (view pass.new) }
    ensures last { KeepsRefusal (plan shared.now) class result pass.new }
{
    match find(shared, rt, pass, class) {
        Some(reserved) => Allocated::Block(claim_in(shared, rt, pass, reserved)),
        None => Allocated::Null,
    }
}

/// Gives a block back.
pub fn release(shared: &Shared, pass: &mut Pass, block: Block)
    requires table { IsOf shared.now pass.old }
    requires hand { HasBlock (plan shared.now) (block_of block) (view pass.old).blocks }
    ensures pass { IsSame pass.old pass.new }
    ensures sound { AreSound shared.now.setup (view pass.old) (view pass.new) }
    ensures view { Releases (plan shared.now) block pass.old pass.new }
{
    shared.release_block(pass, block);
}
