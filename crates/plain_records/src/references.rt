ghost use Rattle.std.specs.Prelude.{◌≡◌, ◌↔◌, ◌≤◌, IfSome, IfNone, IsNone, None, slice_set};
ghost use Rattle.pool_core.specs.Pool.{HasNoRoom, IsOut};
ghost use Rattle.plain_state.specs.Store.{HasUnit, MayHold, MayLetGo, held, let_go, made, without_block};
ghost use Rattle.plain_state.specs.Moves.{new_record};
ghost use Rattle.plain_records.specs.Allocated.{Allocates, IsGivenBack, IsReleasedFrom, pool_without, pool_without_if};
ghost use Rattle.plain_records.specs.StoreView.{block_of_class, blocks_of};

use crate::slot::Slot;
use crate::store::Records;
use pool_core::{Block, PlainPool};
use record_core::CutTag;
use task_syntax::Priority;

impl Records {
    /// Gives a block of a class, if the pool has room for one.
    #[inline(always)]
    pub fn allocate(&mut self, class: u8) -> Option<Block>
        requires { class ≤ 3 }
        ensures some { IfSome result (λ block. Allocates self.old class block self.new) }
        ensures none { IsNone result ↔ HasNoRoom self.old.pool class }
        ensures unchanged { IfNone result (self.new ≡ self.old) }
    {
        self.pool.allocate(class)
    }

    /// Gives a block back in which no record was made.
    pub fn release(&mut self, block: Block)
        requires { IsOut self.old.pool block }
        ensures { IsReleasedFrom self.old block self.new }
    {
        self.pool.release(block);
    }

    /// Makes the record of a new task in its block: it is under way, and about to be named once.
    #[tactic(auto, using(crate::proofs::Blocks::blocks_set, crate::proofs::Blocks::blocks_length))]
    pub fn make(&mut self, block: Block, number: u32, priority: Priority, cut: Option<CutTag>)
        requires { HasUnit self.old block.unit }
        ensures { self.new ≡ made block (new_record number priority cut) self.old }
    {
        let unit = block.unit() as usize;
        self.records[unit] = Slot::new(number, priority, cut);
        self.classes[unit] = Some(block.class());
    }

    /// One more variable, member or root names the task.
    pub fn hold(&mut self, unit: u32)
        requires { MayHold unit self.old }
        ensures { self.new ≡ held unit self.old }
    {
        self.records[unit as usize].hold();
    }

    /// One less names it, or it has ended. Where nothing else refers to it, its block goes back to
    /// the pool.
    pub fn let_go(&mut self, unit: u32)
        requires { MayLetGo unit self.old }
        ensures { self.new ≡ let_go unit self.old }
    {
        let known = &mut self.records[unit as usize];
        known.let_go();
        if known.references() == 0 {
            give_back(&mut self.pool, &mut self.classes, unit);
        }
    }
}

// The block at a unit goes back to the pool.
fn give_back(pool: &mut PlainPool, classes: &mut Vec<Option<u8>>, unit: u32)
    requires { IsGivenBack pool.old (blocks_of classes.old.items) unit }
    ensures pool { pool.new ≡ pool_without pool.old (blocks_of classes.old.items) unit }
    ensures blocks { blocks_of classes.new.items
        ≡ slice_set (blocks_of classes.old.items) unit None }
{
    let kept = classes[unit as usize];
    classes[unit as usize] = None;
    release_kept(pool, unit, kept);
}

// The block at a unit goes back to the pool, if this tells its class.
fn release_kept(pool: &mut PlainPool, unit: u32, kept: Option<u8>)
    requires { IfSome kept (λ class. IsOut pool.old (record { unit = unit; class = class })) }
    ensures { pool.new ≡ pool_without_if pool.old (block_of_class unit kept) }
{
    if let Some(class) = kept {
        pool.release_at(unit, class);
    }
}
