ghost use Rattle.std.specs.Prelude.{◌≡◌, ◌+◌, ◌*◌, ◌<◌, ◌≤◌, IfOk, None, Some, length, replicate, slice_get};
ghost use Rattle.run_model.specs.Placing.{words_of};
ghost use Rattle.plain_state.specs.Store.{HasUnit, no_record, out_of_class, unused_store};
ghost use Rattle.plain_records.specs.Allocated.{out_before};

use crate::ahead::Ahead;
use crate::ready::Ready;
use crate::slot::Slot;
use kt_words::{Geometry, SuperWord};
use plain_state::Record;
use pool_core::PlainPool;
use std::alloc::{AllocError, Global};
use std::marker::Model;

/// The records of a run, by the first unit of their block, with the pool that the blocks are from,
/// the frames, 8 words to a unit, and a queue for each priority of the activations that may start.
/// Of a block the class is kept, at its first unit. The words of the first unit stand behind
/// `BEFORE` others.
#[derive(Drop)]
pub struct Records {
    pub(crate) superblocks: u32,
    pub(crate) pool: PlainPool,
    pub(crate) classes: Vec<Option<u8>>,
    pub(crate) records: Vec<Slot>,
    pub(crate) words: Vec<u64>,
    pub(crate) ready: Ready,
    pub(crate) ahead: Ahead,
}

impl Model for Records {
    ghost use Rattle.plain_state.specs.Store.{StoreState};
    ghost use Rattle.plain_records.specs.StoreView.{store_of, blocks_of, unit_words, AreRecords};

    ghost Value = { StoreState };

    ghost view = { λ r. store_of r.pool (blocks_of r.classes.items) r.records.items
        (unit_words r.words.items) r.ready };

    ghost invariant = { λ r. AreRecords r.superblocks r.pool (blocks_of r.classes.items)
        r.records.items r.words.items r.ready };
}

/// So many words stand before those of the first unit. Large pieces of memory mostly begin 16 bytes
/// behind the start of a line of the cache: then the 8 words of each unit are one line.
pub const BEFORE: usize = 6;

/// A record for each unit that was never written.
fn unused_slots(alloc: Global, count: usize) -> Result<Vec<Slot>, AllocError>
    ensures { IfOk result (λ slots. slots.items ≡ replicate count no_record) }
{
    let mut slots = Vec::with_capacity(alloc, count)?;
    'units: for _ in 0..count {
        slots.push(Slot::unused())?;
    }
    Ok(slots)
}

/// No class for each unit.
fn no_classes(alloc: Global, count: usize) -> Result<Vec<Option<u8>>, AllocError>
    ensures { IfOk result (λ classes. classes.items ≡ replicate count None) }
{
    let mut classes = Vec::with_capacity(alloc, count)?;
    'units: for _ in 0..count {
        classes.push(None)?;
    }
    Ok(classes)
}

impl Records {
    /// No record, and all memory that later calls need.
    #[tactic(auto, using(crate::proofs::Blocks::blocks_none, crate::proofs::Behind::none_written))]
    pub fn new(alloc: Global, geometry: Geometry) -> Result<Records, AllocError>
        ensures { IfOk result (λ made. made ≡ unused_store geometry.superblocks geometry.units) }
    {
        let units = geometry.superblocks as usize * geometry.units as usize;
        let pool = PlainPool::new(alloc, geometry)?;
        let classes = no_classes(alloc, units)?;
        let records = unused_slots(alloc, units)?;
        let words = vec![in alloc; 0; units * 8 + BEFORE]?;
        let ready = Ready::new(alloc, units)?;
        Ok(Records {
            superblocks: geometry.superblocks,
            pool,
            classes,
            records,
            words,
            ready,
            ahead: Ahead::none(),
        })
    }

    /// What is known of the task in a block.
    pub fn record(&self, unit: u32) -> Record
        requires { HasUnit self.now unit }
        ensures { slice_get self.now.records unit ≡ Some result }
    {
        self.records[unit as usize].record()
    }

    /// Class, count and ever of a superblock of the pool.
    pub fn word(&self, superblock: u32) -> SuperWord
        requires { superblock < length self.now.pool.superblocks }
        ensures { slice_get (words_of self.now.pool) superblock ≡ Some result }
    {
        self.pool.word(superblock)
    }

    /// How many superblocks the pool has.
    pub fn superblocks(&self) -> u32
        ensures { result ≡ length self.now.pool.superblocks }
    {
        self.superblocks
    }

    /// Does nothing. Call it for how many units and superblocks there are at most.
    pub fn keeps(&self)
        ensures units { length self.now.records ≤ 524288 }
        ensures superblocks { length self.now.pool.superblocks ≤ 1024 }
    {
        self.pool.keeps();
    }

    /// How many blocks of a class are out.
    pub fn out(&self, class: u8) -> u32
        ensures { result ≡ out_of_class self.now.pool class }
    {
        out_of(&self.pool, self.superblocks, class)
    }
}

/// How many blocks of a class are out of a pool.
fn out_of(pool: &PlainPool, superblocks: u32, class: u8) -> u32
    requires { superblocks ≡ length pool.now.superblocks }
    ensures { result ≡ out_of_class pool.now class }
{
    pool.keeps();
    let mut out = 0;
    'superblocks: for superblock in 0..superblocks {
        out += out_in(pool, superblock, class);
    }
    out
}

/// How many blocks of a class are out of a superblock.
fn out_in(pool: &PlainPool, superblock: u32, class: u8) -> u32
    requires { superblock < length pool.now.superblocks }
    ensures count { out_before pool.now class (superblock + 1)
        ≡ out_before pool.now class superblock + result }
    ensures few { result ≤ 512 }
{
    if pool.class(superblock) == class {
        pool.count(superblock)
    } else {
        0
    }
}
