ghost use Rattle.std.specs.Prelude.{◌≡◌, ◌↔◌, ℕ, ◌^◌, ◌<◌, ◌≤◌, IfOk, IsNone, IfNone, IfSome, Some, length, slice_get};
ghost use Rattle.kt_words.specs.SuperWords.{FitsSuperWord};
ghost use Rattle.pool_core.specs.Blocks.{BlockState};
ghost use Rattle.pool_core.specs.Pool.{unused_pool, IsOut, IsChosenFor, Gives, Adds, TakesBack, Removes, HasNoRoom, IsSound};

use crate::block::Block;
use crate::superblock::Superblock;
use crate::unit_places::{parted, shift_of};
use crate::vacancies::Vacancies;
use kt_words::{Geometry, SuperWord};
use std::alloc::{AllocError, Global};
use std::marker::Model;

/// A pool of blocks for one thread. A superblock changes its class only while none of its blocks is out.
#[derive(Drop)]
pub struct PlainPool {
    geometry: Geometry,
    shift: u32,
    superblocks: Vec<Superblock>,
    vacancies: Vacancies,
}

impl Model for PlainPool {
    ghost use Rattle.std.specs.Prelude.{◌≡◌, length};
    ghost use Rattle.pool_core.specs.Pool.{PoolState, IsSound};
    ghost use Rattle.pool_core.specs.VacancyInvariant.{AreVacancies, IsShiftOf};

    ghost Value = { PoolState };

    ghost view = { λ p. record { units = p.geometry.units; superblocks = p.superblocks.items } };

    ghost invariant = { λ p. IsSound (record { units = p.geometry.units; superblocks = p.superblocks.items })
        × AreVacancies p.geometry.units p.superblocks.items p.vacancies
        × IsShiftOf p.shift p.geometry.units };
}

impl PlainPool {
    /// A pool from which no block was given yet.
    pub fn new(alloc: Global, geometry: Geometry) -> Result<PlainPool, AllocError>
        ensures unused { IfOk result (λ pool. pool ≡ unused_pool geometry.superblocks geometry.units) }
        ensures none_out { IfOk result (λ pool. (block : BlockState) → ¬ IsOut pool block) }
        ensures sound { IfOk result (λ pool. IsSound pool) }
    {
        let mut superblocks = Vec::with_capacity(alloc, geometry.superblocks as usize)?;
        for _place in 0..geometry.superblocks {
            superblocks.push(Superblock::new(geometry.units))?;
        }
        Ok(PlainPool {
            geometry,
            shift: shift_of(geometry.units),
            superblocks,
            vacancies: Vacancies::new(geometry.superblocks),
        })
    }

    /// Gives a block of a class, from the first superblock of this class with room, or else from the first empty one.
    pub fn allocate(&mut self, class: u8) -> Option<Block>
        requires { class ≤ 3 }
        ensures some { IfSome result (λ block. Gives self.old class block self.new) }
        ensures none { IsNone result ↔ HasNoRoom self.old class }
        ensures unchanged { IfNone result (self.new ≡ self.old) }

        ensures class { IfSome result (λ block. block.class ≡ class) }
        ensures adds { IfSome result (λ block. Adds self.old block self.new) }
        ensures sound { IsSound self.new }
    {
        let superblock = self.choose(class)?;
        Some(self.give(superblock, class))
    }

    // The first superblock of the class with room, or else the first empty one.
    fn choose(&self, class: u8) -> Option<u32>
        requires { class ≤ 3 }
        ensures chosen { IfSome result (λ superblock. IsChosenFor self.now class superblock) }
        ensures none { IsNone result ↔ HasNoRoom self.now class }
        ensures sound { IsSound self.now }
    {
        self.vacancies.choose(class)
    }

    // Gives a block of the class from the superblock that is chosen for it.
    fn give(&mut self, superblock: u32, class: u8) -> Block
        requires class { class ≤ 3 }
        requires chosen { IsChosenFor self.old class superblock }
        ensures { Gives self.old class result self.new }
    {
        let room = self.geometry.cap(class);
        let state = &mut self.superblocks[superblock as usize];
        let was = state.class();
        let was_empty = state.is_empty();
        let bit = state.give(class, room);
        let has_room = state.has_room(class, room);
        self.vacancies.note_change(superblock, was, class, has_room, false, was_empty, has_room);
        let unit = superblock * self.geometry.units + (bit << class);
        Block::new(unit, class)
    }

    /// Takes back a block that this pool gave and that is still out.
    pub fn release(&mut self, block: Block)
        requires { IsOut self.old block }
        ensures back { TakesBack self.old block self.new }

        ensures removes { Removes self.old block self.new }
        ensures sound { IsSound self.new }
    {
        let class = block.class();
        let (place, within) = parted(block.unit(), self.geometry.units, self.shift);
        let bit = within >> class;
        let superblock = &mut self.superblocks[place as usize];
        let room = self.geometry.cap(class);
        let had_room = superblock.has_room(class, room);
        superblock.take_back(bit);
        let is_empty = superblock.is_empty();
        self.vacancies
            .note_change(place, class, class, true, is_empty, is_empty, had_room);
    }

    /// Takes back the block of a class at a unit, for a caller that keeps the two and not the block.
    #[inline(always)]
    pub fn release_at(&mut self, unit: u32, class: u8)
        requires { IsOut self.old (record { unit = unit; class = class }) }
        ensures back { TakesBack self.old (record { unit = unit; class = class }) self.new }
        ensures removes { Removes self.old (record { unit = unit; class = class }) self.new }
        ensures sound { IsSound self.new }
    {
        self.release(Block::new(unit, class));
    }

    /// What every pool keeps: it is found here by a caller that was handed one.
    pub fn keeps(&self)
        ensures { IsSound self.now }
    {
        let _geometry = &self.geometry;
    }

    /// The class of a superblock: that of its blocks that are out, or else of the last that was.
    pub fn class(&self, superblock: u32) -> u8
        requires { superblock < length self.now.superblocks }
        ensures class { IfSome (slice_get self.now.superblocks superblock) (λ state. result ≡ state.class) }
        ensures fits { result ≤ 3 }
    {
        self.superblocks[superblock as usize].class()
    }

    /// How many blocks of a superblock are out.
    pub fn count(&self, superblock: u32) -> u32
        requires { superblock < length self.now.superblocks }
        ensures count { IfSome (slice_get self.now.superblocks superblock) (λ state. result ≡ state.count) }
        ensures few { result ≤ 512 }
    {
        self.superblocks[superblock as usize].count()
    }

    /// How many blocks a superblock ever gave. It stays at its greatest value, 2^44 - 1.
    pub fn ever(&self, superblock: u32) -> u64
        requires { superblock < length self.now.superblocks }
        ensures ever { IfSome (slice_get self.now.superblocks superblock) (λ state. result ≡ state.ever) }
        ensures fits { result < 2 ^ 44 }
    {
        self.superblocks[superblock as usize].ever()
    }

    /// Whether the block at a place of a superblock is out.
    pub fn claimed(&self, superblock: u32, bit: u32) -> bool
        requires superblock { superblock < length self.now.superblocks }
        requires bit { bit < self.now.units }
        ensures { IfSome (slice_get self.now.superblocks superblock) (λ state. slice_get state.set bit ≡ Some result) }
    {
        self.superblocks[superblock as usize].is_set(bit)
    }

    /// Class, count and ever of a superblock in one.
    pub fn word(&self, superblock: u32) -> SuperWord
        requires { superblock < length self.now.superblocks }
        ensures word { IfSome (slice_get self.now.superblocks superblock) (λ state. result ≡ record { count = state.count; class = state.class; ever = state.ever }) }
        ensures fits { FitsSuperWord result }
    {
        self.superblocks[superblock as usize].word()
    }
}
