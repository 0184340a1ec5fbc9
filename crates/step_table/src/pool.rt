//! The steps of the pool.
ghost use Rattle.std.specs.Prelude.{◌<◌, ◌≤◌, IfOk, IfErr};
ghost use Rattle.kt_words.specs.SuperWords.{FitsSuperWord};
ghost use Rattle.table_core.specs.Pool.{cap};

use crate::layout::{bit_word, super_word};
use crate::pass::Pass;
use crate::shared::Shared;
use crate::tokens::{Block, Debt, Reserved};
use kt_words::SuperWord;
use std::marker::Brand;

impl Shared {
    ghost use Rattle.step_table.specs.Passes.{view, plan, IsOf, IsSame, place_of, owed_by, block_of, HasPlace, HasBlock, TakesOne};
    ghost use Rattle.step_table.specs.Sound.{AreSound};
    ghost use Rattle.step_table.specs.Steps.{Looks, Reserves, FindsOther, Claims, FindsSet, Clears, Settles, Releases};

    /// Loads the word of a superblock. The pass keeps it as a look for this class.
    pub fn look(&self, pass: &mut Pass, superblock: u32, class: u8) -> SuperWord
        requires table { IsOf self.now pass.old }
        requires superblock { superblock < (plan self.now).geometry.superblocks }
        requires class { class ≤ 3 }
        ensures pass { IsSame pass.old pass.new }
        ensures sound { AreSound self.now.setup (view pass.old) (view pass.new) }
        ensures word { FitsSuperWord result }
        ensures view { Looks superblock class pass.old result pass.new }
    {
        let word = super_word(&self.setup.plan, superblock);
        let found = self.load_as::<Brand, _>(&mut pass.seat, word, &(superblock, class));
        pass.last.keep(superblock, found, class);
        SuperWord::of(found)
    }

    /// Reserves a place of the class in a superblock whose word is as it was seen. Err: it is now
    /// another word, which is returned.
    pub fn reserve(
        &self,
        pass: &mut Pass,
        superblock: u32,
        seen: SuperWord,
        class: u8,
    ) -> Result<Reserved, SuperWord>
        requires table { IsOf self.now pass.old }
        requires superblock { superblock < (plan self.now).geometry.superblocks }
        requires class { class ≤ 3 }
        requires seen { FitsSuperWord seen }
        requires room { TakesOne (plan self.now) seen class }
        ensures pass { IsSame pass.old pass.new }
        ensures sound { AreSound self.now.setup (view pass.old) (view pass.new) }
        ensures ok { IfOk result (λ won. Reserves superblock class seen pass.old won pass.new) }
        ensures err { IfErr result (λ word. FindsOther superblock seen pass.old word pass.new) }
    {
        let word = super_word(&self.setup.plan, superblock);
        let _units = self.setup.plan.geometry.units;
        let old = seen.pack();
        let new = seen.reserved(class).pack();
        let found = self.compare_exchange_as::<Brand, _>(
            &mut pass.seat,
            word,
            old,
            new,
            &(superblock, class),
        );
        if found == old {
            pass.starts[class as usize] = superblock;
            Ok(Reserved { superblock, class })
        } else {
            Err(SuperWord::of(found))
        }
    }

    /// Sets a bit of a superblock where a place is reserved, and so turns the place into a block.
    /// Err: the bit was set; the place comes back, with the word in which the bit was found.
    pub fn claim(
        &self,
        pass: &mut Pass,
        reserved: Reserved,
        bit: u32,
    ) -> Result<Block, (Reserved, u64)>
        requires table { IsOf self.now pass.old }
        requires hand { HasPlace (plan self.now) (place_of reserved) (view pass.old).reserved }
        requires bit { bit < cap (plan self.now) reserved.class }
        ensures pass { IsSame pass.old pass.new }
        ensures sound { AreSound self.now.setup (view pass.old) (view pass.new) }
        ensures ok { IfOk result (λ b. Claims (plan self.now) reserved bit pass.old b pass.new) }
        ensures err { IfErr result (λ lost. FindsSet reserved bit pass.old lost pass.new) }
    {
        let units = self.setup.plan.geometry.units;
        let Reserved { superblock, class } = reserved;
        let word = bit_word(&self.setup.plan, superblock, bit);
        let mask = 1u64 << (bit % 64);
        let found = self.fetch_or_as::<Brand, _>(
            &mut pass.seat,
            word,
            mask,
            &(superblock, class, bit),
        );
        let clear = found >> (bit % 64) & 1 == 0;
        if clear {
            Ok(Block {
                unit: superblock * units + (bit << class),
                class,
                fresh: true,
            })
        } else {
            Err((Reserved { superblock, class }, found))
        }
    }

    /// Clears the bit of a block. Its place is still counted.
    pub fn clear(&self, pass: &mut Pass, block: Block) -> Debt
        requires table { IsOf self.now pass.old }
        requires hand { HasBlock (plan self.now) (block_of block) (view pass.old).blocks }
        ensures pass { IsSame pass.old pass.new }
        ensures sound { AreSound self.now.setup (view pass.old) (view pass.new) }
        ensures view { Clears (plan self.now) block pass.old result pass.new }
    {
        let units = self.setup.plan.geometry.units;
        let superblock = block.unit / units;
        let bit = (block.unit % units) >> block.class;
        let word = bit_word(&self.setup.plan, superblock, bit);
        let mask = !(1u64 << (bit % 64));
        self.fetch_and_as::<Brand, _>(&mut pass.seat, word, mask, &block);
        Debt {
            superblock,
            class: block.class,
        }
    }

    /// Takes a place that a block left out of the count of its superblock.
    pub fn settle(&self, pass: &mut Pass, debt: Debt)
        requires table { IsOf self.now pass.old }
        requires hand { HasPlace (plan self.now) (owed_by debt) (view pass.old).debts }
        ensures pass { IsSame pass.old pass.new }
        ensures sound { AreSound self.now.setup (view pass.old) (view pass.new) }
        ensures view { Settles debt pass.old pass.new }
    {
        let word = super_word(&self.setup.plan, debt.superblock);
        self.fetch_sub_as::<Brand, _>(&mut pass.seat, word, 1, &debt);
    }

    /// Gives a block back: its bit is cleared, and then its place is settled.
    pub fn release_block(&self, pass: &mut Pass, block: Block)
        requires table { IsOf self.now pass.old }
        requires hand { HasBlock (plan self.now) (block_of block) (view pass.old).blocks }
        ensures pass { IsSame pass.old pass.new }
        ensures sound { AreSound self.now.setup (view pass.old) (view pass.new) }
        ensures view { Releases (plan self.now) block pass.old pass.new }
    {
        let debt = self.clear(pass, block);
        self.settle(pass, debt);
    }
}
