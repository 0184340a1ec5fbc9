//! The steps of asking for roots.
ghost use Rattle.std.specs.Prelude.{◌≡◌, ◌+◌, ◌-◌, ◌<◌, ◌^◌, ◌∷◌, [], List, length, slice_get, Some, ℕ};
ghost use Rattle.table_core.specs.Holdings.{RootSays, Record};
ghost use Rattle.table_core.specs.RecordViews.{turned};
ghost use Rattle.table_core.specs.Roots.{root_word as word_of_root};
ghost use Rattle.step_table.specs.Turns.{turn_of, says_of, said};
ghost use Rattle.step_table.specs.RootSteps.{name_of, taken_of, FitsName, TellsRoot};

use crate::pass::Pass;
use crate::record_layout::{refs_word, root_word};
use crate::record_tokens::Future;
use crate::shared::Shared;
use crate::turn::{NamedRoot, Turn};
use kt_words::RootStatus;
use std::marker::Brand;

/// What is to be said of the next root. The reference of a record goes into the root's word.
#[derive(Drop)]
pub enum RootWord {
    Record(Future),
    Null,
    Limit,
    Skipped(u8),
}

// What the word says.
fn named_by(word: &RootWord) -> NamedRoot
    ensures { result ≡ name_of word.now }
{
    match word {
        RootWord::Record(future) => NamedRoot::Record(future.unit),
        RootWord::Null => NamedRoot::Null,
        RootWord::Limit => NamedRoot::Limit,
        RootWord::Skipped(root) => NamedRoot::Skipped(*root),
    }
}

// How many references it takes.
fn taken_by(word: &RootWord) -> u64
    ensures { result ≡ taken_of word.now }
{
    match word {
        RootWord::Record(_) => 1,
        _ => 0,
    }
}

// The word of a root of which this is said.
fn word_of(named: NamedRoot) -> u64
    requires { FitsName named }
    ensures { result ≡ word_of_root (says_of named) }
{
    let status = match named {
        NamedRoot::Record(unit) => RootStatus::Record(unit),
        NamedRoot::Null => RootStatus::Null,
        NamedRoot::Limit => RootStatus::Limit,
        NamedRoot::Skipped(root) => RootStatus::Skipped(root),
    };
    status.pack()
}

// The turn with one root more.
fn with(turn: Option<Turn>, named: NamedRoot) -> Option<Turn>
    requires { (asked : List RootSays) × (turn_of turn ≡ asked ∷ []) × (length asked < 16) }
    ensures { turn_of result ≡ turned (says_of named) (turn_of turn) }
{
    match turn {
        Some(turn) => Some(turn.with(named)),
        None => None,
    }
}

impl Pass {
    ghost use Rattle.step_table.specs.Passes.{view};

    /// What is said of a root. None: it was not asked for yet. The pass has the turn of asking.
    pub fn named(&self, root: u8) -> Option<NamedRoot>
        requires root { root < 16 }
        requires turn { (asked : List RootSays) × ((view self.now).turn ≡ asked ∷ []) }
        ensures { TellsRoot root (view self.now) result }
    {
        match self.turn {
            Some(turn) => turn.at(root),
            None => None,
        }
    }
}

// The record of which this is said.
fn unit_of(named: Option<NamedRoot>) -> u32
    requires { (unit : ℕ) × (said named ≡ Some (Record unit)) }
    ensures { said named ≡ Some (Record result) }
{
    match named {
        Some(NamedRoot::Record(unit)) => unit,
        _ => unreachable!(),
    }
}

impl Shared {
    ghost use Rattle.step_table.specs.Passes.{view, plan, IsOf, IsSameWith};
    ghost use Rattle.step_table.specs.Sound.{AreSound};
    ghost use Rattle.step_table.specs.RootSteps.{Names, MayAsk, HasRootRecord, RefersRoot};

    /// Asks for the next root, of which the word says what came of it.
    pub fn name(&self, pass: &mut Pass, root: u8, word: RootWord)
        requires table { IsOf self.now pass.old }
        requires may { MayAsk self.now.setup root word (view pass.old) }
        ensures pass { IsSameWith (pass.old.held - taken_of word) pass.old pass.new }
        ensures sound { AreSound self.now.setup (view pass.old) (view pass.new) }
        ensures view { Names root word pass.old pass.new }
    {
        let named = named_by(&word);
        let taken = taken_by(&word);
        let lies = root_word(&self.setup.plan, root);
        self.store_as::<Brand, _>(&mut pass.seat, lies, word_of(named), &(root, named));
        pass.held = pass.held - taken;
        pass.turn = with(pass.turn, named);
    }

    /// Takes a reference to the record of a root that was asked for. The pass has the turn.
    pub fn more_root(&self, pass: &mut Pass, root: u8) -> Future
        requires table { IsOf self.now pass.old }
        requires root { root < 16 }
        requires named { HasRootRecord (plan self.now) root (view pass.old) }
        requires room { pass.old.held < 2 ^ 32 }
        ensures pass { IsSameWith (pass.old.held + 1) pass.old pass.new }
        ensures sound { AreSound self.now.setup (view pass.old) (view pass.new) }
        ensures future { RefersRoot root pass.old result pass.new }
    {
        let unit = unit_of(pass.named(root));
        let word = refs_word(&self.setup.plan, unit);
        self.fetch_add_as::<Brand, _>(&mut pass.seat, word, 1, &(root, unit));
        pass.held = pass.held + 1;
        Future { unit }
    }
}
