//! The lists in lines: an item for each of the words, as long as they stand for one.

ghost use Rattle.std.specs.Prelude.{◌≡◌, ◌++◌, Bool, false, List as Items, [], IsTrue, IfOk, refl};
ghost use Rattle.task_text.specs.Text.{Word};
ghost use Rattle.task_text.specs.Scan.{Parser, Scans, Reads, each, seen, moved};
ghost use Rattle.task_text.specs.Scan as scan;
ghost use Rattle.task_lines.specs.Line as line;

use crate::item::RootTerm;
use crate::part::{
    MOST_ARGUMENTS, is_argument, is_root_argument, read_argument, read_member, read_other_future,
    read_root_argument, read_variable,
};
use crate::step::Passed;
use std::alloc::Global;
use task_syntax::{List, Name, Variable};
use task_text::{Fault, TextError, Words, is_future, is_missing};

/// A list in a line: which words stand for an item, and what an item is read as.
pub(crate) trait Listed {
    type Item: Drop;

    ghost test: { Self → Word → Bool };

    ghost item: { Self → Items Self.Item → Parser Self.Item };

    /// Whether a word stands for a further item.
    fn goes_on(&self, word: &[u8]) -> bool
        ensures { result ≡ test self.now word.now };

    /// The item that the next word stands for, behind those found before.
    fn read(&self, found: &[Self::Item], words: &mut Words<'_>) -> Result<Self::Item, Fault>
        requires { IsTrue (test self.now (seen words.old)) }
        ensures read { Scans (item self.now found.now words.old) result words.new }
        ensures next { IfOk result (λ _. words.new ≡ moved words.old) };

    // No item stands behind the last word.
    ghost ends: { (list : Self) → test list [] ≡ false };
}

/// The further items of a list, behind those found.
pub(crate) fn further<L: Listed + Drop>(
    list: L,
    mut found: List<L::Item>,
    words: &mut Words<'_>,
) -> Result<List<L::Item>, TextError>
    ensures { Reads (each (L.test list) (L.item list) found words.old) result words.new }
{
    'words: while list.goes_on(words.peek()) {
        found.push(list.read(found.as_slice(), words)?)?;
    }
    Ok(found)
}

/// Variables to the end of the line, where `limit` may be with those before.
#[derive(Drop)]
pub(crate) struct Variables<'v> {
    pub limit: usize,
    pub before: &'v [Variable],
}

impl Listed for Variables<'_> {
    type Item = Variable;

    ghost test = { λ _. scan.is_present };

    ghost item = { λ list found. line.read_variable list.limit (list.before.now ++ found) };

    fn goes_on(&self, word: &[u8]) -> bool {
        !is_missing(word)
    }

    fn read(&self, found: &[Variable], words: &mut Words<'_>) -> Result<Variable, Fault> {
        read_variable(self.limit, self.before, found, words)
    }

    ghost ends = { λ _. refl };
}

/// The arguments of a kind.
pub(crate) fn read_kind_arguments(
    alloc: Global,
    words: &mut Words<'_>,
) -> Result<List<Variable>, TextError>
    ensures { Reads (each scan.is_present (line.read_variable 16) [] words.old) result words.new }
{
    let list = Variables {
        limit: MOST_ARGUMENTS,
        before: &[],
    };
    further(list, List::new(alloc), words)
}

/// Futures, as long as there are any.
#[derive(Drop)]
pub(crate) struct Futures;

impl Listed for Futures {
    type Item = Name;

    ghost test = { λ _. scan.is_future };

    ghost item = { λ _. line.read_other_future };

    fn goes_on(&self, word: &[u8]) -> bool {
        is_future(word)
    }

    fn read(&self, found: &[Name], words: &mut Words<'_>) -> Result<Name, Fault> {
        read_other_future(found, words)
    }

    ghost ends = { λ _. refl };
}

/// Futures to the end of the line.
#[derive(Drop)]
pub(crate) struct LastFutures;

impl Listed for LastFutures {
    type Item = Name;

    ghost test = { λ _. scan.is_present };

    ghost item = { λ _. line.read_other_future };

    fn goes_on(&self, word: &[u8]) -> bool {
        !is_missing(word)
    }

    fn read(&self, found: &[Name], words: &mut Words<'_>) -> Result<Name, Fault> {
        read_other_future(found, words)
    }

    ghost ends = { λ _. refl };
}

/// What a spawn passes.
#[derive(Drop)]
pub(crate) struct Arguments;

impl Listed for Arguments {
    type Item = Passed;

    ghost test = { λ _. line.is_argument };

    ghost item = { λ _. line.read_argument };

    fn goes_on(&self, word: &[u8]) -> bool {
        is_argument(word)
    }

    fn read(&self, found: &[Passed], words: &mut Words<'_>) -> Result<Passed, Fault> {
        read_argument(found, words)
    }

    ghost ends = { λ _. refl };
}

/// The members of an aggregate.
#[derive(Drop)]
pub(crate) struct Members;

impl Listed for Members {
    type Item = Name;

    ghost test = { λ _. scan.is_future };

    ghost item = { λ _. line.read_member };

    fn goes_on(&self, word: &[u8]) -> bool {
        is_future(word)
    }

    fn read(&self, found: &[Name], words: &mut Words<'_>) -> Result<Name, Fault> {
        read_member(found, words)
    }

    ghost ends = { λ _. refl };
}

/// What a root passes.
#[derive(Drop)]
pub(crate) struct RootArguments;

impl Listed for RootArguments {
    type Item = RootTerm;

    ghost test = { λ _. line.is_root_argument };

    ghost item = { λ _. line.read_root_argument };

    fn goes_on(&self, word: &[u8]) -> bool {
        is_root_argument(word)
    }

    fn read(&self, found: &[RootTerm], words: &mut Words<'_>) -> Result<RootTerm, Fault> {
        read_root_argument(found, words)
    }

    ghost ends = { λ _. refl };
}
