//! The lines that are no instructions.

ghost use Rattle.std.specs.Prelude.{◌≡◌, Ok};
ghost use Rattle.task_text.specs.Scan.{Scans, Reads};
ghost use Rattle.task_lines.specs.Line as spec;
ghost use Rattle.task_lines.specs.Table.{keyword_line};

use crate::item::What;
use crate::keyword::Keyword;
use crate::list::{Futures, LastFutures, RootArguments, Variables, further, read_kind_arguments};
use crate::part::{read_behind, read_last_priority, read_other_future, read_variable};
use crate::scope::Scope;
use std::alloc::Global;
use task_syntax::{List, Name};
use task_text::{Cause, Fault, TextError, Words};

const MOST_KINDS: usize = 64;

const MOST_STATES: usize = 32;

const MOST_ROOTS: usize = 16;

const MOST_VARIABLES: usize = 255;

/// `ktask 1`.
#[tactic(auto, unfolding(crate::specs::Line::header_line, task_text::specs::Scan::need))]
pub(crate) fn header_line(words: &mut Words<'_>) -> Result<(), Fault>
    ensures { Scans (spec.header_line words.old) result words.new }
{
    words.need(b"ktask".as_slice() == words.peek(), Cause::NoHeader)?;
    words.take_word();
    words.need(b"1".as_slice() == words.peek(), Cause::NoHeader)?;
    words.take_word();
    Ok(())
}

#[tactic(auto, unfolding(crate::specs::Table::keyword_line))]
pub(crate) fn kind_line(
    alloc: Global,
    scope: &Scope,
    words: &mut Words<'_>,
) -> Result<What, TextError>
    ensures { Reads (keyword_line scope.now Keyword.Kind words.old) result words.new }
{
    words.room(scope.kinds.len(), MOST_KINDS)?;
    words.take_word();
    let name = words.read_new_name(Cause::TwiceNamed, scope.kinds.as_slice())?;
    let arguments = read_kind_arguments(alloc, words)?;
    Ok(What::Kind { name, arguments })
}

#[tactic(auto, unfolding(crate::specs::Table::keyword_line))]
pub(crate) fn var_line(
    alloc: Global,
    scope: &Scope,
    words: &mut Words<'_>,
) -> Result<What, TextError>
    ensures { Reads (keyword_line scope.now Keyword.Var words.old) result words.new }
{
    words.take_word();
    let before = scope.variables.as_slice();
    let mut first = List::new(alloc);
    first.push(read_variable(MOST_VARIABLES, before, &[], words)?)?;
    let list = Variables {
        limit: MOST_VARIABLES,
        before,
    };
    let variables = further(list, first, words)?;
    Ok(What::Var { variables })
}

/// The futures behind `holds`, where it is written.
#[tactic(auto, unfolding(crate::specs::Line::read_holds))]
fn read_holds(alloc: Global, words: &mut Words<'_>) -> Result<List<Name>, TextError>
    ensures { Reads (spec.read_holds words.old) result words.new }
{
    if words.eat(b"holds") {
        let mut first = List::new(alloc);
        first.push(read_other_future(&[], words)?)?;
        further(Futures, first, words)
    } else {
        Ok(List::new(alloc))
    }
}

/// The futures behind `settled`, where the line does not end before it.
#[tactic(auto, unfolding(crate::specs::Line::read_settled))]
fn read_settled(alloc: Global, words: &mut Words<'_>) -> Result<List<Name>, TextError>
    ensures { Reads (spec.read_settled words.old) result words.new }
{
    if words.peek().is_empty() {
        return Ok(List::new(alloc));
    }
    words.fixed(b"settled")?;
    let mut first = List::new(alloc);
    first.push(read_other_future(&[], words)?)?;
    further(LastFutures, first, words)
}

#[tactic(auto, unfolding(crate::specs::Table::keyword_line))]
pub(crate) fn state_line(
    alloc: Global,
    scope: &Scope,
    words: &mut Words<'_>,
) -> Result<What, TextError>
    ensures { Reads (keyword_line scope.now Keyword.State words.old) result words.new }
{
    words.room(scope.states.len(), MOST_STATES)?;
    words.take_word();
    let name = words.read_new_name(Cause::TwiceNamed, scope.states.as_slice())?;
    let holds = read_holds(alloc, words)?;
    let settled = read_settled(alloc, words)?;
    Ok(What::State {
        name,
        holds,
        settled,
    })
}

#[tactic(auto, unfolding(crate::specs::Table::keyword_line))]
pub(crate) fn end_line(scope: &Scope, words: &mut Words<'_>) -> What
    ensures { keyword_line scope.now Keyword.End words.old ≡ Ok (result, words.new) }
{
    words.take_word();
    What::End
}

#[tactic(auto, unfolding(crate::specs::Table::keyword_line))]
pub(crate) fn root_line(
    alloc: Global,
    scope: &Scope,
    words: &mut Words<'_>,
) -> Result<What, TextError>
    ensures { Reads (keyword_line scope.now Keyword.Root words.old) result words.new }
{
    words.room(scope.roots.len(), MOST_ROOTS)?;
    words.take_word();
    let name = words.read_new_name(Cause::TwiceNamed, scope.roots.as_slice())?;
    let kind = words.read_name()?;
    let arguments = further(RootArguments, List::new(alloc), words)?;
    let behind = read_behind(words)?;
    let priority = read_last_priority(words)?;
    Ok(What::Root {
        name,
        kind,
        arguments,
        behind,
        priority,
    })
}
