//! The line that a row is.

ghost use Rattle.std.specs.Prelude.{◌≡◌, Some};
ghost use Rattle.task_text.specs.Fault.{Gives};
ghost use Rattle.task_text.specs.Scan.{Reads, and_then, ended, whole};
ghost use Rattle.task_lines.specs.Table as table;
ghost use Rattle.task_lines.specs.Reading as spec;

use crate::instruction::{
    again_line, all_line, cell_line, copy_line, done_line, drop_line, get_line, goto_line, if_line,
    label_line, math_line, rows_line, set_line, spawn_line,
};
use crate::item::What;
use crate::keyword::{Keyword, opening};
use crate::line::{end_line, kind_line, root_line, state_line, var_line};
use crate::scope::{Place, Scope};
use std::alloc::Global;
use task_syntax::MathOp;
use task_text::{Cause, Fault, TextError, Words};

/// The line that a keyword opens.
fn line_by(
    alloc: Global,
    scope: &Scope,
    keyword: Keyword,
    words: &mut Words<'_>,
) -> Result<What, TextError>
    ensures { Reads (table.line_by scope.now (Some keyword) words.old) result words.new }
{
    match keyword {
        Keyword::Kind => kind_line(alloc, scope, words),
        Keyword::Var => var_line(alloc, scope, words),
        Keyword::State => state_line(alloc, scope, words),
        Keyword::End => Ok(end_line(scope, words)),
        Keyword::Root => root_line(alloc, scope, words),
        Keyword::Label => Ok(label_line(scope, words)?),
        Keyword::Set => Ok(set_line(scope, words)?),
        Keyword::Add => Ok(math_line(scope, MathOp::Add, words)?),
        Keyword::Sub => Ok(math_line(scope, MathOp::Sub, words)?),
        Keyword::Mul => Ok(math_line(scope, MathOp::Mul, words)?),
        Keyword::Div => Ok(math_line(scope, MathOp::Div, words)?),
        Keyword::Rem => Ok(math_line(scope, MathOp::Rem, words)?),
        Keyword::If => Ok(if_line(scope, words)?),
        Keyword::Goto => Ok(goto_line(scope, words)?),
        Keyword::Cell => Ok(cell_line(scope, words)?),
        Keyword::Rows => Ok(rows_line(scope, words)?),
        Keyword::Spawn => spawn_line(alloc, scope, words),
        Keyword::All => all_line(alloc, scope, words),
        Keyword::Copy => Ok(copy_line(scope, words)?),
        Keyword::Drop => Ok(drop_line(scope, words)?),
        Keyword::Get => Ok(get_line(scope, words)?),
        Keyword::Again => Ok(again_line(scope, words)?),
        Keyword::Done => Ok(done_line(scope, words)?),
    }
}

#[tactic(auto, unfolding(crate::specs::Table::read_line))]
fn read_line(alloc: Global, scope: &Scope, words: &mut Words<'_>) -> Result<What, TextError>
    ensures { Reads (table.read_line scope.now words.old) result words.new }
{
    match opening(scope.place, words.peek()) {
        Some(keyword) => line_by(alloc, scope, keyword, words),
        None => Err(TextError::Fault(words.fault(Cause::UnknownWord))),
    }
}

/// The line, and nothing behind it.
#[tactic(auto, unfolding(task_text::specs::Scan::need))]
fn whole_line(alloc: Global, scope: &Scope, words: &mut Words<'_>) -> Result<What, TextError>
    ensures { Reads (and_then (table.read_line scope.now words.old) ended) result words.new }
{
    let what = read_line(alloc, scope, words)?;
    words.ended()?;
    Ok(what)
}

/// The line of a row of which no word is taken yet, and nothing behind it.
#[tactic(auto, using(crate::proofs::Starts::from_start), unfolding(task_text::specs::Scan::whole))]
fn row_line(alloc: Global, scope: &Scope, words: &mut Words<'_>) -> Result<What, TextError>
    requires { words.old.word ≡ 1 }
    ensures { Gives (λ what. what) result
        (whole (table.read_line scope.now)
        (record { line = words.old.line; words = words.old.left })) }
{
    whole_line(alloc, scope, words)
}

/// Whether a state ends before it may.
fn is_open_state(place: Place) -> bool
    ensures { result ≡ spec.is_open_state place }
{
    matches!(place, Place::Code | Place::Jumped)
}

/// Whether a line ends a state before it may, or a kind without states.
fn is_cut_short(place: Place, what: &What) -> bool
    ensures { result ≡ spec.is_cut_short place what.now }
{
    match what {
        What::State { .. } => is_open_state(place),
        What::End => matches!(place, Place::Head) || is_open_state(place),
        _ => false,
    }
}

/// The line of a row, of which no word is taken yet.
#[tactic(auto, unfolding(crate::specs::Reading::line_of, task_text::specs::Scan::fault_here))]
pub(crate) fn line_of(
    alloc: Global,
    scope: &Scope,
    words: &mut Words<'_>,
) -> Result<What, TextError>
    requires { words.old.word ≡ 1 }
    ensures { Gives (λ what. what) result
        (spec.line_of scope.now (record { line = words.old.line; words = words.old.left })) }
{
    words.check_text()?;
    let too_soon = Fault {
        word: 0,
        ..words.fault(Cause::NoEnd)
    };
    let what = row_line(alloc, scope, words)?;
    if is_cut_short(scope.place, &what) {
        Err(TextError::Fault(too_soon))
    } else {
        Ok(what)
    }
}
