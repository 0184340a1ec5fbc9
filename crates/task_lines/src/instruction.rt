//! The lines that are instructions.

ghost use Rattle.std.specs.Prelude.{Ok};
ghost use Rattle.task_text.specs.Scan.{Scans, Reads, and_then, room, moved, read_new_name};
ghost use Rattle.task_lines.specs.Table as spec;
ghost use Rattle.task_lines.specs.Table.{keyword_line};

use crate::item::What;
use crate::keyword::Keyword;
use crate::list::{Arguments, Members, further};
use crate::part::{
    read_behind, read_last_priority, read_member, read_priority, read_relation, read_retry,
    read_term,
};
use crate::scope::Scope;
use crate::step::Step;
use std::alloc::Global;
use task_syntax::{List, MathOp, Name};
use task_text::{Cause, Fault, TextError, Words};

const MOST_STEPS: usize = 64;

/// Takes the first word of an instruction, where the state has room for one.
fn begin_step(scope: &Scope, words: &mut Words<'_>) -> Result<(), Fault>
    ensures { Scans (and_then (room scope.now.steps 64 words.old) (λ _ s. Ok (tt, moved s)))
        result words.new }
{
    words.room(scope.steps, MOST_STEPS)?;
    words.take_word();
    Ok(())
}

/// The name of a label that does not stand earlier in the state.
fn read_target(scope: &Scope, words: &mut Words<'_>) -> Result<Name, Fault>
    ensures { Scans (read_new_name Cause.BackLabel scope.now.labels words.old) result words.new }
{
    words.read_new_name(Cause::BackLabel, scope.labels.as_slice())
}

#[tactic(auto, unfolding(crate::specs::Table::keyword_line))]
pub(crate) fn set_line(scope: &Scope, words: &mut Words<'_>) -> Result<What, Fault>
    ensures { Scans (keyword_line scope.now Keyword.Set words.old) result words.new }
{
    begin_step(scope, words)?;
    let to = words.read_name()?;
    let value = read_term(words)?;
    let step = Step::Set { to, value };
    Ok(What::Step { step })
}

#[tactic(auto, unfolding(crate::specs::Table::operation_line))]
fn operation_line(scope: &Scope, op: MathOp, words: &mut Words<'_>) -> Result<What, Fault>
    ensures { Scans (spec.operation_line scope.now op words.old) result words.new }
{
    begin_step(scope, words)?;
    let to = words.read_name()?;
    let left = read_term(words)?;
    let right = read_term(words)?;
    let step = Step::Math {
        op,
        to,
        left,
        right,
    };
    Ok(What::Step { step })
}

#[tactic(auto, using(crate::proofs::Operations::operation_scans))]
pub(crate) fn math_line(scope: &Scope, op: MathOp, words: &mut Words<'_>) -> Result<What, Fault>
    ensures { Scans (keyword_line scope.now (spec.operation_keyword op) words.old)
        result words.new }
{
    operation_line(scope, op, words)
}

#[tactic(auto, unfolding(crate::specs::Table::keyword_line))]
pub(crate) fn if_line(scope: &Scope, words: &mut Words<'_>) -> Result<What, Fault>
    ensures { Scans (keyword_line scope.now Keyword.If words.old) result words.new }
{
    begin_step(scope, words)?;
    let left = read_term(words)?;
    let relation = read_relation(words)?;
    let right = read_term(words)?;
    words.fixed(b"goto")?;
    let target = read_target(scope, words)?;
    let step = Step::If {
        relation,
        left,
        right,
        target,
    };
    Ok(What::Step { step })
}

#[tactic(auto, unfolding(crate::specs::Table::keyword_line))]
pub(crate) fn goto_line(scope: &Scope, words: &mut Words<'_>) -> Result<What, Fault>
    ensures { Scans (keyword_line scope.now Keyword.Goto words.old)
        result words.new }
{
    begin_step(scope, words)?;
    let target = read_target(scope, words)?;
    let step = Step::Goto { target };
    Ok(What::Step { step })
}

#[tactic(auto, unfolding(crate::specs::Table::keyword_line))]
pub(crate) fn label_line(scope: &Scope, words: &mut Words<'_>) -> Result<What, Fault>
    ensures { Scans (keyword_line scope.now Keyword.Label words.old)
        result words.new }
{
    begin_step(scope, words)?;
    let name = words.read_new_name(Cause::TwiceNamed, scope.labels.as_slice())?;
    let step = Step::Label { name };
    Ok(What::Step { step })
}

#[tactic(auto, unfolding(crate::specs::Table::keyword_line))]
pub(crate) fn cell_line(scope: &Scope, words: &mut Words<'_>) -> Result<What, Fault>
    ensures { Scans (keyword_line scope.now Keyword.Cell words.old) result words.new }
{
    begin_step(scope, words)?;
    let to = words.read_name()?;
    let column = words.read_name()?;
    let row = read_term(words)?;
    let step = Step::Cell { to, column, row };
    Ok(What::Step { step })
}

#[tactic(auto, unfolding(crate::specs::Table::keyword_line))]
pub(crate) fn rows_line(scope: &Scope, words: &mut Words<'_>) -> Result<What, Fault>
    ensures { Scans (keyword_line scope.now Keyword.Rows words.old) result words.new }
{
    begin_step(scope, words)?;
    let to = words.read_name()?;
    let column = words.read_name()?;
    let step = Step::Rows { to, column };
    Ok(What::Step { step })
}

#[tactic(auto, unfolding(crate::specs::Table::keyword_line))]
pub(crate) fn spawn_line(
    alloc: Global,
    scope: &Scope,
    words: &mut Words<'_>,
) -> Result<What, TextError>
    ensures { Reads (keyword_line scope.now Keyword.Spawn words.old) result words.new }
{
    begin_step(scope, words)?;
    let to = words.read_future()?;
    let kind = words.read_name()?;
    let arguments = further(Arguments, List::new(alloc), words)?;
    let behind = read_behind(words)?;
    let priority = read_priority(words);
    let retry = read_retry(words)?;
    let step = Step::Spawn {
        to,
        kind,
        arguments,
        behind,
        priority,
        retry,
    };
    Ok(What::Step { step })
}

#[tactic(auto, unfolding(crate::specs::Table::keyword_line))]
pub(crate) fn all_line(
    alloc: Global,
    scope: &Scope,
    words: &mut Words<'_>,
) -> Result<What, TextError>
    ensures { Reads (keyword_line scope.now Keyword.All words.old) result words.new }
{
    begin_step(scope, words)?;
    let to = words.read_future()?;
    let mut first = List::new(alloc);
    first.push(read_member(&[], words)?)?;
    let members = further(Members, first, words)?;
    let priority = read_priority(words);
    let retry = read_retry(words)?;
    let step = Step::All {
        to,
        members,
        priority,
        retry,
    };
    Ok(What::Step { step })
}

#[tactic(auto, unfolding(crate::specs::Table::keyword_line))]
pub(crate) fn copy_line(scope: &Scope, words: &mut Words<'_>) -> Result<What, Fault>
    ensures { Scans (keyword_line scope.now Keyword.Copy words.old) result words.new }
{
    begin_step(scope, words)?;
    let to = words.read_future()?;
    let of = words.read_future()?;
    let step = Step::Copy { to, of };
    Ok(What::Step { step })
}

#[tactic(auto, unfolding(crate::specs::Table::keyword_line))]
pub(crate) fn drop_line(scope: &Scope, words: &mut Words<'_>) -> Result<What, Fault>
    ensures { Scans (keyword_line scope.now Keyword.Drop words.old) result words.new }
{
    begin_step(scope, words)?;
    let future = words.read_future()?;
    let step = Step::Drop { future };
    Ok(What::Step { step })
}

#[tactic(auto, unfolding(crate::specs::Table::keyword_line))]
pub(crate) fn get_line(scope: &Scope, words: &mut Words<'_>) -> Result<What, Fault>
    ensures { Scans (keyword_line scope.now Keyword.Get words.old) result words.new }
{
    begin_step(scope, words)?;
    let to = words.read_name()?;
    let future = words.read_future()?;
    let step = Step::Get { to, future };
    Ok(What::Step { step })
}

#[tactic(auto, unfolding(crate::specs::Table::keyword_line))]
pub(crate) fn again_line(scope: &Scope, words: &mut Words<'_>) -> Result<What, Fault>
    ensures { Scans (keyword_line scope.now Keyword.Again words.old) result words.new }
{
    begin_step(scope, words)?;
    let target = words.read_name()?;
    let behind = read_behind(words)?;
    let priority = read_last_priority(words)?;
    let step = Step::Again {
        target,
        behind,
        priority,
    };
    Ok(What::Step { step })
}

#[tactic(auto, unfolding(crate::specs::Table::keyword_line))]
pub(crate) fn done_line(scope: &Scope, words: &mut Words<'_>) -> Result<What, Fault>
    ensures { Scans (keyword_line scope.now Keyword.Done words.old) result words.new }
{
    begin_step(scope, words)?;
    let value = read_term(words)?;
    let step = Step::Done { value };
    Ok(What::Step { step })
}
