//! The parts of lines: operands, variables, and the options at their ends.

ghost use Rattle.std.specs.Prelude.{◌≡◌, ◌++◌, drop, length, IsTrue, IfOk};
ghost use Rattle.task_text.specs.Scan as scan;
ghost use Rattle.task_text.specs.Scan.{Scans, seen, moved};
ghost use Rattle.task_lines.specs.Line as spec;

use crate::item::RootTerm;
use crate::keyword::{priority_of, relation_of};
use crate::scope::has_variable;
use crate::step::{Passed, Term};
use task_syntax::{Name, Priority, Relation, Sort, Variable};
use task_text::{
    Cause, Fault, Words, begins_with_digit, is_among, is_future, is_name, is_no_bad_number,
    is_operand, number_of,
};

pub(crate) const MOST_ARGUMENTS: usize = 16;

const MOST_MEMBERS: usize = 8;

/// A number or a number variable.
#[tactic(auto, unfolding(crate::specs::Line::read_term, task_text::specs::Scan::need))]
pub(crate) fn read_term(words: &mut Words<'_>) -> Result<Term, Fault>
    ensures { Scans (spec.read_term words.old) result words.new }
{
    let word = words.peek();
    words.need(is_no_bad_number(word), Cause::BadNumber)?;
    words.need(is_operand(word), Cause::BadName)?;
    words.take_word();
    Ok(term_of(word))
}

fn is_variable_word(word: &[u8]) -> bool
    ensures { result ≡ spec.is_variable_word word.now }
{
    is_name(word) || is_future(word)
}

/// The name of a future, without its `@`.
fn future_name(word: &[u8]) -> &[u8]
    ensures { result.now ≡ drop 1 word.now }
{
    match word {
        [_, name @ ..] => name,
        [] => word,
    }
}

/// The variable that a word stands for.
fn variable_of(word: &[u8]) -> Variable
    requires { IsTrue (spec.is_variable_word word.now) }
    ensures { result ≡ spec.variable_of word.now }
{
    if is_future(word) {
        Variable {
            name: Name::new(future_name(word)),
            sort: Sort::Future,
        }
    } else {
        Variable {
            name: Name::new(word),
            sort: Sort::Number,
        }
    }
}

/// Whether a word stands for a variable that is none of those given.
fn is_new(taken: &[Variable], word: &[u8]) -> bool
    ensures { result ≡ spec.is_new taken.now word.now }
{
    if is_future(word) {
        !has_variable(taken, Sort::Future, future_name(word))
    } else {
        !has_variable(taken, Sort::Number, word)
    }
}

/// Whether a word stands for a variable that is in neither list.
#[tactic(auto, using(crate::proofs::Parts::new_in_both))]
fn is_new_behind(before: &[Variable], found: &[Variable], word: &[u8]) -> bool
    ensures { result ≡ spec.is_new (before.now ++ found.now) word.now }
{
    is_new(before, word) && is_new(found, word)
}

/// How many variables there are in both lists.
#[tactic(auto, using(crate::proofs::Parts::count_in_both))]
fn count_in_both(before: &[Variable], found: &[Variable]) -> usize
    ensures { result ≡ length (before.now ++ found.now) }
{
    before.len() + found.len()
}

/// A variable that is none of those of its kind so far, which may be `limit` in number.
#[tactic(auto, unfolding(crate::specs::Line::read_variable, task_text::specs::Scan::need, task_text::specs::Scan::room))]
pub(crate) fn read_variable(
    limit: usize,
    before: &[Variable],
    found: &[Variable],
    words: &mut Words<'_>,
) -> Result<Variable, Fault>
    ensures read { Scans (spec.read_variable limit (before.now ++ found.now) words.old)
        result words.new }
    ensures next { IfOk result (λ _. words.new ≡ moved words.old) }
{
    let word = words.peek();
    words.need(is_variable_word(word), Cause::BadName)?;
    words.need(is_new_behind(before, found, word), Cause::TwiceNamed)?;
    words.room(count_in_both(before, found), limit)?;
    words.take_word();
    Ok(variable_of(word))
}

/// The name of a future that is none of those before it in its list.
#[tactic(auto, unfolding(crate::specs::Line::read_other_future, task_text::specs::Scan::need))]
pub(crate) fn read_other_future(taken: &[Name], words: &mut Words<'_>) -> Result<Name, Fault>
    ensures read { Scans (spec.read_other_future taken.now words.old) result words.new }
    ensures next { IfOk result (λ _. words.new ≡ moved words.old) }
{
    let word = words.peek();
    words.need(is_future(word), Cause::BadName)?;
    words.need(!is_among(taken, future_name(word)), Cause::TwiceNamed)?;
    words.take_word();
    Ok(Name::new(future_name(word)))
}

/// Whether a word stands for what a spawn passes.
pub(crate) fn is_argument(word: &[u8]) -> bool
    ensures { result ≡ spec.is_argument word.now }
{
    is_operand(word) || is_future(word)
}

/// What an operand stands for that is no bad number.
#[tactic(auto, using(crate::proofs::Parts::begins_number))]
fn term_of(word: &[u8]) -> Term
    requires operand { IsTrue (scan.is_operand word.now) }
    requires number { IsTrue (scan.is_no_bad_number word.now) }
    ensures { result ≡ spec.term_of word.now }
{
    match number_of(word) {
        Some(number) => Term::Literal(number),
        None => Term::Variable(Name::new(word)),
    }
}

/// What a word stands for that a spawn passes.
fn passed_of(word: &[u8]) -> Passed
    requires argument { IsTrue (spec.is_argument word.now) }
    requires number { IsTrue (scan.is_no_bad_number word.now) }
    ensures { result ≡ spec.passed_of word.now }
{
    if is_future(word) {
        Passed::Future(Name::new(future_name(word)))
    } else {
        Passed::Number(term_of(word))
    }
}

/// A number or a future that a spawn passes, behind those found before.
#[tactic(auto, unfolding(crate::specs::Line::read_argument, task_text::specs::Scan::need, task_text::specs::Scan::room))]
pub(crate) fn read_argument(found: &[Passed], words: &mut Words<'_>) -> Result<Passed, Fault>
    requires { IsTrue (spec.is_argument (seen words.old)) }
    ensures read { Scans (spec.read_argument found.now words.old) result words.new }
    ensures next { IfOk result (λ _. words.new ≡ moved words.old) }
{
    let word = words.peek();
    words.need(is_no_bad_number(word), Cause::BadNumber)?;
    words.room(found.len(), MOST_ARGUMENTS)?;
    words.take_word();
    Ok(passed_of(word))
}

/// A member of an aggregate, behind those found before.
#[tactic(auto, unfolding(crate::specs::Line::read_member, task_text::specs::Scan::need, task_text::specs::Scan::room))]
pub(crate) fn read_member(found: &[Name], words: &mut Words<'_>) -> Result<Name, Fault>
    ensures read { Scans (spec.read_member found.now words.old) result words.new }
    ensures next { IfOk result (λ _. words.new ≡ moved words.old) }
{
    let word = words.peek();
    words.need(is_future(word), Cause::BadName)?;
    words.room(found.len(), MOST_MEMBERS)?;
    words.take_word();
    Ok(Name::new(future_name(word)))
}

/// Whether a word stands for what a root passes.
pub(crate) fn is_root_argument(word: &[u8]) -> bool
    ensures { result ≡ spec.is_root_argument word.now }
{
    begins_with_digit(word) || is_future(word)
}

/// A number or a root that a root passes, behind those found before.
#[tactic(auto, unfolding(crate::specs::Line::read_root_argument, task_text::specs::Scan::need, task_text::specs::Scan::room, task_text::specs::Scan::read_future, task_text::specs::Scan::read_number))]
pub(crate) fn read_root_argument(
    found: &[RootTerm],
    words: &mut Words<'_>,
) -> Result<RootTerm, Fault>
    requires { IsTrue (spec.is_root_argument (seen words.old)) }
    ensures read { Scans (spec.read_root_argument found.now words.old) result words.new }
    ensures next { IfOk result (λ _. words.new ≡ moved words.old) }
{
    let word = words.peek();
    words.need(is_no_bad_number(word), Cause::BadNumber)?;
    words.room(found.len(), MOST_ARGUMENTS)?;
    if is_future(word) {
        Ok(RootTerm::Root(words.read_future()?))
    } else {
        Ok(RootTerm::Number(words.read_number()?))
    }
}

/// The predecessor, where one is named.
#[tactic(auto, unfolding(crate::specs::Line::read_behind))]
pub(crate) fn read_behind(words: &mut Words<'_>) -> Result<Option<Name>, Fault>
    ensures { Scans (spec.read_behind words.old) result words.new }
{
    if words.eat(b"behind") {
        Ok(Some(words.read_future()?))
    } else {
        Ok(None)
    }
}

/// The priority, which is regular where none is written.
#[tactic(auto, unfolding(crate::specs::Line::read_priority))]
pub(crate) fn read_priority(words: &mut Words<'_>) -> Priority
    ensures { spec.read_priority words.old ≡ Ok (result, words.new) }
{
    match priority_of(words.peek()) {
        Some(priority) => {
            words.take_word();
            priority
        }
        None => Priority::Regular,
    }
}

/// The same, where nothing else may stand before the end of the line.
#[tactic(auto, unfolding(crate::specs::Line::read_last_priority))]
pub(crate) fn read_last_priority(words: &mut Words<'_>) -> Result<Priority, Fault>
    ensures { Scans (spec.read_last_priority words.old) result words.new }
{
    if words.peek().is_empty() {
        return Ok(Priority::Regular);
    }
    let Some(priority) = priority_of(words.peek()) else {
        return Err(words.fault(Cause::UnknownWord));
    };
    words.take_word();
    Ok(priority)
}

/// Whether the line ends in `retry`.
#[tactic(auto, unfolding(crate::specs::Line::read_retry))]
pub(crate) fn read_retry(words: &mut Words<'_>) -> Result<bool, Fault>
    ensures { Scans (spec.read_retry words.old) result words.new }
{
    if words.peek().is_empty() {
        return Ok(false);
    }
    words.fixed(b"retry")?;
    Ok(true)
}

#[tactic(auto, unfolding(crate::specs::Line::read_relation))]
pub(crate) fn read_relation(words: &mut Words<'_>) -> Result<Relation, Fault>
    ensures { Scans (spec.read_relation words.old) result words.new }
{
    let Some(relation) = relation_of(words.peek()) else {
        return Err(words.fault(Cause::UnknownWord));
    };
    words.take_word();
    Ok(relation)
}
