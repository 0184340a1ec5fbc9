//! The names that a line uses, looked up from left to right.

ghost use Rattle.std.specs.Prelude.{◌≡◌, ◌≤◌, ◌<◌, ◌+◌, ◌^◌, ◌++◌, ℕ, List as ListOf, length};
ghost use Rattle.task_text.specs.Scan.{is_among as is_among_names};
ghost use Rattle.task_reader.specs.Names.{Known, known_among, label_names, state_names, uses_known};
ghost use Rattle.task_reader.specs.Uses.{step_uses, line_uses, root_uses, state_uses};
ghost use Rattle.task_reader.specs.Fits.{IsShortStep, IsShort};
ghost use Rattle.task_lines.specs.Groups.{SetsNumber, SetsFuture, SaysWhere};
ghost use Rattle.task_lines.specs.declared.item.Item.{Item as ItemOf};

use crate::ahead::{has_label, has_state};
use crate::place::is_among;
use crate::unknown::WordPlace;
use task_lines::{Item, RootTerm, Scope, Step, What};
use task_syntax::{Name, Variable};
use task_text::Fault;

/// Looks up the names of an instruction that sets a number.
#[tactic(auto, unfolding(crate::specs::Names::uses_known), using(crate::proofs::StepLemmas::terms))]
fn number_step_known(scope: &Scope, line: u32, step: &Step) -> Result<(), Fault>
    requires { SetsNumber step.now }
    ensures { (kinds : ListOf (ListOf ℕ)) (ahead : ListOf ItemOf)
        → result ≡ uses_known (known_among kinds scope.now ahead) line 1 (step_uses step.now) }
{
    let variables = scope.variables.as_slice();
    let mut at = WordPlace::first(line);
    at.pass(1);
    match step {
        Step::Set { to, value } => {
            at.number_known(variables, to)?;
            at.term_known(variables, value)
        }
        Step::Math {
            to,
            left,
            right,
            ..
        } => {
            at.number_known(variables, to)?;
            at.term_known(variables, left)?;
            at.term_known(variables, right)
        }
        Step::Cell { to, row, .. } => {
            at.number_known(variables, to)?;
            at.pass(1);
            at.term_known(variables, row)
        }
        Step::Rows { to, .. } => at.number_known(variables, to),
        Step::Get { to, future } => {
            at.number_known(variables, to)?;
            at.future_known(variables, future)
        }
        _ => unreachable!(),
    }
}

/// Looks up the names of an instruction that sets a future.
#[tactic(auto, unfolding(crate::specs::Names::uses_known))]
fn future_step_known(kinds: &[Name], scope: &Scope, line: u32, step: &Step) -> Result<(), Fault>
    requires short { IsShortStep step.now }
    requires group { SetsFuture step.now }
    ensures { (ahead : ListOf ItemOf)
        → result ≡ uses_known (known_among kinds.now scope.now ahead) line 1 (step_uses step.now) }
{
    let variables = scope.variables.as_slice();
    let mut at = WordPlace::first(line);
    at.pass(1);
    match step {
        Step::Spawn {
            to,
            kind,
            arguments,
            behind,
            ..
        } => {
            at.future_known(variables, to)?;
            at.known(is_among(kinds, kind))?;
            at.passed_known(variables, arguments.as_slice(), behind)
        }
        Step::All { to, members, .. } => {
            at.future_known(variables, to)?;
            at.futures_known(variables, members.as_slice())
        }
        Step::Copy { to, of } => {
            at.future_known(variables, to)?;
            at.future_known(variables, of)
        }
        Step::Drop { future } => at.future_known(variables, future),
        _ => unreachable!(),
    }
}

/// Looks up the names of an instruction that says where the task goes on.
#[tactic(auto, unfolding(crate::specs::Names::uses_known), using(crate::proofs::StepLemmas::terms))]
fn going_step_known(scope: &Scope, ahead: &[Item], line: u32, step: &Step) -> Result<(), Fault>
    requires { SaysWhere step.now }
    ensures { (kinds : ListOf (ListOf ℕ))
        → result ≡ uses_known (known_among kinds scope.now ahead.now) line 1 (step_uses step.now) }
{
    let variables = scope.variables.as_slice();
    let mut at = WordPlace::first(line);
    at.pass(1);
    match step {
        Step::If {
            left,
            right,
            target,
            ..
        } => {
            at.term_known(variables, left)?;
            at.pass(1);
            at.term_known(variables, right)?;
            at.pass(1);
            at.known(is_label(ahead, target))
        }
        Step::Goto { target } => at.known(is_label(ahead, target)),
        Step::Label { .. } => Ok(()),
        Step::Again { target, behind, .. } => {
            at.known(is_state(scope, ahead, target))?;
            at.behind_known(variables, behind)
        }
        Step::Done { value } => at.term_known(variables, value),
        _ => unreachable!(),
    }
}

/// Looks up the names of an instruction, from left to right.
fn step_known(
    kinds: &[Name],
    scope: &Scope,
    ahead: &[Item],
    line: u32,
    step: &Step,
) -> Result<(), Fault>
    requires { IsShortStep step.now }
    ensures { result ≡ uses_known (known_among kinds.now scope.now ahead.now) line 1
        (step_uses step.now) }
{
    match step {
        Step::Set { .. }
        | Step::Math { .. }
        | Step::Cell { .. }
        | Step::Rows { .. }
        | Step::Get { .. } => number_step_known(scope, line, step),
        Step::Spawn { .. } | Step::All { .. } | Step::Copy { .. } | Step::Drop { .. } => {
            future_step_known(kinds, scope, line, step)
        }
        Step::If { .. }
        | Step::Goto { .. }
        | Step::Label { .. }
        | Step::Again { .. }
        | Step::Done { .. } => going_step_known(scope, ahead, line, step),
    }
}

/// Whether a label of this name follows in the state.
#[tactic(auto, using(crate::proofs::StepLemmas::ahead_lemmas))]
fn is_label(ahead: &[Item], name: &Name) -> bool
    ensures { result ≡ is_among_names (label_names ahead.now) name.now }
{
    has_label(ahead, name)
}

/// Whether the kind has a state of this name, before or behind the line.
#[tactic(auto, using(crate::proofs::StepLemmas::ahead_lemmas))]
fn is_state(scope: &Scope, ahead: &[Item], name: &Name) -> bool
    ensures { result ≡ is_among_names (scope.now.states ++ state_names ahead.now) name.now }
{
    is_among(scope.states.as_slice(), name) || has_state(ahead, name)
}

/// The futures that a state holds, and those that have settled in it.
#[tactic(auto, unfolding(crate::specs::Names::uses_known))]
fn state_known(
    variables: &[Variable],
    line: u32,
    holds: &[Name],
    settled: &[Name],
) -> Result<(), Fault>
    requires { length holds.now + length settled.now < 2 ^ 31 }
    ensures { (k : Known) → k.variables ≡ variables.now
        → result ≡ uses_known k line 1 (state_uses holds.now settled.now) }
{
    let mut at = WordPlace::first(line);
    at.pass(2);
    at.listed_known(variables, holds, settled)
}

/// The kind of a root, and the roots that it names.
#[tactic(auto, unfolding(crate::specs::Names::uses_known))]
fn root_known(
    kinds: &[Name],
    scope: &Scope,
    ahead: &[Item],
    line: u32,
    kind: &Name,
    arguments: &[RootTerm],
    behind: &Option<Name>,
) -> Result<(), Fault>
    requires { length arguments.now ≤ 16 }
    ensures { result ≡ uses_known (known_among kinds.now scope.now ahead.now) line 1
        (root_uses kind.now arguments.now behind.now) }
{
    let mut at = WordPlace::first(line);
    at.pass(2);
    at.known(is_among(kinds, kind))?;
    at.root_passed_known(scope.roots.as_slice(), arguments, behind)
}

/// Looks up the names of a line, from left to right.
#[tactic(auto, unfolding(crate::specs::Names::uses_known))]
pub fn line_known(
    kinds: &[Name],
    scope: &Scope,
    ahead: &[Item],
    line: u32,
    what: &What,
) -> Result<(), Fault>
    requires { IsShort what.now ahead.now }
    ensures { result ≡ uses_known (known_among kinds.now scope.now ahead.now) line 1
        (line_uses what.now) }
{
    match what {
        What::Kind { .. } | What::Var { .. } | What::End => Ok(()),
        What::State { holds, settled, .. } => {
            let variables = scope.variables.as_slice();
            state_known(variables, line, holds.as_slice(), settled.as_slice())
        }
        What::Step { step } => step_known(kinds, scope, ahead, line, step),
        What::Root {
            kind,
            arguments,
            behind,
            ..
        } => {
            root_known(
                kinds,
                scope,
                ahead,
                line,
                kind,
                arguments.as_slice(),
                behind,
            )
        }
    }
}
