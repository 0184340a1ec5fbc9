ghost use Rattle.std.specs.Prelude.{◌≡◌, ◌≤◌, ◌<◌, ◌+◌, ℕ, List as ListOf, length, map, option_map, IfOk};
ghost use Rattle.task_reader.specs.Program.{number_place, future_place, place_of, operand_of, argument_of, instr_of, steps_to};
ghost use Rattle.task_reader.specs.Fits.{AreShort, steps_ahead};
ghost use Rattle.task_lines.specs.Groups.{SetsNumber, SetsFuture, SaysWhere};

use crate::ahead::steps_to;
use crate::place::{place_of, variable_place};
use crate::positions::Positions;
use std::alloc::{AllocError, Global};
use task_lines::{Item, Passed, Step, Term};
use task_syntax::{Argument, Instr, List, Name, Operand, Sort};

fn number_place(p: &Positions, name: &Name) -> u16
    requires { AreShort p.now }
    ensures { result ≡ number_place p.now.variables name.now }
{
    variable_place(p.variables.as_slice(), Sort::Number, name) as u16
}

pub fn future_place(p: &Positions, name: &Name) -> u16
    requires { AreShort p.now }
    ensures { result ≡ future_place p.now.variables name.now }
{
    variable_place(p.variables.as_slice(), Sort::Future, name) as u16
}

fn kind_place(p: &Positions, name: &Name) -> u16
    requires { AreShort p.now }
    ensures { result ≡ place_of p.now.kinds name.now }
{
    place_of(p.kinds.as_slice(), name) as u16
}

fn state_place(p: &Positions, name: &Name) -> u16
    requires { AreShort p.now }
    ensures { result ≡ place_of p.now.states name.now }
{
    place_of(p.states.as_slice(), name) as u16
}

fn operand_of(p: &Positions, term: &Term) -> Operand
    requires { AreShort p.now }
    ensures { result ≡ operand_of p.now term.now }
{
    match term {
        Term::Literal(n) => Operand::Literal(*n),
        Term::Variable(name) => Operand::Variable(number_place(p, name)),
    }
}

fn argument_of(p: &Positions, passed: &Passed) -> Argument
    requires { AreShort p.now }
    ensures { result ≡ argument_of p.now passed.now }
{
    match passed {
        Passed::Number(term) => Argument::Number(operand_of(p, term)),
        Passed::Future(name) => Argument::Future(future_place(p, name)),
    }
}

fn arguments_of(
    alloc: Global,
    p: &Positions,
    arguments: &[Passed],
) -> Result<List<Argument>, AllocError>
    requires { AreShort p.now }
    ensures { IfOk result (λ places. places ≡ map (argument_of p.now) arguments.now) }
{
    let mut places = List::new(alloc);
    for passed in arguments {
        places.push(argument_of(p, passed))?;
    }
    Ok(places)
}

/// The positions of futures.
pub fn future_places(alloc: Global, p: &Positions, names: &[Name]) -> Result<List<u16>, AllocError>
    requires { AreShort p.now }
    ensures { IfOk result (λ places. places ≡ map (future_place p.now.variables) names.now) }
{
    let places: Vec<u16> = names
        .iter()
        .map(|name| future_place(p, name))
        .collect(alloc)?;
    Ok(List::from_vec(places))
}

fn behind_place(p: &Positions, behind: &Option<Name>) -> Option<u16>
    requires { AreShort p.now }
    ensures { result ≡ option_map (future_place p.now.variables) behind.now }
{
    match behind {
        Some(name) => Some(future_place(p, name)),
        None => None,
    }
}

/// The instruction of a step that sets a number.
#[tactic(auto, unfolding(crate::specs::Program::instr_of))]
fn number_instr_of(p: &Positions, step: &Step) -> Instr
    requires short { AreShort p.now }
    requires group { SetsNumber step.now }
    ensures { (label_place : ListOf ℕ → ℕ) → result ≡ instr_of p.now label_place step.now }
{
    match step {
        Step::Set { to, value } => Instr::Set {
            to: number_place(p, to),
            value: operand_of(p, value),
        },
        Step::Math {
            op,
            to,
            left,
            right,
        } => Instr::Math {
            op: *op,
            to: number_place(p, to),
            left: operand_of(p, left),
            right: operand_of(p, right),
        },
        Step::Cell { to, column, row } => Instr::Cell {
            to: number_place(p, to),
            column: column.copy(),
            row: operand_of(p, row),
        },
        Step::Rows { to, column } => Instr::Rows {
            to: number_place(p, to),
            column: column.copy(),
        },
        Step::Get { to, future } => Instr::Get {
            to: number_place(p, to),
            future: future_place(p, future),
        },
        _ => unreachable!(),
    }
}

/// The instruction of a step that sets a future.
#[tactic(auto, unfolding(crate::specs::Program::instr_of))]
fn future_instr_of(alloc: Global, p: &Positions, step: &Step) -> Result<Instr, AllocError>
    requires short { AreShort p.now }
    requires group { SetsFuture step.now }
    ensures { IfOk result (λ instr. (label_place : ListOf ℕ → ℕ)
        → instr ≡ instr_of p.now label_place step.now) }
{
    Ok(match step {
        Step::Spawn {
            to,
            kind,
            arguments,
            behind,
            priority,
            retry,
        } => Instr::Spawn {
            to: future_place(p, to),
            kind: kind_place(p, kind),
            arguments: arguments_of(alloc, p, arguments.as_slice())?,
            behind: behind_place(p, behind),
            priority: *priority,
            retry: *retry,
        },
        Step::All {
            to,
            members,
            priority,
            retry,
        } => Instr::All {
            to: future_place(p, to),
            members: future_places(alloc, p, members.as_slice())?,
            priority: *priority,
            retry: *retry,
        },
        Step::Copy { to, of } => Instr::Copy {
            to: future_place(p, to),
            of: future_place(p, of),
        },
        Step::Drop { future } => Instr::Drop {
            future: future_place(p, future),
        },
        _ => unreachable!(),
    })
}

/// The instruction of a step at a position that says where the task goes on.
#[tactic(auto, unfolding(crate::specs::Program::instr_of))]
fn going_instr_of(p: &Positions, at: usize, ahead: &[Item], step: &Step) -> Instr
    requires short { AreShort p.now }
    requires room { at + 1 + steps_ahead ahead.now ≤ 64 }
    requires group { SaysWhere step.now }
    ensures { result ≡ instr_of p.now (λ name. at + 1 + steps_to name ahead.now) step.now }
{
    match step {
        Step::If {
            relation,
            left,
            right,
            target,
        } => Instr::If {
            relation: *relation,
            left: operand_of(p, left),
            right: operand_of(p, right),
            target: label_place(at, ahead, target),
        },
        Step::Goto { target } => Instr::Goto {
            target: label_place(at, ahead, target),
        },
        Step::Label { name } => Instr::Label { name: name.copy() },
        Step::Again {
            target,
            behind,
            priority,
        } => Instr::Again {
            target: state_place(p, target),
            behind: behind_place(p, behind),
            priority: *priority,
        },
        Step::Done { value } => Instr::Done {
            value: operand_of(p, value),
        },
        _ => unreachable!(),
    }
}

/// The instruction of a step at a position, behind which other lines follow.
pub fn instr_of(
    alloc: Global,
    p: &Positions,
    at: usize,
    ahead: &[Item],
    step: &Step,
) -> Result<Instr, AllocError>
    requires short { AreShort p.now }
    requires room { at + 1 + steps_ahead ahead.now ≤ 64 }
    ensures { IfOk result
        (λ instr. instr ≡ instr_of p.now (λ name. at + 1 + steps_to name ahead.now) step.now) }
{
    match step {
        Step::Set { .. }
        | Step::Math { .. }
        | Step::Cell { .. }
        | Step::Rows { .. }
        | Step::Get { .. } => Ok(number_instr_of(p, step)),
        Step::Spawn { .. } | Step::All { .. } | Step::Copy { .. } | Step::Drop { .. } => {
            future_instr_of(alloc, p, step)
        }
        Step::If { .. }
        | Step::Goto { .. }
        | Step::Label { .. }
        | Step::Again { .. }
        | Step::Done { .. } => Ok(going_instr_of(p, at, ahead, step)),
    }
}

/// The position of a label ahead of a position.
#[tactic(auto, using(crate::proofs::StepLemmas::label_place_lemmas))]
fn label_place(at: usize, ahead: &[Item], name: &Name) -> u16
    requires { at + 1 + steps_ahead ahead.now ≤ 64 }
    ensures { result ≡ at + 1 + steps_to name.now ahead.now }
{
    (at + 1 + steps_to(ahead, name)) as u16
}
