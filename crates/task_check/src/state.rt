ghost use Rattle.std.specs.Prelude.{◌≡◌, ℕ, ◌+◌, ◌<◌, nat_lt, Some, IfOk, IsTrue, length, slice_get, OnOk};
ghost use Rattle.task_syntax.specs.Places.{Each};
ghost use Rattle.task_syntax.specs.Form.{IsWellFormed, IsFormedKind, IsFormedState};
ghost use Rattle.task_syntax.specs.Facts.{has};
ghost use Rattle.task_check.specs.declared.fault.Cause.TheVariants.{NotHeld};
ghost use Rattle.task_check.specs.Ways.{AreArrived};
ghost use Rattle.task_check.specs.Faults.{IsFirst, SomeAt, LineFault, DeclaredFault, StateFault};
ghost use Rattle.task_check.specs.Parts.{LackingFault, CodeFault, IsFirstAt, SettledFault, ArgumentFault};

use crate::arriving::{arrive, go_on, jump, nowhere, take};
use crate::fault::{Cause, Found, earlier};
use crate::known::Known;
use crate::line::{first_lacking, line_fault};
use crate::set::VariableSet;
use std::alloc::{AllocError, Global};
use task_syntax::{Kind, Program, State};

/// The first fault of the lines of a state, in one pass over its code.
fn code_fault(
    alloc: Global,
    program: &Program,
    kind: &Kind,
    state: &State,
) -> Result<Option<Found>, AllocError>
    requires program { IsWellFormed program.now }
    requires kind { IsFormedKind program.now kind.now }
    requires state { IsFormedState program.now kind.now state.now }
    ensures { IfOk result (IsFirst (CodeFault program.now kind.now state.now)) }
{
    let mut arriving = arrivals(alloc, program, kind, state)?;
    let mut first = None;
    'places: for at in 0..state.code.len() {
        let fault = pass(alloc, program, kind, state, at, &mut arriving)?;
        first = earlier(first, fault);
    }
    Ok(first)
}

/// What is known at each place by the start alone.
fn arrivals(
    alloc: Global,
    program: &Program,
    kind: &Kind,
    state: &State,
) -> Result<Vec<Option<Known>>, AllocError>
    requires kind { IsFormedKind program.now kind.now }
    requires state { IsFormedState program.now kind.now state.now }
    ensures { IfOk result (λ v. AreArrived (length kind.now.variables) state.now 0 v.items) }
{
    let mut arriving = nowhere(alloc, state.code.len())?;
    let start = Known::at_start(alloc, kind.variables.len(), state)?;
    arrive(&mut arriving, 0, start);
    Ok(arriving)
}

/// Looks at a line, and brings what is known behind it to the places that it leads to.
fn pass(
    alloc: Global,
    program: &Program,
    kind: &Kind,
    state: &State,
    at: usize,
    arriving: &mut Vec<Option<Known>>,
) -> Result<Option<Found>, AllocError>
    requires program { IsWellFormed program.now }
    requires kind { IsFormedKind program.now kind.now }
    requires state { IsFormedState program.now kind.now state.now }
    requires within { at < length state.now.code }
    requires arrived { AreArrived (length kind.now.variables) state.now at arriving.old.items }
    ensures arrived { OnOk result
        (AreArrived (length kind.now.variables) state.now (at + 1) arriving.new.items) }
    ensures first { IfOk result (IsFirstAt program.now kind.now state.now at) }
{
    let line = &state.code.as_slice()[at];
    let known = take(alloc, kind.variables.len(), at, arriving)?;
    let fault = line_fault(alloc, program, kind, &known, line)?;
    jump(alloc, &line.instr, &known, arriving)?;
    go_on(&line.instr, known, at, arriving);
    Ok(fault)
}

/// The first fault of a state's own line: what it settles and does not hold.
fn unheld_fault(kind: &Kind, state: &State) -> Result<Option<Found>, AllocError>
    requires small { length kind.now.variables < 256 }
    requires holds { Each state.now.holds (λ x. x < length kind.now.variables) }
    requires settled { Each state.now.settled (λ x. x < length kind.now.variables) }
    ensures { IfOk result (IsFirst (SettledFault kind.now state.now)) }
{
    let holds = state.holds.as_slice();
    let settled = state.settled.as_slice();
    let held = VariableSet::of(holds);
    first_lacking(kind, settled, held, state.line, Cause::NotHeld, holds.len())
}

/// The first fault of an entry state's own line: what it holds and is no argument.
fn entry_fault(kind: &Kind, state: &State) -> Result<Option<Found>, AllocError>
    requires small { length kind.now.variables < 256 }
    requires arguments { kind.now.arguments < 256 }
    requires holds { Each state.now.holds (λ x. x < length kind.now.variables) }
    ensures { IfOk result (IsFirst (ArgumentFault kind.now state.now)) }
{
    let arguments = VariableSet::below(kind.arguments);
    let holds = state.holds.as_slice();
    first_lacking(kind, holds, arguments, state.line, Cause::NotHeld, 0)
}

fn declared_fault(kind: &Kind, at: usize, state: &State) -> Result<Option<Found>, AllocError>
    requires small { length kind.now.variables < 256 }
    requires arguments { kind.now.arguments < 256 }
    requires holds { Each state.now.holds (λ x. x < length kind.now.variables) }
    requires settled { Each state.now.settled (λ x. x < length kind.now.variables) }
    ensures { IfOk result (λ r. IsFirst (DeclaredFault kind.now at state.now) r) }
{
    let unheld = unheld_fault(kind, state)?;
    if at != 0 {
        return Ok(unheld);
    }
    let entry = entry_fault(kind, state)?;
    Ok(earlier(entry, unheld))
}

/// The first fault of a state, which stands at a place of its kind.
pub fn state_fault(
    alloc: Global,
    program: &Program,
    kind: &Kind,
    at: usize,
    state: &State,
) -> Result<Option<Found>, AllocError>
    requires program { IsWellFormed program.now }
    requires kind { IsFormedKind program.now kind.now }
    requires state { IsFormedState program.now kind.now state.now }
    ensures { IfOk result (λ r. IsFirst (StateFault program.now kind.now at state.now) r) }
{
    let declared = declared_fault(kind, at, state)?;
    let code = code_fault(alloc, program, kind, state)?;
    Ok(earlier(declared, code))
}
