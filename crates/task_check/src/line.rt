ghost use Rattle.std.specs.Prelude.{◌≡◌, ℕ, ◌+◌, ◌<◌, ◌≤◌, ◌^◌, ◌⊎◌, ◌↔◌, Some, IfOk, IfSome, IsTrue, length, slice_get, vec_len, option_copied};
ghost use Rattle.task_syntax.specs.Places.{Each};
ghost use Rattle.task_syntax.specs.Form.{IsWellFormed, IsFormedKind};
ghost use Rattle.task_syntax.specs.Valid.{Way, Agrees, sort_of as sort_by};
ghost use Rattle.task_syntax.specs.declared.program.State.{State};
ghost use Rattle.task_check.specs.declared.fault.Cause.TheVariants.{BadCount, NotHeld, NotSettled, StateNeeds};
ghost use Rattle.task_check.specs.Asks.{asks_held as held_by, asks_settled as settled_by, passed_settled, future_in};
ghost use Rattle.task_check.specs.Known.{in_set, knows, held, will_settle, IsIn, WillBeSettled};
ghost use Rattle.task_check.specs.Ways.{Agreed};
ghost use Rattle.task_check.specs.Faults.{IsFirst, Lacks, LacksBehind, IsMisfit, LineFault};
ghost use Rattle.task_check.specs.Parts.{LackingFault, IsFormedLine, LacksAnswers, IsFirstOfLine, MisfitFault, CallMisfit, UnheldFault, UnsettledFault, NeedsFault, PassesVariables, EntryFault, RespawnFault};

use crate::asks::{asks_held, asks_settled, futures_settled};
use crate::fault::{Cause, Found, earlier, fault_at};
use crate::known::Known;
use crate::set::VariableSet;
use std::alloc::{AllocError, Global};
use task_syntax::{Argument, Instr, Kind, Line, Program, Sort, State};

/// The first of the futures that is not in the set, counted from an offset.
pub fn first_lacking(
    kind: &Kind,
    futures: &[u16],
    set: VariableSet,
    line: u32,
    cause: Cause,
    offset: usize,
) -> Result<Option<Found>, AllocError>
    requires within { Each futures.now (λ x. x < length kind.now.variables) }
    requires small { length kind.now.variables < 256 }
    requires fits { offset < 2 ^ 62 }
    ensures { IfOk result
        (IsFirst (LackingFault line cause offset kind.now futures.now (IsIn set))) }
{
    'futures: for i in 0..futures.len() {
        let variable = futures[i];
        if !set.contains(variable) {
            let name = &kind.variables.as_slice()[variable as usize].name;
            return fault_at(line, cause, offset + i, name);
        }
    }
    Ok(None)
}

/// The first fault of a line of a state, by what is known before it.
pub fn line_fault(
    alloc: Global,
    program: &Program,
    kind: &Kind,
    known: &Known,
    line: &Line,
) -> Result<Option<Found>, AllocError>
    requires program { IsWellFormed program.now }
    requires kind { IsFormedKind program.now kind.now }
    requires known { vec_len known.now.members ≡ length kind.now.variables }
    requires line { IsFormedLine program.now kind.now line.now.instr }
    ensures { IfOk result (IsFirstOfLine program.now kind.now known.now line.now) }
{
    let misfit = misfit(program, kind, line)?;
    let not_held = not_held(alloc, program, kind, known, line)?;
    let not_settled = not_settled(alloc, program, kind, known, line)?;
    let state_needs = state_needs(alloc, program, kind, known, line)?;
    let front = earlier(misfit, not_held);
    let back = earlier(not_settled, state_needs);
    Ok(earlier(front, back))
}

fn misfit(program: &Program, kind: &Kind, line: &Line) -> Result<Option<Found>, AllocError>
    requires program { IsWellFormed program.now }
    requires line { IsFormedLine program.now kind.now line.now.instr }
    ensures { IfOk result (IsFirst (MisfitFault program.now line.now)) }
{
    match &line.instr {
        Instr::Spawn {
            kind: callee,
            arguments,
            ..
        } => spawn_misfit(
            &program.kinds.as_slice()[*callee as usize],
            arguments.as_slice(),
            line.line,
        ),
        _ => Ok(None),
    }
}

fn spawn_misfit(
    callee: &Kind,
    arguments: &[Argument],
    line: u32,
) -> Result<Option<Found>, AllocError>
    requires { callee.now.arguments ≤ length callee.now.variables }
    ensures { IfOk result (IsFirst (CallMisfit sort_by line callee.now arguments.now)) }
{
    if agrees(callee, arguments) {
        return Ok(None);
    }
    fault_at(line, Cause::BadCount, 0, &callee.name)
}

fn not_held(
    alloc: Global,
    program: &Program,
    kind: &Kind,
    known: &Known,
    line: &Line,
) -> Result<Option<Found>, AllocError>
    requires kind { IsFormedKind program.now kind.now }
    requires line { IsFormedLine program.now kind.now line.now.instr }
    ensures { IfOk result (IsFirst (UnheldFault kind.now known.now line.now)) }
{
    let futures = asks_held(alloc, &line.instr)?;
    let asked = futures.as_slice();
    first_lacking(kind, asked, known.held, line.line, Cause::NotHeld, 0)
}

fn not_settled(
    alloc: Global,
    program: &Program,
    kind: &Kind,
    known: &Known,
    line: &Line,
) -> Result<Option<Found>, AllocError>
    requires kind { IsFormedKind program.now kind.now }
    requires line { IsFormedLine program.now kind.now line.now.instr }
    ensures { IfOk result (IsFirst (UnsettledFault kind.now known.now line.now)) }
{
    let futures = asks_settled(alloc, &line.instr)?;
    let asked = futures.as_slice();
    first_lacking(kind, asked, known.settled, line.line, Cause::NotSettled, 0)
}

fn state_needs(
    alloc: Global,
    program: &Program,
    kind: &Kind,
    known: &Known,
    line: &Line,
) -> Result<Option<Found>, AllocError>
    requires program { IsWellFormed program.now }
    requires kind { IsFormedKind program.now kind.now }
    requires known { vec_len known.now.members ≡ length kind.now.variables }
    requires line { IsFormedLine program.now kind.now line.now.instr }
    ensures { IfOk result (IsFirst (NeedsFault program.now kind.now known.now line.now)) }
{
    match &line.instr {
        Instr::Spawn {
            kind: callee,
            arguments,
            behind,
            ..
        } => {
            let callee = &program.kinds.as_slice()[*callee as usize];
            spawn_needs(
                alloc,
                callee,
                kind,
                known,
                arguments.as_slice(),
                *behind,
                line.line,
            )
        }
        Instr::Again { target, behind, .. } => {
            let next = &kind.states.as_slice()[*target as usize];
            respawn_needs(next, kind, known, *behind, line.line)
        }
        _ => Ok(None),
    }
}

fn spawn_needs(
    alloc: Global,
    callee: &Kind,
    kind: &Kind,
    known: &Known,
    arguments: &[Argument],
    behind: Option<u16>,
    line: u32,
) -> Result<Option<Found>, AllocError>
    requires callee { 0 < length callee.now.states }
    requires small { length kind.now.variables < 256 }
    requires known { vec_len known.now.members ≡ length kind.now.variables }
    requires arguments { PassesVariables (length kind.now.variables) arguments.now }
    requires behind { IfSome behind (λ x. x < length kind.now.variables) }
    ensures { IfOk result (λ r. (entry : State) → slice_get callee.now.states 0 ≡ Some entry
        → IsFirst (EntryFault line kind.now entry arguments.now
        (WillBeSettled known.now behind)) r) }
{
    let entry = &callee.states.as_slice()[0];
    let futures = futures_settled(alloc, entry.settled.as_slice(), arguments)?;
    let asked = futures.as_slice();
    let settling = known.settling(behind);
    first_lacking(kind, asked, settling, line, Cause::StateNeeds, 0)
}

fn respawn_needs(
    next: &State,
    kind: &Kind,
    known: &Known,
    behind: Option<u16>,
    line: u32,
) -> Result<Option<Found>, AllocError>
    requires holds { Each next.now.holds (λ x. x < length kind.now.variables) }
    requires settled { Each next.now.settled (λ x. x < length kind.now.variables) }
    requires small { length kind.now.variables < 256 }
    requires known { vec_len known.now.members ≡ length kind.now.variables }
    requires behind { IfSome behind (λ x. x < length kind.now.variables) }
    ensures { IfOk result (IsFirst (RespawnFault line kind.now next.now known.now behind)) }
{
    let holds = next.holds.as_slice();
    let not_held = first_lacking(kind, holds, known.held, line, Cause::StateNeeds, 0)?;
    let settling = known.settling(behind);
    let settled = next.settled.as_slice();
    let not_settled = first_lacking(
        kind,
        settled,
        settling,
        line,
        Cause::StateNeeds,
        holds.len(),
    )?;
    Ok(earlier(not_held, not_settled))
}

/// Whether the arguments agree with those of the kind in number and sort.
fn agrees(callee: &Kind, arguments: &[Argument]) -> bool
    requires { callee.now.arguments ≤ length callee.now.variables }
    ensures { IsTrue result ↔ Agrees sort_by callee.now arguments.now }
{
    if arguments.len() != callee.arguments as usize {
        return false;
    }
    let variables = callee.variables.as_slice();
    'arguments: for i in 0..arguments.len() {
        if variables[i].sort != sort_of(arguments[i]) {
            return false;
        }
    }
    true
}

fn sort_of(argument: Argument) -> Sort
    ensures { result ≡ sort_by argument }
{
    match argument {
        Argument::Number(_) => Sort::Number,
        Argument::Future(_) => Sort::Future,
    }
}
