ghost use Rattle.std.specs.Prelude.{◌≡◌, ℕ, Some, IfOk, IfErr, OnOk, length, slice_get};
ghost use Rattle.task_syntax.specs.Form.{IsWellFormed, IsFormedKind};
ghost use Rattle.task_syntax.specs.Valid.{IsValid};
ghost use Rattle.task_check.specs.Faults.{IsFirst, SomeAt, SizeFault, StateFault, KindFault, RootFault, HasFault, TellsFirst, Refuses};
ghost use Rattle.task_check.specs.Parts.{KindsFault, RootsFault, StatesFault};

use crate::fault::{Cause, CheckError, Found, earlier, fault_at};
use crate::root::root_fault;
use crate::state::state_fault;
use std::alloc::{AllocError, Global};
use task_syntax::{Checked, Kind, Program};

const MOST_VARIABLES: usize = 63;

/// Checks a well-formed program: seals it where it is valid, and else tells its first fault by lines.
pub fn check(alloc: Global, program: Program) -> Result<Checked, CheckError>
    requires { IsWellFormed program }
    ensures same { IfOk result (λ checked. checked ≡ program) }
    ensures valid { OnOk result (IsValid program) }

    // A fault that is told is the first one, and a program with a fault is not valid.
    ensures first { IfErr result (TellsFirst program) }
    ensures refused { IfErr result (Refuses program) }
{
    match program_fault(alloc, &program)? {
        None => Ok(Checked::seal(program)),
        Some(
            Found {
                line,
                cause,
                name,
                ..
            },
        ) => Err(CheckError::Fault { cause, line, name }),
    }
}

fn program_fault(alloc: Global, program: &Program) -> Result<Option<Found>, AllocError>
    requires { IsWellFormed program.now }
    ensures { IfOk result (λ r. IsFirst (HasFault program.now) r) }
{
    let in_kinds = kinds_fault(alloc, program)?;
    let in_roots = roots_fault(alloc, program)?;
    Ok(earlier(in_kinds, in_roots))
}

fn kinds_fault(alloc: Global, program: &Program) -> Result<Option<Found>, AllocError>
    requires { IsWellFormed program.now }
    ensures { IfOk result (IsFirst (KindsFault program.now)) }
{
    let kinds = program.kinds.as_slice();
    let mut first = None;
    'kinds: for at in 0..kinds.len() {
        let fault = kind_fault(alloc, program, &kinds[at])?;
        first = earlier(first, fault);
    }
    Ok(first)
}

fn roots_fault(alloc: Global, program: &Program) -> Result<Option<Found>, AllocError>
    requires { IsWellFormed program.now }
    ensures { IfOk result (IsFirst (RootsFault program.now)) }
{
    let roots = program.roots.as_slice();
    let mut first = None;
    'roots: for at in 0..roots.len() {
        let fault = root_fault(alloc, program, &roots[at])?;
        first = earlier(first, fault);
    }
    Ok(first)
}

fn kind_fault(alloc: Global, program: &Program, kind: &Kind) -> Result<Option<Found>, AllocError>
    requires program { IsWellFormed program.now }
    requires kind { IsFormedKind program.now kind.now }
    ensures { IfOk result (λ r. IsFirst (KindFault program.now kind.now) r) }
{
    let size = size_fault(kind)?;
    let states = states_fault(alloc, program, kind)?;
    Ok(earlier(size, states))
}

fn size_fault(kind: &Kind) -> Result<Option<Found>, AllocError>
    ensures { IfOk result (λ r. IsFirst (SizeFault kind.now) r) }
{
    if kind.variables.len() <= MOST_VARIABLES {
        return Ok(None);
    }
    fault_at(kind.line, Cause::FrameTooLarge, 0, &kind.name)
}

fn states_fault(alloc: Global, program: &Program, kind: &Kind) -> Result<Option<Found>, AllocError>
    requires program { IsWellFormed program.now }
    requires kind { IsFormedKind program.now kind.now }
    ensures { IfOk result (IsFirst (StatesFault program.now kind.now)) }
{
    let states = kind.states.as_slice();
    let mut first = None;
    'states: for at in 0..states.len() {
        let fault = state_fault(alloc, program, kind, at, &states[at])?;
        first = earlier(first, fault);
    }
    Ok(first)
}
