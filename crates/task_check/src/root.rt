ghost use Rattle.std.specs.Prelude.{◌≡◌, ℕ, ◌<◌, ◌≤◌, ◌↔◌, Some, IfOk, IfSome, IsTrue, length, slice_get};
ghost use Rattle.task_syntax.specs.Places.{Each};
ghost use Rattle.task_syntax.specs.Form.{IsWellFormed};
ghost use Rattle.task_syntax.specs.Valid.{Agrees, sort_of_root as sort_by};
ghost use Rattle.task_syntax.specs.declared.program.State.{State};
ghost use Rattle.task_check.specs.declared.fault.Cause.TheVariants.{BadCount};
ghost use Rattle.task_check.specs.Asks.{passed_settled, root_in};
ghost use Rattle.task_check.specs.Faults.{IsFirst, RootFault};
ghost use Rattle.task_check.specs.Parts.{UnbehindFault, CallMisfit, PassesRoots, RootNeeds};

use crate::asks::roots_settled;
use crate::fault::{Cause, Found, earlier, fault_at};
use std::alloc::{AllocError, Global};
use task_syntax::{Kind, Program, Root, RootArgument, Sort};

/// The first fault of the line of a root.
pub fn root_fault(
    alloc: Global,
    program: &Program,
    root: &Root,
) -> Result<Option<Found>, AllocError>
    requires program { IsWellFormed program.now }
    requires root { (at : ℕ) × (slice_get program.now.roots at ≡ Some root.now) }
    ensures { IfOk result (λ r. IsFirst (RootFault program.now root.now) r) }
{
    let callee = &program.kinds.as_slice()[root.kind as usize];
    let misfit = root_misfit(callee, root)?;
    let state_needs = root_needs(alloc, program, callee, root)?;
    Ok(earlier(misfit, state_needs))
}

fn root_misfit(callee: &Kind, root: &Root) -> Result<Option<Found>, AllocError>
    requires { callee.now.arguments ≤ length callee.now.variables }
    ensures { IfOk result
        (IsFirst (CallMisfit sort_by root.now.line callee.now root.now.arguments)) }
{
    if root_agrees(callee, root.arguments.as_slice()) {
        return Ok(None);
    }
    fault_at(root.line, Cause::BadCount, 0, &callee.name)
}

fn root_needs(
    alloc: Global,
    program: &Program,
    callee: &Kind,
    root: &Root,
) -> Result<Option<Found>, AllocError>
    requires callee { 0 < length callee.now.states }
    requires arguments { PassesRoots (length program.now.roots) root.now.arguments }
    ensures { IfOk result (λ r. (entry : State) → slice_get callee.now.states 0 ≡ Some entry
        → IsFirst (RootNeeds program.now root.now entry) r) }
{
    let entry = &callee.states.as_slice()[0];
    let roots = roots_settled(alloc, entry.settled.as_slice(), root.arguments.as_slice())?;
    let asked = roots.as_slice();
    first_unbehind(program, asked, root.behind, root.line)
}

/// The first of the roots that is not the predecessor.
fn first_unbehind(
    program: &Program,
    roots: &[u16],
    behind: Option<u8>,
    line: u32,
) -> Result<Option<Found>, AllocError>
    requires { Each roots.now (λ r. r < length program.now.roots) }
    ensures { IfOk result (λ r. IsFirst (UnbehindFault program.now line behind roots.now) r) }
{
    'roots: for i in 0..roots.len() {
        let root = roots[i];
        if !is_behind(behind, root) {
            let name = &program.roots.as_slice()[root as usize].name;
            return fault_at(line, Cause::StateNeeds, i, name);
        }
    }
    Ok(None)
}

fn is_behind(behind: Option<u8>, root: u16) -> bool
    ensures { IsTrue result ↔ (behind ≡ Some root) }
{
    match behind {
        None => false,
        Some(predecessor) => u16::from(predecessor) == root,
    }
}

/// Whether the arguments of a root agree with those of the kind in number and sort.
fn root_agrees(callee: &Kind, arguments: &[RootArgument]) -> bool
    requires { callee.now.arguments ≤ length callee.now.variables }
    ensures { IsTrue result ↔ Agrees sort_by callee.now arguments.now }
{
    if arguments.len() != callee.arguments as usize {
        return false;
    }
    let variables = callee.variables.as_slice();
    'arguments: for i in 0..arguments.len() {
        if variables[i].sort != sort_of_root(arguments[i]) {
            return false;
        }
    }
    true
}

fn sort_of_root(argument: RootArgument) -> Sort
    ensures { result ≡ sort_by argument }
{
    match argument {
        RootArgument::Number(_) => Sort::Number,
        RootArgument::Root(_) => Sort::Future,
    }
}
