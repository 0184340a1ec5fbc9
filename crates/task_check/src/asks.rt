ghost use Rattle.std.specs.Prelude.{◌≡◌, ◌++◌, true, cond, None, IfOk};
ghost use Rattle.std.specs.Option.{option_to_list};
ghost use Rattle.task_syntax.specs.Facts.{has};
ghost use Rattle.task_check.specs.Asks.{future_in, root_in, passed, passed_settled, asks_held as held_by, asks_settled as settled_by};

use std::alloc::{AllocError, Global};
use task_syntax::{Argument, Instr, RootArgument};

/// The future that an argument passes, where the argument is picked.
fn picked(argument: Argument, is_picked: bool) -> Option<u16>
    ensures { result ≡ cond is_picked (future_in argument) None }
{
    match argument {
        Argument::Future(variable) if is_picked => Some(variable),
        _ => None,
    }
}

/// The root that an argument passes, where the argument is picked.
fn root_picked(argument: RootArgument, is_picked: bool) -> Option<u16>
    ensures { result ≡ cond is_picked (root_in argument) None }
{
    match argument {
        RootArgument::Root(root) if is_picked => Some(u16::from(root)),
        _ => None,
    }
}

/// A list with one more at its end, where there is one.
fn and_also(futures: Vec<u16>, one: Option<u16>) -> Result<Vec<u16>, AllocError>
    ensures { IfOk result (λ v. v.items ≡ futures.items ++ option_to_list one) }
{
    let mut longer = futures;
    if let Some(future) = one {
        longer.push(future)?;
    }
    Ok(longer)
}

/// The futures among the arguments.
fn futures_of(alloc: Global, arguments: &[Argument]) -> Result<Vec<u16>, AllocError>
    ensures { IfOk result (λ v. v.items ≡ passed future_in (λ _. true) 0 arguments.now) }
{
    let mut futures = Vec::new(alloc);
    'arguments: for i in 0..arguments.len() {
        let one = picked(arguments[i], true);
        futures = and_also(futures, one)?;
    }
    Ok(futures)
}

/// The futures that are to be held, from left to right.
pub fn asks_held(alloc: Global, instr: &Instr) -> Result<Vec<u16>, AllocError>
    ensures { IfOk result (λ v. v.items ≡ held_by instr.now) }
{
    match instr {
        Instr::Spawn {
            arguments,
            behind,
            ..
        } => and_also(futures_of(alloc, arguments.as_slice())?, *behind),
        Instr::All { members, .. } => Vec::from_slice(alloc, members.as_slice()),
        Instr::Copy { of, .. } => and_also(Vec::new(alloc), Some(*of)),
        Instr::Drop { future } => and_also(Vec::new(alloc), Some(*future)),
        Instr::Get { future, .. } => and_also(Vec::new(alloc), Some(*future)),
        Instr::Again { behind, .. } => and_also(Vec::new(alloc), *behind),
        _ => Ok(Vec::new(alloc)),
    }
}

/// The futures that are to be settled.
pub fn asks_settled(alloc: Global, instr: &Instr) -> Result<Vec<u16>, AllocError>
    ensures { IfOk result (λ v. v.items ≡ settled_by instr.now) }
{
    match instr {
        Instr::Get { future, .. } => and_also(Vec::new(alloc), Some(*future)),
        _ => Ok(Vec::new(alloc)),
    }
}

/// The futures that are passed for the arguments that an entry state settles, from left to right.
pub fn futures_settled(
    alloc: Global,
    settled: &[u16],
    arguments: &[Argument],
) -> Result<Vec<u16>, AllocError>
    ensures { IfOk result (λ v. v.items ≡ passed_settled future_in settled.now arguments.now) }
{
    let mut futures = Vec::new(alloc);
    'arguments: for i in 0..arguments.len() {
        let is_settled = settles(settled, i);
        let one = picked(arguments[i], is_settled);
        futures = and_also(futures, one)?;
    }
    Ok(futures)
}

/// The roots that are passed for the arguments that an entry state settles, from left to right.
pub fn roots_settled(
    alloc: Global,
    settled: &[u16],
    arguments: &[RootArgument],
) -> Result<Vec<u16>, AllocError>
    ensures { IfOk result (λ v. v.items ≡ passed_settled root_in settled.now arguments.now) }
{
    let mut roots = Vec::new(alloc);
    'arguments: for i in 0..arguments.len() {
        let is_settled = settles(settled, i);
        let one = root_picked(arguments[i], is_settled);
        roots = and_also(roots, one)?;
    }
    Ok(roots)
}

fn settles(settled: &[u16], at: usize) -> bool
    ensures { result ≡ has at settled.now }
{
    settled.iter().any(|x| at == *x as usize)
}
