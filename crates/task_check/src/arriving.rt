ghost use Rattle.std.specs.Prelude.{◌≡◌, ℕ, ◌+◌, ◌<◌, ◌↔◌, false, Some, None, IfOk, OnOk, IsTrue, length, slice_get, vec_len};
ghost use Rattle.task_syntax.specs.Form.{Leaves};
ghost use Rattle.task_syntax.specs.Valid.{JumpsTo};
ghost use Rattle.task_check.specs.Known.{IsAbout, IsWithin, knows, answer_after};
ghost use Rattle.task_check.specs.Ways.{AreSized, IsJoined, Brings, Passes, GoesOnTo, Takes, BringsTo, PassesOn, GoesOn, AreEmpty, KnowsNothing};
ghost use Rattle.task_check.specs.declared.known.Known.{Known as KnownHere};

use crate::known::Known;
use std::alloc::{AllocError, Global};
use task_syntax::Instr;

/// Places at which nothing arrives.
pub fn nowhere(alloc: Global, places: usize) -> Result<Vec<Option<Known>>, AllocError>
    ensures len { IfOk result (λ v. length v.items ≡ places) }
    ensures none { IfOk result (λ v. AreEmpty v.items) }
{
    let mut arriving = Vec::new(alloc);
    'places: for _at in 0..places {
        arriving.push(None)?;
    }
    Ok(arriving)
}

/// One more way arrives at a place.
pub fn arrive(arriving: &mut Vec<Option<Known>>, to: usize, known: Known)
    requires within { to < length arriving.old.items }
    requires sized { AreSized (vec_len known.members) arriving.old.items }
    ensures { BringsTo to known arriving.old.items arriving.new.items }
{
    let slot = &mut arriving[to];
    let before = slot.take();
    *slot = Some(joined(before, known));
}

fn joined(before: Option<Known>, known: Known) -> Known
    requires { (o : KnownHere) → before ≡ Some o → vec_len o.members ≡ vec_len known.members }
    ensures { IsJoined (vec_len known.members) before known (Some result) }
{
    match before {
        None => known,
        Some(other) => other.joined(&known),
    }
}

/// Takes what arrived at a place; where no way arrives, nothing is held.
pub fn take(
    alloc: Global,
    variables: usize,
    at: usize,
    arriving: &mut Vec<Option<Known>>,
) -> Result<Known, AllocError>
    requires within { at < length arriving.old.items }
    requires sized { AreSized variables arriving.old.items }
    ensures { IfOk result (λ k. Takes variables at k arriving.old.items arriving.new.items) }
{
    let slot = &mut arriving[at];
    let here = slot.take();
    or_nothing(alloc, variables, here)
}

fn or_nothing(alloc: Global, variables: usize, here: Option<Known>) -> Result<Known, AllocError>
    ensures known { IfOk result (λ k. (o : KnownHere) → here ≡ Some o → k ≡ o) }
    ensures none { IfOk result (λ k. here ≡ None → KnowsNothing variables k) }
{
    match here {
        Some(known) => Ok(known),
        None => Known::nothing(alloc, variables),
    }
}

/// Brings what is known before an instruction to where it jumps.
pub fn jump(
    alloc: Global,
    instr: &Instr,
    known: &Known,
    arriving: &mut Vec<Option<Known>>,
) -> Result<(), AllocError>
    requires within { (to : ℕ) → JumpsTo instr.now to → to < length arriving.old.items }
    requires sized { AreSized (vec_len known.now.members) arriving.old.items }
    ensures { OnOk result
        (PassesOn known.now (JumpsTo instr.now) arriving.old.items arriving.new.items) }
{
    match target_of(instr) {
        Some(target) => leap(alloc, target, known, arriving),
        None => Ok(()),
    }
}

fn target_of(instr: &Instr) -> Option<u16>
    ensures { (to : ℕ) → JumpsTo instr.now to ↔ (result ≡ Some to) }
{
    match instr {
        Instr::If { target, .. } => Some(*target),
        Instr::Goto { target } => Some(*target),
        _ => None,
    }
}

fn leap(
    alloc: Global,
    target: u16,
    known: &Known,
    arriving: &mut Vec<Option<Known>>,
) -> Result<(), AllocError>
    requires within { target < length arriving.old.items }
    requires sized { AreSized (vec_len known.now.members) arriving.old.items }
    ensures { OnOk result
        (PassesOn known.now (λ at. at ≡ target) arriving.old.items arriving.new.items) }
{
    let same = known.copied(alloc)?;
    arrive(arriving, target as usize, same);
    Ok(())
}

/// Brings what is known behind an instruction to the next place, where the instruction goes on.
pub fn go_on(instr: &Instr, known: Known, at: usize, arriving: &mut Vec<Option<Known>>)
    requires instr { IsWithin (vec_len known.members) instr.now }
    requires small { vec_len known.members < 256 }
    requires within { at < length arriving.old.items }
    requires next { ¬ Leaves instr.now → at + 1 < length arriving.old.items }
    requires sized { AreSized (vec_len known.members) arriving.old.items }
    ensures { GoesOn known instr.now at arriving.old.items arriving.new.items }
{
    if !leaves(instr) {
        arrive(arriving, at + 1, known.after(instr));
    }
}

fn leaves(instr: &Instr) -> bool
    ensures { IsTrue result ↔ Leaves instr.now }
{
    match instr {
        Instr::Goto { .. } => true,
        Instr::Again { .. } => true,
        Instr::Done { .. } => true,
        _ => false,
    }
}
