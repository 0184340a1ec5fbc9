ghost use Rattle.std.specs.Prelude.{◌≡◌, IfOk};
ghost use Rattle.task_reader.specs.Names.{kind_names};
ghost use Rattle.task_reader.specs.Program.{program_of};
ghost use Rattle.task_reader.specs.Fits.{Fit};

use crate::kind::kinds_of;
use crate::root::roots_of;
use std::alloc::{AllocError, Global};
use task_lines::Item;
use task_syntax::{Name, Program};

/// The program that the items stand for, where the kinds have these names.
#[tactic(auto, unfolding(crate::specs::Program::program_of))]
pub fn program_of(alloc: Global, kinds: &[Name], items: &[Item]) -> Result<Program, AllocError>
    requires names { kinds.now ≡ kind_names items.now }
    requires short { Fit items.now }
    ensures { IfOk result (λ p. p ≡ program_of items.now) }
{
    let roots = roots_of(alloc, kinds, items)?;
    let kinds = kinds_of(alloc, kinds, items)?;
    Ok(Program { kinds, roots })
}
