ghost use Rattle.std.specs.Prelude.{◌≡◌, IfOk};
ghost use Rattle.bench_programs.specs.Programs.{family_program};

use crate::family::Family;
use crate::text::family_text;
use std::alloc::Global;
use task_check::{CheckError, check};
use task_reader::{ReadError, read_program};
use task_syntax::{Checked, Memory, Program};

/// The program that is read from the text of a family and a number. It has no fault.
fn read_family(alloc: Global, family: Family, number: u64) -> Result<Program, Memory>
    ensures { IfOk result (λ program. program ≡ family_program family number) }
{
    let text = family_text(alloc, family, number)?;
    match read_program(alloc, text.as_slice()) {
        Ok(program) => Ok(program),
        Err(ReadError::Memory) => Err(Memory),
        Err(ReadError::Fault { .. }) => unreachable!(),
    }
}

/// The program of a family for a number: its text is made, read and checked. Neither finds a fault,
/// whatever the number, so the one error is want of memory.
pub fn family_checked(alloc: Global, family: Family, number: u64) -> Result<Checked, Memory>
    ensures { IfOk result (λ checked. checked ≡ family_program family number) }
{
    let program = read_family(alloc, family, number)?;
    match check(alloc, program) {
        Ok(checked) => Ok(checked),
        Err(CheckError::Memory) => Err(Memory),
        Err(CheckError::Fault { .. }) => unreachable!(),
    }
}
