//! The program of a text, and the plan of its run: for tests and to measure.
#![tactic(auto)]

ghost use Rattle.std.specs.Prelude.{◌≡◌, ◌<◌, ◌^◌, ◌↔◌, IfOk, IfSome, IsSome, length, Some};
ghost use Rattle.task_syntax.specs.Form.{IsWellFormed};
ghost use Rattle.task_syntax.specs.Valid.{IsValid};
ghost use Rattle.task_syntax.specs.declared.program.Program.{Program as ProgramData};
ghost use Rattle.task_reader.specs.Read.{Spelled};
ghost use Rattle.kt_words.specs.Ranges.{IsGeometry, IsPlan};

use kt_words::{Geometry, Plan};
use std::alloc::{AllocError, Global};
use task_check::{CheckError, check};
use task_reader::{ReadError, read_program};
use task_syntax::{Checked, Program};

/// The program that a text spells. None: it spells none.
fn spelled_by(alloc: Global, text: &[u8]) -> Result<Option<Program>, AllocError>
    requires { length text.now < 2 ^ 32 }
    ensures formed { IfOk result (λ found. IfSome found IsWellFormed) }
    ensures spelled { IfOk result (λ found. IfSome found (Spelled text.now)) }
    ensures found { (p : ProgramData) → Spelled text.now p → IfOk result (λ found. found ≡ Some p) }
{
    match read_program(alloc, text) {
        Ok(program) => Ok(Some(program)),
        Err(ReadError::Memory) => Err(AllocError),
        Err(ReadError::Fault { .. }) => Ok(None),
    }
}

/// A program, where it is valid.
fn valid(alloc: Global, program: Program) -> Result<Option<Checked>, AllocError>
    requires { IsWellFormed program }
    ensures same { IfOk result (λ found. IfSome found (λ checked. checked ≡ program)) }
    ensures found { IsValid program → IfOk result (λ found. found ≡ Some program) }
{
    match check(alloc, program) {
        Ok(checked) => Ok(Some(checked)),
        Err(CheckError::Memory) => Err(AllocError),
        Err(CheckError::Fault { .. }) => Ok(None),
    }
}

/// The valid program that a text spells. None: it spells none, or its length is 2^32 or more.
pub fn program_of(alloc: Global, text: &[u8]) -> Result<Option<Checked>, AllocError>
    ensures spelled { IfOk result (λ found. IfSome found (Spelled text.now)) }
    ensures found { (p : ProgramData) → length text.now < 2 ^ 32 → Spelled text.now p → IsValid p
        → IfOk result (λ found. found ≡ Some p) }
{
    if text.len() > u32::MAX as usize {
        return Ok(None);
    }
    match spelled_by(alloc, text)? {
        Some(program) => valid(alloc, program),
        None => Ok(None),
    }
}

/// The plan of a program's run, over so many superblocks of so many units. None: they make no
/// geometry, or the limit or the number of roots is out of its range.
pub fn plan_of(checked: &Checked, superblocks: u32, units: u32, limit: u64) -> Option<Plan>
    ensures exactly { IsSome result
        ↔ IsGeometry superblocks units × IsPlan limit (length checked.now.roots) }
    ensures geometry { IfSome result (λ plan.
        (plan.geometry.superblocks ≡ superblocks) × (plan.geometry.units ≡ units)) }
    ensures limit { IfSome result (λ plan. plan.limit ≡ limit) }
    ensures roots { IfSome result (λ plan. plan.roots ≡ length checked.now.roots) }
{
    let geometry = Geometry::new(superblocks, units)?;
    let roots = u8::try_from(checked.program().roots.len()).ok()?;
    Plan::new(geometry, limit, roots)
}
