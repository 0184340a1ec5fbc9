ghost use Rattle.std.specs.Prelude.{◌≡◌, ◌<◌, ◌^◌, length, IfOk};
ghost use Rattle.task_syntax.specs.Form.{IsWellFormed};
ghost use Rattle.task_text.specs.Fault.{Gives, number_of};
ghost use Rattle.task_text.specs.declared.fault.Fault.{Fault as FaultData};
ghost use Rattle.task_reader.specs.Fits.{Fit};
ghost use Rattle.task_reader.specs.Faults.{IsFirstFault, Tells, TellsFirst};
ghost use Rattle.task_reader.specs.Read.{program_from, program_in, GivesProgram, Spelled, Answers, error_of};
ghost use Rattle.task_syntax.specs.declared.program.Program.{Program as ProgramData};

use crate::error::ReadError;
use crate::lists::kind_names;
use crate::names::names_known;
use crate::program::program_of;
use std::alloc::Global;
use task_lines::{Item, items_of};
use task_syntax::Program;
use task_text::{Cause, TextError};

/// The program of the items of a text, where each name that they use is given.
#[tactic(auto, unfolding(crate::specs::Read::program_from))]
fn program_from(alloc: Global, items: &[Item]) -> Result<Program, TextError>
    requires { Fit items.now }
    ensures { Gives (λ p. p) result (program_from items.now) }
{
    let kinds = kind_names(alloc, items)?;
    names_known(alloc, kinds.as_slice(), items)?;
    let program = program_of(alloc, kinds.as_slice(), items)?;
    Ok(program)
}

#[tactic(auto, unfolding(crate::specs::Read::program_in, crate::specs::Read::program_from))]
fn program_in(alloc: Global, text: &[u8]) -> Result<Program, TextError>
    requires { length text.now < 2 ^ 32 }
    ensures { Gives (λ p. p) result (program_in text.now) }
{
    let items = items_of(alloc, text)?;
    program_from(alloc, items.as_slice())
}

/// The number by which a cause is printed.
fn number_of(cause: Cause) -> u8
    ensures { result ≡ number_of cause }
{
    cause as u8
}

fn error_of(error: TextError) -> ReadError
    ensures { result ≡ error_of error }
{
    match error {
        TextError::Fault(fault) => ReadError::Fault {
            cause: number_of(fault.cause),
            line: fault.line,
            word: fault.word,
        },
        TextError::Memory => ReadError::Memory,
    }
}

/// Reads the text of a program, or answers its first fault.
#[tactic(auto, using(crate::proofs::ReadLaws::read_laws))]
pub fn read_program(alloc: Global, text: &[u8]) -> Result<Program, ReadError>
    requires { length text.now < 2 ^ 32 }
    ensures exact { GivesProgram result (program_in text.now) }

    // What is answered is spelled by the text, and what the text spells is answered.
    ensures spelled { IfOk result (Spelled text.now) }
    ensures accepts { (p : ProgramData) → Spelled text.now p → Answers p result }
    ensures formed { IfOk result IsWellFormed }

    // A fault that is told is the first of the text, and where it has one it is told.
    ensures first { TellsFirst text.now result }
    ensures refuses { (fault : FaultData) → IsFirstFault text.now fault → Tells fault result }
{
    match program_in(alloc, text) {
        Ok(program) => Ok(program),
        Err(error) => Err(error_of(error)),
    }
}
