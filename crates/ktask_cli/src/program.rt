ghost use Rattle.std.specs.Prelude.{◌≡◌, ◌≤◌, IfOk, length};
ghost use Rattle.task_syntax.specs.Form.{IsWellFormed};
ghost use Rattle.ktask_cli.specs.Plan.{OrWants};
ghost use Rattle.ktask_cli.specs.Ready.{read_in, Checks, program_under, valid_under};
ghost use Rattle.ktask_cli.specs.Stop.{longest_file};

use crate::fetch_file::fetch_file;
use crate::stop::{InputFile, Stop};
use std::alloc::Global;
use task_check::{CheckError, check};
use task_reader::{ReadError, read_program};
use task_syntax::{Checked, Program};
use tool_io::Shelf;

/// Reads the text of a program.
fn read_text(alloc: Global, text: &[u8]) -> Result<Program, Stop>
    requires { length text.now ≤ longest_file }
    ensures read { OrWants (λ r. r ≡ read_in text.now) result }
    ensures formed { IfOk result IsWellFormed }
{
    match read_program(alloc, text) {
        Ok(program) => Ok(program),
        Err(ReadError::Fault { cause, line, word }) => Err(Stop::ProgramFault {
            cause,
            line,
            word,
        }),
        Err(ReadError::Memory) => Err(Stop::WantOfMemory),
    }
}

/// Checks a program that was read.
fn check_read(alloc: Global, program: Program) -> Result<Checked, Stop>
    requires { IsWellFormed program }
    ensures { OrWants (Checks program) result }
{
    match check(alloc, program) {
        Ok(checked) => Ok(checked),
        Err(CheckError::Fault { cause, line, name }) => Err(Stop::CheckFault { cause, line, name }),
        Err(CheckError::Memory) => Err(Stop::WantOfMemory),
    }
}

/// Fetches and reads the program under a name.
pub(crate) fn fetch_program<S: Shelf>(
    alloc: Global,
    name: &str,
    shelf: &mut S,
) -> Result<Program, Stop>
    ensures follows { program_under name.now
        (S.seen shelf.old) (S.seen shelf.new) result }
    ensures formed { IfOk result IsWellFormed }
{
    match fetch_file(alloc, shelf, InputFile::Program, name) {
        Ok(text) => read_text(alloc, &text),
        Err(stop) => Err(stop),
    }
}

/// Fetches, reads and checks the program under a name.
pub(crate) fn fetch_valid<S: Shelf>(
    alloc: Global,
    name: &str,
    shelf: &mut S,
) -> Result<Checked, Stop>
    ensures { valid_under name.now
        (S.seen shelf.old) (S.seen shelf.new) result }
{
    match fetch_program(alloc, name, shelf) {
        Ok(program) => check_read(alloc, program),
        Err(stop) => Err(stop),
    }
}
