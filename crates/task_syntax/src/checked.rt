ghost use Rattle.std.specs.Prelude.{◌≡◌};
ghost use Rattle.task_syntax.specs.Form.{IsWellFormed};
ghost use Rattle.task_syntax.specs.Valid.{IsValid};

use crate::program::Program;
use std::marker::Model;

/// A program that is well formed and valid. Contracts see the program.
#[derive(Debug, Drop)]
pub struct Checked {
    program: Program,
}

impl Model for Checked {
    ghost use Rattle.task_syntax.specs.declared.program.Program.{Program};
    ghost use Rattle.task_syntax.specs.Form.{IsWellFormed};
    ghost use Rattle.task_syntax.specs.Valid.{IsValid};

    ghost Value = { Program };

    ghost view = { λ checked. checked.program };

    ghost invariant = { λ checked. IsWellFormed checked.program × IsValid checked.program };
}

impl Checked {
    /// Seals a program that its maker knows to be valid.
    pub fn seal(program: Program) -> Checked
        requires formed { IsWellFormed program }
        requires valid { IsValid program }
        ensures { result ≡ program }
    {
        Checked { program }
    }

    /// The program.
    pub fn program(&self) -> &Program
        ensures same { result.now ≡ self.now }
        ensures formed { IsWellFormed self.now }
        ensures valid { IsValid self.now }
    {
        &self.program
    }
}
