ghost use Rattle.std.specs.Prelude.{◌≡◌, ◌<◌, ◌≤◌, IfOk, length};
ghost use Rattle.task_syntax.specs.Form.{IsWellFormed};
ghost use Rattle.task_syntax.specs.Valid.{IsValid};
ghost use Rattle.frame_code.specs.Words.{variables_at};
ghost use Rattle.frame_code.specs.Code.{AreLayouts, layout_of};

use crate::lookup::kind_at;
use crate::places::{KindVariables, Layout};
use std::alloc::{AllocError, Global};
use std::marker::Model;
use task_syntax::{Checked, Program};

/// A checked program with the layouts of its kinds' frames. Contracts see the program.
#[derive(Drop)]
pub struct CheckedCode<'a> {
    checked: &'a Checked,
    layouts: Vec<Layout>,
}

impl<'a> Model for CheckedCode<'a> {
    ghost use Rattle.task_syntax.specs.declared.program.Program.{Program};
    ghost use Rattle.frame_code.specs.Code.{AreLayouts};

    ghost Value = { Program };

    ghost view = { λ code. code.checked.now };

    ghost invariant = { λ code. AreLayouts code.checked.now code.layouts.items };
}

/// The layout of each kind.
fn layouts_of(alloc: Global, checked: &Checked) -> Result<Vec<Layout>, AllocError>
    ensures { IfOk result (λ layouts. AreLayouts checked.now layouts.items) }
{
    let kinds = checked.program().kinds.as_slice();
    let mut layouts = Vec::with_capacity(alloc, kinds.len())?;
    'kinds: for kind in kinds {
        layouts.push(Layout::new(kind.variables.as_slice()))?;
    }
    Ok(layouts)
}

impl<'a> CheckedCode<'a> {
    /// The code of a program.
    pub fn new(alloc: Global, checked: &'a Checked) -> Result<CheckedCode<'a>, AllocError>
        ensures { IfOk result (λ code. code ≡ checked.now) }
    {
        let layouts = layouts_of(alloc, checked)?;
        Ok(CheckedCode { checked, layouts })
    }

    /// The program.
    pub fn program(&self) -> &Program
        ensures same { result.now ≡ self.now }
        ensures formed { IsWellFormed self.now }
        ensures valid { IsValid self.now }
    {
        self.checked.program()
    }

    /// The layout of a kind.
    fn layout(&self, kind: u16) -> &Layout
        requires { kind < length self.now.kinds }
        ensures { result.now ≡ layout_of (variables_at self.now kind) }
    {
        &self.layouts[kind as usize]
    }

    /// The variables of a kind.
    pub fn variables(&self, kind: u16) -> KindVariables<'_>
        requires { kind < length self.now.kinds }
        ensures same { result ≡ variables_at self.now kind }
        ensures few { length result ≤ 63 }
    {
        KindVariables::new(
            kind_at(self.program(), kind).variables.as_slice(),
            self.layout(kind),
        )
    }
}
