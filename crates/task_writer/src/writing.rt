ghost use Rattle.std.specs.Prelude.{◌≡◌, ◌++◌, IfOk, OnOk};
ghost use Rattle.task_syntax.specs.Form.{IsWellFormed};
ghost use Rattle.task_reader.specs.Read.{program_in};
ghost use Rattle.task_writer.specs.Text.{line_text, header_words, text_of};
ghost use Rattle.task_writer.specs.Numbering.{renumbered};
ghost use Rattle.task_writer.specs.Same.{AreSameButLines};
ghost use Rattle.task_writer.specs.Canonical.{IsCanonical};

use crate::line::{put_kinds, put_roots};
use crate::word::{put_end, put_first, put_word};
use std::alloc::{AllocError, Global};
use task_syntax::{Memory, Program};

/// Writes the first line.
#[tactic(auto, using(crate::proofs::Putting::lines))]
fn put_header(out: &mut Vec<u8>) -> Result<(), AllocError>
    ensures { OnOk result (out.new.items ≡ out.old.items ++ line_text header_words) }
{
    put_first(out, b"ktask")?;
    put_word(out, b"1")?;
    put_end(out)
}

#[tactic(auto, using(crate::proofs::PuttingLines::programs))]
fn text_of(alloc: Global, program: &Program) -> Result<Vec<u8>, AllocError>
    requires { IsWellFormed program.now }
    ensures { IfOk result (λ bytes. bytes.items ≡ text_of program.now) }
{
    let mut out = Vec::new(alloc);
    let kinds = program.kinds.as_slice();
    put_header(&mut out)?;
    put_kinds(&mut out, kinds)?;
    put_roots(&mut out, kinds, program.roots.as_slice())?;
    Ok(out)
}

/// The canonical text of a program. Reading it gives the program, with the numbers of the lines
/// of the text.
pub fn write_program(alloc: Global, program: &Program) -> Result<Vec<u8>, Memory>
    requires { IsWellFormed program.now }
    ensures exact { IfOk result (λ bytes. bytes.items ≡ text_of program.now) }
    ensures reads_back { IfOk result
        (λ bytes. program_in bytes.items ≡ Ok (renumbered program.now)) }
    ensures same { AreSameButLines (renumbered program.now) program.now }
    ensures canonical { IfOk result (λ bytes. IsCanonical bytes.items) }
    ensures again { IfOk result (λ bytes. text_of (renumbered program.now) ≡ bytes.items) }
{
    let text = text_of(alloc, program)?;
    Ok(text)
}
