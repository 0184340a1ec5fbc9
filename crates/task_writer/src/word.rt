ghost use Rattle.std.specs.Prelude.{◌≡◌, ◌++◌, ◌∷◌, [], decimal, OnOk};
ghost use Rattle.task_lines.specs.Grammar.{future_word};
ghost use Rattle.task_writer.specs.Text.{spaced};

use itoa::Buffer;
use std::alloc::AllocError;

/// Writes the first word of a line.
pub fn put_first(out: &mut Vec<u8>, word: &[u8]) -> Result<(), AllocError>
    ensures { OnOk result (out.new.items ≡ out.old.items ++ word.now) }
{
    out.extend_from_slice(word)
}

/// Writes a further word.
#[tactic(auto, using(crate::proofs::Putting::parts))]
pub fn put_word(out: &mut Vec<u8>, word: &[u8]) -> Result<(), AllocError>
    ensures { OnOk result (out.new.items ≡ out.old.items ++ spaced (word.now ∷ [])) }
{
    out.push(b' ')?;
    out.extend_from_slice(word)
}

/// Writes the name of a future as a further word.
#[tactic(auto, using(crate::proofs::Putting::parts))]
pub fn put_future(out: &mut Vec<u8>, name: &[u8]) -> Result<(), AllocError>
    ensures { OnOk result (out.new.items ≡ out.old.items ++ spaced (future_word name.now ∷ [])) }
{
    out.extend_from_slice(b" @")?;
    out.extend_from_slice(name)
}

/// Writes a number as a further word.
pub fn put_number(out: &mut Vec<u8>, number: u64) -> Result<(), AllocError>
    ensures { OnOk result (out.new.items ≡ out.old.items ++ spaced (decimal number ∷ [])) }
{
    put_word(out, Buffer::new().format(number).as_bytes())
}

/// Ends a line.
pub fn put_end(out: &mut Vec<u8>) -> Result<(), AllocError>
    ensures { OnOk result (out.new.items ≡ out.old.items ++ 10 ∷ []) }
{
    out.push(b'\n')?;
    Ok(())
}
