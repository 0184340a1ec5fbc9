ghost use Rattle.std.specs.Prelude.{◌≡◌, ◌++◌, map, OnOk};
ghost use Rattle.task_lines.specs.Grammar.{future_word};
ghost use Rattle.task_writer.specs.Lines.{name_at, variable_names, root_names, passed_of, root_term_of};
ghost use Rattle.task_writer.specs.Words.{passed_word, root_term_word, variable_word, futures_words};
ghost use Rattle.task_writer.specs.Text.{spaced};

use crate::name::variable_name;
use crate::part::{put_argument, put_root_argument, put_variable};
use crate::word::{put_future, put_word};
use std::alloc::AllocError;
use task_syntax::{Argument, Root, RootArgument, Variable};

/// Writes what a spawn passes, from left to right.
pub fn put_arguments(
    out: &mut Vec<u8>,
    variables: &[Variable],
    arguments: &[Argument],
) -> Result<(), AllocError>
    ensures { OnOk result
        (out.new.items ≡ out.old.items
        ++ spaced (map passed_word
        (map (passed_of (variable_names variables.now)) arguments.now))) }
{
    for argument in arguments {
        put_argument(out, variables, *argument)?;
    }
    Ok(())
}

/// Writes what a root passes, from left to right.
pub fn put_root_arguments(
    out: &mut Vec<u8>,
    roots: &[Root],
    arguments: &[RootArgument],
) -> Result<(), AllocError>
    ensures { OnOk result
        (out.new.items ≡ out.old.items
        ++ spaced (map root_term_word (map (root_term_of (root_names roots.now)) arguments.now))) }
{
    for argument in arguments {
        put_root_argument(out, roots, *argument)?;
    }
    Ok(())
}

/// Writes variables, from left to right.
pub fn put_variables(out: &mut Vec<u8>, variables: &[Variable]) -> Result<(), AllocError>
    ensures { OnOk result
        (out.new.items ≡ out.old.items ++ spaced (map variable_word variables.now)) }
{
    for variable in variables {
        put_variable(out, variable)?;
    }
    Ok(())
}

/// Writes the futures at these positions, from left to right.
pub fn put_futures(
    out: &mut Vec<u8>,
    variables: &[Variable],
    futures: &[u16],
) -> Result<(), AllocError>
    ensures { OnOk result
        (out.new.items ≡ out.old.items
        ++ spaced (map future_word (map (name_at (variable_names variables.now)) futures.now))) }
{
    for future in futures {
        put_future(out, variable_name(variables, *future))?;
    }
    Ok(())
}

/// Writes a fixed word and the futures behind it, or nothing where there are none.
#[tactic(auto, using(crate::proofs::Putting::opened))]
pub fn put_list(
    out: &mut Vec<u8>,
    opening: &[u8],
    variables: &[Variable],
    futures: &[u16],
) -> Result<(), AllocError>
    ensures { OnOk result
        (out.new.items ≡ out.old.items
        ++ spaced (futures_words opening.now
        (map (name_at (variable_names variables.now)) futures.now))) }
{
    if futures.is_empty() {
        return Ok(());
    }
    put_word(out, opening)?;
    put_futures(out, variables, futures)
}
