ghost use Rattle.std.specs.Prelude.{◌≡◌, ◌++◌, ◌∷◌, [], option_map, OnOk};
ghost use Rattle.task_lines.specs.Grammar.{behind_words, retry_words};
ghost use Rattle.task_writer.specs.Lines.{name_at, variable_names, root_names, term_of, passed_of, root_term_of};
ghost use Rattle.task_writer.specs.Words.{term_word, passed_word, root_term_word, variable_word, priority_words};
ghost use Rattle.task_writer.specs.Text.{spaced};

use crate::name::{root_name, variable_name};
use crate::word::{put_future, put_number, put_word};
use std::alloc::AllocError;
use task_syntax::{Argument, Operand, Priority, Root, RootArgument, Sort, Variable};

/// Writes an operand.
pub fn put_operand(
    out: &mut Vec<u8>,
    variables: &[Variable],
    operand: Operand,
) -> Result<(), AllocError>
    ensures { OnOk result
        (out.new.items ≡ out.old.items
        ++ spaced (term_word (term_of (variable_names variables.now) operand) ∷ [])) }
{
    match operand {
        Operand::Literal(number) => put_number(out, number),
        Operand::Variable(at) => put_word(out, variable_name(variables, at)),
    }
}

/// Writes what a spawn passes.
pub fn put_argument(
    out: &mut Vec<u8>,
    variables: &[Variable],
    argument: Argument,
) -> Result<(), AllocError>
    ensures { OnOk result
        (out.new.items ≡ out.old.items
        ++ spaced (passed_word (passed_of (variable_names variables.now) argument) ∷ [])) }
{
    match argument {
        Argument::Number(operand) => put_operand(out, variables, operand),
        Argument::Future(at) => put_future(out, variable_name(variables, at)),
    }
}

/// Writes what a root passes.
pub fn put_root_argument(
    out: &mut Vec<u8>,
    roots: &[Root],
    argument: RootArgument,
) -> Result<(), AllocError>
    ensures { OnOk result
        (out.new.items ≡ out.old.items
        ++ spaced (root_term_word (root_term_of (root_names roots.now) argument) ∷ [])) }
{
    match argument {
        RootArgument::Number(number) => put_number(out, number),
        RootArgument::Root(at) => put_future(out, root_name(roots, at)),
    }
}

/// Writes a variable, a future with its `@`.
pub fn put_variable(out: &mut Vec<u8>, variable: &Variable) -> Result<(), AllocError>
    ensures { OnOk result
        (out.new.items ≡ out.old.items ++ spaced (variable_word variable.now ∷ [])) }
{
    match variable.sort {
        Sort::Number => put_word(out, variable.name.as_bytes()),
        Sort::Future => put_future(out, variable.name.as_bytes()),
    }
}

/// Writes the predecessor of a spawn, where it has one.
#[tactic(auto, using(crate::proofs::Putting::parts))]
pub fn put_behind(
    out: &mut Vec<u8>,
    variables: &[Variable],
    behind: Option<u16>,
) -> Result<(), AllocError>
    ensures { OnOk result
        (out.new.items ≡ out.old.items
        ++ spaced (behind_words (option_map (name_at (variable_names variables.now)) behind))) }
{
    match behind {
        Some(at) => put_behind_name(out, variable_name(variables, at)),
        None => Ok(()),
    }
}

/// Writes the predecessor of a root, where it has one.
#[tactic(auto, using(crate::proofs::Putting::parts))]
pub fn put_root_behind(
    out: &mut Vec<u8>,
    roots: &[Root],
    behind: Option<u8>,
) -> Result<(), AllocError>
    ensures { OnOk result
        (out.new.items ≡ out.old.items
        ++ spaced (behind_words (option_map (name_at (root_names roots.now)) behind))) }
{
    match behind {
        Some(at) => put_behind_name(out, root_name(roots, at)),
        None => Ok(()),
    }
}

#[tactic(auto, using(crate::proofs::Putting::parts))]
fn put_behind_name(out: &mut Vec<u8>, name: &[u8]) -> Result<(), AllocError>
    ensures { OnOk result (out.new.items ≡ out.old.items ++ spaced (behind_words (Some name.now))) }
{
    put_word(out, b"behind")?;
    put_future(out, name)
}

/// Writes a priority, unless it is regular.
#[tactic(auto, using(crate::proofs::Putting::parts))]
pub fn put_priority(out: &mut Vec<u8>, priority: Priority) -> Result<(), AllocError>
    ensures { OnOk result (out.new.items ≡ out.old.items ++ spaced (priority_words priority)) }
{
    match priority {
        Priority::High => put_word(out, b"high"),
        Priority::Regular => Ok(()),
        Priority::Low => put_word(out, b"low"),
    }
}

/// Writes that a spawn is tried again.
#[tactic(auto, using(crate::proofs::Putting::parts))]
pub fn put_retry(out: &mut Vec<u8>, retry: bool) -> Result<(), AllocError>
    ensures { OnOk result (out.new.items ≡ out.old.items ++ spaced (retry_words retry)) }
{
    if retry {
        put_word(out, b"retry")
    } else {
        Ok(())
    }
}
