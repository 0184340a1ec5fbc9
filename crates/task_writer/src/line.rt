ghost use Rattle.std.specs.Prelude.{◌≡◌, ◌≤◌, ◌++◌, ◌∷◌, [], codes, map, length, OnOk};
ghost use Rattle.task_writer.specs.Lines.{name_at, kind_names, variable_names, root_names, names_in, code_lines, state_lines, var_lines, kind_lines, root_line, HaveArguments};
ghost use Rattle.std.specs.List.{flat_map};
ghost use Rattle.task_writer.specs.Words.{variable_word, futures_words, line_words};
ghost use Rattle.task_writer.specs.Text.{line_text, text_of_lines};

use crate::instr::put_step;
use crate::list::{put_list, put_root_arguments, put_variables};
use crate::name::kind_name;
use crate::part::{put_priority, put_root_behind};
use crate::word::{put_end, put_first, put_word};
use std::alloc::AllocError;
use task_syntax::{Kind, Line, Root, State, Variable};

/// Writes `end`.
#[tactic(auto, using(crate::proofs::Putting::lines))]
fn put_kind_end(out: &mut Vec<u8>) -> Result<(), AllocError>
    ensures { OnOk result (out.new.items ≡ out.old.items ++ line_text (codes "end" ∷ [])) }
{
    put_first(out, b"end")?;
    put_end(out)
}

/// Writes the line of a state.
#[tactic(auto, using(crate::proofs::Putting::lines))]
fn put_state_line(
    out: &mut Vec<u8>,
    variables: &[Variable],
    state: &State,
) -> Result<(), AllocError>
    ensures { OnOk result
        (out.new.items ≡ out.old.items
        ++ line_text (codes "state" ∷ state.now.name
        ∷ (futures_words (codes "holds")
        (map (name_at (variable_names variables.now)) state.now.holds)
        ++ futures_words (codes "settled")
        (map (name_at (variable_names variables.now)) state.now.settled)))) }
{
    put_first(out, b"state")?;
    put_word(out, state.name.as_bytes())?;
    put_list(out, b"holds", variables, state.holds.as_slice())?;
    put_list(out, b"settled", variables, state.settled.as_slice())?;
    put_end(out)
}

/// Writes the lines of instructions of a state.
fn put_code(
    out: &mut Vec<u8>,
    kinds: &[Kind],
    kind: &Kind,
    state: &State,
    code: &[Line],
) -> Result<(), AllocError>
    ensures { OnOk result
        (out.new.items ≡ out.old.items
        ++ text_of_lines (code_lines (names_in (kind_names kinds.now) kind.now state.now)
        code.now)) }
{
    for line in code {
        put_step(out, kinds, kind, state, &line.instr)?;
    }
    Ok(())
}

/// Writes the lines of a state.
#[tactic(auto, using(crate::proofs::PuttingLines::kinds))]
fn put_state(
    out: &mut Vec<u8>,
    kinds: &[Kind],
    kind: &Kind,
    state: &State,
) -> Result<(), AllocError>
    ensures { OnOk result
        (out.new.items ≡ out.old.items
        ++ text_of_lines (state_lines (kind_names kinds.now) kind.now state.now)) }
{
    put_state_line(out, kind.variables.as_slice(), state)?;
    put_code(out, kinds, kind, state, state.code.as_slice())
}

/// Writes the lines of states of a kind.
fn put_states(
    out: &mut Vec<u8>,
    kinds: &[Kind],
    kind: &Kind,
    states: &[State],
) -> Result<(), AllocError>
    ensures { OnOk result
        (out.new.items ≡ out.old.items
        ++ text_of_lines (flat_map (state_lines (kind_names kinds.now) kind.now) states.now)) }
{
    for state in states {
        put_state(out, kinds, kind, state)?;
    }
    Ok(())
}

/// Writes the line of a kind.
#[tactic(auto, using(crate::proofs::Putting::lines))]
fn put_kind_line(out: &mut Vec<u8>, name: &[u8], arguments: &[Variable]) -> Result<(), AllocError>
    ensures { OnOk result
        (out.new.items ≡ out.old.items
        ++ line_text (codes "kind" ∷ name.now ∷ map variable_word arguments.now)) }
{
    put_first(out, b"kind")?;
    put_word(out, name)?;
    put_variables(out, arguments)?;
    put_end(out)
}

/// Writes the line of the local variables, where there are any.
#[tactic(auto, using(crate::proofs::PuttingLines::kinds))]
fn put_locals(out: &mut Vec<u8>, locals: &[Variable]) -> Result<(), AllocError>
    ensures { OnOk result (out.new.items ≡ out.old.items ++ text_of_lines (var_lines locals.now)) }
{
    if locals.is_empty() {
        return Ok(());
    }
    put_first(out, b"var")?;
    put_variables(out, locals)?;
    put_end(out)
}

/// Writes the lines of a kind.
#[tactic(auto, using(crate::proofs::PuttingLines::kinds))]
fn put_kind(out: &mut Vec<u8>, kinds: &[Kind], kind: &Kind) -> Result<(), AllocError>
    requires { kind.now.arguments ≤ length kind.now.variables }
    ensures { OnOk result
        (out.new.items ≡ out.old.items
        ++ text_of_lines (kind_lines (kind_names kinds.now) kind.now)) }
{
    let (arguments, locals) = kind
        .variables
        .as_slice()
        .split_at(usize::from(kind.arguments));
    put_kind_line(out, kind.name.as_bytes(), arguments)?;
    put_locals(out, locals)?;
    put_states(out, kinds, kind, kind.states.as_slice())?;
    put_kind_end(out)
}

/// Writes the lines of all kinds.
#[tactic(auto, using(crate::proofs::PuttingLines::arguments_here))]
pub fn put_kinds(out: &mut Vec<u8>, kinds: &[Kind]) -> Result<(), AllocError>
    requires { HaveArguments kinds.now }
    ensures { OnOk result
        (out.new.items ≡ out.old.items
        ++ text_of_lines (flat_map (kind_lines (kind_names kinds.now)) kinds.now)) }
{
    for kind in kinds {
        put_kind(out, kinds, kind)?;
    }
    Ok(())
}

/// Writes the line of a root.
#[tactic(auto, unfolding(crate::specs::Lines::root_line), using(crate::proofs::Putting::lines))]
fn put_root(
    out: &mut Vec<u8>,
    kinds: &[Kind],
    roots: &[Root],
    root: &Root,
) -> Result<(), AllocError>
    ensures { OnOk result
        (out.new.items ≡ out.old.items
        ++ line_text (line_words
        (root_line (kind_names kinds.now) (root_names roots.now) root.now))) }
{
    put_first(out, b"root")?;
    put_word(out, root.name.as_bytes())?;
    put_word(out, kind_name(kinds, root.kind))?;
    put_root_arguments(out, roots, root.arguments.as_slice())?;
    put_root_behind(out, roots, root.behind)?;
    put_priority(out, root.priority)?;
    put_end(out)
}

/// Writes the lines of all roots.
pub fn put_roots(out: &mut Vec<u8>, kinds: &[Kind], roots: &[Root]) -> Result<(), AllocError>
    ensures { OnOk result
        (out.new.items ≡ out.old.items
        ++ text_of_lines (map (root_line (kind_names kinds.now) (root_names roots.now))
        roots.now)) }
{
    for root in roots {
        put_root(out, kinds, roots, root)?;
    }
    Ok(())
}
