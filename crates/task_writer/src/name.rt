ghost use Rattle.std.specs.Prelude.{◌≡◌};
ghost use Rattle.task_writer.specs.Lines.{name_at, kind_names, variable_names, state_names, label_names, root_names, label_of};

use task_syntax::{Instr, Kind, Line, Root, State, Variable};

/// The name of the kind at a position, or no bytes where there is none.
#[tactic(auto, using(crate::proofs::Named::named))]
pub fn kind_name(kinds: &[Kind], at: u16) -> &[u8]
    ensures { result.now ≡ name_at (kind_names kinds.now) at }
{
    match kinds.get(usize::from(at)) {
        Some(kind) => kind.name.as_bytes(),
        None => &[],
    }
}

/// The name of the variable at a position, or no bytes where there is none.
#[tactic(auto, using(crate::proofs::Named::named))]
pub fn variable_name(variables: &[Variable], at: u16) -> &[u8]
    ensures { result.now ≡ name_at (variable_names variables.now) at }
{
    match variables.get(usize::from(at)) {
        Some(variable) => variable.name.as_bytes(),
        None => &[],
    }
}

/// The name of the state at a position, or no bytes where there is none.
#[tactic(auto, using(crate::proofs::Named::named))]
pub fn state_name(states: &[State], at: u16) -> &[u8]
    ensures { result.now ≡ name_at (state_names states.now) at }
{
    match states.get(usize::from(at)) {
        Some(state) => state.name.as_bytes(),
        None => &[],
    }
}

fn label_of(instr: &Instr) -> &[u8]
    ensures { result.now ≡ label_of instr.now }
{
    match instr {
        Instr::Label { name } => name.as_bytes(),
        _ => &[],
    }
}

/// The name of the label at a position, or no bytes where there is none.
#[tactic(auto, using(crate::proofs::Named::named))]
pub fn label_name(code: &[Line], at: u16) -> &[u8]
    ensures { result.now ≡ name_at (label_names code.now) at }
{
    match code.get(usize::from(at)) {
        Some(line) => label_of(&line.instr),
        None => &[],
    }
}

/// The name of the root at a position, or no bytes where there is none.
#[tactic(auto, using(crate::proofs::Named::named))]
pub fn root_name(roots: &[Root], at: u8) -> &[u8]
    ensures { result.now ≡ name_at (root_names roots.now) at }
{
    match roots.get(usize::from(at)) {
        Some(root) => root.name.as_bytes(),
        None => &[],
    }
}
