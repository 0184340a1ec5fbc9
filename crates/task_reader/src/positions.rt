use task_syntax::{List, Name, Variable};

/// The names that have positions in a kind.
#[derive(Debug, Drop)]
pub struct Positions {
    pub kinds: List<Name>,
    pub variables: List<Variable>,
    pub states: List<Name>,
}
