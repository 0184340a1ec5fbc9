use crate::step::Step;
use task_syntax::{List, Name, Priority, Variable};

/// What a root passes: a number, or an earlier root by its name.
#[derive(Debug, Drop)]
pub enum RootTerm {
    Number(u64),
    Root(Name),
}

/// What a line says, with its names as they are written.
#[derive(Debug, Drop)]
pub enum What {
    Kind {
        name: Name,
        arguments: List<Variable>,
    },
    Var {
        variables: List<Variable>,
    },
    State {
        name: Name,
        holds: List<Name>,
        settled: List<Name>,
    },
    Step {
        step: Step,
    },
    End,
    Root {
        name: Name,
        kind: Name,
        arguments: List<RootTerm>,
        behind: Option<Name>,
        priority: Priority,
    },
}

/// A line with words behind the header, with its number in the text.
#[derive(Debug, Drop)]
pub struct Item {
    pub line: u32,
    pub what: What,
}
