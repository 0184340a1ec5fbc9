use task_syntax::{List, MathOp, Name, Priority, Relation};

/// A number as its value, or a number variable by its name.
#[derive(Debug, Drop)]
pub enum Term {
    Literal(u64),
    Variable(Name),
}

/// What a spawn passes: a number, or a future variable by its name.
#[derive(Debug, Drop)]
pub enum Passed {
    Number(Term),
    Future(Name),
}

/// An instruction with its names as they are written. The name of a future is kept without its `@`.
#[derive(Debug, Drop)]
pub enum Step {
    Set {
        to: Name,
        value: Term,
    },
    Math {
        op: MathOp,
        to: Name,
        left: Term,
        right: Term,
    },
    If {
        relation: Relation,
        left: Term,
        right: Term,
        target: Name,
    },
    Goto {
        target: Name,
    },
    Label {
        name: Name,
    },
    Cell {
        to: Name,
        column: Name,
        row: Term,
    },
    Rows {
        to: Name,
        column: Name,
    },
    Spawn {
        to: Name,
        kind: Name,
        arguments: List<Passed>,
        behind: Option<Name>,
        priority: Priority,
        retry: bool,
    },
    All {
        to: Name,
        members: List<Name>,
        priority: Priority,
        retry: bool,
    },
    Copy {
        to: Name,
        of: Name,
    },
    Drop {
        future: Name,
    },
    Get {
        to: Name,
        future: Name,
    },
    Again {
        target: Name,
        behind: Option<Name>,
        priority: Priority,
    },
    Done {
        value: Term,
    },
}
