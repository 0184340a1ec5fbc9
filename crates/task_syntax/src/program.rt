use crate::instr::Line;
use crate::list::List;
use crate::name::Name;
use crate::value::Priority;

/// What a variable holds.
#[derive(Debug, Clone, Copy, PartialEq, Eq)]
pub enum Sort {
    Number,
    Future,
}

/// A variable of a kind.
#[derive(Debug, Drop)]
pub struct Variable {
    pub name: Name,
    pub sort: Sort,
}

/// A state of a kind: the futures that it holds, those of them that are settled, and its code.
#[derive(Debug, Drop)]
pub struct State {
    pub line: u32,
    pub name: Name,
    pub holds: List<u16>,
    pub settled: List<u16>,
    pub code: List<Line>,
}

/// A kind of task. Its first `arguments` variables are its arguments, and its first state is its entry.
#[derive(Debug, Drop)]
pub struct Kind {
    pub line: u32,
    pub name: Name,
    pub arguments: u16,
    pub variables: List<Variable>,
    pub states: List<State>,
}

/// What a root passes: a number, or the future of an earlier root.
#[derive(Debug, Clone, Copy, PartialEq, Eq)]
pub enum RootArgument {
    Number(u64),
    Root(u8),
}

/// A task that is spawned from outside, before all others.
#[derive(Debug, Drop)]
pub struct Root {
    pub line: u32,
    pub name: Name,
    pub kind: u16,
    pub arguments: List<RootArgument>,
    pub behind: Option<u8>,
    pub priority: Priority,
}

/// A task program: its kinds of task and its roots, each in their order in the text.
#[derive(Debug, Drop)]
pub struct Program {
    pub kinds: List<Kind>,
    pub roots: List<Root>,
}
