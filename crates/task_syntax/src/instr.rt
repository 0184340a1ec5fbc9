use crate::list::List;
use crate::name::Name;
use crate::value::Priority;

/// A number written in the program, or the number variable at a position.
#[derive(Debug, Clone, Copy, PartialEq, Eq)]
pub enum Operand {
    Literal(u64),
    Variable(u16),
}

/// What a spawn passes: a number, or the future of the variable at a position.
#[derive(Debug, Clone, Copy, PartialEq, Eq)]
pub enum Argument {
    Number(Operand),
    Future(u16),
}

/// The five operations on 64-bit numbers.
#[derive(Debug, Clone, Copy, PartialEq, Eq)]
pub enum MathOp {
    Add,
    Sub,
    Mul,
    Div,
    Rem,
}

/// The four comparisons of a conditional jump: `<`, `<=`, `==` and `!=`.
#[derive(Debug, Clone, Copy, PartialEq, Eq)]
pub enum Relation {
    Less,
    AtMost,
    Equal,
    Differs,
}

/// One instruction. Variables, kinds and states are named by position, counted from 0,
/// and a jump's target is the position of its label in the code of the state.
#[derive(Debug, Drop)]
pub enum Instr {
    Set {
        to: u16,
        value: Operand,
    },
    Math {
        op: MathOp,
        to: u16,
        left: Operand,
        right: Operand,
    },
    If {
        relation: Relation,
        left: Operand,
        right: Operand,
        target: u16,
    },
    Goto {
        target: u16,
    },
    Label {
        name: Name,
    },
    Cell {
        to: u16,
        column: Name,
        row: Operand,
    },
    Rows {
        to: u16,
        column: Name,
    },
    Spawn {
        to: u16,
        kind: u16,
        arguments: List<Argument>,
        behind: Option<u16>,
        priority: Priority,
        retry: bool,
    },
    All {
        to: u16,
        members: List<u16>,
        priority: Priority,
        retry: bool,
    },
    Copy {
        to: u16,
        of: u16,
    },
    Drop {
        future: u16,
    },
    Get {
        to: u16,
        future: u16,
    },
    Again {
        target: u16,
        behind: Option<u16>,
        priority: Priority,
    },
    Done {
        value: Operand,
    },
}

/// An instruction with the number of its line in the text, counted from 1.
#[derive(Debug, Drop)]
pub struct Line {
    pub line: u32,
    pub instr: Instr,
}
