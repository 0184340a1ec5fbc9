//! The task language as data: programs, the values that tasks give, and columns of numbers.
//!
//! `specs/Form.antt` says which programs are well formed, and `specs/Valid.antt` which of these are valid.
#![tactic(auto)]

mod checked;
mod columns;
mod instr;
mod list;
mod memory;
mod name;
mod program;
#[cfg(test)]
mod tests;
mod value;

pub use checked::Checked;
pub use columns::Columns;
pub use instr::{Argument, Instr, Line, MathOp, Operand, Relation};
pub use list::List;
pub use memory::Memory;
pub use name::Name;
pub use program::{Kind, Program, Root, RootArgument, Sort, State, Variable};
pub use value::{Priority, Trap, Value};
