ghost use Rattle.std.specs.Prelude.{◌≡◌, ◌+◌, ◌<◌, slice_index};
ghost use Rattle.task_syntax.specs.Places.{IsNumberAt};
ghost use Rattle.task_syntax.specs.Form.{IsFormedOperand};
ghost use Rattle.task_meaning.specs.Frame.{operand};
ghost use Rattle.frame_code.specs.Line.{IsLaidOut, FitsKind, SetsNumber, IsSet, IsPut, IsStep, numbers_of, operands_compare};

use crate::arithmetic::{compare, compute, number_or};
use task_syntax::{Columns, Instr, Kind, MathOp, Operand, Relation, Trap, Value};

/// What comes of one line.
pub enum Step {
    /// The task goes on at another line.
    Goes(u16),
    /// The task ends with a trap.
    Traps(Trap),
    /// The task stops there, and asks for something.
    Asks,
}

/// The number that an operand stands for.
pub fn read(kind: &Kind, places: &[u8], words: &[u64], of: Operand) -> u64
    requires laid_out { IsLaidOut kind.now places.now words.now }
    requires formed { IsFormedOperand kind.now of }
    ensures { result ≡ operand (numbers_of kind.now words.now) of }
{
    match of {
        Operand::Literal(number) => number,
        Operand::Variable(x) => words[places[x as usize] as usize],
    }
}

/// Sets a number variable.
fn set(kind: &Kind, places: &[u8], words: &mut [u64], to: u16, number: u64)
    requires laid_out { IsLaidOut kind.now places.now words.old }
    requires variable { IsNumberAt kind.now to }
    ensures { SetsNumber kind.now to number words.old words.new }
{
    words[places[to as usize] as usize] = number;
}

/// Sets a number variable and goes on. A trap ends the task.
fn put(kind: &Kind, places: &[u8], words: &mut [u64], at: u16, to: u16, value: Value) -> Step
    requires laid_out { IsLaidOut kind.now places.now words.old }
    requires variable { IsNumberAt kind.now to }
    requires near { at + 1 < 65536 }
    ensures step { IsPut kind.now value at to words.old result words.new }
    ensures head { slice_index words.new 0 ≡ slice_index words.old 0 }
{
    match value {
        Value::Number(number) => {
            set(kind, places, words, to, number);
            Step::Goes(at + 1)
        }
        Value::Trapped(trap) => Step::Traps(trap),
    }
}

/// The comparison holds of what two operands stand for.
fn holds(
    kind: &Kind,
    places: &[u8],
    words: &[u64],
    relation: Relation,
    left: Operand,
    right: Operand,
) -> bool
    requires laid_out { IsLaidOut kind.now places.now words.now }
    requires left { IsFormedOperand kind.now left }
    requires right { IsFormedOperand kind.now right }
    ensures { result ≡ operands_compare kind.now words.now relation left right }
{
    compare(
        relation,
        read(kind, places, words, left),
        read(kind, places, words, right),
    )
}

/// Carries out the instruction that sets a number, at a line.
fn set_line(
    kind: &Kind,
    instr: &Instr,
    columns: &Columns,
    places: &[u8],
    words: &mut [u64],
    at: u16,
) -> Step
    requires laid_out { IsLaidOut kind.now places.now words.old }
    requires fits { FitsKind kind.now instr.now }
    requires near { at + 1 < 65536 }
    requires sets { IsSet instr.now }
    ensures step { IsStep columns.now kind.now instr.now at words.old result words.new }
    ensures head { slice_index words.new 0 ≡ slice_index words.old 0 }
{
    match instr {
        Instr::Set { to, value } => {
            let number = read(kind, places, words, *value);
            put(kind, places, words, at, *to, Value::Number(number))
        }
        Instr::Math {
            op,
            to,
            left,
            right,
        } => {
            let left = read(kind, places, words, *left);
            let right = read(kind, places, words, *right);
            put(kind, places, words, at, *to, compute(*op, left, right))
        }
        Instr::Cell { to, column, row } => {
            let row = read(kind, places, words, *row);
            let cell = number_or(Trap::NoRow, columns.cell(column, row));
            put(kind, places, words, at, *to, cell)
        }
        Instr::Rows { to, column } => {
            let rows = columns.rows(column);
            put(kind, places, words, at, *to, Value::Number(rows))
        }
        _ => unreachable!(),
    }
}

/// Carries out the instruction at a line, unless the task always stops there.
pub fn carry_out(
    kind: &Kind,
    instr: &Instr,
    columns: &Columns,
    places: &[u8],
    words: &mut [u64],
    at: u16,
) -> Step
    requires laid_out { IsLaidOut kind.now places.now words.old }
    requires fits { FitsKind kind.now instr.now }
    requires near { at + 1 < 65536 }
    ensures step { IsStep columns.now kind.now instr.now at words.old result words.new }
    ensures head { slice_index words.new 0 ≡ slice_index words.old 0 }
{
    match instr {
        Instr::Set { .. } | Instr::Math { .. } | Instr::Cell { .. } | Instr::Rows { .. } => {
            set_line(kind, instr, columns, places, words, at)
        }
        Instr::If {
            relation,
            left,
            right,
            target,
        } => {
            if holds(kind, places, words, *relation, *left, *right) {
                Step::Goes(*target)
            } else {
                Step::Goes(at + 1)
            }
        }
        Instr::Goto { target } => Step::Goes(*target),
        Instr::Label { .. } => Step::Goes(at + 1),
        Instr::Spawn { .. }
        | Instr::All { .. }
        | Instr::Copy { .. }
        | Instr::Drop { .. }
        | Instr::Get { .. }
        | Instr::Again { .. }
        | Instr::Done { .. } => Step::Asks,
    }
}
