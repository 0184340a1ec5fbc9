ghost use Rattle.std.specs.Prelude.{◌≡◌};
ghost use Rattle.task_meaning.specs.Arithmetic.{computed, compares, number_or as number_or_trap};

use task_syntax::{MathOp, Relation, Trap, Value};

/// The number, where there is one, else the trap.
pub fn number_or(trap: Trap, number: Option<u64>) -> Value
    ensures { result ≡ number_or_trap trap number }
{
    match number {
        Some(number) => Value::Number(number),
        None => Value::Trapped(trap),
    }
}

/// An operation on two numbers.
pub fn compute(op: MathOp, left: u64, right: u64) -> Value
    ensures { result ≡ computed op left right }
{
    match op {
        MathOp::Add => number_or(Trap::Overflow, left.checked_add(right)),
        MathOp::Sub => number_or(Trap::Overflow, left.checked_sub(right)),
        MathOp::Mul => number_or(Trap::Overflow, left.checked_mul(right)),
        MathOp::Div => number_or(Trap::Divide, left.checked_div(right)),
        MathOp::Rem => number_or(Trap::Divide, left.checked_rem(right)),
    }
}

/// The comparison holds of two numbers.
pub fn compare(relation: Relation, left: u64, right: u64) -> bool
    ensures { result ≡ compares relation left right }
{
    match relation {
        Relation::Less => left < right,
        Relation::AtMost => left <= right,
        Relation::Equal => left == right,
        Relation::Differs => left != right,
    }
}
