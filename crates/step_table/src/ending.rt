ghost use Rattle.std.specs.Prelude.{◌≡◌};
ghost use Rattle.schedule_rule.specs.Results.{tag_for};
ghost use Rattle.table_core.specs.Story.{Gave};
ghost use Rattle.step_table.specs.Endings.{outcome_of};

use kt_words::Tag;
use record_core::CutTag;
use task_syntax::{Trap, Value};

/// How a task ends.
#[derive(Debug, Clone, Copy, PartialEq, Eq)]
pub enum Ending {
    /// It gives this value.
    Gave(Value),
    /// It is cut, since the pool had no block.
    Null,
    /// It is cut, since the limit of activations was met.
    Limit,
    /// It is cut, since it is behind this task, which ended with this tag.
    Behind(u32, CutTag),
}

// The tag of a value.
fn tag_of_value(value: Value) -> Tag
    ensures { result ≡ tag_for (Gave value) }
{
    match value {
        Value::Number(_) => Tag::Number,
        Value::Trapped(Trap::Overflow) => Tag::Overflow,
        Value::Trapped(Trap::Divide) => Tag::Divide,
        Value::Trapped(Trap::NoRow) => Tag::NoRow,
    }
}

impl Ending {
    /// What the state word of a record says whose task ends so.
    pub fn tag(self) -> Tag
        ensures { result ≡ tag_for (outcome_of self) }
    {
        match self {
            Ending::Gave(value) => tag_of_value(value),
            Ending::Null => Tag::Null,
            Ending::Limit => Tag::Limit,
            Ending::Behind(_, CutTag::Null) => Tag::Null,
            Ending::Behind(_, CutTag::Limit) => Tag::Limit,
        }
    }
}
