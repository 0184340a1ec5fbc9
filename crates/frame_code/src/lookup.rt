ghost use Rattle.std.specs.Prelude.{◌≡◌, ◌<◌, Some, length, slice_get};

use task_syntax::{Kind, Line, List, Program, State};

/// The item at a position of a list.
fn item<T>(items: &List<T>, at: u16) -> &T
    requires { at < length items.now }
    ensures { slice_get items.now at ≡ Some result.now }
{
    &items.as_slice()[at as usize]
}

/// The kind at a position.
pub fn kind_at(program: &Program, kind: u16) -> &Kind
    requires { kind < length program.now.kinds }
    ensures { slice_get program.now.kinds kind ≡ Some result.now }
{
    item(&program.kinds, kind)
}

/// The state of a kind at a position.
pub fn state_at(kind: &Kind, state: u16) -> &State
    requires { state < length kind.now.states }
    ensures { slice_get kind.now.states state ≡ Some result.now }
{
    item(&kind.states, state)
}

/// The line of a state at a position.
pub fn line_at(state: &State, at: u16) -> &Line
    requires { at < length state.now.code }
    ensures { slice_get state.now.code at ≡ Some result.now }
{
    item(&state.code, at)
}
