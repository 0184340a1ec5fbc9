//! A program whose first kind has no variables.
ghost use Rattle.std.specs.Prelude.{IsTrue};
ghost use Rattle.table_records.specs.Plain.{IsPlain, IsPlainKind, IsPlainRoot};

use task_syntax::Program;

// Whether the first kind has no variables, and its first state holds none and has code.
fn has_plain_kind(program: &Program) -> bool
    ensures { IsTrue result → IsPlainKind program.now }
{
    let Some(kind) = program.kinds.get(0) else {
        return false;
    };
    let Some(state) = kind.states.get(0) else {
        return false;
    };
    let bare = kind.arguments == 0 && kind.variables.len() == 0;
    bare && state.holds.len() == 0 && state.code.len() > 0
}

// Whether the first root is a task of that kind, behind none.
fn has_plain_root(program: &Program) -> bool
    ensures { IsTrue result → IsPlainRoot program.now }
{
    let Some(root) = program.roots.get(0) else {
        return false;
    };
    root.kind == 0 && root.arguments.len() == 0 && root.behind.is_none()
}

/// Whether records can be made for the program: its first kind has no variables, and its first root
/// is a task of that kind.
pub fn is_plain(program: &Program) -> bool
    ensures { IsTrue result → IsPlain program.now }
{
    has_plain_kind(program) && has_plain_root(program)
}
