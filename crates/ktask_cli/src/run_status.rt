ghost use Rattle.std.specs.Prelude.{◌≡◌, if◌then◌else◌};
ghost use Rattle.ktask_cli.specs.RunStatus.{status_of_ends, is_null, is_limit, is_trap};

use record_core::{CutTag, Ended, RootEnd};
use task_syntax::Value;

/// The exit status of a run by how its roots ended.
pub(crate) fn status_of_ends<E: Ended>(end: &E) -> u8
    ensures { result ≡ status_of_ends (E.seen end.now).roots }
{
    let mut null = false;
    let mut limit = false;
    let mut trap = false;
    'roots: for at in 0..end.root_count() {
        let root = end.root(at);
        null |= is_null(root);
        limit |= is_limit(root);
        trap |= is_trap(root);
    }
    status(null, limit, trap)
}

/// The status where roots of these kinds are there.
fn status(null: bool, limit: bool, trap: bool) -> u8
    ensures { result ≡ (if null then 3 else (if limit then 4 else (if trap then 1 else 0))) }
{
    if null {
        3
    } else if limit {
        4
    } else if trap {
        1
    } else {
        0
    }
}

fn is_null(end: RootEnd) -> bool
    ensures { result ≡ is_null end }
{
    matches!(end, RootEnd::Cut(CutTag::Null, _))
}

fn is_limit(end: RootEnd) -> bool
    ensures { result ≡ is_limit end }
{
    matches!(end, RootEnd::Cut(CutTag::Limit, _))
}

fn is_trap(end: RootEnd) -> bool
    ensures { result ≡ is_trap end }
{
    matches!(end, RootEnd::Value(Value::Trapped(_)))
}
