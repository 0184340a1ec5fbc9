//! The steps of asking for roots.
ghost use Rattle.std.specs.Prelude.{◌≡◌, ◌<◌, ◌≤◌, ◌∷◌, []};
ghost use Rattle.table_core.specs.Holdings.{Record, Null};
ghost use Rattle.step_table.specs.Passes.{view, plan, IsOf};
ghost use Rattle.reference_rows.specs.Roots.{MayBeFirst, HasRoots};

use crate::making::settle;
use crate::tables::opened;
use std::process::Abort;
use std::test::Fail;
use step_table::{Future, NamedRoot, OwnWord, Pass, RootWord, Shared};

// The first root gets the record at the unit, and the reference to it.
fn name_record(rt: &impl Abort, shared: &Shared, pass: &mut Pass, unit: u32)
    requires table { IsOf shared.now pass.old }
    requires may { MayBeFirst (plan shared.now) unit (view pass.old) }
    ensures table { IsOf shared.now pass.new }
    ensures roots { HasRoots (plan shared.now) unit (Record unit ∷ []) [] (view pass.new) }
{
    assert!(rt; shared.plan().roots == 2);
    let future = Future::of(pass, unit);
    shared.name(pass, 0, RootWord::Record(future));
    assert_eq!(rt; pass.named(0), Some(NamedRoot::Record(unit)));
    assert_eq!(rt; pass.named(1), None);
}

// The second root gets none. The pass has no reference then.
fn name_null(rt: &impl Abort, shared: &Shared, pass: &mut Pass, unit: u32)
    requires table { IsOf shared.now pass.old }
    requires roots { HasRoots (plan shared.now) unit (Record unit ∷ []) [] (view pass.old) }
    ensures table { IsOf shared.now pass.new }
    ensures roots { HasRoots (plan shared.now) unit (Record unit ∷ Null ∷ []) [] (view pass.new) }
    ensures held { pass.new.held ≡ 0 }
{
    assert!(rt; shared.plan().roots == 2);
    shared.name(pass, 1, RootWord::Null);
    assert_eq!(rt; pass.named(1), Some(NamedRoot::Null));
    pass.keep_count(0);
}

// A reference is taken through the first root.
fn refer(rt: &impl Abort, shared: &Shared, pass: &mut Pass, unit: u32)
    requires table { IsOf shared.now pass.old }
    requires roots { HasRoots (plan shared.now) unit (Record unit ∷ Null ∷ []) [] (view pass.old) }
    requires none { pass.old.held ≡ 0 }
    ensures table { IsOf shared.now pass.new }
    ensures roots { HasRoots (plan shared.now) unit (Record unit ∷ Null ∷ []) (unit ∷ [])
        (view pass.new) }
{
    let future = shared.more_root(pass, 0);
    assert_eq!(rt; (future.unit(), pass.held()), (unit, 1));
    let references = shared.read_own(pass, unit, OwnWord::References);
    assert_eq!(rt; references, 3);
}

// It is given up.
fn give_back(rt: &impl Abort, shared: &Shared, pass: &mut Pass, unit: u32)
    requires table { IsOf shared.now pass.old }
    requires roots { HasRoots (plan shared.now) unit (Record unit ∷ Null ∷ []) (unit ∷ [])
        (view pass.old) }
    ensures table { IsOf shared.now pass.new }
{
    let future = Future::of(pass, unit);
    let last = shared.less(pass, future);
    assert!(rt; last.is_none());
    let references = shared.read_own(pass, unit, OwnWord::References);
    assert_eq!(rt; references, 2);
}

#[test]
fn roots_hold_references(rt: HostRuntime) -> Result<(), Fail> {
    let (shared, mut pass, maker) = opened(&rt, rt.alloc())?;
    let finishing = settle(&shared, &mut pass, maker);
    let unit = finishing.unit();
    name_record(&rt, &shared, &mut pass, unit);
    name_null(&rt, &shared, &mut pass, unit);
    refer(&rt, &shared, &mut pass, unit);
    give_back(&rt, &shared, &mut pass, unit);
    Ok(())
}
