use super::*;
use std::sync::Wait;
use std::test::Fail;
use task_syntax::Priority;

mod stress;

fn ready(unit: u32, number: u32, priority: Priority) -> Entry {
    Entry {
        unit,
        number,
        priority,
    }
}

// The answers of a store with one place for each priority: to three pushes, two takes at once and
// one more.
fn answers<Q: ReadyStore, R: Wait>(
    rt: &R,
    store: &Q,
    qpass: &mut Q::QPass,
) -> ([Result<(), Entry>; 3], [Option<Entry>; 3])
    requires { Q.is_pass store.now qpass.old }
{
    let first = store.push(rt, qpass, ready(1, 10, Priority::Regular));
    let second = store.push(rt, qpass, ready(2, 20, Priority::Regular));
    let third = store.push(rt, qpass, ready(3, 30, Priority::High));
    let (high, regular) = take_twice(store, rt, qpass);
    let none = store.take(rt, qpass);
    ([first, second, third], [high, regular, none])
}

const EXPECTED: ([Result<(), Entry>; 3], [Option<Entry>; 3]) = (
    [
        Ok(()),
        Err(Entry {
            unit: 2,
            number: 20,
            priority: Priority::Regular,
        }),
        Ok(()),
    ],
    [
        Some(Entry {
            unit: 3,
            number: 30,
            priority: Priority::High,
        }),
        Some(Entry {
            unit: 1,
            number: 10,
            priority: Priority::Regular,
        }),
        None,
    ],
);

#[test]
fn one_place_under_a_lock(rt: HostRuntime) -> Result<(), Fail> {
    let (store, mut qpass) = MutexReady::new(rt.alloc(), 1)?;
    assert!(rt; answers(&rt, &store, &mut qpass) == EXPECTED);
    Ok(())
}

#[test]
fn one_place_without_a_lock(rt: HostRuntime) -> Result<(), Fail> {
    sole_knows();
    let (store, mut qpass) = RuledReady::new(rt.alloc(), 1)?;
    assert!(rt; answers(&rt, &store, &mut qpass) == EXPECTED);
    Ok(())
}
