//! Each step of the pool is made once by itself.
use crate::tests::table;
use kt_words::Geometry;
use std::test::Fail;

#[test]
fn reserves_and_claims(rt: HostRuntime) -> Result<(), Fail> {
    let geometry = Geometry::new(2, 8).ok_or("no geometry")?;
    let (shared, mut pass) = table(rt.alloc(), geometry)?;
    let room = shared.plan().geometry.cap(2);
    assert!(rt; room == 2 && shared.plan().geometry.superblocks == 2);
    let seen = shared.look(&mut pass, 1, 2);
    assert!(rt; seen.count == 0 && seen.class == 0 && seen.ever == 0);
    let Ok(first) = shared.reserve(&mut pass, 1, seen, 2) else {
        panic!(rt; "no place")
    };
    let Ok(block) = shared.claim(&mut pass, first, 0) else {
        panic!(rt; "no block")
    };
    assert_eq!(rt; (block.unit(), block.class()), (8, 2));
    let Err(now) = shared.reserve(&mut pass, 1, seen, 2) else {
        panic!(rt; "an old word")
    };
    assert!(rt; now.count == 1 && now.class == 2 && now.ever == 1);
    let Ok(second) = shared.reserve(&mut pass, 1, now, 2) else {
        panic!(rt; "no second place")
    };
    let Err((second, found)) = shared.claim(&mut pass, second, 0) else {
        panic!(rt; "a block twice")
    };
    assert_eq!(rt; (second.class(), found), (2, 1));
    assert_eq!(rt; pass.start(2), 1);
    Ok(())
}

#[test]
fn clears_and_settles(rt: HostRuntime) -> Result<(), Fail> {
    let geometry = Geometry::new(2, 8).ok_or("no geometry")?;
    let (shared, mut pass) = table(rt.alloc(), geometry)?;
    assert!(rt; shared.plan().geometry.superblocks == 2);
    let seen = shared.look(&mut pass, 1, 3);
    assert!(rt; seen.count == 0);
    let Ok(place) = shared.reserve(&mut pass, 1, seen, 3) else {
        panic!(rt; "no place")
    };
    let Ok(block) = shared.claim(&mut pass, place, 0) else {
        panic!(rt; "no block")
    };
    let debt = shared.clear(&mut pass, block);
    let counted = shared.look(&mut pass, 1, 3);
    assert_eq!(rt; counted.count, 1);
    shared.settle(&mut pass, debt);
    let settled = shared.look(&mut pass, 1, 0);
    assert_eq!(rt; (settled.count, settled.class, settled.ever), (0, 3, 1));
    let last = pass.last_look(1);
    assert_eq!(rt; (last.word, last.class), (3 * 65_536 + 1_048_576, 0));
    Ok(())
}
