use crate::PlainPool;
use kt_words::Geometry;
use std::test::Fail;

#[test]
fn class_follows_the_last_block(rt: HostRuntime) -> Result<(), Fail> {
    let geometry = Geometry::new(2, 8).ok_or("no geometry")?;
    let mut pool = PlainPool::new(rt.alloc(), geometry)?;
    let first = pool.allocate(0).ok_or("no room")?;
    assert_eq!(rt; first.unit(), 0);
    pool.release(first);
    let pair = pool.allocate(1).ok_or("no room")?;
    assert_eq!(rt; (pair.unit(), pair.class()), (0, 1));
    assert_eq!(rt; pool.class(0), 1);
    assert_eq!(rt; pool.count(0), 1);
    assert_eq!(rt; pool.ever(0), 2);
    assert!(rt; pool.claimed(0, 0));
    assert!(rt; !pool.claimed(0, 1));
    assert_eq!(rt; pool.word(0).pack(), 2_162_689);
    let other = pool.allocate(0).ok_or("no room")?;
    assert_eq!(rt; other.unit(), 8);
    assert!(rt; pool.allocate(3).is_none());
    Ok(())
}

#[test]
fn full_in_its_class(rt: HostRuntime) -> Result<(), Fail> {
    let geometry = Geometry::new(1, 8).ok_or("no geometry")?;
    let mut pool = PlainPool::new(rt.alloc(), geometry)?;
    let all = pool.allocate(3).ok_or("no room")?;
    assert_eq!(rt; (all.unit(), all.class()), (0, 3));
    assert!(rt; pool.allocate(3).is_none());
    Ok(())
}

#[test]
fn the_first_with_room_gives(rt: HostRuntime) -> Result<(), Fail> {
    let geometry = Geometry::new(130, 8).ok_or("no geometry")?;
    let mut pool = PlainPool::new(rt.alloc(), geometry)?;
    for superblock in 0..130 {
        let whole = pool.allocate(3).ok_or("no room")?;
        assert_eq!(rt; whole.unit(), 8 * superblock);
        if superblock == 70 {
            pool.release(whole);
            let half = pool.allocate(2).ok_or("no room")?;
            assert_eq!(rt; half.unit(), 560);
        }
    }
    assert!(rt; pool.allocate(3).is_none());
    assert!(rt; pool.allocate(1).is_none());
    let half = pool.allocate(2).ok_or("no room")?;
    assert_eq!(rt; half.unit(), 564);
    pool.release(half);
    let again = pool.allocate(2).ok_or("no room")?;
    assert_eq!(rt; again.unit(), 564);
    assert!(rt; pool.allocate(2).is_none());
    Ok(())
}
