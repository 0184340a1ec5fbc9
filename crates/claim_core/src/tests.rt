use crate::ClaimBits;
use std::test::Fail;

#[test]
fn reserves_before_it_claims(rt: HostRuntime) -> Result<(), Fail> {
    let mut bits = ClaimBits::new(2);
    assert_eq!(rt; bits.bits(), 2);
    assert!(rt; bits.reserve(2));
    assert_eq!(rt; bits.claim(), 0);
    assert!(rt; bits.reserve(2));
    assert_eq!(rt; bits.claim(), 1);
    assert!(rt; !bits.reserve(2));
    bits.clear(0);
    assert!(rt; !bits.is_set(0));
    assert!(rt; !bits.reserve(2));
    bits.settle();
    assert_eq!(rt; bits.count(), 1);
    assert!(rt; bits.reserve(2));
    assert_eq!(rt; bits.claim(), 0);
    Ok(())
}
