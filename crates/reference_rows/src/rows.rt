//! Worked rows.
use crate::filling::filled;
use crate::hand::{check, clone_one, drop_one, give_up_one};
use kt_words::Phase;
use std::test::Fail;

#[test]
fn last_reference_frees_the_record(rt: HostRuntime) -> Result<(), Fail> {
    let (shared, pass, hand) = filled(&rt, rt.alloc(), 0)?;
    let mut pass = pass;
    let mut hand = hand;
    check(&rt, &shared, &mut pass, &hand);
    clone_one(&rt, &shared, &mut pass, &mut hand, 0);
    let last = give_up_one(&shared, &mut pass, &mut hand, 0);
    assert!(rt; !last);
    drop_one(&rt, &shared, &mut pass, &mut hand, 0);
    check(&rt, &shared, &mut pass, &hand);
    assert!(rt; hand.is_referred(0));
    drop_one(&rt, &shared, &mut pass, &mut hand, 0);
    assert_eq!(rt; shared.see_state(&mut pass, 0).phase, Phase::Free);
    assert_eq!(rt; shared.look(&mut pass, 0, 0).count, 0);
    Ok(())
}

#[test]
fn last_of_the_scheduler_frees_the_record(rt: HostRuntime) -> Result<(), Fail> {
    let (shared, pass, hand) = filled(&rt, rt.alloc(), 1)?;
    let mut pass = pass;
    let mut hand = hand;
    drop_one(&rt, &shared, &mut pass, &mut hand, 1);
    check(&rt, &shared, &mut pass, &hand);
    let last = give_up_one(&shared, &mut pass, &mut hand, 1);
    assert!(rt; last);
    check(&rt, &shared, &mut pass, &hand);
    assert!(rt; !hand.is_referred(1) && hand.is_referred(0));
    Ok(())
}
