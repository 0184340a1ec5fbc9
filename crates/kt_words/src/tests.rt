use crate::{Geometry, HeadWord, Phase, Plan, RootStatus, StateWord, SuperWord, Tag, class_for};
use std::test::Fail;

#[test]
fn a_superblock_with_eight_reservations(rt: HostRuntime) {
    let value = SuperWord {
        count: 8,
        class: 0,
        ever: 8,
    };
    let word = value.pack();
    assert_eq!(rt; word, 8_388_616);
    assert_eq!(rt; SuperWord::unpack(word), Some(value));
}

#[test]
fn a_superblock_of_class_four_is_none(rt: HostRuntime) {
    assert_eq!(rt; SuperWord::unpack(4 * 65_536), None);
}

#[test]
fn a_superblock_with_its_greatest_numbers(rt: HostRuntime) {
    let value = SuperWord {
        count: 65_535,
        class: 3,
        ever: 17_592_186_044_415,
    };
    let word = value.pack();
    assert_eq!(rt; word, 18_446_744_073_708_765_183);
    assert_eq!(rt; SuperWord::unpack(word), Some(value));
}

#[test]
fn a_superblock_after_a_reservation(rt: HostRuntime) {
    assert_eq!(rt; SuperWord::of(8_388_616).reserved(2).pack(), 9_568_265);
    let last = SuperWord {
        count: 0,
        class: 3,
        ever: 17_592_186_044_415,
    };
    assert_eq!(rt; last.reserved(0).ever, 17_592_186_044_415);
}

#[test]
fn a_ready_task(rt: HostRuntime) {
    let value = StateWord {
        phase: Phase::Ready,
        priority: 1,
        tag: Tag::Unset,
        number: 5,
    };
    let word = value.pack();
    assert_eq!(rt; word, 1291);
    assert_eq!(rt; StateWord::unpack(word), Some(value));
    assert_eq!(rt; StateWord::of(word), value);
}

#[test]
fn states_that_no_word_has(rt: HostRuntime) {
    assert_eq!(rt; StateWord::unpack(6), None);
    assert_eq!(rt; StateWord::unpack(3 * 8), None);
    assert_eq!(rt; StateWord::unpack(7 * 32), None);
    assert_eq!(rt; StateWord::unpack(1 << 32), None);
}

#[test]
fn a_closed_list(rt: HostRuntime) {
    let word = HeadWord::Closed.pack();
    assert_eq!(rt; word, 9_223_372_036_854_775_808);
    assert_eq!(rt; HeadWord::unpack(word), Some(HeadWord::Closed));
    assert_eq!(rt; HeadWord::unpack(word + 1), None);
}

#[test]
fn lists_that_are_open(rt: HostRuntime) {
    let empty = HeadWord::Listed {
        first: None,
        length: 0,
    };
    assert_eq!(rt; empty.pack(), 0);
    let two = HeadWord::Listed {
        first: Some(6),
        length: 2,
    };
    let word = two.pack();
    assert_eq!(rt; word, 2_097_159);
    assert_eq!(rt; HeadWord::unpack(word), Some(two));
    assert_eq!(rt; HeadWord::of(word), two);
}

#[test]
fn a_list_with_its_greatest_numbers(rt: HostRuntime) {
    let value = HeadWord::Listed {
        first: Some(1_048_574),
        length: 4_194_303,
    };
    let word = value.pack();
    assert_eq!(rt; word, 4_398_046_511_103);
    assert_eq!(rt; HeadWord::unpack(word), Some(value));
    assert_eq!(rt; HeadWord::unpack(word + 1), None);
}

#[test]
fn roots(rt: HostRuntime) {
    let cases = [
        (0, RootStatus::NotAsked),
        (1, RootStatus::Record(0)),
        (524_288, RootStatus::Record(524_287)),
        (1_048_577, RootStatus::Null),
        (1_048_578, RootStatus::Limit),
        (1_048_594, RootStatus::Skipped(15)),
    ];
    for (word, root) in cases {
        assert_eq!(rt; RootStatus::unpack(word), Some(root));
    }
    assert_eq!(rt; RootStatus::Skipped(9).pack(), 1_048_588);
}

#[test]
fn words_of_no_root(rt: HostRuntime) {
    for word in [524_289, 1_048_576, 1_048_595, u64::MAX] {
        assert_eq!(rt; RootStatus::unpack(word), None);
    }
}

#[test]
fn classes_for_words(rt: HostRuntime) {
    for (words, class) in [
        (1, 0),
        (8, 0),
        (9, 1),
        (16, 1),
        (17, 2),
        (32, 2),
        (33, 3),
        (64, 3),
    ] {
        assert_eq!(rt; class_for(words), class);
    }
}

#[test]
fn shapes_of_pools(rt: HostRuntime) -> Result<(), Fail> {
    assert_eq!(rt; Geometry::new(1, 12), None);
    assert_eq!(rt; Geometry::new(0, 64), None);
    assert_eq!(rt; Geometry::new(1025, 64), None);
    let large = Geometry::new(1024, 512).ok_or("none")?;
    assert_eq!(rt; large.cap(0), 512);
    assert_eq!(rt; large.cap(3), 64);
    Ok(())
}

#[test]
fn plans(rt: HostRuntime) -> Result<(), Fail> {
    let geometry = Geometry::new(4, 64).ok_or("none")?;
    assert_eq!(rt; Plan::new(geometry, 0, 1), None);
    assert_eq!(rt; Plan::new(geometry, 4_000_001, 1), None);
    assert_eq!(rt; Plan::new(geometry, 9, 17), None);
    let plan = Plan::new(geometry, 4_000_000, 16).ok_or("none")?;
    assert_eq!(rt; plan.limit, 4_000_000);
    Ok(())
}
