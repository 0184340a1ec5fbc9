use super::programs::{GETS, GROUP, PAIR, ROOTS, WIDE};
use super::{Asked, STORES, asked_of, run_text, size_of};
use crate::ended::Left;
use std::test::Fail;
use worker_loop::Worked;

// A run in which something is refused: what came of the roots, and how many have records.
#[derive(Clone, Copy)]
struct Refusal {
    text: &'static str,
    size: [u32; 5],
    roots: &'static [Asked],
    records: u32,
}

static REFUSALS: [Refusal; 9] = [
    Refusal {
        text: PAIR,
        size: [2, 4, 8, 1, 1],
        roots: &[Asked::Named],
        records: 1,
    },
    Refusal {
        text: PAIR,
        size: [2, 4, 8, 2, 1],
        roots: &[Asked::Named],
        records: 1,
    },
    Refusal {
        text: PAIR,
        size: [2, 4, 8, 3, 1],
        roots: &[Asked::Named],
        records: 1,
    },
    Refusal {
        text: GROUP,
        size: [2, 4, 8, 3, 1],
        roots: &[Asked::Named],
        records: 1,
    },
    Refusal {
        text: GROUP,
        size: [2, 4, 8, 4, 1],
        roots: &[Asked::Named],
        records: 1,
    },
    Refusal {
        text: GROUP,
        size: [2, 4, 8, 5, 1],
        roots: &[Asked::Named],
        records: 1,
    },
    Refusal {
        text: WIDE,
        size: [2, 1, 8, 100, 1],
        roots: &[
            Asked::Named,
            Asked::Null,
            Asked::Skipped(1),
            Asked::Skipped(2),
            Asked::Named,
        ],
        records: 2,
    },
    Refusal {
        text: ROOTS,
        size: [2, 1, 8, 100, 1],
        roots: &[
            Asked::Named,
            Asked::Named,
            Asked::Named,
            Asked::Named,
            Asked::Named,
            Asked::Named,
            Asked::Named,
            Asked::Named,
            Asked::Null,
            Asked::Null,
        ],
        records: 8,
    },
    Refusal {
        text: ROOTS,
        size: [2, 2, 8, 9, 1],
        roots: &[
            Asked::Named,
            Asked::Named,
            Asked::Named,
            Asked::Named,
            Asked::Named,
            Asked::Named,
            Asked::Named,
            Asked::Named,
            Asked::Named,
            Asked::Over,
        ],
        records: 9,
    },
];

#[test]
fn a_refused_run_ends_and_loses_nothing(rt: HostRuntime) -> Result<(), Fail> {
    for refusal in &REFUSALS {
        for store in STORES {
            let ended = run_text(rt.alloc(), &rt, store, refusal.text, size_of(refusal.size))?;
            assert_eq!(rt; ended.roots.len(), refusal.roots.len());
            for (told, wanted) in ended.roots.iter().zip(refusal.roots) {
                assert_eq!(rt; asked_of(*told), *wanted, "{}", refusal.text);
            }
            let records = refusal.records;
            let left = Left {
                live: 0,
                done: records,
                going: 0,
                blocks: records,
            };
            assert_eq!(rt; ended.left, left, "{store:?} {}", refusal.text);
        }
    }
    Ok(())
}

#[test]
fn a_worker_stops_at_an_act_that_it_does_not_serve(rt: HostRuntime) -> Result<(), Fail> {
    for store in STORES {
        let ended = run_text(rt.alloc(), &rt, store, GETS, size_of([1, 4, 8, 100, 16]))?;
        assert_eq!(rt;
            ended.worked.as_slice(),
            [Some(Worked::Stopped(3))].as_slice()
        );
        let left = Left {
            live: 1,
            done: 1,
            going: 1,
            blocks: 2,
        };
        assert_eq!(rt; ended.left, left);
    }
    Ok(())
}
