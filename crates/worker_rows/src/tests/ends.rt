use super::programs::{GROUP, MANY, MOVES, PAIR, RETRYING, TRAP, TREE};
use super::{STORES, Store, run_text, size_of, workers_done};
use crate::ended::Left;
use std::sync::Wait;
use std::test::Fail;
use std::thread::Threads;

// A run that ends with no record but those of its roots.
#[derive(Clone, Copy)]
struct Run {
    text: &'static str,
    roots: u32,
    size: [u32; 5],
}

// Each program by few and by many workers, over a large and a small pool, with a large and a small
// store.
static RUNS: [Run; 12] = [
    Run {
        text: PAIR,
        roots: 1,
        size: [1, 4, 8, 100, 16],
    },
    Run {
        text: PAIR,
        roots: 1,
        size: [64, 4, 8, 100, 1],
    },
    Run {
        text: GROUP,
        roots: 1,
        size: [1, 4, 8, 100, 1],
    },
    Run {
        text: GROUP,
        roots: 1,
        size: [8, 4, 8, 100, 16],
    },
    Run {
        text: MOVES,
        roots: 2,
        size: [1, 64, 64, 100_000, 1],
    },
    Run {
        text: MOVES,
        roots: 2,
        size: [4, 64, 64, 100_000, 4096],
    },
    Run {
        text: MANY,
        roots: 1,
        size: [1, 1, 8, 100_000, 16],
    },
    Run {
        text: MANY,
        roots: 1,
        size: [4, 4, 8, 100_000, 2],
    },
    Run {
        text: RETRYING,
        roots: 1,
        size: [1, 4, 8, 3_000, 16],
    },
    Run {
        text: RETRYING,
        roots: 1,
        size: [4, 4, 8, 3_000, 2],
    },
    Run {
        text: TRAP,
        roots: 2,
        size: [1, 1, 8, 100, 2],
    },
    Run {
        text: TRAP,
        roots: 2,
        size: [3, 1, 8, 100, 1],
    },
];

fn check_run<R: Wait + Threads + Sync + std::process::Abort>(
    rt: &R,
    alloc: std::alloc::Global,
    store: Store,
    run: &Run,
) -> Result<(), Fail> {
    let Run { text, roots, size } = *run;
    let workers = size[0];
    let ended = run_text(alloc, rt, store, text, size_of(size))?;
    let left = Left {
        live: 0,
        done: roots,
        going: 0,
        blocks: roots,
    };
    assert_eq!(rt; ended.left, left, "{store:?} {text}");
    assert_eq!(rt; workers_done(&ended), workers);
    Ok(())
}

#[test]
fn nothing_lives_at_the_end(rt: HostRuntime) -> Result<(), Fail> {
    for run in &RUNS {
        for store in STORES {
            check_run(&rt, rt.alloc(), store, run)?;
        }
    }
    Ok(())
}

#[test]
fn a_pair_ends_on_any_number_of_threads(rt: HostRuntime) -> Result<(), Fail> {
    for workers in [1, 2, 3, 4, 8, 64] {
        for store in STORES {
            let run = Run {
                text: PAIR,
                roots: 1,
                size: [workers, 4, 8, 100, 16],
            };
            check_run(&rt, rt.alloc(), store, &run)?;
        }
    }
    Ok(())
}

fn check_trees<R: Wait + Threads + Sync + std::process::Abort>(
    rt: &R,
    alloc: std::alloc::Global,
    workers: u32,
) -> Result<(), Fail> {
    let run = Run {
        text: TREE,
        roots: 1,
        size: [workers, 512, 512, 250_000, 262_144],
    };
    for _turn in 0..20 {
        for store in STORES {
            check_run(rt, alloc, store, &run)?;
        }
    }
    Ok(())
}

#[test]
fn trees_end_on_one_thread(rt: HostRuntime) -> Result<(), Fail> {
    check_trees(&rt, rt.alloc(), 1)
}

#[test]
fn trees_end_on_two_threads(rt: HostRuntime) -> Result<(), Fail> {
    check_trees(&rt, rt.alloc(), 2)
}

#[test]
fn trees_end_on_four_threads(rt: HostRuntime) -> Result<(), Fail> {
    check_trees(&rt, rt.alloc(), 4)
}
