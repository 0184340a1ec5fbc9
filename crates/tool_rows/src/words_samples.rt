//! Lines of words, with what they choose.

use bench_programs::Family;

/// Words, the files of the program and of the columns, the numbers of workers, superblocks, units
/// and activations, and whether a trace is asked for.
pub(crate) type RunLine = (
    &'static str,
    &'static str,
    Option<&'static str>,
    (u8, u32, u32, u64),
    bool,
);

/// Words that choose a run.
pub(crate) static RUNS: [RunLine; 8] = [
    ("run p", "p", None, (4, 256, 512, 1_000_000), false),
    ("run p c", "p", Some("c"), (4, 256, 512, 1_000_000), false),
    ("run --trace p", "p", None, (4, 256, 512, 1_000_000), true),
    (
        "run --units 8 p --superblocks=16 c --limit 007 --workers=64",
        "p",
        Some("c"),
        (64, 16, 8, 7),
        false,
    ),
    (
        "run p -- --trace",
        "p",
        Some("--trace"),
        (4, 256, 512, 1_000_000),
        false,
    ),
    ("run  -", "", Some("-"), (4, 256, 512, 1_000_000), false),
    (
        "run p --workers 1 --superblocks 1 --limit=1",
        "p",
        None,
        (1, 1, 512, 1),
        false,
    ),
    (
        "run p --superblocks=1024 --limit=4000000 --units=512",
        "p",
        None,
        (4, 1024, 512, 4_000_000),
        false,
    ),
];

/// Words, a family, its number, and how many workers there are.
pub(crate) type BenchLine = (&'static str, Family, u64, u8);

/// Words that choose a program of a family.
pub(crate) static BENCHES: [BenchLine; 4] = [
    ("bench fib 22", Family::Fib, 22, 4),
    ("bench grid 8", Family::Grid, 8, 4),
    ("bench --workers 1 chain 100000", Family::Chain, 100_000, 1),
    ("bench fib --workers=64 000", Family::Fib, 0, 64),
];
