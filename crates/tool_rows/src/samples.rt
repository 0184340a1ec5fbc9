//! Commands over files and sinks that may fail, and what each answers.

pub(crate) const ONE: &str = "ktask 1\nkind one\nstate start\n  done 1\nend\nroot r one\n";

pub(crate) const TWO_ROOTS: &str =
    "ktask 1\nkind one\nstate start\n  done 1\nend\nroot r one\nroot s one\n";

pub(crate) const ONE_REPORT: &str = "root r 1\nactivations 1\ntasks 1\nnulls 0\nheld 1 0 0 0\n";

const FIB: &str = "ktask 1\nkind fib n\n  var x y @a @b @g\nstate start\n  if n < 2 goto small\n\
    sub x n 1\n  sub y n 2\n  spawn @a fib x\n  spawn @b fib y\n  all @g @a @b\n\
    again sum behind @g\n\
    label small\n  done n\nstate sum holds @a @b settled @a @b\n  get x @a\n  get y @b\n\
    add x x y\n\
    done x\nend\nroot r fib 2\n";

/// A column's cells are added up.
const SUM: &str = "ktask 1\nkind sum lo hi\n  var m x @a @b @g\nstate start\n  sub m hi lo\n\
        if m == 0 goto none\n\
    if m == 1 goto one\n  div m m 2\n  add m lo m\n  spawn @a sum lo m\n  spawn @b sum m hi\n\
    all @g @a @b\n\
    again both behind @g\n  label one\n  cell x price lo\n  done x\n  label none\n  done 0\n\
    state both holds @a @b settled @a @b\n  get x @a\n  get m @b\n  add x x m\n  done x\nend\n\
    kind main\n\
    var n x @a\nstate start\n  rows n price\n  spawn @a sum 0 n\n  again out behind @a\n\
    state out holds @a settled @a\n  get x @a\n  done x\nend\nroot total main\n";

const PRICES: &str = "id,price\n1,10\n2,20\n3,30\n4,40\n5,50\n";

/// A task that spawns wide tasks behind the gate, which opens only when nothing else is left to do.
const FILL: &str = "ktask 1\nkind gate\nstate start\n  done 1\nend\nkind wide\n\
    var v0 v1 v2 v3 v4 v5 v6 v7 v8 v9 v10 v11 v12 v13 v14 v15\n\
    var v16 v17 v18 v19 v20 v21 v22 v23 v24 v25 v26 v27 v28 v29 v30 v31\n\
    state start\n  done 0\nend\nkind fill @p\n  var @a\nstate start holds @p\n\
    spawn @a wide behind @p\n  again start\nend\nroot g gate low\nroot f fill @g\n";

const FULL: &str = "root g 1\nroot f null\nactivations 18\ntasks 10\nnulls 1\nheld 2 0 0 0\n\
    cause f null 2\nevidence class 3\nsuperblock 0 class 0 2 of 64\n\
    superblock 1 class 3 8 of 8\n";

/// A future is asked before it is complete.
const EARLY_GET: &str =
    "ktask 1\nkind leaf n\nstate start\n  done n\nend\nkind bad\n  var x @a\nstate start\n\
    spawn @a leaf 1\n  get x @a\n  done x\nend\nroot r bad\n";

const NOT_SETTLED: &str = "ktask: program line 10 check 2 NotSettled @a\n";

/// Not valid, which `print` does not ask.
const SPACED: &str =
    "# a comment\n\nktask\t1\r\nroot p one regular # last\nkind one\n  state start\n  done 007\n\
    end\nkind bad\nvar @a\nvar x\nstate s\n  get x @a\n  done x\nend\n";

const CANONICAL: &str =
    "ktask 1\nkind one\nstate start\ndone 7\nend\nkind bad\nvar @a x\nstate s\nget x @a\n\
    done x\nend\nroot p one\n";

const WRITE_FAULT: &str = "ktask: write fault\n";

const REFUSED: &str = "ktask: words refused, see ktask help\n";

/// A cell is asked in a row that is not there.
const CELL: &str = "ktask 1\nkind one\n  var x\nstate s\n  cell x a 0\n  done x\nend\nroot r one\n";

const NO_ROW: &str = "root r trap norow\nactivations 1\ntasks 1\nnulls 0\nheld 1 0 0 0\n";

const SUMMED: &str = "root total 150\nactivations 23\ntasks 14\nnulls 0\nheld 1 0 0 0\n";

const CHAIN: &str = "bench chain 3\nroot r 6\nactivations 10\ntasks 4\nnulls 0\nheld 1 0 0 0\n";

const TRACED: &str = "root r 1\nactivations 1\ntasks 1\nnulls 0\nheld 1 0 0 0\n\
    activation 1 task 1 after - start 1\ntask 1 finish 2 cause -\n";

/// Words, the text of p, which calls of `out` fail, the status, what is told on the two sinks, and
/// how many fetches are made.
pub(crate) type WriteRow = (
    &'static [&'static str],
    &'static str,
    &'static [u64],
    u8,
    &'static str,
    &'static str,
    u64,
);

const RUN: &[&str] = &["run", "p"];

/// Commands whose output goes to a sink that fails.
pub(crate) static WRITES: [WriteRow; 11] = [
    (RUN, FIB, &[1], 8, "", WRITE_FAULT, 1),
    (RUN, FIB, &[2], 8, "root r 1\n", WRITE_FAULT, 1),
    (
        RUN,
        FIB,
        &[3],
        8,
        "root r 1\nactivations 6\n",
        WRITE_FAULT,
        1,
    ),
    (
        RUN,
        FIB,
        &[4],
        8,
        "root r 1\nactivations 6\ntasks 4\n",
        WRITE_FAULT,
        1,
    ),
    (
        RUN,
        FIB,
        &[5],
        8,
        "root r 1\nactivations 6\ntasks 4\nnulls 0\n",
        WRITE_FAULT,
        1,
    ),
    (
        RUN,
        FIB,
        &[6],
        0,
        "root r 1\nactivations 6\ntasks 4\nnulls 0\nheld 1 0 0 0\n",
        "",
        1,
    ),
    (RUN, ONE, &[1], 8, "", WRITE_FAULT, 1),
    (&["print", "p"], ONE, &[1], 8, "", WRITE_FAULT, 1),
    (&["check", "p"], ONE, &[1], 8, "", WRITE_FAULT, 1),
    (&["bench", "fib", "1"], ONE, &[1], 8, "", WRITE_FAULT, 0),
    (
        &["bench", "fib", "1"],
        ONE,
        &[2],
        8,
        "bench fib 1\n",
        WRITE_FAULT,
        0,
    ),
];

/// Words, the texts of p and c, which fetches fail, the status, what is told on the two sinks, how
/// many fetches are made, and how many of them fail.
pub(crate) type FetchRow = (
    &'static [&'static str],
    &'static str,
    &'static str,
    &'static [u64],
    u8,
    &'static str,
    &'static str,
    u64,
    u64,
);

const BOTH: &[&str] = &["run", "p", "c"];

/// Commands with the files that they fetch, and those that they do not.
pub(crate) static FETCHES: [FetchRow; 26] = [
    (&[], ONE, "", &[], 2, "", REFUSED, 0, 0),
    (&["walk", "p"], ONE, "", &[], 2, "", REFUSED, 0, 0),
    (&["run", "p", "p", "p"], ONE, "", &[], 2, "", REFUSED, 0, 0),
    (&["check", "p", "p"], ONE, "", &[], 2, "", REFUSED, 0, 0),
    (&["check"], ONE, "", &[], 2, "", REFUSED, 0, 0),
    (
        &["bench", "chain", "100001"],
        ONE,
        "",
        &[],
        2,
        "",
        REFUSED,
        0,
        0,
    ),
    (&["bench", "chain", "3"], ONE, "", &[], 0, CHAIN, "", 0, 0),
    (
        &["bench", "--workers=64", "chain", "003"],
        ONE,
        "",
        &[],
        0,
        CHAIN,
        "",
        0,
        0,
    ),
    (
        &["run", "x.kt"],
        ONE,
        "",
        &[],
        7,
        "",
        "ktask: cannot read x.kt\n",
        1,
        1,
    ),
    (
        &["check", "x.kt"],
        ONE,
        "",
        &[],
        7,
        "",
        "ktask: cannot read x.kt\n",
        1,
        1,
    ),
    (RUN, ONE, "", &[], 0, ONE_REPORT, "", 1, 0),
    (&["run", "p", "--trace"], ONE, "", &[], 0, TRACED, "", 1, 0),
    (
        &["run", "p", "--superblocks", "2", "--units=64"],
        FILL,
        "",
        &[],
        3,
        FULL,
        "",
        1,
        0,
    ),
    (&["plain", "p", "c"], SUM, PRICES, &[], 0, SUMMED, "", 2, 0),
    (&["print", "p"], SPACED, "", &[], 0, CANONICAL, "", 1, 0),
    (
        &["check", "p"],
        FIB,
        "",
        &[],
        0,
        "kind fib class 0 words 7\nkinds 1 roots 1\n",
        "",
        1,
        0,
    ),
    (
        RUN,
        "",
        "",
        &[],
        5,
        "",
        "ktask: program line 1 word 0 cause 2 NoHeader\n",
        1,
        0,
    ),
    (BOTH, SUM, PRICES, &[], 0, SUMMED, "", 2, 0),
    (BOTH, CELL, "a\n", &[], 1, NO_ROW, "", 2, 0),
    (
        BOTH,
        ONE,
        "a,a\n",
        &[],
        6,
        "",
        "ktask: columns row 0 column 2 cause 2 TwiceNamed\n",
        2,
        0,
    ),
    (
        BOTH,
        SUM,
        "a,b\n1,-2\n",
        &[],
        6,
        "",
        "ktask: columns row 1 column 2 cause 4 BadNumber\n",
        2,
        0,
    ),
    (
        BOTH,
        ONE,
        "",
        &[],
        6,
        "",
        "ktask: columns row 0 column 0 cause 1 NoHeader\n",
        2,
        0,
    ),
    (
        &["run", "p", "d"],
        ONE,
        "a\n",
        &[],
        7,
        "",
        "ktask: cannot read d\n",
        2,
        1,
    ),
    (
        BOTH,
        ONE,
        "a\n",
        &[2],
        7,
        "",
        "ktask: cannot read c\n",
        2,
        1,
    ),
    (
        BOTH,
        ONE,
        "a\n",
        &[1],
        7,
        "",
        "ktask: cannot read p\n",
        1,
        1,
    ),
    (
        &["run", "p", "d"],
        EARLY_GET,
        "",
        &[],
        5,
        "",
        NOT_SETTLED,
        1,
        0,
    ),
];
