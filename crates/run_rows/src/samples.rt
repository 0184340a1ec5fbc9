//! Programs with their plans and reports.

/// A program, the plan of its run, and its report.
pub(crate) struct Sample {
    pub(crate) program: &'static str,
    pub(crate) superblocks: u32,
    pub(crate) units: u32,
    pub(crate) limit: u64,
    pub(crate) trace: bool,
    pub(crate) report: &'static str,
}

/// Runs, each of which shows one rule.
pub(crate) static SAMPLES: [Sample; 28] = [
    // Two spawns and their sum
    Sample {
        program: "ktask 1\nkind fib n\nvar x y @a @b @g\nstate start\nif n < 2 goto small\n\
            sub x n 1\nsub y n 2\nspawn @a fib x\nspawn @b fib y\nall @g @a @b\n\
            again sum behind @g\nlabel small\ndone n\n\
            state sum holds @a @b settled @a @b\nget x @a\nget y @b\nadd x x y\ndone x\n\
            end\nroot r fib 2\n",
        superblocks: 256,
        units: 512,
        limit: 1_000_000,
        trace: false,
        report: "root r 1\nactivations 6\ntasks 4\nnulls 0\nheld 1 0 0 0\n",
    },
    // The same with its trace
    Sample {
        program: "ktask 1\nkind fib n\nvar x y @a @b @g\nstate start\nif n < 2 goto small\n\
            sub x n 1\nsub y n 2\nspawn @a fib x\nspawn @b fib y\nall @g @a @b\n\
            again sum behind @g\nlabel small\ndone n\n\
            state sum holds @a @b settled @a @b\nget x @a\nget y @b\nadd x x y\ndone x\n\
            end\nroot r fib 2\n",
        superblocks: 256,
        units: 512,
        limit: 1_000_000,
        trace: true,
        report: "root r 1\nactivations 6\ntasks 4\nnulls 0\nheld 1 0 0 0\n\
            activation 1 task 1 after - start 1\nactivation 2 task 2 after - start 2\n\
            activation 3 task 3 after - start 4\nactivation 4 task 4 after 2 start 6\n\
            activation 5 task 1 after 4 start 9\nactivation 6 task 4 after 3 start 7\n\
            task 1 finish 10 cause -\ntask 2 finish 3 cause -\ntask 3 finish 5 cause -\n\
            task 4 finish 8 cause -\n",
    },
    // As many activations as the limit
    Sample {
        program: "ktask 1\nkind fib n\nvar x y @a @b @g\nstate start\nif n < 2 goto small\n\
            sub x n 1\nsub y n 2\nspawn @a fib x\nspawn @b fib y\nall @g @a @b\n\
            again sum behind @g\nlabel small\ndone n\n\
            state sum holds @a @b settled @a @b\nget x @a\nget y @b\nadd x x y\ndone x\n\
            end\nroot r fib 2\n",
        superblocks: 256,
        units: 512,
        limit: 6,
        trace: false,
        report: "root r 1\nactivations 6\ntasks 4\nnulls 0\nheld 1 0 0 0\n",
    },
    // One activation more than the limit
    Sample {
        program: "ktask 1\nkind fib n\nvar x y @a @b @g\nstate start\nif n < 2 goto small\n\
            sub x n 1\nsub y n 2\nspawn @a fib x\nspawn @b fib y\nall @g @a @b\n\
            again sum behind @g\nlabel small\ndone n\n\
            state sum holds @a @b settled @a @b\nget x @a\nget y @b\nadd x x y\ndone x\n\
            end\nroot r fib 2\n",
        superblocks: 256,
        units: 512,
        limit: 5,
        trace: false,
        report: "root r limit\nactivations 5\ntasks 4\nnulls 0\nheld 1 0 0 0\n\
            cause r limit 1 4\n",
    },
    // Many tasks
    Sample {
        program: "ktask 1\nkind fib n\nvar x y @a @b @g\nstate start\nif n < 2 goto small\n\
            sub x n 1\nsub y n 2\nspawn @a fib x\nspawn @b fib y\nall @g @a @b\n\
            again sum behind @g\nlabel small\ndone n\n\
            state sum holds @a @b settled @a @b\nget x @a\nget y @b\nadd x x y\ndone x\n\
            end\nroot r fib 10\n",
        superblocks: 256,
        units: 512,
        limit: 1_000_000,
        trace: false,
        report: "root r 55\nactivations 441\ntasks 265\nnulls 0\nheld 1 0 0 0\n",
    },
    // A pool that is too small
    Sample {
        program: "ktask 1\nkind fib n\nvar x y @a @b @g\nstate start\nif n < 2 goto small\n\
            sub x n 1\nsub y n 2\nspawn @a fib x\nspawn @b fib y\nall @g @a @b\n\
            again sum behind @g\nlabel small\ndone n\n\
            state sum holds @a @b settled @a @b\nget x @a\nget y @b\nadd x x y\ndone x\n\
            end\nroot r fib 4\n",
        superblocks: 1,
        units: 8,
        limit: 1_000_000,
        trace: false,
        report: "root r null\nactivations 10\ntasks 8\nnulls 2\nheld 1 0 0 0\n\
            cause r null 1 4 2 8 6\nevidence class 0\nsuperblock 0 class 0 8 of 8\n",
    },
    // Roots in a small pool
    Sample {
        program: "ktask 1\nkind one\nstate start\ndone 1\nend\nkind wide n\nvar a b c d e f g\n\
            state start\ndone n\nend\nkind reader @p\nvar x\n\
            state start holds @p settled @p\nget x @p\ndone x\nend\nroot p one\n\
            root q wide 3\nroot s reader @q behind @q\n",
        superblocks: 1,
        units: 8,
        limit: 1_000_000,
        trace: false,
        report: "root p 1\nroot q null\nroot s null\nactivations 1\ntasks 1\nnulls 1\n\
            held 1 0 0 0\ncause q null host\ncause s null root q\nevidence class 1\n\
            superblock 0 class 0 1 of 8\n",
    },
    // Tries again, up to the limit
    Sample {
        program: "ktask 1\nkind fib n\nvar x y @a @b @g\nstate start\nif n < 2 goto small\n\
            sub x n 1\nsub y n 2\nspawn @a fib x retry\nspawn @b fib y retry\n\
            all @g @a @b retry\nagain sum behind @g\nlabel small\ndone n\n\
            state sum holds @a @b settled @a @b\nget x @a\nget y @b\nadd x x y\ndone x\n\
            end\nroot r fib 4\n",
        superblocks: 1,
        units: 8,
        limit: 13,
        trace: false,
        report: "root r limit\nactivations 13\ntasks 8\nnulls 4\nheld 1 0 0 0\n\
            cause r limit 1 4 2 8 6\nevidence class 0\nsuperblock 0 class 0 8 of 8\n",
    },
    // A trap that is passed on
    Sample {
        program: "ktask 1\nkind big\nvar x\nstate start\nadd x 18446744073709551615 1\ndone x\n\
            end\nkind reader @p\nvar x\nstate start holds @p settled @p\nget x @p\n\
            done x\nend\nroot p big\nroot q reader @p behind @p\n",
        superblocks: 256,
        units: 512,
        limit: 1_000_000,
        trace: false,
        report: "root p trap overflow\nroot q trap overflow\nactivations 2\ntasks 2\nnulls 0\n\
            held 2 0 0 0\n",
    },
    // An aggregate that names a task twice
    Sample {
        program: "ktask 1\nkind leaf n\nstate start\ndone n\nend\nkind dup\nvar y @x @g\n\
            state start\nspawn @x leaf 7\nall @g @x @x\nagain fin behind @g\n\
            state fin holds @x settled @x\nget y @x\ndone y\nend\nroot r dup\n",
        superblocks: 256,
        units: 512,
        limit: 1_000_000,
        trace: false,
        report: "root r 7\nactivations 5\ntasks 3\nnulls 0\nheld 1 0 0 0\n",
    },
    // No kind and no root
    Sample {
        program: "ktask 1\n",
        superblocks: 256,
        units: 512,
        limit: 1_000_000,
        trace: false,
        report: "activations 0\ntasks 0\nnulls 0\nheld 0 0 0 0\n",
    },
    // Blocks that go back and are given again
    Sample {
        program: "ktask 1\nkind leaf n\nstate start\ndone n\nend\nkind chain n s\nvar x @a\n\
            state start\nif n == 0 goto out\nspawn @a leaf n\nagain next behind @a\n\
            label out\ndone s\nstate next holds @a settled @a\nget x @a\nadd s s x\n\
            sub n n 1\nagain start\nend\nroot r chain 100 0\n",
        superblocks: 1,
        units: 8,
        limit: 1_000_000,
        trace: false,
        report: "root r 5050\nactivations 301\ntasks 101\nnulls 0\nheld 1 0 0 0\n",
    },
    // Priorities
    Sample {
        program: "ktask 1\nkind grid d\nvar x @a @b @c @e @g\nstate start\nif d == 0 goto one\n\
            sub x d 1\nspawn @a grid x high\nspawn @b grid x\nspawn @c grid x\n\
            spawn @e grid x low\nall @g @a @b @c @e\nagain sum behind @g\nlabel one\n\
            done 1\nstate sum holds @a @b @c @e settled @a @b @c @e\nget d @a\nget x @b\n\
            add d d x\nget x @c\nadd d d x\nget x @e\nadd d d x\ndone d\nend\n\
            root r grid 2\n",
        superblocks: 256,
        units: 512,
        limit: 1_000_000,
        trace: false,
        report: "root r 16\nactivations 46\ntasks 26\nnulls 0\nheld 1 0 0 0\n",
    },
    // The highest queue first
    Sample {
        program: "ktask 1\nkind leaf n\nstate start\ndone n\nend\nkind main\nvar @a @b @c\n\
            state start\nspawn @a leaf 1 low\nspawn @b leaf 2\nspawn @c leaf 3 high\n\
            done 0\nend\nroot r main\n",
        superblocks: 256,
        units: 512,
        limit: 1_000_000,
        trace: true,
        report: "root r 0\nactivations 4\ntasks 4\nnulls 0\nheld 1 0 0 0\n\
            activation 1 task 1 after - start 1\nactivation 2 task 2 after - start 7\n\
            activation 3 task 3 after - start 5\nactivation 4 task 4 after - start 3\n\
            task 1 finish 2 cause -\ntask 2 finish 8 cause -\ntask 3 finish 6 cause -\n\
            task 4 finish 4 cause -\n",
    },
    // Again gives futures up
    Sample {
        program: "ktask 1\nroot total13 sum1 2 0\nkind sum1 n p\nvar m @a\nstate start\n\
            spawn @a sum1 m p\nagain start\nend\n",
        superblocks: 1,
        units: 8,
        limit: 14,
        trace: true,
        report: "root total13 limit\nactivations 14\ntasks 8\nnulls 1\nheld 1 0 0 0\n\
            cause total13 limit 1\nevidence class 0\nsuperblock 0 class 0 8 of 8\n\
            activation 1 task 1 after - start 1\nactivation 2 task 2 after - start 2\n\
            activation 3 task 1 after - start 3\nactivation 4 task 4 after - start 4\n\
            activation 5 task 2 after - start 5\nactivation 6 task 6 after - start 6\n\
            activation 7 task 1 after - start 7\nactivation 8 task 8 after - start 9\n\
            activation 9 task 4 after - start 11\nactivation 10 task 10 after - start 13\n\
            activation 11 task 2 after - start 15\n\
            activation 12 task 12 after - start 17\n\
            activation 13 task 6 after - start 19\n\
            activation 14 task 14 after - start 21\ntask 1 finish 8 cause limit\n\
            task 2 finish 16 cause limit\ntask 4 finish 12 cause limit\n\
            task 6 finish 20 cause limit\ntask 8 finish 10 cause null\n\
            task 10 finish 14 cause limit\ntask 12 finish 18 cause limit\n\
            task 14 finish 22 cause limit\n",
    },
    // Aggregate behind each member
    Sample {
        program: "ktask 1\nkind T n p\nvar m @c @g\nstate start\nspawn @g T m 2\nall @c @g @g\n\
            done 1\nend\nroot top T 2 2\n",
        superblocks: 2,
        units: 8,
        limit: 5,
        trace: true,
        report: "root top 1\nactivations 5\ntasks 5\nnulls 0\nheld 1 0 0 0\n\
            activation 1 task 1 after - start 1\nactivation 2 task 2 after - start 3\n\
            activation 3 task 3 after 2 start 7\nactivation 4 task 4 after - start 5\n\
            activation 5 task 5 after 4 start 9\ntask 1 finish 2 cause -\n\
            task 2 finish 4 cause -\ntask 3 finish 8 cause limit\n\
            task 4 finish 6 cause limit\ntask 5 finish 10 cause 4\n",
    },
    // Block kept while named
    Sample {
        program: "ktask 1\nkind pair n\nvar m @part @g\nstate start\nspawn @part pair m\n\
            all @g @part @part\ndone 4\nend\nroot top pair 3\n",
        superblocks: 1,
        units: 8,
        limit: 9,
        trace: true,
        report: "root top 4\nactivations 9\ntasks 8\nnulls 1\nheld 1 0 0 0\nevidence class 0\n\
            superblock 0 class 0 8 of 8\nactivation 1 task 1 after - start 1\n\
            activation 2 task 2 after - start 3\nactivation 3 task 3 after 2 start 7\n\
            activation 4 task 4 after - start 5\nactivation 5 task 5 after 4 start 10\n\
            activation 6 task 6 after - start 8\nactivation 7 task 7 after 6 start 16\n\
            activation 8 task 3 after 2 start 12\nactivation 9 task 9 after - start 14\n\
            task 1 finish 2 cause -\ntask 2 finish 4 cause -\ntask 3 finish 13 cause -\n\
            task 4 finish 6 cause -\ntask 5 finish 11 cause limit\n\
            task 6 finish 9 cause null\ntask 7 finish 17 cause 6\n\
            task 9 finish 15 cause limit\n",
    },
    // Cut task starts and is cut
    Sample {
        program: "ktask 1\nkind a n\nstate go\nagain go\nend\nroot lead a 5\n\
            root r0 a 0 behind @lead\n",
        superblocks: 8,
        units: 16,
        limit: 2,
        trace: true,
        report: "root lead limit\nroot r0 limit\nactivations 2\ntasks 2\nnulls 0\nheld 2 0 0 0\n\
            cause lead limit 1\ncause r0 limit 2 1\nactivation 1 task 1 after - start 1\n\
            activation 2 task 2 after 1 start 3\ntask 1 finish 2 cause limit\n\
            task 2 finish 4 cause 1\n",
    },
    // Evidence of the first null
    Sample {
        program: "ktask 1\nkind leaf lead n\nvar m @c\nvar @b @h w broad\nstate start\n\
            spawn @c leaf n m\nall @c @c\ndone 3\nend\nroot q leaf 2 2\n",
        superblocks: 1,
        units: 8,
        limit: 3,
        trace: true,
        report: "root q null\nactivations 3\ntasks 3\nnulls 2\nheld 0 1 0 0\ncause q null 1\n\
            evidence class 0\nsuperblock 0 class 1 2 of 4\n\
            activation 1 task 1 after - start 1\nactivation 2 task 2 after - start 3\n\
            activation 3 task 3 after - start 5\ntask 1 finish 2 cause null\n\
            task 2 finish 4 cause null\ntask 3 finish 6 cause limit\n",
    },
    // First superblock first
    Sample {
        program: "ktask 1\nkind leaf n\nvar m x @h7 @a @b @g7 @v\nstate start\nspawn @v leaf m\n\
            spawn @b leaf m\nall @b @v\ndone m\nend\nroot p leaf 0\n",
        superblocks: 2,
        units: 8,
        limit: 5,
        trace: true,
        report: "root p 0\nactivations 5\ntasks 5\nnulls 2\nheld 0 1 0 0\nevidence class 1\n\
            superblock 0 class 1 4 of 4\nsuperblock 1 class 0 1 of 8\n\
            activation 1 task 1 after - start 1\nactivation 2 task 2 after - start 3\n\
            activation 3 task 3 after - start 5\nactivation 4 task 4 after 2 start 9\n\
            activation 5 task 5 after - start 7\ntask 1 finish 2 cause -\n\
            task 2 finish 4 cause null\ntask 3 finish 6 cause null\n\
            task 4 finish 10 cause 2\ntask 5 finish 8 cause limit\n",
    },
    // Last waiter is ready first
    Sample {
        program: "ktask 1\nkind k n\nstate start\ndone 3\nend\nroot r k 0\n\
            root q k 1 behind @r\nroot top k 2 behind @r\n",
        superblocks: 2,
        units: 8,
        limit: 3,
        trace: true,
        report: "root r 3\nroot q 3\nroot top 3\nactivations 3\ntasks 3\nnulls 0\n\
            held 3 0 0 0\nactivation 1 task 1 after - start 1\n\
            activation 2 task 2 after 1 start 5\nactivation 3 task 3 after 1 start 3\n\
            task 1 finish 2 cause -\ntask 2 finish 6 cause -\ntask 3 finish 4 cause -\n",
    },
    // Old future until the new one
    Sample {
        program: "ktask 1\nkind k7 n opening\nvar m @b\nstate start\nspawn @b k7 m m\nagain st1\n\
            state st1 holds @b\nspawn @b k7 m opening\ndone opening\nend\nroot later k7 2 0\n",
        superblocks: 1,
        units: 8,
        limit: 16,
        trace: true,
        report: "root later 0\nactivations 16\ntasks 10\nnulls 2\nheld 1 0 0 0\n\
            evidence class 0\nsuperblock 0 class 0 8 of 8\n\
            activation 1 task 1 after - start 1\nactivation 2 task 2 after - start 2\n\
            activation 3 task 1 after - start 3\nactivation 4 task 4 after - start 5\n\
            activation 5 task 2 after - start 6\nactivation 6 task 6 after - start 8\n\
            activation 7 task 7 after - start 9\nactivation 8 task 4 after - start 10\n\
            activation 9 task 9 after - start 12\nactivation 10 task 10 after - start 13\n\
            activation 11 task 6 after - start 15\n\
            activation 12 task 12 after - start 17\n\
            activation 13 task 7 after - start 19\n\
            activation 14 task 14 after - start 21\n\
            activation 15 task 15 after - start 23\n\
            activation 16 task 9 after - start 25\ntask 1 finish 4 cause -\n\
            task 2 finish 7 cause -\ntask 4 finish 11 cause -\n\
            task 6 finish 16 cause null\ntask 7 finish 20 cause limit\n\
            task 9 finish 26 cause limit\ntask 10 finish 14 cause null\n\
            task 12 finish 18 cause limit\ntask 14 finish 22 cause limit\n\
            task 15 finish 24 cause limit\n",
    },
    // Pool asked before limit
    Sample {
        program: "ktask 1\nkind leaf lead n\nvar m @c\nvar @b @h w broad\nstate start\n\
            spawn @c leaf n m\nall @c @c\ndone 3\nend\nroot q leaf 2 2\n",
        superblocks: 1,
        units: 8,
        limit: 2,
        trace: true,
        report: "root q null\nactivations 2\ntasks 2\nnulls 1\nheld 0 1 0 0\ncause q null 1\n\
            evidence class 0\nsuperblock 0 class 1 2 of 4\n\
            activation 1 task 1 after - start 1\nactivation 2 task 2 after - start 3\n\
            task 1 finish 2 cause null\ntask 2 finish 4 cause limit\n",
    },
    // Predecessor in the row
    Sample {
        program: "ktask 1\nkind k n\nstate start\ndone 3\nend\nroot r k 0\n\
            root q k 1 behind @r\n",
        superblocks: 2,
        units: 8,
        limit: 2,
        trace: true,
        report: "root r 3\nroot q 3\nactivations 2\ntasks 2\nnulls 0\nheld 2 0 0 0\n\
            activation 1 task 1 after - start 1\nactivation 2 task 2 after 1 start 3\n\
            task 1 finish 2 cause -\ntask 2 finish 4 cause -\n",
    },
    // Priority before order
    Sample {
        program: "ktask 1\nkind T n\nstate start\ndone 10\nend\nroot r T 3\nroot r4 T 1 high\n",
        superblocks: 5,
        units: 8,
        limit: 2,
        trace: true,
        report: "root r 10\nroot r4 10\nactivations 2\ntasks 2\nnulls 0\nheld 2 0 0 0\n\
            activation 1 task 1 after - start 3\nactivation 2 task 2 after - start 1\n\
            task 1 finish 4 cause -\ntask 2 finish 2 cause -\n",
    },
    // Retry is low
    Sample {
        program: "ktask 1\nroot q fib 0\nkind fib n\nvar m @c\nstate start\nspawn @c fib m\n\
            spawn @c fib m retry\ndone n\nend\n",
        superblocks: 1,
        units: 8,
        limit: 14,
        trace: true,
        report: "root q 0\nactivations 14\ntasks 13\nnulls 3\nheld 1 0 0 0\nevidence class 0\n\
            superblock 0 class 0 8 of 8\nactivation 1 task 1 after - start 1\n\
            activation 2 task 2 after - start 3\nactivation 3 task 3 after - start 5\n\
            activation 4 task 4 after - start 7\nactivation 5 task 5 after - start 9\n\
            activation 6 task 6 after - start 11\nactivation 7 task 7 after - start 12\n\
            activation 8 task 8 after - start 14\nactivation 9 task 9 after - start 16\n\
            activation 10 task 10 after - start 18\n\
            activation 11 task 11 after - start 20\n\
            activation 12 task 12 after - start 22\n\
            activation 13 task 6 after - start 26\n\
            activation 14 task 14 after - start 24\ntask 1 finish 2 cause -\n\
            task 2 finish 4 cause -\ntask 3 finish 6 cause -\ntask 4 finish 8 cause -\n\
            task 5 finish 10 cause -\ntask 6 finish 27 cause limit\n\
            task 7 finish 13 cause null\ntask 8 finish 15 cause limit\n\
            task 9 finish 17 cause limit\ntask 10 finish 19 cause limit\n\
            task 11 finish 21 cause limit\ntask 12 finish 23 cause limit\n\
            task 14 finish 25 cause limit\n",
    },
    // Sixteen roots in a pool with room for eight
    Sample {
        program: "ktask 1\nkind one\nstate start\ndone 1\nend\nkind reader @p\nvar x\n\
            state start holds @p settled @p\nget x @p\ndone x\nend\nroot a one\n\
            root b one\nroot c one\nroot d one\nroot e one\nroot f one\nroot g one\n\
            root h one\nroot i one\nroot j reader @i behind @i\nroot k one\nroot l one\n\
            root m one\nroot n one\nroot o one\nroot p reader @a behind @a\n",
        superblocks: 1,
        units: 8,
        limit: 1_000_000,
        trace: false,
        report: "root a 1\nroot b 1\nroot c 1\nroot d 1\nroot e 1\nroot f 1\nroot g 1\n\
            root h 1\nroot i null\nroot j null\nroot k null\nroot l null\nroot m null\n\
            root n null\nroot o null\nroot p null\nactivations 8\ntasks 8\nnulls 7\n\
            held 8 0 0 0\ncause i null host\ncause j null root i\ncause k null host\n\
            cause l null host\ncause m null host\ncause n null host\ncause o null host\n\
            cause p null host\nevidence class 0\nsuperblock 0 class 0 8 of 8\n",
    },
    // One activation alone
    Sample {
        program: "ktask 1\nkind fib n\nvar x y @a @b @g\nstate start\nif n < 2 goto small\n\
            sub x n 1\nsub y n 2\nspawn @a fib x\nspawn @b fib y\nall @g @a @b\n\
            again sum behind @g\nlabel small\ndone n\n\
            state sum holds @a @b settled @a @b\nget x @a\nget y @b\nadd x x y\ndone x\n\
            end\nroot r fib 2\n",
        superblocks: 256,
        units: 512,
        limit: 1,
        trace: false,
        report: "root r limit\nactivations 1\ntasks 1\nnulls 0\nheld 1 0 0 0\ncause r limit 1\n",
    },
];
