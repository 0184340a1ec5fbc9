//! Programs that get no value of another task.

/// A task that spawns two, and goes on behind the second.
pub const PAIR: &str = "ktask 1\nkind leaf\nstate start\ndone 1\nend\nkind pair\nvar @a @b\n\
    state start\nspawn @a leaf\nspawn @b leaf\nagain out behind @b\nstate out\ndone 1\nend\n\
    root r pair\n";

/// Trees of 131,071 tasks: each task spawns two until a depth, and goes on behind the second.
pub const TREE: &str = "ktask 1\nkind tree d\nvar e @a @b\nstate start\nif d == 0 goto out\n\
    sub e d 1\nspawn @a tree e\nspawn @b tree e\nagain last behind @b\nlabel out\ndone 1\n\
    state last\ndone 1\nend\nroot r tree 16\n";

/// A tree whose tasks try again where the pool has no block.
pub const RETRYING: &str = "ktask 1\nkind tree d\nvar e @a @b\nstate start\nif d == 0 goto out\n\
    sub e d 1\nspawn @a tree e retry\nspawn @b tree e retry\nagain last behind @b\nlabel out\n\
    done 1\nstate last\ndone 1\nend\nroot r tree 8\n";

/// A task that spawns a thousand, two at a time, and tries again where the pool has no block.
pub const MANY: &str = "ktask 1\nkind leaf\nstate start\ndone 1\nend\nkind many n\nvar @a @b\n\
    state start\nif n == 0 goto out\nsub n n 1\nspawn @a leaf retry\nspawn @b leaf retry\n\
    drop @a\nagain start\nlabel out\ndone 1\nend\nroot r many 500\n";

/// An aggregate of two, behind which its task goes on.
pub const GROUP: &str = "ktask 1\nkind leaf\nstate start\ndone 1\nend\nkind group\nvar @a @b @g\n\
    state start\nspawn @a leaf\nspawn @b leaf\nall @g @a @b\nagain out behind @g\nstate out\n\
    done 1\nend\nroot r group\n";

/// Futures are copied, dropped, set anew, passed on and gathered, again and again.
pub const MOVES: &str = "ktask 1\nkind leaf\nstate start\ndone 1\nend\nkind user @p @q\n\
    state start holds @p\ndone 1\nend\nkind moves n\nvar @a @b @g @h @u\nstate start\n\
    if n == 0 goto out\nsub n n 1\nspawn @a leaf high\ncopy @b @a\ndrop @a\nspawn @a leaf low\n\
    all @g @a @b\nall @h @g @a @g high\ncopy @g @b\nspawn @u user @b @a behind @g\ncopy @u @u\n\
    again start behind @h\nlabel out\ndone 1\nend\nroot r moves 200\nroot s moves 100 behind @r\n";

/// A task that needs the number of another, which no worker serves.
pub const GETS: &str = "ktask 1\nkind leaf\nstate start\ndone 1\nend\nkind gets\nvar x @a\n\
    state start\nspawn @a leaf\nagain next behind @a\nstate next holds @a settled @a\nget x @a\n\
    done x\nend\nroot r gets\n";

/// A root of a larger class than the first, and a root that names it.
pub const WIDE: &str = "ktask 1\nkind leaf\nstate start\ndone 1\nend\nkind wide\n\
    var a b c d e f g h\nstate start\ndone 1\nend\nkind next @p\nstate start\ndone 1\nend\n\
    root one leaf\nroot two wide\nroot three next @two\nroot four leaf behind @three\n\
    root five next @one behind @one\n";

/// Ten roots.
pub const ROOTS: &str = "ktask 1\nkind leaf\nstate start\ndone 1\nend\nroot a leaf\nroot b leaf\n\
    root c leaf\nroot d leaf high\nroot e leaf low\nroot f leaf\nroot g leaf\nroot h leaf\n\
    root i leaf\nroot j leaf\n";

/// A trap.
pub const TRAP: &str = "ktask 1\nkind fails\nvar x\nstate start\nsub x 0 1\ndone x\nend\n\
    root r fails\nroot s fails behind @r\n";
