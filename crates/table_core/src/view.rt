ghost use Rattle.std.specs.Prelude.{ℕ, List};
ghost use Rattle.std.specs.Borrow.{ftrue};
ghost use Rattle.task_meaning.specs.Worths.{Accepted};
ghost use Rattle.table_core.specs.Addresses.{Addr};
ghost use Rattle.table_core.specs.Holdings.{Place, Block, Look, Made, Waiter, Run, Done, Placing, RootSays, Sight};
ghost use Rattle.table_core.specs.Asking.{Answer, Drawn, Owned};
ghost use Rattle.table_core.specs.Story.{Fact};

use std::marker::Model;

/// What one pass holds and knows. It exists in proofs alone.
pub struct View {
    // Its places in the counts of superblocks: reserved, taken by a block, and left by a bit that
    // it cleared.
    pub ghost reserved: { List Place },
    pub ghost blocks: { List Block },
    pub ghost debts: { List Place },
    // The number of fresh blocks that it cleared.
    pub ghost cleared: { ℕ },
    // All places that it ever reserved, and all that it settled.
    pub ghost wins: { List Place },
    pub ghost settles: { List Place },
    // Its looks, the newest first. So many of the oldest are from before its last null answer.
    pub ghost looks: { List Look },
    pub ghost old_looks: { ℕ },
    // The units of the records to which it has references, each as often as it has one.
    pub ghost futures: { List ℕ },
    // Its own records: made, waiting in no list, running, done and not given up, and at their last
    // reference.
    pub ghost made: { List Made },
    pub ghost waiting: { List Waiter },
    pub ghost runs: { List Run },
    pub ghost done: { List Done },
    pub ghost retiring: { List ℕ },
    // The lists of waiters that it took.
    pub ghost chains: { List (List ℕ) },
    // What it knows of words of its own records, the newest first, and of other records under a
    // reference.
    pub ghost known: { List (Addr × ℕ) },
    pub ghost sights: { List Sight },
    // One member where it has the turn of asking for roots: what is said of each root that was
    // asked for.
    pub ghost turn: { List (List RootSays) },
    // So many roots are asked for, as it knows.
    pub ghost asked: { ℕ },
    // The number that was drawn for the root of the turn, until the root is named; 0 for none.
    pub ghost root_task: { ℕ },
    // Numbers that it drew and that stand in no state word, and the numbers of the activations that
    // it took.
    pub ghost drawn: { List Drawn },
    pub ghost taken: { List ℕ },
    // The numbers that it placed, of each pass that was joined the newest first.
    pub ghost placings: { List Placing },
    // Numbers whose task or predecessor is not yet written, and stamps that are not.
    pub ghost no_task: { List ℕ },
    pub ghost no_after: { List ℕ },
    pub ghost stamps: { List Owned },
    // Words of the evidence that it is to write.
    pub ghost unwritten: { List (Addr × ℕ) },
    // The calls of the numbers that it drew, and the null and limit answers that it has.
    pub ghost calls: { List (ℕ × Accepted) },
    pub ghost answers: { List Answer },
    // What it knows of the story.
    pub ghost facts: { List Fact },
    // Its steps, the newest first: the word, and the number that was found there.
    pub ghost seen: { List (Addr × ℕ) },
    // Its tries to join a list, and its loose steps.
    pub ghost tries: { ℕ },
    pub ghost loose: { ℕ },
    // 1 where it may draw, and 1 where it saw that nothing lives after the last root; else 0.
    pub ghost may_draw: { ℕ },
    pub ghost quiet: { ℕ },
    // One more than the splits that it may still make; 0 once it was joined into another.
    pub ghost parts: { ℕ },
}

impl Model for View {
    ghost also_owns = { λ _. ftrue };
}
