//! Superblocks are tried one after the other, until a place is reserved.
ghost use Rattle.std.specs.Prelude.{◌≡◌, ◌<◌, ◌≤◌, IsTrue, IfSome, IfNone};
ghost use Rattle.step_table.specs.Passes.{view, plan, IsOf, IsSame, TakesOne};
ghost use Rattle.step_table.specs.Sound.{AreSound};
ghost use Rattle.memory_pool.specs.Searches.{SeesMore, IsFull, Tries, Follows, IsFirstEmpty};
ghost use Rattle.memory_pool.specs.Searches.{GoesRound, FindsOnce, SeesNone};

use crate::found::Found;
use kt_words::{Plan, SuperWord};
use std::sync::Wait;
use step_table::{Pass, Reserved, Shared};

// Whether a superblock with this word has room for one more block of the class.
fn has_room(plan: &Plan, word: SuperWord, class: u8) -> bool
    requires { class ≤ 3 }
    ensures yes { IsTrue result → TakesOne plan.now word class }
    ensures no { (IsTrue result → ⊥) → IsFull plan.now word class }
{
    let fits = word.class == class || word.count == 0;
    fits && u32::from(word.count) < plan.geometry.cap(class)
}

// Reserves a place in one superblock, as long as it has room. An empty one whose class would change
// is left where `changes` is not set.
fn try_in(
    shared: &Shared,
    rt: &impl Wait,
    pass: &mut Pass,
    superblock: u32,
    class: u8,
    changes: bool,
) -> Found
    requires table { IsOf shared.now pass.old }
    requires superblock { superblock < (plan shared.now).geometry.superblocks }
    requires class { class ≤ 3 }
    ensures pass { IsSame pass.old pass.new }
    ensures sound { AreSound shared.now.setup (view pass.old) (view pass.new) }
    ensures later { SeesMore (view pass.old) (view pass.new) }
    ensures answer { Tries (plan shared.now) superblock class changes pass.old result pass.new }
{
    let plan = shared.plan();
    for _ in rt.forever() {
        let seen = shared.look(pass, superblock, class);
        if !has_room(&plan, seen, class) {
            return Found::Nothing;
        }
        if !changes && seen.class != class {
            return Found::Empty(superblock);
        }
        if let Ok(reserved) = shared.reserve(pass, superblock, seen, class) {
            return Found::Place(reserved);
        }
    }
    unreachable!()
}

// The first empty superblock that was left.
fn first_empty(before: Option<u32>, found: &Found) -> Option<u32>
    ensures { IsFirstEmpty before found.now result }
{
    match (before, found) {
        (None, Found::Empty(superblock)) => Some(*superblock),
        _ => before,
    }
}

// The superblock after this one, and the first after the last.
fn next(superblock: u32, superblocks: u32) -> u32
    requires { superblock < superblocks }
    ensures after { Follows superblocks superblock result }
    ensures inside { result < superblocks }
{
    if superblock + 1 < superblocks {
        superblock + 1
    } else {
        0
    }
}

// Tries each superblock once, from this one on.
fn go_round(
    shared: &Shared,
    rt: &impl Wait,
    pass: &mut Pass,
    class: u8,
    start: u32,
    changes: bool,
) -> Found
    requires table { IsOf shared.now pass.old }
    requires start { start < (plan shared.now).geometry.superblocks }
    requires class { class ≤ 3 }
    ensures pass { IsSame pass.old pass.new }
    ensures sound { AreSound shared.now.setup (view pass.old) (view pass.new) }
    ensures later { SeesMore (view pass.old) (view pass.new) }
    ensures answer { GoesRound (plan shared.now) class changes pass.old result pass.new }
{
    let superblocks = shared.plan().geometry.superblocks;
    let mut superblock = start;
    let mut empty = None;
    for turn in 0..superblocks {
        let found = try_in(shared, rt, pass, superblock, class, changes);
        if let Found::Place(reserved) = found {
            return Found::Place(reserved);
        }
        empty = first_empty(empty, &found);
        superblock = next(superblock, superblocks);
    }
    match empty {
        Some(superblock) => Found::Empty(superblock),
        None => Found::Nothing,
    }
}

// Where a search begins: where the pass last found room for the class.
fn start_of(shared: &Shared, pass: &Pass, class: u8) -> u32
    requires { class ≤ 3 }
    ensures { result < (plan shared.now).geometry.superblocks }
{
    let superblocks = shared.plan().geometry.superblocks;
    let start = pass.start(class);
    if start < superblocks { start } else { 0 }
}

/// Reserves a place for a block of the class. An empty superblock changes its class only where no
/// superblock of the class was seen with room.
pub fn find(shared: &Shared, rt: &impl Wait, pass: &mut Pass, class: u8) -> Option<Reserved>
    requires table { IsOf shared.now pass.old }
    requires class { class ≤ 3 }
    ensures pass { IsSame pass.old pass.new }
    ensures sound { AreSound shared.now.setup (view pass.old) (view pass.new) }
    ensures later { SeesMore (view pass.old) (view pass.new) }
    ensures some { IfSome result (λ won. FindsOnce (plan shared.now) class pass.old won pass.new) }
    ensures none { IfNone result (SeesNone (plan shared.now) class pass.old pass.new) }
{
    let start = start_of(shared, pass, class);
    match go_round(shared, rt, pass, class, start, false) {
        Found::Place(reserved) => Some(reserved),
        Found::Nothing => None,
        Found::Empty(superblock) => match go_round(shared, rt, pass, class, superblock, true) {
            Found::Place(reserved) => Some(reserved),
            _ => None,
        },
    }
}
