//! The shared pool.
ghost use Rattle.std.specs.Prelude.{◌≡◌, ◌+◌, ◌<◌, ◌≤◌, IfOk, All};
ghost use Rattle.step_table.specs.Passes.{plan, IsOf, IsSame};

use crate::turns::Turns;
use kt_words::Plan;
use memory_pool::{Allocated, allocate, release};
use std::alloc::{AllocError, Global};
use std::rt::Clock;
use std::sync::Wait;
use std::thread::Threads;
use std::time::{Duration, Instant};
use std::{io, thread};
use step_table::{Pass, Shared};
use task_syntax::{Checked, Columns, List, Program};

// A table for a program without kinds and roots.
fn table(alloc: Global, turns: Turns) -> Result<(Shared, Pass), AllocError>
    ensures { IfOk result (λ made. IsOf made.0 made.1 × (made.1.splits ≡ 4095)) }
{
    let Some(plan) = Plan::new(turns.geometry, 1, 0) else {
        unreachable!()
    };
    let program = Program {
        kinds: List::new(alloc),
        roots: List::new(alloc),
    };
    Shared::new(alloc, Checked::seal(program), Columns::none(alloc), plan)
}

// Takes one block, which stays out.
fn take(shared: &Shared, pass: &mut Pass, superblock: u32, bit: u32)
    requires table { IsOf shared.now pass.old }
    requires superblock { superblock < (plan shared.now).geometry.superblocks }
    ensures { IsSame pass.old pass.new }
{
    let room = shared.plan().geometry.cap(0);
    let seen = shared.look(pass, superblock, 0);
    if bit >= room || seen.class != 0 || u32::from(seen.count) >= room {
        return;
    }
    if let Ok(reserved) = shared.reserve(pass, superblock, seen, 0) {
        let _stays = shared.claim(pass, reserved, bit);
    }
}

// Takes all blocks of a superblock but one in ten.
fn fill_one(shared: &Shared, pass: &mut Pass, superblock: u32)
    requires table { IsOf shared.now pass.old }
    requires superblock { superblock < (plan shared.now).geometry.superblocks }
    ensures { IsSame pass.old pass.new }
{
    for bit in 0..512 {
        if bit % 10 != 9 {
            take(shared, pass, superblock, bit);
        }
    }
}

fn fill(shared: &Shared, pass: &mut Pass)
    requires table { IsOf shared.now pass.old }
    ensures { IsSame pass.old pass.new }
{
    for superblock in 0..shared.plan().geometry.superblocks {
        fill_one(shared, pass, superblock);
    }
}

// So many passes of one.
fn passes(alloc: Global, shared: &Shared, pass: Pass, count: u32) -> Result<Vec<Pass>, AllocError>
    requires table { IsOf shared.now pass }
    requires few { count ≤ pass.splits }
    ensures { IfOk result (λ passes. All (IsOf shared.now) passes.items) }
{
    let mut passes = Vec::new(alloc);
    let mut last = pass;
    for number in 0..count {
        let (rest, pass) = shared.split(last);
        last = rest;
        passes.push(pass)?;
    }
    Ok(passes)
}

fn take_turn(rt: &impl Wait, shared: &Shared, pass: &mut Pass)
    requires { IsOf shared.now pass.old }
    ensures { IsSame pass.old pass.new }
{
    if let Allocated::Block(block) = allocate(shared, rt, pass, 0) {
        release(shared, pass, block);
    }
}

fn take_turns(rt: &impl Wait, shared: &Shared, pass: Pass, rounds: u32)
    requires { IsOf shared.now pass }
{
    let mut pass = pass;
    for round in 0..rounds {
        take_turn(rt, shared, &mut pass);
    }
}

pub fn measure<R: Clock + Threads + Wait + Sync + AllocGlobal>(
    rt: &R,
    turns: Turns,
) -> io::Result<Duration>
    requires { turns.threads ≤ 64 }
{
    let (shared, mut pass) = table(rt.alloc(), turns)?;
    if turns.is_filled {
        fill(&shared, &mut pass);
    }
    let passes = passes(rt.alloc(), &shared, pass, turns.threads)?;
    let start = Instant::now(rt)?;
    thread::map_vec(
        rt,
        passes,
        &|pass| -> ()
            requires { IsOf shared pass }
        { take_turns(rt, &shared, pass, turns.rounds) },
    )?;
    start.elapsed(rt)
}
