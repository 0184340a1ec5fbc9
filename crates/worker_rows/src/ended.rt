//! What is seen of a run that has ended.
ghost use Rattle.std.specs.Prelude.{◌≡◌, ◌≤◌, length, map, IfOk, vec_len};
ghost use Rattle.record_core.specs.Counting.{one_if};
ghost use Rattle.step_table.specs.Passes.{view, plan, IsOf, IsSame};
ghost use Rattle.table_core.specs.Addresses.{units_of};
ghost use Rattle.worker_rows.specs.Left.{is_complete, is_busy, SeesRecords, SeesBlocks, SeesLeft};

use kt_words::Phase;
use ready_queues::ReadyStore;
use schedule_core::{HostSpawned, Scheduler};
use std::alloc::{AllocError, Global};
use step_table::{Pass, Shared};
use worker_loop::{Worked, Worker};

/// What is left in the table: how many records live, as the table counts them; how many records are
/// done, and how many are in another phase but free; how many blocks the superblocks count.
#[derive(Debug, Clone, Copy, PartialEq, Eq)]
pub struct Left {
    pub live: u64,
    pub done: u32,
    pub going: u32,
    pub blocks: u32,
}

/// What came of each root and of each worker, and what is left.
#[derive(Drop)]
pub struct Ended {
    pub roots: Vec<HostSpawned>,
    pub worked: Vec<Option<Worked>>,
    pub left: Left,
}

// 1 where the record is done.
fn one_done(phase: Phase) -> u32
    ensures { result ≡ one_if (is_complete phase) }
{
    match phase {
        Phase::Complete => 1,
        _ => 0,
    }
}

// 1 where it is neither done nor free.
fn one_going(phase: Phase) -> u32
    ensures { result ≡ one_if (is_busy phase) }
{
    match phase {
        Phase::Complete | Phase::Free => 0,
        _ => 1,
    }
}

// How many units are the first one of a record that is done, and how many of one in another phase.
fn count_records(shared: &Shared, pass: &mut Pass) -> (u32, u32)
    requires table { IsOf shared.now pass.old }
    ensures pass { IsSame pass.old pass.new }
    ensures counted { SeesRecords (units_of (plan shared.now)) result.0 result.1
        (view pass.old) (view pass.new) }
{
    let geometry = shared.plan().geometry;
    let units = geometry.superblocks * geometry.units;
    let mut done = 0u32;
    let mut going = 0u32;
    'units: for unit in 0..units {
        let phase = shared.see_state(pass, unit).phase;
        done = done + one_done(phase);
        going = going + one_going(phase);
    }
    (done, going)
}

// How many blocks are in use, as the superblocks count them.
fn count_blocks(shared: &Shared, pass: &mut Pass) -> u32
    requires table { IsOf shared.now pass.old }
    ensures pass { IsSame pass.old pass.new }
    ensures counted { SeesBlocks (plan shared.now).geometry.superblocks result
        (view pass.old) (view pass.new) }
{
    let superblocks = shared.plan().geometry.superblocks;
    let mut blocks = 0u32;
    'superblocks: for superblock in 0..superblocks {
        let word = shared.look(pass, superblock, 0);
        blocks = blocks + u32::from(word.count);
    }
    blocks
}

/// What is left in the table.
pub fn see_left<Q: ReadyStore>(scheduler: &Scheduler<Q>, pass: &mut Pass) -> Left
    requires table { IsOf scheduler.now.shared pass.old }
    ensures pass { IsSame pass.old pass.new }
    ensures left { SeesLeft (plan scheduler.now.shared) (view pass.old) result (view pass.new) }
{
    let live = scheduler.see_live(pass);
    let (done, going) = count_records(scheduler.shared(), pass);
    let blocks = count_blocks(scheduler.shared(), pass);
    Left {
        live,
        done,
        going,
        blocks,
    }
}

/// What became of the work of each worker, in their order.
pub fn worked_of<Q: ReadyStore>(
    alloc: Global,
    workers: &[Worker<Q>],
) -> Result<Vec<Option<Worked>>, AllocError>
    ensures { IfOk result (λ worked. worked.items ≡ map (λ w. w.worked) workers.now) }
{
    let mut worked = Vec::new(alloc);
    'workers: for worker in workers {
        worked.push(worker.worked)?;
    }
    Ok(worked)
}
