//! The steps on records that are made or run, one by one.
ghost use Rattle.std.specs.Prelude.{◌≡◌, ◌<◌, ◌≤◌, ◌^◌, IfSome};
ghost use Rattle.step_table.specs.Passes.{view, plan, IsOf};
ghost use Rattle.step_table.specs.RecordHands.{FillsMade, FillsRun};
ghost use Rattle.reference_rows.specs.Hands.{IsNew, IsRunning, HasMaker};

use crate::making::{done_record, running_record};
use crate::tables::{opened, table};
use kt_words::Phase;
use memory_pool::{Allocated, allocate};
use std::process::Abort;
use std::sync::Wait;
use std::test::Fail;
use step_table::{Finishing, Linkable, Made, OwnWord, Pass, Shared, Started};
use table_records::waiting_record;

// Makes a record in a block of class 1.
fn make<R: Abort + Wait>(rt: &R, shared: &Shared, pass: &mut Pass) -> Made
    requires table { IsOf shared.now pass.old }
    ensures table { IsOf shared.now pass.new }
    ensures made { IsNew (plan shared.now) result (view pass.new) }
    ensures class { result.class ≡ 1 }
{
    let Allocated::Block(block) = allocate(shared, rt, pass, 1) else {
        panic!(rt; "no block")
    };
    let unit = block.unit();
    let made = shared.found(pass, block);
    assert_eq!(rt; (made.unit(), made.class()), (unit, 1));
    made
}

// Writes a word of a record that is made, and reads it back.
fn write_made(rt: &impl Abort, shared: &Shared, pass: &mut Pass, made: &Made, to: (OwnWord, u64))
    requires table { IsOf shared.now pass.old }
    requires made { IsNew (plan shared.now) made.now (view pass.old) }
    requires word { FillsMade made.now.class to.0 }
    ensures table { IsOf shared.now pass.new }
    ensures made { IsNew (plan shared.now) made.now (view pass.new) }
{
    let (word, value) = to;
    shared.fill(pass, made.unit(), word, value);
    assert_eq!(rt; shared.read_own(pass, made.unit(), word), value);
}

// A record that is made is a block again, and the block is given back.
fn unmake(rt: &impl Abort, shared: &Shared, pass: &mut Pass, made: Made)
    requires table { IsOf shared.now pass.old }
    requires made { IsNew (plan shared.now) made (view pass.old) }
    ensures table { IsOf shared.now pass.new }
{
    let unit = made.unit();
    let class = made.class();
    let block = shared.unmake(pass, made);
    assert_eq!(rt; (block.unit(), block.class()), (unit, class));
    shared.release_block(pass, block);
    assert_eq!(rt; shared.look(pass, 0, 0).count, 0);
}

#[test]
fn made_record_is_written_and_unmade(rt: HostRuntime) -> Result<(), Fail> {
    let (shared, mut pass) = table(rt.alloc())?;
    let made = make(&rt, &shared, &mut pass);
    write_made(&rt, &shared, &mut pass, &made, (OwnWord::Frame(15), 7));
    write_made(&rt, &shared, &mut pass, &made, (OwnWord::Task, 8));
    write_made(&rt, &shared, &mut pass, &made, (OwnWord::Result, 9));
    write_made(&rt, &shared, &mut pass, &made, (OwnWord::References, 2));
    write_made(&rt, &shared, &mut pass, &made, (OwnWord::Head, 1 << 63));
    unmake(&rt, &shared, &mut pass, made);
    Ok(())
}

// Writes a word of a record that runs, and reads it back.
fn write_running(
    rt: &impl Abort,
    shared: &Shared,
    pass: &mut Pass,
    started: &Started,
    to: (OwnWord, u64),
)
    requires table { IsOf shared.now pass.old }
    requires running { IsRunning (plan shared.now) started.now (view pass.old) }
    requires word { FillsRun 0 to.0 }
    ensures table { IsOf shared.now pass.new }
    ensures running { IsRunning (plan shared.now) started.now (view pass.new) }
{
    let (word, value) = to;
    shared.fill(pass, started.unit(), word, value);
    assert_eq!(rt; shared.read_own(pass, started.unit(), word), value);
}

// Makes a record that waits behind the maker's task, one that is done and one that runs. The pass
// has four references then.
fn three(
    shared: &Shared,
    rt: &impl Wait,
    pass: &mut Pass,
    maker: &Started,
) -> Option<(Linkable, Finishing, Started)>
    requires table { IsOf shared.now pass.old }
    requires maker { HasMaker shared.now.setup maker.now (view pass.old) }
    requires room { pass.old.held < 2 ^ 32 }
    ensures table { IsOf shared.now pass.new }
    ensures runs { IfSome result (λ made. IsRunning (plan shared.now) made.2 (view pass.new)) }
    ensures held { IfSome result (λ _. pass.new.held ≡ 4) }
{
    let task = maker.number();
    let (waiting, _first) = waiting_record(shared, rt, pass, maker, task)?;
    let (finishing, _second) = done_record(shared, rt, pass, maker)?;
    let (started, _third) = running_record(shared, rt, pass, maker)?;
    pass.keep_count(4);
    Some((waiting, finishing, started))
}

// The phase of a record of the table.
fn phase_at(rt: &impl Abort, shared: &Shared, pass: &mut Pass, unit: u32) -> Phase
    requires table { IsOf shared.now pass.old }
    ensures table { IsOf shared.now pass.new }
{
    assert!(rt; unit < 8);
    shared.see_state(pass, unit).phase
}

#[test]
fn records_are_in_their_phases(rt: HostRuntime) -> Result<(), Fail> {
    let (shared, mut pass, maker) = opened(&rt, rt.alloc())?;
    assert!(rt; pass.held() < 1_000_000);
    let made = three(&shared, &rt, &mut pass, &maker).ok_or("no records")?;
    let (waiting, finishing, started) = made;
    let units = (
        maker.unit(),
        waiting.unit(),
        finishing.unit(),
        started.unit(),
    );
    assert_eq!(rt; units, (0, 1, 2, 3));
    assert_eq!(rt; pass.held(), 4);
    write_running(&rt, &shared, &mut pass, &started, (OwnWord::Frame(7), 5));
    write_running(&rt, &shared, &mut pass, &started, (OwnWord::Result, 6));
    assert_eq!(rt; phase_at(&rt, &shared, &mut pass, 0), Phase::Running);
    assert_eq!(rt; phase_at(&rt, &shared, &mut pass, 1), Phase::Waiting);
    assert_eq!(rt; phase_at(&rt, &shared, &mut pass, 2), Phase::Complete);
    assert_eq!(rt; phase_at(&rt, &shared, &mut pass, 3), Phase::Running);
    assert_eq!(rt; shared.look(&mut pass, 0, 0).count, 4);
    assert_eq!(rt; shared.look(&mut pass, 0, 0).ever, 4);
    Ok(())
}
