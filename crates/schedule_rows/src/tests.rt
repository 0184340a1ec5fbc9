use crate::hosting::host_program;
use ready_queues::MutexReady;
use sample_programs::{plan_of, program_of};
use schedule_core::HostSpawned;
use std::alloc::Global;
use std::sync::Wait;
use std::test::Fail;
use task_syntax::Priority;

// A root without arguments, one that waits for it, one that is only passed it, and one of a larger
// class.
const PROGRAM: &[u8] = b"ktask 1\nkind one\nstate start\ndone 1\nend\nkind next @p\nvar x\n\
    state start holds @p settled @p\nget x @p\ndone x\nend\nkind keeps @p n\n\
    state start holds @p\ndone n\nend\nkind wide\nvar a b c d e f g h\nstate start\n\
    done 2\nend\nroot first one high\nroot second next @first behind @first low\n\
    root third keeps @first 7\nroot fourth wide\n\
    root fifth next @fourth behind @fourth\n";

// What came of each root, over so many superblocks and with such a limit.
fn answers(
    alloc: Global,
    rt: &impl Wait,
    superblocks: u32,
    limit: u64,
) -> Result<Vec<HostSpawned>, Fail> {
    let checked = program_of(alloc, PROGRAM)?.ok_or("no program")?;
    let plan = plan_of(&checked, superblocks, 64, limit).ok_or("no plan")?;
    let (ready, _) = MutexReady::new(alloc, 16)?;
    Ok(host_program(alloc, rt, checked, plan, ready)?)
}

// The number and the priority of an entry that was given.
fn entry_of(told: HostSpawned) -> Option<(u32, Priority)> {
    match told {
        HostSpawned::Named(Some(entry)) => Some((entry.number, entry.priority)),
        _ => None,
    }
}

#[test]
fn roots_are_named_and_wait_for_those_that_they_are_behind(rt: HostRuntime) -> Result<(), Fail> {
    let told = answers(rt.alloc(), &rt, 4, 100)?;
    assert_eq!(rt; told.len(), 5);
    assert_eq!(rt; entry_of(told[0]), Some((1, Priority::High)));
    assert_eq!(rt; told[1], HostSpawned::Named(None));
    assert_eq!(rt; entry_of(told[2]), Some((3, Priority::Regular)));
    assert_eq!(rt; entry_of(told[3]), Some((4, Priority::Regular)));
    assert_eq!(rt; told[4], HostSpawned::Named(None));
    Ok(())
}

#[test]
fn a_root_of_another_class_finds_no_room(rt: HostRuntime) -> Result<(), Fail> {
    let told = answers(rt.alloc(), &rt, 1, 100)?;
    assert_eq!(rt; told.len(), 5);
    assert_eq!(rt; told[3], HostSpawned::Null);
    assert_eq!(rt; told[4], HostSpawned::Skipped(3));
    Ok(())
}

#[test]
fn past_the_limit_roots_are_over_and_skipped(rt: HostRuntime) -> Result<(), Fail> {
    let told = answers(rt.alloc(), &rt, 4, 3)?;
    assert_eq!(rt; told.len(), 5);
    assert_eq!(rt; entry_of(told[2]), Some((3, Priority::Regular)));
    assert_eq!(rt; told[3], HostSpawned::Over);
    assert_eq!(rt; told[4], HostSpawned::Skipped(3));
    Ok(())
}
