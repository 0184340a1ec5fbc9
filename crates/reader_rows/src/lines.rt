use crate::tables::{
    FAULTS_IN_A_KIND, FAULTS_OF_INSTRUCTIONS, FAULTS_OF_TEXTS, FAULTS_OUTSIDE, LineFault,
    ONE_LINE_OF_EACH_SORT, TEXTS_AT_LIMITS,
};
use std::alloc::{AllocError, Global};
use std::process::Abort;
use std::test::Fail;
use task_lines::{Item, RootTerm, Step, Term, What, items_of};
use task_syntax::{List, MathOp, Name, Priority, Relation};
use task_text::{Cause, Fault, TextError};

/// The first fault of a text, or no fault, or want of memory.
fn first_fault(rt: &impl Abort, alloc: Global, text: &[u8]) -> Result<Option<Fault>, AllocError> {
    assert!(rt; text.len() < 10000000);
    match items_of(alloc, text) {
        Ok(_) => Ok(None),
        Err(TextError::Fault(fault)) => Ok(Some(fault)),
        Err(TextError::Memory) => Err(AllocError),
    }
}

/// The first fault of a line between two others.
fn fault_between(
    rt: &impl Abort,
    alloc: Global,
    front: &[u8],
    line: &[u8],
    back: &[u8],
) -> Result<Option<Fault>, AllocError> {
    let mut text = Vec::new(alloc);
    text.extend_from_slice(front)?;
    text.extend_from_slice(line)?;
    text.extend_from_slice(back)?;
    first_fault(rt, alloc, text.as_slice())
}

#[test]
fn faults_stand_at_their_line_and_word(rt: HostRuntime) -> Result<(), Fail> {
    for (text, cause, line, word) in &FAULTS_OF_TEXTS {
        let want = Fault {
            cause: *cause,
            line: *line,
            word: *word,
        };
        assert_eq!(rt; first_fault(&rt, rt.alloc(), text)?, Some(want));
    }
    Ok(())
}

/// Whether each line of the table, between two others, has its fault in line 6.
fn have_their_faults(
    rt: &impl Abort,
    alloc: Global,
    front: &[u8],
    table: &[LineFault],
    back: &[u8],
) -> Result<bool, AllocError> {
    for (text, cause, word) in table {
        let want = Fault {
            cause: *cause,
            line: 6,
            word: *word,
        };
        if fault_between(rt, alloc, front, text, back)? != Some(want) {
            return Ok(false);
        }
    }
    Ok(true)
}

#[test]
fn faults_of_instructions_stand_at_their_word(rt: HostRuntime) -> Result<(), Fail> {
    let front = b"ktask 1\nkind k\nvar x @a\nstate s\nlabel top\n";
    let table = &FAULTS_OF_INSTRUCTIONS;
    assert!(rt; have_their_faults(&rt, rt.alloc(), front, table, b"\ndone 0\nend")?);
    Ok(())
}

#[test]
fn faults_of_kinds_states_and_roots_stand_at_their_word(rt: HostRuntime) -> Result<(), Fail> {
    let outside = b"ktask 1\nkind k n\nstate s\ndone 0\nend\n";
    let inside = b"ktask 1\nkind k n\nvar x\n\n\n";
    assert!(rt; have_their_faults(&rt, rt.alloc(), outside, &FAULTS_OUTSIDE, b"")?);
    assert!(rt; have_their_faults(&rt, rt.alloc(), inside, &FAULTS_IN_A_KIND, b"")?);
    Ok(())
}

/// So many lines, each with a name of its own between the two texts.
fn add_lines(
    text: &mut Vec<u8>,
    count: u8,
    before: &[u8],
    behind: &[u8],
) -> Result<(), AllocError> {
    for at in 0..count {
        text.extend_from_slice(before)?;
        text.extend_from_slice(&[b'a' + at / 16, b'a' + at % 16])?;
        text.extend_from_slice(behind)?;
    }
    Ok(())
}

#[test]
fn the_first_item_past_a_limit_is_at_fault(rt: HostRuntime) -> Result<(), Fail> {
    for (front, count, before, behind, last, want) in &TEXTS_AT_LIMITS {
        let mut text = Vec::new(rt.alloc());
        text.extend_from_slice(b"ktask 1\n")?;
        text.extend_from_slice(front)?;
        add_lines(&mut text, *count, before, behind)?;
        text.extend_from_slice(last)?;
        let fault = first_fault(&rt, rt.alloc(), text.as_slice())?;
        assert_eq!(rt; fault.map(|fault| (fault.line, fault.word)), *want);
    }
    Ok(())
}

fn is_called(name: &Name, bytes: &[u8]) -> bool {
    name.as_bytes() == bytes
}

/// The items of a text with a line of each sort, or none where it has a fault.
fn items_of_each_sort(alloc: Global) -> Result<Option<List<Item>>, AllocError> {
    match items_of(alloc, ONE_LINE_OF_EACH_SORT) {
        Ok(items) => Ok(Some(items)),
        Err(TextError::Fault(_)) => Ok(None),
        Err(TextError::Memory) => Err(AllocError),
    }
}

#[test]
fn kinds_states_and_roots_are_read_to_their_items(rt: HostRuntime) -> Result<(), Fail> {
    let items = items_of_each_sort(rt.alloc())?.ok_or("no items")?;
    assert_eq!(rt; items.len(), 23);
    assert!(rt;
        matches!(items.get(0), Some(Item { line: 3, what: What::Kind { name, arguments } })
        if is_called(name, b"k") && arguments.len() == 2)
    );
    assert!(rt;
        matches!(items.get(3), Some(Item { line: 6, what: What::State { holds, settled, .. } })
        if holds.len() == 1 && settled.len() == 1)
    );
    assert!(rt;
        matches!(items.get(22), Some(Item { line: 25,
        what: What::Root { arguments, behind: Some(_), priority: Priority::Low, .. } })
        if matches!(arguments.get(0), Some(RootTerm::Number(5)))
        && matches!(arguments.get(1), Some(RootTerm::Root(_))))
    );
    Ok(())
}

#[test]
fn instructions_are_read_to_their_items(rt: HostRuntime) -> Result<(), Fail> {
    let items = items_of_each_sort(rt.alloc())?.ok_or("no items")?;
    assert!(rt;
        matches!(
            items.get(4),
            Some(Item {
                line: 7,
                what: What::Step {
                    step: Step::Set {
                        value: Term::Literal(18446744073709551615),
                        ..
                    }
                }
            })
        )
    );
    assert!(rt;
        matches!(
            items.get(5),
            Some(Item {
                line: 8,
                what: What::Step {
                    step: Step::Math {
                        op: MathOp::Sub,
                        right: Term::Literal(7),
                        ..
                    }
                }
            })
        )
    );
    assert!(rt;
        matches!(items.get(7), Some(Item { line: 10,
        what: What::Step { step: Step::If { relation: Relation::AtMost, target, .. } } })
        if is_called(target, b"out"))
    );
    assert!(rt;
        matches!(items.get(11), Some(Item { line: 14,
        what: What::Step { step: Step::Spawn { arguments, behind: Some(behind),
        priority: Priority::Low, retry: true, .. } } })
        if arguments.len() == 3 && is_called(behind, b"p"))
    );
    Ok(())
}

#[test]
fn long_texts_are_read(rt: HostRuntime) -> Result<(), Fail> {
    let empty = vec![in rt.alloc(); b'\n'; 1000000]?;
    let mut text = Vec::new(rt.alloc());
    text.extend_from_slice(b"ktask 1")?;
    text.extend_from_slice(empty.as_slice())?;
    assert_eq!(rt; first_fault(&rt, rt.alloc(), text.as_slice())?, None);

    text.extend_from_slice(b"kind k\nstate s\ndone 1 ")?;
    for _ in 0..50000 {
        text.extend_from_slice(b"a ")?;
    }
    let want = Fault {
        cause: Cause::WordsLeft,
        line: 1000003,
        word: 3,
    };
    assert_eq!(rt; first_fault(&rt, rt.alloc(), text.as_slice())?, Some(want));
    Ok(())
}
