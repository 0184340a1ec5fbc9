use crate::given_end::GivenEnd;
use crate::reportable::can_report;
use crate::samples::{CHAIN, SAMPLES, Sample};
use kt_words::{Geometry, SuperWord};
use record_core::{ActivationRow, Cause, TaskRow};
use run_report::{Failed, MemorySink, write_check, write_report};
use sample_programs::program_of;
use std::alloc::{AllocError, Global};
use std::test::Fail;
use task_syntax::Checked;

const KIND: &str = "ktask 1\nkind k\nstate s\ndone 0\nend\n";

/// A valid program with these lines after a kind, and none where they make no such program.
fn program_with(alloc: Global, lines: &str) -> Result<Option<Checked>, AllocError> {
    let mut text = String::new(alloc);
    text.push_str(KIND)?;
    text.push_str(lines)?;
    program_of(alloc, text.as_bytes())
}

/// The rows of a sample.
#[derive(Drop)]
struct Rows {
    activations: Vec<ActivationRow>,
    tasks: Vec<TaskRow>,
    evidence: Vec<SuperWord>,
}

fn some_u32(number: u32) -> Option<u32> {
    if number == 0 { None } else { Some(number) }
}

fn some_u64(number: u64) -> Option<u64> {
    if number == 0 { None } else { Some(number) }
}

fn rows_of(alloc: Global, sample: &Sample) -> Result<Rows, AllocError> {
    let mut activations = Vec::new(alloc);
    for (task, after, start) in sample.activations {
        activations.push(ActivationRow {
            task: *task,
            after: some_u32(*after),
            start: some_u64(*start),
        })?;
    }
    let mut tasks = Vec::new(alloc);
    for (finish, cause) in sample.tasks {
        tasks.push(TaskRow {
            finish: some_u64(*finish),
            cause: *cause,
        })?;
    }
    let mut evidence = Vec::new(alloc);
    for (class, count) in sample.evidence {
        evidence.push(SuperWord {
            count: *count,
            class: *class,
            ever: 0,
        })?;
    }
    Ok(Rows {
        activations,
        tasks,
        evidence,
    })
}

fn row(task: u32, after: Option<u32>, start: u64) -> ActivationRow {
    ActivationRow {
        task,
        after,
        start: Some(start),
    }
}

fn finished(finish: Option<u64>) -> TaskRow {
    TaskRow {
        finish,
        cause: Cause::Clear,
    }
}

/// The end of a sample, where its rows fit one another.
fn end_of<'a>(sample: &Sample, rows: &'a Rows) -> Option<GivenEnd<'a>> {
    let superblocks = match rows.evidence.len() {
        1 => 1,
        2 => 2,
        _ => 256,
    };
    let geometry = Geometry::new(superblocks, sample.units)?;
    let (activations, tasks) = (rows.activations.as_slice(), rows.tasks.as_slice());
    let evidence = rows.evidence.as_slice();
    if sample.roots.len() > 16 || activations.len() > 1000 || tasks.len() != activations.len() {
        return None;
    }
    if sample.evidence_class.is_some() && evidence.len() != geometry.superblocks as usize {
        return None;
    }
    Some(GivenEnd {
        geometry,
        roots: sample.roots,
        activations,
        tasks,
        nulls: sample.nulls,
        held: sample.held,
        evidence_class: sample.evidence_class,
        evidence,
    })
}

/// A sink that fails in this call, counted from 1.
fn sink_failing_at(alloc: Global, call: u64) -> Result<MemorySink, AllocError> {
    let mut listed = Vec::new(alloc);
    listed.push(call)?;
    match MemorySink::new(alloc, 8192, listed) {
        Ok(sink) => Ok(sink),
        Err(_) => Err(AllocError),
    }
}

/// What the first so many pieces make.
fn front_of(alloc: Global, pieces: &[&str], count: u64) -> Result<String, AllocError> {
    let mut front = String::new(alloc);
    for piece in pieces.iter().take(count as usize) {
        front.push_str(piece)?;
    }
    Ok(front)
}

/// A sink, and how the call that wrote to it ended.
type Written = (MemorySink, Result<(), Failed>);

/// Writes the report of a sample with these rows to a sink that fails in this call; none where they are no end that can be reported.
fn written_with(
    alloc: Global,
    sample: &Sample,
    rows: &Rows,
    call: u64,
) -> Result<Option<Written>, AllocError> {
    let Some(checked) = program_with(alloc, sample.names)? else {
        return Ok(None);
    };
    let Some(end) = end_of(sample, rows) else {
        return Ok(None);
    };
    if !can_report(&end, &checked) {
        return Ok(None);
    }
    let mut out = sink_failing_at(alloc, call)?;
    let result = write_report(&end, &checked, sample.trace, &mut out);
    Ok(Some((out, result)))
}

/// The same with the rows of the sample.
fn written(alloc: Global, sample: &Sample, call: u64) -> Result<Option<Written>, AllocError> {
    let rows = rows_of(alloc, sample)?;
    written_with(alloc, sample, &rows, call)
}

#[test]
fn reports_are_written_line_by_line(rt: HostRuntime) -> Result<(), Fail> {
    for sample in &SAMPLES {
        let calls = sample.pieces.len() as u64;
        let whole = front_of(rt.alloc(), sample.pieces, calls)?;
        let (out, result) = written(rt.alloc(), sample, 0)?.ok_or("no report")?;
        assert_eq!(rt; result, Ok(()));
        assert_eq!(rt; out.bytes.as_slice(), whole.as_bytes());
        assert_eq!(rt; out.calls, calls);
        assert_eq!(rt; out.faults, 0);
    }
    Ok(())
}

/// The rows of a task that a hundred times goes on behind a leaf that it spawned, and then behind none.
fn chain_rows(alloc: Global) -> Result<Rows, AllocError> {
    let (mut activations, mut tasks) = (Vec::new(alloc), Vec::new(alloc));
    activations.push(row(1, None, 1))?;
    tasks.push(finished(Some(402)))?;
    for link in 0..100u32 {
        let (leaf, stamp) = (2 + 3 * link, u64::from(2 + 4 * link));
        activations.push(row(leaf, None, stamp))?;
        activations.push(row(1, Some(leaf), stamp + 2))?;
        activations.push(row(1, None, stamp + 3))?;
        tasks.push(finished(Some(stamp + 1)))?;
        tasks.push(finished(None))?;
        tasks.push(finished(None))?;
    }
    Ok(Rows {
        activations,
        tasks,
        evidence: Vec::new(alloc),
    })
}

#[test]
fn a_long_run_is_told_by_its_totals(rt: HostRuntime) -> Result<(), Fail> {
    let rows = chain_rows(rt.alloc())?;
    let whole = front_of(rt.alloc(), CHAIN.pieces, 5)?;
    let (out, result) = written_with(rt.alloc(), &CHAIN, &rows, 0)?.ok_or("no report")?;
    assert_eq!(rt; result, Ok(()));
    assert_eq!(rt; out.bytes.as_slice(), whole.as_bytes());
    assert_eq!(rt; out.calls, 5);
    Ok(())
}

#[test]
fn a_failing_call_leaves_the_pieces_before_it(rt: HostRuntime) -> Result<(), Fail> {
    let Some(sample) = SAMPLES.last() else {
        return Ok(());
    };
    for call in 1..=sample.pieces.len() as u64 {
        let front = front_of(rt.alloc(), sample.pieces, call - 1)?;
        let (out, result) = written(rt.alloc(), sample, call)?.ok_or("no report")?;
        assert_eq!(rt; result, Err(Failed));
        assert_eq!(rt; out.bytes.as_slice(), front.as_bytes());
        assert_eq!(rt; out.calls, call);
        assert_eq!(rt; out.faults, 1);
    }
    Ok(())
}

#[test]
fn kinds_are_told_with_class_and_words(rt: HostRuntime) -> Result<(), Fail> {
    let fib = "kind fib n\nvar x y @a @b @g\nstate start\ndone n\nend\nroot r fib 2\n";
    let lines = [
        "kind k class 0 words 1\n",
        "kind fib class 0 words 7\n",
        "kinds 2 roots 1\n",
    ];
    let checked = program_with(rt.alloc(), fib)?.ok_or("no program")?;
    for call in 0..=3u64 {
        let count = if call == 0 { 3 } else { call - 1 };
        let front = front_of(rt.alloc(), &lines, count)?;
        let mut out = sink_failing_at(rt.alloc(), call)?;
        let result = write_check(&checked, &mut out);
        assert_eq!(rt; result, if call == 0 { Ok(()) } else { Err(Failed) });
        assert_eq!(rt; out.bytes.as_slice(), front.as_bytes());
    }
    Ok(())
}
