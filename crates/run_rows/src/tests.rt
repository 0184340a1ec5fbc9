ghost use Rattle.std.specs.Prelude.{◌≡◌, IfOk, IfSome, length};
ghost use Rattle.run_report.specs.CanReport.{CanReport};

use crate::reported::report;
use crate::samples::{SAMPLES, Sample};
use column_input::{ColumnError, read_columns};
use kt_words::Plan;
use plain_engine::{PlainEnd, PlainRun};
use record_core::{CutTag, Ended, RootEnd};
use sample_programs::{plan_of, program_of};
use std::alloc::{AllocError, Global};
use std::test::Fail;
use task_syntax::{Checked, Columns};
use tool_io::MemorySink;

/// The end of a run within a plan, on columns.
fn run(
    alloc: Global,
    checked: &Checked,
    columns: &Columns,
    plan: Plan,
) -> Result<PlainEnd, AllocError>
    requires { plan.roots ≡ length checked.now.roots }
    ensures { IfOk result (λ end. CanReport checked.now end) }
{
    match PlainRun::run(alloc, checked, columns, plan) {
        Ok(end) => Ok(end),
        Err(_) => Err(AllocError),
    }
}

/// A sample's program and the end of its run.
fn run_of(alloc: Global, sample: &Sample) -> Result<Option<(Checked, PlainEnd)>, AllocError>
    ensures { IfOk result (λ ran. IfSome ran (λ both. CanReport both.0 both.1)) }
{
    let Some(checked) = program_of(alloc, sample.program.as_bytes())? else {
        return Ok(None);
    };
    let Some(plan) = plan_of(&checked, sample.superblocks, sample.units, sample.limit) else {
        return Ok(None);
    };
    let end = run(alloc, &checked, &Columns::none(alloc), plan)?;
    Ok(Some((checked, end)))
}

fn sink(alloc: Global) -> Result<MemorySink, AllocError> {
    match MemorySink::new(alloc, 8192, Vec::new(alloc)) {
        Ok(sink) => Ok(sink),
        Err(_) => Err(AllocError),
    }
}

#[test]
fn each_program_has_its_report(rt: HostRuntime) -> Result<(), Fail> {
    'samples: for sample in &SAMPLES {
        let (checked, end) = run_of(rt.alloc(), sample)?.ok_or("no run")?;
        let mut out = sink(rt.alloc())?;
        let written = report(&end, &checked, sample.trace, &mut out);
        assert!(rt; written.is_ok());
        assert_eq!(rt; out.bytes.as_slice(), sample.report.as_bytes());
    }
    Ok(())
}

/// A task that runs 600,000 activations more.
const DOWN: &str = "ktask 1\nkind down n\nstate start\nif n == 0 goto out\nsub n n 1\nagain start\n\
    label out\ndone 7\nend\nroot p down 600000\nroot q down 600000";

fn roots_of(alloc: Global, behind: &str) -> Result<Option<PlainEnd>, AllocError> {
    let mut text = String::new(alloc);
    text.push_str(DOWN)?;
    text.push_str(behind)?;
    let Some(checked) = program_of(alloc, text.as_bytes())? else {
        return Ok(None);
    };
    let Some(plan) = plan_of(&checked, 256, 512, 1_000_000) else {
        return Ok(None);
    };
    Ok(Some(run(alloc, &checked, &Columns::none(alloc), plan)?))
}

#[test]
fn roots_share_the_limit(rt: HostRuntime) -> Result<(), Fail> {
    let one = roots_of(rt.alloc(), " behind @p\n")?.ok_or("no run")?;
    assert!(rt; is_seven(&one, 0));
    assert!(rt; is_limit(&one, 1));
    let both = roots_of(rt.alloc(), "\n")?.ok_or("no run")?;
    assert!(rt; is_limit(&both, 0));
    assert!(rt; is_limit(&both, 1));
    Ok(())
}

fn is_seven(end: &PlainEnd, root: u8) -> bool {
    root < end.root_count() && end.root(root) == RootEnd::Value(task_syntax::Value::Number(7))
}

fn is_limit(end: &PlainEnd, root: u8) -> bool {
    root < end.root_count() && matches!(end.root(root), RootEnd::Cut(CutTag::Limit, _))
}

/// Halves the rows of a column until one row is left, and adds the halves up.
const SUM: &str = "ktask 1\nkind sum first past\nvar middle x @a @b @g\nstate start\n\
    sub middle past first\nif middle == 0 goto none\nif middle == 1 goto one\n\
    div middle middle 2\nadd middle first middle\nspawn @a sum first middle\n\
    spawn @b sum middle past\nall @g @a @b\nagain both behind @g\n\
    label one\ncell x price first\ndone x\nlabel none\ndone 0\n\
    state both holds @a @b settled @a @b\nget x @a\nget middle @b\nadd x x middle\n\
    done x\nend\n\
    kind main\nvar n x @a\nstate start\nrows n price\nspawn @a sum 0 n\n\
    again out behind @a\nstate out holds @a settled @a\nget x @a\ndone x\nend\n\
    root total main\n";

const PRICES: &str = "id,price\n1,10\n2,20\n3,30\n4,40\n5,50\n";

const TOTAL: &str = "root total 150\nactivations 23\ntasks 14\nnulls 0\nheld 1 0 0 0\n";

fn columns_of(alloc: Global, text: &str) -> Result<Option<Columns>, AllocError> {
    match read_columns(alloc, text.as_bytes()) {
        Ok(columns) => Ok(Some(columns)),
        Err(ColumnError::Memory) => Err(AllocError),
        Err(ColumnError::Fault { .. }) => Ok(None),
    }
}

#[test]
fn a_column_is_summed(rt: HostRuntime) -> Result<(), Fail> {
    let alloc = rt.alloc();
    let checked = program_of(alloc, SUM.as_bytes())?.ok_or("no program")?;
    let columns = columns_of(alloc, PRICES)?.ok_or("no columns")?;
    let plan = plan_of(&checked, 256, 512, 1_000_000).ok_or("no plan")?;
    let end = run(alloc, &checked, &columns, plan)?;
    let mut out = sink(alloc)?;
    assert!(rt; report(&end, &checked, false, &mut out).is_ok());
    assert_eq!(rt; out.bytes.as_slice(), TOTAL.as_bytes());
    Ok(())
}
