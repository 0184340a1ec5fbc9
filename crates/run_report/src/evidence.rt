ghost use Rattle.std.specs.Prelude.{◌≤◌, Some};
ghost use Rattle.run_report.specs.CanReport.{IsShown};
ghost use Rattle.run_report.specs.Lines.{line_text, text_of};
ghost use Rattle.run_report.specs.Report.{evidence_lines, evidence_of_class, evidence_words, superblock_lines, superblock_words};
ghost use Rattle.run_report.specs.Writing.{Writes};

use crate::pieces::{line_from, push_number, push_word, put_line};
use kt_words::{Geometry, SuperWord};
use record_core::Ended;
use tool_io::{Failed, Sink};

/// The line that tells the class of the null answer that was counted first.
fn write_class<O: Sink>(class: u8, out: &mut O) -> Result<(), Failed>
    ensures { Writes (O.seen out.old) (O.seen out.new) (line_text (evidence_words class)) result }
{
    let mut line = line_from(b"evidence");
    push_word(&mut line, b"class");
    push_number(&mut line, u64::from(class));
    put_line(line, out)
}

/// The line of a superblock, with what its word told and how many blocks of that class it holds.
fn write_superblock<O: Sink>(
    geometry: &Geometry,
    superblock: u32,
    word: &SuperWord,
    out: &mut O,
) -> Result<(), Failed>
    requires { word.now.class ≤ 3 }
    ensures { Writes (O.seen out.old) (O.seen out.new)
        (line_text (superblock_words geometry.now.units superblock word.now)) result }
{
    let mut line = line_from(b"superblock");
    push_number(&mut line, u64::from(superblock));
    push_word(&mut line, b"class");
    push_number(&mut line, u64::from(word.class));
    push_number(&mut line, u64::from(word.count));
    push_word(&mut line, b"of");
    push_number(&mut line, u64::from(geometry.cap(word.class)));
    put_line(line, out)
}

fn write_superblocks<E: Ended, O: Sink>(end: &E, out: &mut O) -> Result<(), Failed>
    requires { IsShown (E.seen end.now) }
    ensures { Writes (O.seen out.old) (O.seen out.new)
        (text_of (superblock_lines (E.seen end.now))) result }
{
    let geometry = end.geometry();
    'superblocks: for superblock in 0..geometry.superblocks {
        write_superblock(&geometry, superblock, &end.evidence(superblock), out)?;
    }
    Ok(())
}

fn write_class_and_words<E: Ended, O: Sink>(end: &E, class: u8, out: &mut O) -> Result<(), Failed>
    requires { IsShown (E.seen end.now) }
    ensures { Writes (O.seen out.old) (O.seen out.new)
        (text_of (evidence_of_class (E.seen end.now) (Some class))) result }
{
    write_class(class, out)?;
    write_superblocks(end, out)
}

/// Writes what the null answer that was counted first saw of each superblock, where an answer was null.
pub(crate) fn write_evidence<E: Ended, O: Sink>(end: &E, out: &mut O) -> Result<(), Failed>
    requires { 1 ≤ (E.seen end.now).nulls → IsShown (E.seen end.now) }
    ensures { Writes (O.seen out.old) (O.seen out.new)
        (text_of (evidence_lines (E.seen end.now))) result }
{
    if end.nulls() == 0 {
        return Ok(());
    }
    match end.evidence_class() {
        Some(class) => write_class_and_words(end, class, out),
        None => Ok(()),
    }
}
