ghost use Rattle.std.specs.Prelude.{OnOk, OnErr, cond, []};
ghost use Rattle.task_syntax.specs.Form.{IsWellFormed};
ghost use Rattle.tool_io.specs.Fault.{ErrOnlyByFault};
ghost use Rattle.tool_io.specs.Sink.{Adds, AddsFront};
ghost use Rattle.run_report.specs.CanReport.{CanReport};
ghost use Rattle.run_report.specs.Lines.{text_of};
ghost use Rattle.run_report.specs.Report.{report_of, trace_lines};
ghost use Rattle.run_report.specs.Writing.{Writes};

use crate::causes::write_causes;
use crate::counts::write_counts;
use crate::evidence::write_evidence;
use crate::roots::write_roots;
use crate::trace::write_trace;
use record_core::Ended;
use task_syntax::{Checked, Program};
use tool_io::{Failed, Sink};

fn write_trace_if<E: Ended, O: Sink>(end: &E, trace: bool, out: &mut O) -> Result<(), Failed>
    ensures { Writes (O.seen out.old) (O.seen out.new)
        (text_of (cond trace (trace_lines (E.seen end.now)) [])) result }
{
    if trace { write_trace(end, out) } else { Ok(()) }
}

fn write_lines<E: Ended, O: Sink>(
    end: &E,
    program: &Program,
    trace: bool,
    out: &mut O,
) -> Result<(), Failed>
    requires formed { IsWellFormed program.now }
    requires can { CanReport program.now (E.seen end.now) }
    ensures { Writes (O.seen out.old) (O.seen out.new)
        (text_of (report_of program.now (E.seen end.now) trace)) result }
{
    write_roots(end, program, out)?;
    write_counts(end, out)?;
    write_causes(end, program, out)?;
    write_evidence(end, out)?;
    write_trace_if(end, trace, out)
}

/// Writes the report of an ended run of the program: how each root ended, the counts, why roots were cut, the evidence
/// where an answer was null, and with `trace` a line for each activation and each task.
///
/// Each line is one piece, but for that of a cut root: its first three words are one, then each further word with the
/// blank before it, and its end. No memory is taken.
pub fn write_report<E: Ended, O: Sink>(
    end: &E,
    checked: &Checked,
    trace: bool,
    out: &mut O,
) -> Result<(), Failed>
    requires { CanReport checked.now (E.seen end.now) }
    ensures ok { OnOk result (Adds (O.seen out.old) (O.seen out.new)
        (text_of (report_of checked.now (E.seen end.now) trace))) }
    ensures err { OnErr result (AddsFront (O.seen out.old) (O.seen out.new)
        (text_of (report_of checked.now (E.seen end.now) trace))) }
    ensures cause { ErrOnlyByFault result (O.seen out.old).faults (O.seen out.new).faults }
{
    write_lines(end, checked.program(), trace, out)
}
