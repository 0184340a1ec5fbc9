ghost use Rattle.run_report.specs.CanReport.{CanReport};
ghost use Rattle.run_report.specs.Lines.{text_of};
ghost use Rattle.run_report.specs.Report.{report_of};
ghost use Rattle.run_report.specs.Writing.{Writes};

use plain_engine::PlainEnd;
use run_report::{Failed, write_report};
use task_syntax::Checked;
use tool_io::Sink;

/// Writes the report of an ended run.
pub fn report<O: Sink>(
    end: &PlainEnd,
    checked: &Checked,
    trace: bool,
    out: &mut O,
) -> Result<(), Failed>
    requires { CanReport checked.now end.now }
    ensures { Writes (O.seen out.old) (O.seen out.new)
        (text_of (report_of checked.now end.now trace)) result }
{
    write_report(end, checked, trace, out)
}
