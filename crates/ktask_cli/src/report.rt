ghost use Rattle.std.specs.Prelude.{◌++◌};
ghost use Rattle.run_report.specs.CanReport.{CanReport};
ghost use Rattle.run_report.specs.Lines.{text_of};
ghost use Rattle.run_report.specs.Report.{report_of};
ghost use Rattle.run_report.specs.Writing.{Writes as Written};
ghost use Rattle.ktask_cli.specs.Outcome.{Writes, plain_answer};
ghost use Rattle.ktask_cli.specs.RunStatus.{status_of_ends};

use crate::run::Ran;
use crate::run_status::status_of_ends;
use crate::write_text::status_written;
use run_report::{Failed, put_all, write_report};
use tool_io::Sink;

/// Writes a front and the report of a run.
fn write_both<O: Sink>(front: &[u8], ran: &Ran, trace: bool, out: &mut O) -> Result<(), Failed>
    requires { CanReport ran.now.checked ran.now.end }
    ensures { Written (O.seen out.old) (O.seen out.new)
        (front.now ++ text_of (report_of ran.now.checked ran.now.end trace)) result }
{
    put_all(out, front)?;
    write_report(&ran.end, &ran.checked, trace, out)
}

/// Writes a front and the report of a run to `out`, or the fault of `out` to `err`, and answers the
/// exit status.
pub(crate) fn report<O: Sink, E: Sink>(
    front: &[u8],
    ran: &Ran,
    trace: bool,
    out: &mut O,
    err: &mut E,
) -> u8
    requires { CanReport ran.now.checked ran.now.end }
    ensures { Writes (front.now ++ text_of (report_of ran.now.checked ran.now.end trace))
        (status_of_ends ran.now.end.roots)
        (plain_answer result (O.seen out.old) (O.seen out.new) (E.seen err.old) (E.seen err.new)) }
{
    let written = write_both(front, ran, trace, out);
    let due = status_of_ends(&ran.end);
    status_written(written, due, err)
}
