ghost use Rattle.std.specs.Prelude.{◌≡◌, None, [], OnOk, OnErr};
ghost use Rattle.ktask_cli.specs.declared.stop.Stop.TheVariants.{WriteFault};
ghost use Rattle.ktask_cli.specs.Outcome.{Prints, plain_answer};
ghost use Rattle.ktask_cli.specs.Refusal.{Tells};

use crate::refuse::{WRITE_FAULT, tell};
use crate::stop::Stop;
use tool_io::{Failed, Sink, put_all};

/// The exit status behind a text that was offered on `out`: the one that is due where all of it was taken, and else
/// that of a write fault, which is told.
pub(crate) fn status_written<E: Sink>(written: Result<(), Failed>, due: u8, err: &mut E) -> u8
    ensures whole { OnOk written ((result ≡ due) × (err.new ≡ err.old)) }
    ensures fault { OnErr written (Tells WriteFault [] result (E.seen err.old) (E.seen err.new)) }
{
    match written {
        Ok(()) => due,
        Err(Failed) => tell(Stop::WriteFault.status(), WRITE_FAULT, err),
    }
}

/// Writes a text to `out`.
pub(crate) fn print<O: Sink, E: Sink>(text: &[u8], out: &mut O, err: &mut E) -> u8
    ensures { Prints text.now
        (plain_answer result (O.seen out.old) (O.seen out.new) (E.seen err.old) (E.seen err.new)) }
{
    let written = put_all(out, text);
    status_written(written, 0, err)
}
