//! All passes are told that a queue was full.
ghost use Rattle.step_table.specs.Passes.{view, IsOf, IsSame};
ghost use Rattle.schedule_core.specs.Publishing.{TellsFull};

use std::sync::Wait;
use step_table::{Pass, Shared};

/// Tells all passes that a queue was full, unless that was told. It returns once it has seen so.
pub(crate) fn tell_full<R: Wait>(shared: &Shared, rt: &R, pass: &mut Pass)
    requires table { IsOf shared.now pass.old }
    ensures pass { IsSame pass.old pass.new }
    ensures told { TellsFull (view pass.old) (view pass.new) }
{
    for _ in rt.forever() {
        let told = shared.see_spill(pass);
        if told != 0 {
            return;
        }
        shared.spill(pass);
    }
    unreachable!()
}
