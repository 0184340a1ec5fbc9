//! A record is made in a block, and a number is drawn for it. A refusal gives the block back.
ghost use Rattle.std.specs.Prelude.{◌≡◌};
ghost use Rattle.task_meaning.specs.Worths.{Accepted};
ghost use Rattle.step_table.specs.DrawSteps.{Asking, MayDrawForRun};
ghost use Rattle.step_table.specs.Passes.{view, plan, IsOf, IsSame};
ghost use Rattle.step_table.specs.RecordHands.{MayUnmake};
ghost use Rattle.schedule_core.specs.Begins.{MayMakeIn, MakesIn};
ghost use Rattle.schedule_core.specs.Numbers.{GivesBack, NumbersForRun};

use memory_pool::release;
use step_table::{Block, Made, Pass, Shared, Started};

/// Makes a record in a block that was just allocated, where fewer numbers are drawn than there may
/// be. None: the limit is met, and the block is given back.
pub(crate) fn make_in(shared: &Shared, pass: &mut Pass, block: Block) -> Option<Made>
    ghost asking: { Asking }
    requires table { IsOf shared.now pass.old }
    requires may { MayMakeIn shared.now.setup block asking (view pass.old) }
    ensures pass { IsSame pass.old pass.new }
    ensures made { MakesIn shared.now.setup block asking
        (view pass.old) result (view pass.new) }
{
    if shared.see_drawn(pass) {
        Some(shared.found(pass, block))
    } else {
        release(shared, pass, block);
        None
    }
}

/// A made record without a number is given back.
pub(crate) fn give_back(shared: &Shared, pass: &mut Pass, made: Made)
    requires table { IsOf shared.now pass.old }
    requires may { MayUnmake (plan shared.now) made.unit made.class (view pass.old) }
    ensures pass { IsSame pass.old pass.new }
    ensures back { GivesBack shared.now.setup made (view pass.old) (view pass.new) }
{
    let block = shared.unmake(pass, made);
    release(shared, pass, block);
}

/// Draws the number of a made record, by an act of a running one. None: the limit is met.
pub(crate) fn number_for_run(
    shared: &Shared,
    pass: &mut Pass,
    made: Made,
    by: &Started,
    task: u32,
) -> Option<(Made, u32)>
    ghost call: { Accepted }
    requires table { IsOf shared.now pass.old }
    requires may { MayDrawForRun shared.now.setup made.unit by.now.unit task call (view pass.old) }
    requires back { MayUnmake (plan shared.now) made.unit made.class (view pass.old) }
    ensures pass { IsSame pass.old pass.new }
    ensures number { NumbersForRun shared.now.setup made by.now.unit task call
        (view pass.old) result (view pass.new) }
{
    match shared.draw_for_run(pass, &made, by, task) {
        Some(number) => Some((made, number)),
        None => {
            give_back(shared, pass, made);
            None
        }
    }
}
