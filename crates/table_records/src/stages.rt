//! The stages of making a record.
ghost use Rattle.std.specs.Prelude.{◌≡◌, IfSome};
ghost use Rattle.step_table.specs.Passes.{view, plan, IsOf, IsSame};
ghost use Rattle.task_meaning.specs.Worths.{Accepted};
ghost use Rattle.table_records.specs.Plain.{call_behind};
ghost use Rattle.schedule_rule.specs.DrawViews.{KnowsTask};
ghost use Rattle.schedule_rule.specs.SoundViews.{SoundView};
ghost use Rattle.table_records.specs.Makers.{IsMaker};
ghost use Rattle.table_records.specs.Stages.{Begins, MayNumber, Numbers, MayWrite, Writes, Drafts};

use memory_pool::{Allocated, allocate};
use std::sync::Wait;
use step_table::{Made, OwnWord, Pass, Shared, Started};

// What stands in the words of a record that is placed: its references are the scheduler's and the
// maker's, and its list is empty. Its frame is at the start of the first kind.
const REFERENCES: u64 = 2;

const EMPTY: u64 = 0;

const START: u64 = 0;

/// Makes a record in a block of class 0. It has no number yet.
pub fn begin(shared: &Shared, rt: &impl Wait, pass: &mut Pass) -> Option<Made>
    requires table { IsOf shared.now pass.old }
    ensures pass { IsSame pass.old pass.new }
    ensures class { IfSome result (λ made. made.class ≡ 0) }
    ensures made { IfSome result (λ made.
        Begins (plan shared.now) made.unit (view pass.old) (view pass.new)) }
    ensures sound { IfSome result (λ made. SoundView shared.now.setup (view pass.new)) }
{
    match allocate(shared, rt, pass, 0) {
        Allocated::Null => None,
        Allocated::Block(block) => Some(shared.found(pass, block)),
    }
}

// Draws a number for a made record, behind a task or none.
fn number(
    shared: &Shared,
    pass: &mut Pass,
    made: &Made,
    maker: &Started,
    _behind: Option<u32>,
) -> Option<u32>
    ghost call: { Accepted }
    requires table { IsOf shared.now pass.old }
    requires may { IsMaker shared.now.setup maker.now (view pass.old)
        × MayNumber (plan shared.now) made.now.unit _behind (view pass.old)
        × (call ≡ call_behind _behind) }
    ensures pass { IsSame pass.old pass.new }
    ensures number { IfSome result (λ n. Numbers (plan shared.now).limit made.now.unit
        maker.now.unit maker.now.number _behind (view pass.old) n (view pass.new)) }
{
    let permitted = shared.see_drawn(pass);
    if permitted {
        let task = maker.number();
        shared.draw_for_run(pass, made, maker, task)
    } else {
        None
    }
}

// Writes the words and the rows of a record that has its number, and counts it in.
pub(crate) fn write(shared: &Shared, pass: &mut Pass, made: &Made, number: u32, behind: Option<u32>)
    requires table { IsOf shared.now pass.old }
    requires may { MayWrite (plan shared.now) made.now.unit number behind (view pass.old) }
    ensures pass { IsSame pass.old pass.new }
    ensures sound { SoundView shared.now.setup (view pass.new) }
    ensures written { Writes made.now.unit number (view pass.old) (view pass.new) }
{
    let unit = made.unit();
    shared.write_task_row(pass, number, number);
    shared.write_after_row(pass, number, behind);
    shared.fill(pass, unit, OwnWord::Task, u64::from(number));
    shared.fill(pass, unit, OwnWord::References, REFERENCES);
    shared.fill(pass, unit, OwnWord::Head, EMPTY);
    shared.fill(pass, unit, OwnWord::Frame(0), START);
    shared.live_up(pass, made);
}

/// Makes a record behind a task or none, of which only the number is to be placed. None: there is
/// no block, or the limit is met, and the table is of no more use.
pub(crate) fn draft(
    shared: &Shared,
    rt: &impl Wait,
    pass: &mut Pass,
    maker: &Started,
    behind: Option<u32>,
) -> Option<(Made, u32)>
    requires table { IsOf shared.now pass.old }
    requires maker { IsMaker shared.now.setup maker.now (view pass.old) }
    requires behind { IfSome behind (KnowsTask (view pass.old)) }
    ensures pass { IsSame pass.old pass.new }
    ensures class { IfSome result (λ d. d.0.class ≡ 0) }
    ensures sound { IfSome result (λ d. SoundView shared.now.setup (view pass.new)) }
    ensures draft { IfSome result (λ d. Drafts shared.now.setup maker.now.unit maker.now.number
        d.0.unit behind (view pass.old) d.1 (view pass.new)) }
{
    let made = begin(shared, rt, pass)?;
    let number = number(shared, pass, &made, maker, behind)?;
    write(shared, pass, &made, number, behind);
    Some((made, number))
}
