//! Tables with a maker.
ghost use Rattle.std.specs.Prelude.{◌≡◌, ◌+◌, ◌<◌, ◌^◌, IfOk, IfSome, None, length};
ghost use Rattle.task_meaning.specs.Worths.{Accepted};
ghost use Rattle.table_core.specs.Views.{first_view};
ghost use Rattle.schedule_rule.specs.SoundViews.{SoundView};
ghost use Rattle.step_table.specs.Passes.{view, plan, IsOf, IsSame, IsSameWith};
ghost use Rattle.table_records.specs.Makers.{IsMaker};
ghost use Rattle.table_records.specs.Openings.{MayBegin, RootNumbers, RootDrafts, RootRuns};
ghost use Rattle.table_records.specs.Plain.{call_behind};
ghost use Rattle.table_records.specs.Stages.{MayNumber};

use crate::plain::is_plain;
use crate::stages::{begin, write};
use kt_words::Plan;
use std::alloc::{AllocError, Global};
use std::sync::Wait;
use step_table::{Made, Pass, Shared, Started};
use task_syntax::{Checked, Columns, Priority};

// Draws a number for a made record, by the first root.
fn number_root(shared: &Shared, pass: &mut Pass, made: &Made) -> Option<u32>
    ghost call: { Accepted }
    requires table { IsOf shared.now pass.old }
    requires may { MayBegin shared.now.setup (view pass.old)
        × MayNumber (plan shared.now) made.now.unit None (view pass.old)
        × (call ≡ call_behind None) }
    ensures pass { IsSame pass.old pass.new }
    ensures number { IfSome result (λ n. RootNumbers (plan shared.now).limit made.now.unit
        (view pass.old) n (view pass.new)) }
{
    let permitted = shared.see_drawn(pass);
    if permitted {
        shared.draw_for_root(pass, made, 0)
    } else {
        None
    }
}

// Makes the record of the first root, of which only the number is to be placed.
fn draft_root(shared: &Shared, rt: &impl Wait, pass: &mut Pass) -> Option<(Made, u32)>
    requires table { IsOf shared.now pass.old }
    requires may { MayBegin shared.now.setup (view pass.old) }
    ensures pass { IsSame pass.old pass.new }
    ensures class { IfSome result (λ d. d.0.class ≡ 0) }
    ensures sound { IfSome result (λ d. SoundView shared.now.setup (view pass.new)) }
    ensures draft { IfSome result (λ d. RootDrafts shared.now.setup d.0.unit
        (view pass.old) d.1 (view pass.new)) }
{
    let made = begin(shared, rt, pass)?;
    let number = number_root(shared, pass, &made)?;
    write(shared, pass, &made, number, None);
    Some((made, number))
}

// Makes the task of the first root, and takes it. None: there is no block, or the limit is met.
fn first_run(shared: &Shared, rt: &impl Wait, pass: &mut Pass) -> Option<Started>
    requires table { IsOf shared.now pass.old }
    requires may { MayBegin shared.now.setup (view pass.old) }
    requires room { pass.old.held < 2 ^ 31 }
    ensures pass { IfSome result (λ _. IsSameWith (pass.old.held + 64) pass.old pass.new) }
    ensures sound { IfSome result (λ _. SoundView shared.now.setup (view pass.new)) }
    ensures maker { IfSome result (λ s. IsMaker shared.now.setup s (view pass.new)) }
    ensures run { IfSome result
        (λ s. RootRuns shared.now.setup s (view pass.old) (view pass.new)) }
{
    let (made, number) = draft_root(shared, rt, pass)?;
    let unit = made.unit();
    let (word, _root) = shared.ready_made(pass, made, number, Priority::Regular);
    match shared.take_ready(pass, unit, word) {
        Ok(started) => Some(started),
        Err(_) => None,
    }
}

/// A table with its first pass, which runs the task of the first root: by its acts records are
/// made. No root is named. None: the program is not plain, or there is no room for the task.
pub fn open_maker(
    alloc: Global,
    rt: &impl Wait,
    checked: Checked,
    plan: Plan,
) -> Result<Option<(Shared, Pass, Started)>, AllocError>
    requires roots { plan.roots ≡ length checked.roots }
    ensures table { IfOk result (λ o. IfSome o (λ t. IsOf t.0 t.1)) }
    ensures plan { IfOk result (λ o. IfSome o (λ t. t.0.setup.plan ≡ plan)) }
    ensures held { IfOk result (λ o. IfSome o (λ t. t.1.held ≡ 64)) }
    ensures sound { IfOk result (λ o. IfSome o (λ t. SoundView t.0.setup (view t.1))) }
    ensures maker { IfOk result (λ o. IfSome o (λ t. IsMaker t.0.setup t.2 (view t.1))) }
    ensures run { IfOk result
        (λ o. IfSome o (λ t. RootRuns t.0.setup t.2 first_view (view t.1))) }
{
    let plain = is_plain(checked.program());
    if !plain {
        return Ok(None);
    }
    let columns = Columns::none(alloc);
    let (shared, mut pass) = Shared::new(alloc, checked, columns, plan)?;
    match first_run(&shared, rt, &mut pass) {
        Some(started) => Ok(Some((shared, pass, started))),
        None => Ok(None),
    }
}
