//! Records that wait or are ready, by the acts of a maker.
ghost use Rattle.std.specs.Prelude.{◌≡◌, ◌<◌, ◌^◌, ◌+◌, ℕ, IfSome, Some, None, true, false};
ghost use Rattle.task_syntax.specs.declared.value.Priority.TheVariants.{Regular};
ghost use Rattle.schedule_rule.specs.DrawViews.{KnowsTask};
ghost use Rattle.schedule_rule.specs.SoundViews.{SoundView};
ghost use Rattle.step_table.specs.Passes.{view, plan, IsOf, IsSameWith};
ghost use Rattle.step_table.specs.PlacingSteps.{Placement, MayPlaceMade, PlacesMade, word_placed};
ghost use Rattle.table_records.specs.Makers.{IsMaker};
ghost use Rattle.table_records.specs.Records.{one_more, Spawns};

use crate::stages::draft;
use kt_words::StateWord;
use std::sync::Wait;
use step_table::{Future, Linkable, Made, Pass, Shared, Started};
use task_syntax::Priority;

// The record waits. What is placed is picked from the maker and the predecessor.
fn place_waiting(
    shared: &Shared,
    pass: &mut Pass,
    made: Made,
    number: u32,
    _maker: &Started,
    _behind: Option<u32>,
) -> (Linkable, Future)
    ghost placement: { Placement }
    requires table { IsOf shared.now pass.old }
    requires may { MayPlaceMade shared.now.setup true made number placement pass.old }
    ensures pass { IsSameWith (pass.old.held + 1) pass.old pass.new }
    ensures sound { SoundView shared.now.setup (view pass.new) }
    ensures waiter { result.0.unit ≡ made.unit }
    ensures future { result.1.unit ≡ made.unit }
    ensures view { PlacesMade shared.now.setup true made number Regular placement
        pass.old pass.new }
{
    shared.wait_made(pass, made, number, Priority::Regular)
}

// The record is ready.
fn place_ready(
    shared: &Shared,
    pass: &mut Pass,
    made: Made,
    number: u32,
    _maker: &Started,
    _behind: Option<u32>,
) -> (StateWord, Future)
    ghost placement: { Placement }
    requires table { IsOf shared.now pass.old }
    requires may { MayPlaceMade shared.now.setup false made number placement pass.old }
    ensures pass { IsSameWith (pass.old.held + 1) pass.old pass.new }
    ensures sound { SoundView shared.now.setup (view pass.new) }
    ensures word { result.0 ≡ word_placed false number Regular }
    ensures future { result.1.unit ≡ made.unit }
    ensures view { PlacesMade shared.now.setup false made number Regular placement
        pass.old pass.new }
{
    shared.ready_made(pass, made, number, Priority::Regular)
}

/// Makes a record that waits behind a task. None: there is no block, or the limit is met, and the
/// table is of no more use.
pub fn waiting_record(
    shared: &Shared,
    rt: &impl Wait,
    pass: &mut Pass,
    maker: &Started,
    behind: u32,
) -> Option<(Linkable, Future)>
    requires table { IsOf shared.now pass.old }
    requires maker { IsMaker shared.now.setup maker.now (view pass.old) }
    requires behind { KnowsTask (view pass.old) behind }
    requires room { pass.old.held < 2 ^ 32 }
    ensures pass { IsSameWith (one_more pass.old.held result) pass.old pass.new }
    ensures future { IfSome result (λ t. t.1.unit ≡ t.0.unit) }
    ensures record { IfSome result (λ t. (n : ℕ) × Spawns shared.now.setup true t.0.unit
        (Some behind) (view pass.old) n (view pass.new)) }
    ensures sound { IfSome result (λ _. SoundView shared.now.setup (view pass.new)) }
    ensures maker { IfSome result (λ _. IsMaker shared.now.setup maker.now (view pass.new)) }
{
    let (made, number) = draft(shared, rt, pass, maker, Some(behind))?;
    Some(place_waiting(shared, pass, made, number, maker, Some(behind)))
}

/// Makes a record that is ready, under the word that is returned. None: as for one that waits.
pub fn ready_record(
    shared: &Shared,
    rt: &impl Wait,
    pass: &mut Pass,
    maker: &Started,
) -> Option<(StateWord, Future)>
    requires table { IsOf shared.now pass.old }
    requires maker { IsMaker shared.now.setup maker.now (view pass.old) }
    requires room { pass.old.held < 2 ^ 32 }
    ensures pass { IsSameWith (one_more pass.old.held result) pass.old pass.new }
    ensures word { IfSome result (λ t. t.0 ≡ word_placed false t.0.number Regular) }
    ensures record { IfSome result (λ t. Spawns shared.now.setup false t.1.unit
        None (view pass.old) t.0.number (view pass.new)) }
    ensures sound { IfSome result (λ _. SoundView shared.now.setup (view pass.new)) }
    ensures maker { IfSome result (λ _. IsMaker shared.now.setup maker.now (view pass.new)) }
{
    let (made, number) = draft(shared, rt, pass, maker, None)?;
    Some(place_ready(shared, pass, made, number, maker, None))
}
