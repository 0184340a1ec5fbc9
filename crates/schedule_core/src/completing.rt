//! A running record is done, and the records that waited for it become ready.
ghost use Rattle.std.specs.Prelude.{◌≡◌, ◌-◌, ◌≤◌, ◌↔◌, length, IsSome, IfSome, IfNone};
ghost use Rattle.frame_code.specs.Units.{named_in};
ghost use Rattle.step_table.specs.Passes.{view, plan, IsOf, IsSame, IsSameWith};
ghost use Rattle.step_table.specs.Endings.{outcome_of};
ghost use Rattle.step_table.specs.ListHands.{IsChain};
ghost use Rattle.schedule_core.specs.Completing.{outcome_as, MayComplete, Completes, GivesFirst};
ghost use Rattle.schedule_core.specs.Completing.{WritesResult, MayClose, Closes};
ghost use Rattle.step_table.specs.RecordHands.{MayFill};
ghost use Rattle.step_table.specs.declared.record_tokens.OwnWord.TheVariants.{Result};

use crate::answers::Outcome;
use crate::entries::entry_of;
use crate::references::drop_named;
use crate::running::Running;
use frame_code::{CheckedCode, naming_words};
use ready_queues::Entry;
use step_table::{Chain, Ending, Finishing, OwnWord, Pass, Shared, Started};
use task_syntax::Value;
use wait_lists::{close_list, next_of};

// How a task ends.
fn ending_of(outcome: Outcome) -> Ending
    ensures { outcome_of result ≡ outcome_as outcome }
{
    match outcome {
        Outcome::Number(number) => Ending::Gave(Value::Number(number)),
        Outcome::Trapped(trap) => Ending::Gave(Value::Trapped(trap)),
        Outcome::RefusedNull => Ending::Null,
        Outcome::RefusedLimit => Ending::Limit,
    }
}

// The number that a task gives is written into its record.
fn write_result(shared: &Shared, pass: &mut Pass, unit: u32, outcome: Outcome)
    requires table { IsOf shared.now pass.old }
    requires may { MayFill (plan shared.now) unit Result (view pass.old) }
    ensures pass { IsSame pass.old pass.new }
    ensures written { WritesResult unit outcome (view pass.old) (view pass.new) }
{
    match outcome {
        Outcome::Number(number) => shared.fill(pass, unit, OwnWord::Result, number),
        Outcome::Trapped(_) => {}
        Outcome::RefusedNull => {}
        Outcome::RefusedLimit => {}
    }
}

// The scheduler's own reference to a done record is given up, once it is counted out.
fn close_done(shared: &Shared, pass: &mut Pass, finishing: Finishing)
    requires table { IsOf shared.now pass.old }
    requires may { MayClose (plan shared.now) finishing.unit (view pass.old) }
    ensures pass { IsSame pass.old pass.new }
    ensures closed { Closes finishing.unit (view pass.old) (view pass.new) }
{
    shared.live_down(pass, &finishing);
    match shared.give_up(pass, finishing) {
        None => {}
        Some(retiring) => {
            let block = shared.retire(pass, retiring);
            shared.release_block(pass, block);
        }
    }
}

/// Ends the task of a running record. Its list is closed, and who waited in it is the chain.
pub(crate) fn complete(
    shared: &Shared,
    code: &CheckedCode,
    pass: &mut Pass,
    running: Running,
    outcome: Outcome,
) -> Chain
    requires table { IsOf shared.now pass.old }
    requires code { code.now ≡ shared.now.setup.checked }
    requires may { MayComplete shared.now.setup running outcome (view pass.old) }
    ensures pass { IsSameWith (pass.old.held - length (named_in code.now running.frame.items))
        pass.old pass.new }
    ensures done { Completes shared.now.setup running outcome
        (view pass.old) result (view pass.new) }
{
    let Running { started, frame, .. } = running;
    write_result(shared, pass, started.unit(), outcome);
    let finishing = shared.finish(pass, started, ending_of(outcome));
    let (closed, chain) = close_list(shared, pass, finishing);
    close_done(shared, pass, closed);
    drop_named(shared, pass, naming_words(code, &frame));
    chain
}

/// Makes the first record of a chain ready. None: the chain has no record, and nothing has changed.
pub(crate) fn next_ready(shared: &Shared, pass: &mut Pass, chain: Chain) -> Option<(Entry, Chain)>
    requires table { IsOf shared.now pass.old }
    requires chain { IsChain (plan shared.now) chain (view pass.old) }
    ensures pass { IsSame pass.old pass.new }
    ensures exactly { IsSome result ↔ (1 ≤ chain.length) }
    ensures none { IfNone result (view pass.new ≡ view pass.old) }
    ensures some { IfSome result (λ left. GivesFirst shared.now.setup chain
        (view pass.old) left (view pass.new)) }
{
    let (waiter, rest) = next_of(shared, pass, chain)?;
    let unit = waiter.unit();
    let word = shared.ready_waiting(pass, waiter);
    Some((entry_of(unit, word), rest))
}
