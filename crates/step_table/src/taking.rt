//! A record that is ready is taken.
ghost use Rattle.std.specs.Prelude.{◌<◌, ◌^◌};
ghost use Rattle.table_core.specs.Addresses.{units_of};

use crate::pass::Pass;
use crate::record_layout::state_word;
use crate::record_tokens::Started;
use crate::shared::Shared;
use kt_words::{Phase, StateWord};
use std::marker::Brand;

// A frame names no more futures than this.
const NAMED: u64 = 63;

impl Shared {
    ghost use Rattle.step_table.specs.Passes.{view, plan, IsOf, IsSameWith};
    ghost use Rattle.step_table.specs.Sound.{AreSound};
    ghost use Rattle.step_table.specs.SeeingSteps.{IsReadyWord};
    ghost use Rattle.step_table.specs.TakingSteps.{TakesReady, held_after};

    /// Takes the record of a unit where its state word is `ready`: the pass runs it from then on,
    /// and has the references that its frame names. Err: the word was another, and is returned.
    pub fn take_ready(
        &self,
        pass: &mut Pass,
        unit: u32,
        ready: StateWord,
    ) -> Result<Started, StateWord>
        requires table { IsOf self.now pass.old }
        requires unit { unit < units_of (plan self.now) }
        requires ready { IsReadyWord ready }
        requires room { pass.old.held < 2 ^ 32 }
        ensures pass { IsSameWith (held_after pass.old.held result) pass.old pass.new }
        ensures taken { TakesReady self.now.setup unit ready pass.old result pass.new }
        ensures sound { AreSound self.now.setup (view pass.old) (view pass.new) }
    {
        let word = state_word(&self.setup.plan, unit);
        let old = ready.pack();
        let running = StateWord {
            phase: Phase::Running,
            priority: ready.priority,
            tag: ready.tag,
            number: ready.number,
        };
        let new = running.pack();
        let found = self.compare_exchange_as::<Brand, _>(&mut pass.seat, word, old, new, &unit);
        let won = found == old;
        if won {
            pass.held = pass.held + NAMED;
            Ok(Started {
                unit,
                number: ready.number,
            })
        } else {
            Err(StateWord::of(found))
        }
    }
}
