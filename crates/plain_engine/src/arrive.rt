ghost use Rattle.std.specs.Prelude.{◌≡◌, IfSome};
ghost use Rattle.plain_state.specs.Store.{HasUnit};
ghost use Rattle.plain_state.specs.Engine.{with_store};
ghost use Rattle.plain_state.specs.Moves.{MayArrive, arrived, behind_at, behind_ended, behind_none};

use crate::engine::Engine;
use plain_state::{Behind, Outcome};

/// Behind no task.
pub fn behind_nothing() -> Behind
    ensures { result ≡ behind_none }
{
    Behind {
        task: None,
        waits: None,
        cut: None,
    }
}

/// Behind the task in the block at a unit, which has ended so, or has not ended.
fn behind_task(task: u32, unit: u32, outcome: Option<Outcome>) -> Behind
    ensures { result ≡ behind_ended task unit outcome }
{
    match outcome {
        None => Behind {
            task: Some(task),
            waits: Some(unit),
            cut: None,
        },
        Some(Outcome::Gave(_)) => Behind {
            task: Some(task),
            waits: None,
            cut: None,
        },
        Some(Outcome::WasCut(tag)) => Behind {
            task: Some(task),
            waits: None,
            cut: Some(tag),
        },
    }
}

impl Engine {
    /// What it is to be behind the task in the block at a unit, if one is given.
    pub fn behind(&self, unit: Option<u64>) -> Behind
        requires { IfSome unit (HasUnit self.now.store) }
        ensures { result ≡ behind_at self.now.store unit }
    {
        let Some(unit) = unit else {
            return behind_nothing();
        };
        self.records.keeps();
        let unit = unit as u32;
        let record = self.records.record(unit);
        behind_task(record.task, unit, record.outcome)
    }

    /// The last activation of the task in a block waits for what it is behind, or may start.
    pub fn arrive(&mut self, unit: u32, behind: Behind)
        requires { MayArrive unit behind.waits self.old.store }
        ensures { self.new ≡ with_store self.old (arrived unit behind.waits self.old.store) }
    {
        match behind.waits {
            Some(target) => self.records.link(unit, target),
            None => self.records.queue(unit),
        }
    }
}
