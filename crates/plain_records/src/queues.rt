ghost use Rattle.std.specs.Prelude.{◌≡◌, ℕ, List, [], ◌∷◌, slice_get};
ghost use Rattle.plain_state.specs.Store.{HasPlaces, HasUnit, MayComplete, changed, completed, first_in, linked, queued_at, renewed, with_outcome, woken};
ghost use Rattle.plain_records.specs.Taken.{IsNextOf, IsTaken, MayWake};

use crate::store::Records;
use plain_state::Outcome;
use record_core::CutTag;
use task_syntax::Priority;

/// How a task is cut that is behind one that ended so.
fn cut_of(outcome: Outcome) -> Option<CutTag>
    ensures { result ≡ Rattle.plain_state.specs.Store.cut_of outcome }
{
    match outcome {
        Outcome::Gave(_) => None,
        Outcome::WasCut(tag) => Some(tag),
    }
}

impl Records {
    /// The task's last activation joins the queue of its priority.
    #[inline(always)]
    pub fn queue(&mut self, unit: u32)
        requires unit { HasUnit self.old unit }
        requires place { HasPlaces self.old 1 }
        ensures { self.new ≡ queued_at unit self.old }
    {
        self.ready
            .push(self.records[unit as usize].priority(), unit);
    }

    /// Takes the next task out of the highest queue that has one.
    pub fn next_ready(&mut self) -> Option<u32>
        ensures { IsTaken self.old result self.new }
    {
        self.read_ahead();
        self.ready.pop()
    }

    // Where it is time to, reads the records and frames of the next tasks ahead.
    fn read_ahead(&mut self)
        ensures { self.new ≡ self.old }
    {
        self.ahead = self.ahead.next(self.records.as_slice(), self.words.as_slice(), &self.ready);
    }

    /// A task joins the waiters of another.
    pub fn link(&mut self, waiter: u32, target: u32)
        requires waiter { HasUnit self.old waiter }
        requires target { HasUnit self.old target }
        ensures { self.new ≡ linked waiter target self.old }
    {
        self.keeps();
        let first = self.records[target as usize].first();
        self.records[waiter as usize].set_next(first);
        self.records[target as usize].set_first(waiter);
    }

    /// A further activation of the task was accepted. `cut` tells how the task was cut that it is
    /// behind, if that has ended so.
    pub fn renew(&mut self, unit: u32, number: u32, priority: Priority, cut: Option<CutTag>)
        requires { HasUnit self.old unit }
        ensures { self.new ≡ renewed unit number priority cut self.old }
    {
        self.records[unit as usize].renew(number, priority, cut);
    }

    /// The task has ended. Its waiters join their queues, the one that joined last in front.
    pub fn complete(&mut self, unit: u32, outcome: Outcome)
        ghost waiters: { List ℕ }
        requires { MayComplete unit waiters self.old }
        ensures { self.new ≡ completed unit outcome waiters self.old }
    {
        let first = self.set_outcome(unit, outcome);
        self.wake(first, cut_of(outcome));
    }

    // The task has ended so. Tells the first of its waiters, who are no more.
    fn set_outcome(&mut self, unit: u32, outcome: Outcome) -> Option<u32>
        requires { HasUnit self.old unit }
        ensures ended { self.new ≡ changed (with_outcome outcome) unit self.old }
        ensures first { result ≡ first_in (slice_get self.old.records unit) }
    {
        let known = &mut self.records[unit as usize];
        let first = known.first();
        known.end(outcome);
        first
    }

    // The waiters from this one on join their queues.
    fn wake(&mut self, first: Option<u32>, cut: Option<CutTag>)
        ghost waiters: { List ℕ }
        requires { MayWake self.old first waiters }
        ensures { self.new ≡ woken cut waiters self.old }
    {
        let mut next = first;
        'waiters: while let Some(waiter) = next {
            next = self.wake_one(waiter, cut);
        }
    }

    // A waiter joins its queue, and tells the next one.
    fn wake_one(&mut self, waiter: u32, cut: Option<CutTag>) -> Option<u32>
        requires unit { HasUnit self.old waiter }
        requires place { HasPlaces self.old 1 }
        ensures woken { self.new ≡ woken cut (waiter ∷ []) self.old }
        ensures next { IsNextOf self.old waiter result }
    {
        let known = &mut self.records[waiter as usize];
        known.set_cut(cut);
        let next = known.next();
        self.queue(waiter);
        next
    }
}
