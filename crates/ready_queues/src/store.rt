ghost use Rattle.std.specs.Prelude.{◌≡◌, ℕ};
ghost use Rattle.ready_queues.specs.Moments.{Moment, TellsPush, TellsTake, Rose, IsInTime, IsConsistent};

use crate::entry::Entry;
use std::sync::Wait;

/// What workers share of what is ready: of each priority one queue or more, each first in first
/// out. No call takes memory.
///
/// A worker has a pass, which keeps what its last call learned of the queues, each at one moment
/// of that call.
pub trait ReadyStore: Sync {
    type QPass: Send + Drop;

    /// The pass is one of this store.
    ghost is_pass: { Self → Self.QPass → Type 0 };

    /// How many queues there are of each priority.
    ghost lanes: { Self → ℕ };

    /// The number of the last moment that the pass has seen.
    ghost number: { Self.QPass → ℕ };

    /// The pass tells of this moment.
    ghost saw: { Self → Self.QPass → Moment → Type 0 };

    /// The pass may be split.
    ghost may_split: { Self.QPass → Type 0 };

    /// Puts an entry at the back of a queue of its priority. It comes back where that was full.
    fn push<R: Wait>(&self, rt: &R, qpass: &mut Self::QPass, entry: Entry) -> Result<(), Entry>
        requires { is_pass self.now qpass.old }
        ensures pass { is_pass self.now qpass.new }
        ensures number { Rose (number qpass.old) (number qpass.new) }
        ensures split { may_split qpass.old → may_split qpass.new }
        ensures told { TellsPush (lanes self.now) (number qpass.old)
            (saw self.now qpass.new) entry result };

    /// Takes the front of a queue, of a lower priority only where each higher queue was empty.
    fn take<R: Wait>(&self, rt: &R, qpass: &mut Self::QPass) -> Option<Entry>
        requires { is_pass self.now qpass.old }
        ensures pass { is_pass self.now qpass.new }
        ensures number { Rose (number qpass.old) (number qpass.new) }
        ensures split { may_split qpass.old → may_split qpass.new }
        ensures told { TellsTake (lanes self.now) (number qpass.old)
            (saw self.now qpass.new) result };

    /// Makes two passes of one. The first tells what the one told.
    fn split(&self, qpass: Self::QPass) -> (Self::QPass, Self::QPass)
        requires pass { is_pass self.now qpass }
        requires split { may_split qpass }
        ensures passes { is_pass self.now result.0 × is_pass self.now result.1 }
        ensures split { may_split result.0 × may_split result.1 }
        ensures number { number result.0 ≡ number qpass }
        ensures told { (m : Moment) → saw self.now qpass m → saw self.now result.0 m };

    /// No moment is told of that comes after the last number.
    ghost seen: { (s : Self) (q : Self.QPass) → IsInTime (number q) (saw s q) };

    /// Of one queue at one moment one number of entries is told.
    ghost agrees: { (s : Self) (q : Self.QPass) → IsConsistent (saw s q) };
}
