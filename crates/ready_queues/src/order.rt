ghost use Rattle.ready_queues.specs.Moments.{TellsTake};
ghost use Rattle.ready_queues.specs.Order.{KeepsOrder};

use crate::entry::Entry;
use crate::store::ReadyStore;
use std::sync::Wait;

/// Takes twice, from any store. An entry that comes second though it is of a higher priority than
/// the first, or after none, was not there all the time: its queue was empty at a moment of the
/// first call.
pub fn take_twice<Q: ReadyStore, R: Wait>(
    store: &Q,
    rt: &R,
    qpass: &mut Q::QPass,
) -> (Option<Entry>, Option<Entry>)
    requires { Q.is_pass store.now qpass.old }
    ensures pass { Q.is_pass store.now qpass.new }
    ensures order { KeepsOrder (Q.saw store.now) (Q.number qpass.old) qpass.new result.0 result.1 }
    ensures last { TellsTake (Q.lanes store.now) (Q.number qpass.old)
        (Q.saw store.now qpass.new) result.1 }
{
    let first = store.take(rt, qpass);
    let second = store.take(rt, qpass);
    (first, second)
}
