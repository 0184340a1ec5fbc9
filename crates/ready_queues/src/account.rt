//! The rule of one queue without a lock: what it holds, against what its passes pushed and took.
ghost use Rattle.std.specs.Prelude.{◌≡◌, ◌<◌, [], IfOk, IfSome, IfNone};
ghost use Rattle.std.specs.Bool.{OnTrue, OnFalse};
ghost use Rattle.crossbeam_queue.specs.Fifo.{Held};
ghost use Rattle.crossbeam_queue.specs.Passes.{view, IsPassOf, ruled_capacity};
ghost use Rattle.ready_queues.specs.Account.{Pushes, Takes, Agrees, first_hand, new_hand, parted};

use crate::entry::Item;
use crossbeam_queue::protocol::{Lesson, Outcome, Protocol, Split};
use crossbeam_queue::{Pass, RuledArrayQueue};
use std::alloc::{AllocError, Global};
use std::collections::LinkedList;
use std::sync::Wait;

// What a pass has done at a queue: what it pushed and what it took, in order, and what the queue
// held before its last step. The first pass of a queue is alone until it is split. No value of it
// is made.
pub struct Hand {
    alone: bool,
    pushed: LinkedList<Item>,
    took: LinkedList<Item>,
    held: LinkedList<Item>,
}

// The rule, and what each step tells.
pub struct InOrder;

impl Protocol<Item, Hand> for InOrder {
    ghost use Rattle.ready_queues.specs.Account.{Kept, first_hand};

    ghost holds = { Kept };

    ghost first = { first_hand };
}

struct Pushing;

impl Outcome<Item, Hand> for Pushing {
    ghost use Rattle.ready_queues.specs.Account.{Pushes};

    ghost then = { Pushes };
}

impl Lesson<Item, Hand> for Pushing {
    ghost use Rattle.ready_queues.specs.Account.{Agrees};

    ghost fact = { Agrees };
}

struct Taking;

impl Outcome<Item, Hand> for Taking {
    ghost use Rattle.ready_queues.specs.Account.{Takes};

    ghost then = { Takes };
}

impl Lesson<Item, Hand> for Taking {
    ghost use Rattle.ready_queues.specs.Account.{Agrees};

    ghost fact = { Agrees };
}

struct Parting;

impl Split<Hand> for Parting {
    ghost use Rattle.ready_queues.specs.Account.{parted, new_hand};

    ghost left = { parted };

    ghost right = { λ v. new_hand };
}

pub(crate) type Queue = RuledArrayQueue<Item, Hand, InOrder>;

pub(crate) type QueuePass = Pass<Item, Hand>;

// An empty queue with its first pass.
pub(crate) fn empty(alloc: Global, capacity: usize) -> Result<(Queue, QueuePass), AllocError>
    requires { 0 < capacity }
    ensures pass { IfOk result (λ made. IsPassOf made.0 made.1 × (view made.1 ≡ first_hand)) }
    ensures capacity { IfOk result (λ made. ruled_capacity made.0 ≡ capacity) }
{
    Queue::ruled(alloc, capacity)
}

// Puts an item at the back of the queue. The answer is false where that was full at a moment of the
// call.
pub(crate) fn put<R: Wait>(rt: &R, queue: &Queue, pass: &mut QueuePass, item: Item) -> bool
    requires { IsPassOf queue.now pass.old }
    ensures pass { IsPassOf queue.now pass.new }
    ensures put { OnTrue result (Pushes (view pass.old) item (view pass.new)) }
    ensures same { OnFalse result (view pass.new ≡ view pass.old) }
    ensures full { OnFalse result (Held (ruled_capacity queue.now) (Agrees (view pass.new))) }
{
    queue.push_as::<Pushing, R>(rt, pass, item).is_ok()
}

// Takes the item at the front of the queue. None where the queue was empty at a moment of the call.
pub(crate) fn get<R: Wait>(rt: &R, queue: &Queue, pass: &mut QueuePass) -> Option<Item>
    requires { IsPassOf queue.now pass.old }
    ensures pass { IsPassOf queue.now pass.new }
    ensures took { IfSome result (λ item. Takes (view pass.old) item (view pass.new)) }
    ensures same { IfNone result (view pass.new ≡ view pass.old) }
    ensures empty { IfNone result (Agrees (view pass.new) []) }
{
    queue.pop_as::<Taking, R>(rt, pass)
}

// Makes a pass beside this one, which then is not alone.
pub(crate) fn another(queue: &Queue, pass: &mut QueuePass) -> QueuePass
    requires { IsPassOf queue.now pass.old }
    ensures passes { IsPassOf queue.now pass.new × IsPassOf queue.now result }
    ensures left { view pass.new ≡ parted (view pass.old) }
    ensures right { view result ≡ new_hand }
{
    queue.another::<Parting>(pass)
}
