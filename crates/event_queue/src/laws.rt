//! These laws hold of queues beyond single calls.
ghost use Rattle.std.specs.Prelude.{◌≡◌, List};
ghost use Rattle.event_queue.specs.declared.event.Event.{Event};
ghost use Rattle.event_queue.specs.Queue.{Queue};
ghost use Rattle.event_queue.specs.Laws.{IsByPriority, by_priority};

/// A queue has its events by priority, and those of one priority in the order of posting, whatever is done
/// to it. There is nothing to run: the clause is a law over the definitions by which the calls of
/// [`Queues`](crate::Queues) are described.
pub fn events_are_taken_by_priority()
    ensures { (posts : List Event) (queue : Queue) → queue.events ≡ by_priority posts → IsByPriority posts queue }
{}
