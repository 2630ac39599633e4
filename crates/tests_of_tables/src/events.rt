//! The queues of two places, call by call, and a queue that is full.
ghost use Rattle.std.specs.Prelude.{◌≡◌, ◌<◌, length};

use crate::benches::{Bench, are_answered, gives};
use event_queue::{EVENTS, Event, Priority, QueuedCall, Queues};
use plain_types::Callee;
use std::alloc::{AllocError, Global};
use std::test::Fail;
use variant_value::Args;

/// A test asks this of a table.
#[derive(Clone, Copy)]
enum Asked {
    /// A call of method 7 of a receiver, for a sender.
    Call(u32, u32),
    /// A call for an object is put into the queue with a priority.
    CallOf(Priority, u32, u32),
    Deletion(u32),
    /// The event, as `told` has it.
    Take,
    DropObject(u32),
    Lost,
    Mismatched,
    /// The three counts, as the digits of one number.
    Counts,
    Clear,
}

use Asked::*;
use Priority::{High, Low, Normal};

/// A table with two places.
#[derive(Drop)]
struct TwoQueues {
    table: Queues,
    alloc: Global,
    ghost two: { length table.places ≡ 2 },
}

impl Bench for TwoQueues {
    type Asked = Asked;

    fn new(alloc: Global) -> Result<TwoQueues, AllocError> {
        let mut table = Queues::new(alloc);
        table.ready()?;
        table.open();
        table.ready()?;
        table.open();
        Ok(TwoQueues { table, alloc })
    }

    fn ask(&mut self, place: usize, asked: Asked) -> Result<u64, AllocError> {
        let place = place.min(1);
        match asked {
            Call(object, sender) => self.enqueue_call(place, Normal, object, sender),
            CallOf(priority, object, sender) => self.enqueue_call(place, priority, object, sender),
            Deletion(object) => Ok(self.table.post(place, Event::Deletion(object))? as u64),
            Take => Ok(told(self.table.take(place))),
            DropObject(object) => Ok(self.drop_object(place, object)),
            Lost => Ok(self.lost(place)),
            Mismatched => Ok(self.mismatched(place)),
            Counts => Ok(self.counts(place)),
            Clear => Ok(self.clear(place)),
        }
    }
}

impl TwoQueues {
    fn enqueue_call(
        &mut self,
        place: usize,
        priority: Priority,
        object: u32,
        sender: u32,
    ) -> Result<u64, AllocError>
        requires { place < length self.old.table.places }
    {
        let call = queued_call(self.alloc, priority, object, sender)?;
        Ok(self.table.post(place, call)? as u64)
    }

    fn drop_object(&mut self, place: usize, object: u32) -> u64
        requires { place < length self.old.table.places }
    {
        self.table.drop_object(place, object);
        self.counts(place)
    }

    fn lost(&mut self, place: usize) -> u64
        requires { place < length self.old.table.places }
    {
        self.table.note_lost(place);
        self.counts(place)
    }

    fn mismatched(&mut self, place: usize) -> u64
        requires { place < length self.old.table.places }
    {
        self.table.note_mismatched(place);
        self.counts(place)
    }

    fn clear(&mut self, place: usize) -> u64
        requires { place < length self.old.table.places }
    {
        self.table.clear(place);
        self.counts(place)
    }

    fn counts(&self, place: usize) -> u64
        requires { place < length self.now.table.places }
    {
        let counts = self.table.counts(place);
        (counts.queued as u64)
            .wrapping_mul(100)
            .wrapping_add(counts.lost.wrapping_mul(10))
            .wrapping_add(counts.mismatched)
    }
}

fn queued_call(
    alloc: Global,
    priority: Priority,
    object: u32,
    sender: u32,
) -> Result<Event, AllocError> {
    Ok(Event::Call(QueuedCall {
        object,
        callee: Callee::Method(7),
        sender,
        connection: 0,
        priority,
        args: Args::copied(alloc, &[])?,
    }))
}

/// The receiver and the sender of a call as the digits of one number, the object of a deletion, or 0.
fn told(event: Option<Event>) -> u64 {
    match &event {
        Some(Event::Call(call)) => (call.object as u64)
            .wrapping_mul(10)
            .wrapping_add(call.sender as u64),
        Some(Event::Deletion(object)) => *object as u64,
        None => 0,
    }
}

/// A place, what is asked of it, and what is answered.
type Case = (usize, Asked, u64);

const IN_ORDER: &[Case] = &[
    (0, Take, 0),
    (0, Call(3, 1), 1),
    (1, Call(3, 2), 1),
    (0, Deletion(2), 1),
    (0, Call(2, 3), 1),
    (0, Call(3, 0), 1),
    (0, Counts, 400),
    (1, Counts, 100),
    (0, Take, 31),
    // A call names its receiver, and not its sender.
    (0, DropObject(1), 300),
    (0, DropObject(2), 100),
    (0, DropObject(2), 100),
    (1, DropObject(2), 100),
    (0, Take, 30),
    (0, Take, 0),
    (0, Deletion(3), 1),
    (0, Lost, 110),
    (0, Lost, 120),
    (0, Mismatched, 121),
    (1, Mismatched, 101),
    (0, Clear, 0),
    (0, DropObject(3), 0),
    (0, Call(3, 4), 1),
    (0, Take, 34),
    (1, Take, 32),
    (1, Counts, 1),
    // What is dropped is passed over, and what is posted behind it is not.
    (0, Call(3, 1), 1),
    (0, Call(4, 1), 1),
    (0, Call(4, 2), 1),
    (0, DropObject(3), 200),
    (0, Call(3, 2), 1),
    (0, Call(5, 1), 1),
    (0, DropObject(4), 200),
    (0, Counts, 200),
    (0, Take, 32),
    (0, Take, 51),
    (0, Take, 0),
];

#[test]
fn events_are_taken_in_the_order_of_posting(rt: HostRuntime) -> Result<(), Fail> {
    assert!(rt; are_answered::<TwoQueues>(rt.alloc(), IN_ORDER)?);
    Ok(())
}

const BY_PRIORITY: &[Case] = &[
    (0, CallOf(Low, 3, 1), 1),
    (0, Call(3, 2), 1),
    (0, CallOf(High, 3, 3), 1),
    (0, Deletion(2), 1),
    (0, CallOf(High, 3, 4), 1),
    (0, CallOf(Low, 2, 5), 1),
    (0, CallOf(Normal, 3, 6), 1),
    (0, Counts, 700),
    (0, Take, 33),
    (0, DropObject(2), 400),
    (0, Take, 34),
    (0, Take, 32),
    (0, CallOf(High, 3, 7), 1),
    (0, Take, 37),
    (0, Take, 36),
    (0, Take, 31),
    (0, Take, 0),
];

#[test]
fn events_of_a_higher_priority_are_taken_first(rt: HostRuntime) -> Result<(), Fail> {
    assert!(rt; are_answered::<TwoQueues>(rt.alloc(), BY_PRIORITY)?);
    Ok(())
}

/// A place that holds as many events as it may, all of object 5, answers these.
const FULL: &[Case] = &[
    (0, Deletion(5), 0),
    (1, Deletion(5), 1),
    (0, Counts, 1638400),
    (0, DropObject(4), 1638400),
    (0, Take, 5),
    (0, Deletion(6), 1),
    (0, DropObject(5), 100),
    (0, Take, 6),
    (1, Take, 5),
];

/// Whether a place takes so many events and no more.
fn is_full_behind(alloc: Global, events: usize) -> Result<bool, AllocError> {
    let mut bench = TwoQueues::new(alloc)?;
    for _ in 0..events {
        if bench.ask(0, Deletion(5))? != 1 {
            return Ok(false);
        }
    }
    gives(&mut bench, FULL)
}

#[test]
fn a_place_takes_so_many_events(rt: HostRuntime) -> Result<(), Fail> {
    assert!(rt; is_full_behind(rt.alloc(), EVENTS)?);
    Ok(())
}
