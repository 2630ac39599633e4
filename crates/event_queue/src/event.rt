//! An event.
ghost use Rattle.std.specs.Prelude.{◌≡◌, ◌≤◌};
ghost use Rattle.event_queue.specs.Queue.{object_of, priority_of, rank_of};
ghost use Rattle.event_queue.specs.Inside.{number_of};

use plain_types::Callee;
use shared_rows::Numbered;
use variant_value::Args;

/// How soon an event is taken (`Qt::EventPriority`): before those of a lower priority, and after those of
/// its own that were posted earlier.
#[derive(Clone, Copy, PartialEq, Eq)]
pub enum Priority {
    /// `Qt::LowEventPriority`, -1.
    Low,
    /// `Qt::NormalEventPriority`, 0.
    Normal,
    /// `Qt::HighEventPriority`, 1.
    High,
}

impl Priority {
    /// The position of a priority among all three, 0 for the highest.
    pub(crate) fn rank(self) -> u64
        ensures rank { result ≡ rank_of self }
        ensures few { result ≤ 2 }
    {
        match self {
            Priority::High => 0,
            Priority::Normal => 1,
            Priority::Low => 2,
        }
    }
}

/// A call that waits in the queue (`QMetaCallEvent`).
pub struct QueuedCall {
    /// The receiver: the object whose method is called, or that is the functor's context.
    pub object: u32,
    pub callee: Callee,
    /// The object that sent the signal, or 0 where none did. It may go before the call is made.
    pub sender: u32,
    /// The connection that called, or 0 where none did. It may be broken before the call is made.
    pub connection: u32,
    pub priority: Priority,
    pub args: Args,
}

impl Drop for QueuedCall {
    fn drop(self) {
        let QueuedCall {
            object: _,
            callee: _,
            sender: _,
            connection: _,
            priority: _,
            args: _,
        } = self;
    }
}

/// An event loop delivers a call to an object, or its deletion.
pub enum Event {
    Call(QueuedCall),
    /// The deletion of this object, which was asked for later (`QEvent::DeferredDelete`).
    Deletion(u32),
}

impl Drop for Event {
    fn drop(self) {
        match self {
            Event::Call(_) | Event::Deletion(_) => (),
        }
    }
}

impl Event {
    /// The object that the event is delivered to: the receiver, or what is to be deleted.
    pub fn object(&self) -> u32
        ensures { result ≡ object_of self.now }
    {
        match self {
            Event::Call(call) => call.object,
            Event::Deletion(object) => *object,
        }
    }

    /// How soon the event is taken; a deletion has the priority `Normal`.
    pub fn priority(&self) -> Priority
        ensures { result ≡ priority_of self.now }
    {
        match self {
            Event::Call(call) => call.priority,
            Event::Deletion(_) => Priority::Normal,
        }
    }
}

/// How many numbers each priority has.
pub(crate) const NUMBERS: u64 = 1 << 62;

/// An event in its queue, with the number that orders it.
#[derive(Drop)]
pub(crate) struct QueuedEvent {
    /// Less than `NUMBERS`, and above those of all events of its priority that were posted before it and
    /// are still queued.
    pub(crate) number: u64,
    pub(crate) event: Event,
}

impl Numbered for QueuedEvent {
    type Number = u64;

    ghost number = { number_of };

    fn number(&self) -> u64 {
        self.event.priority().rank() * NUMBERS + self.number % NUMBERS
    }
}
