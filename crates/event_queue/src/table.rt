//! The queues of all places.
ghost use Rattle.std.specs.Prelude.{◌≡◌, ◌≤◌, ◌==◌, [], IfOk, OnOk, OnErr, count_by};
ghost use Rattle.std.specs.List.{slice_get};
ghost use Rattle.shared_rows.specs.Table.{IsPlace, MakesRoom, Opens};
ghost use Rattle.event_queue.specs.Queue.{IsSound, counts_of, dropped, empty_queue, has_room, object_of, enqueued, taken, with_lost, with_mismatched};
ghost use Rattle.event_queue.specs.Table.{queue_at, with_queue};
ghost use Rattle.event_queue.specs.Inside.{IsLogged};

use crate::event::{Event, QueuedEvent};
use crate::object_counts::ObjectCounts;
use crate::order::{make_way, place_event, sweep, take_first};
use shared_rows::{Places, SharedRows};
use std::alloc::{AllocError, Global};
use std::marker::Model;

/// How many events a place holds at most.
pub const EVENTS: usize = 16384;

/// The counts of a queue. Clients can ask for them.
#[derive(Clone, Copy)]
pub struct Counts {
    /// How many events wait.
    pub queued: usize,
    /// How many lost events `note_lost` has counted. It stops at 2^64 - 1.
    pub lost: u64,
    /// How many mismatched events `note_mismatched` has counted. It stops at 2^64 - 1.
    pub mismatched: u64,
}

/// A place keeps a log besides the rows of its events. The events of an object are dropped by a mark, and their
/// rows stay where they are, so that it takes a look-up and no walk. Once they are more than the events that
/// wait, one walk sweeps them all out; each event that is put in pays for one look of it.
#[derive(Drop)]
struct Log {
    /// How many events wait. All other rows are of dropped ones.
    queued: usize,
    lost: u64,
    mismatched: u64,
    objects: ObjectCounts,
}

impl Log {
    fn new(alloc: Global) -> Log
        ensures lost { result.lost ≡ 0 }
        ensures mismatched { result.mismatched ≡ 0 }
        ensures logged { IsLogged [] result }
    {
        Log {
            queued: 0,
            lost: 0,
            mismatched: 0,
            objects: ObjectCounts::new(alloc),
        }
    }
}

/// The queue of each place. A place is opened by `ready` and then `open`, and is never closed.
#[derive(Drop)]
pub struct Queues {
    rows: SharedRows<QueuedEvent>,
    logs: Places<Log>,
    alloc: Global,
}

impl Model for Queues {
    ghost use Rattle.shared_rows.specs.Table.{Table};
    ghost use Rattle.shared_rows.specs.Paired.{paired_tables};
    ghost use Rattle.event_queue.specs.Queue.{Queue};
    ghost use Rattle.event_queue.specs.Inside.{AreLogged, queue_of};

    ghost Value = { Table Queue };

    ghost view = { λ queues. paired_tables queue_of queues.rows queues.logs };

    ghost invariant = { λ queues. AreLogged queues.rows queues.logs };
}

impl Queues {
    /// A table with no place, which takes no memory yet.
    pub fn new(alloc: Global) -> Queues
        ensures { result.places ≡ [] }
    {
        Queues {
            rows: SharedRows::new(alloc),
            logs: Places::new(alloc),
            alloc,
        }
    }

    /// Makes room for one more place at least.
    pub fn ready(&mut self) -> Result<(), AllocError>
        ensures { MakesRoom self.old self.new result }
    {
        self.rows.ready()?;
        self.logs.ready()
    }

    /// Opens the next place, with an empty queue, and returns its number.
    pub fn open(&mut self) -> usize
        requires { 1 ≤ self.old.room }
        ensures { Opens self.old empty_queue self.new result }
    {
        self.logs.open(Log::new(self.alloc));
        self.rows.open()
    }

    /// Drops all events of a place, and counts what is lost and mismatched from 0 again.
    pub fn clear(&mut self, place: usize)
        requires { IsPlace self.old place }
        ensures { self.new ≡ with_queue self.old place empty_queue }
    {
        self.rows.clear(place);
        *self.logs.get_mut(place) = Log::new(self.alloc);
    }

    /// Puts an event after those of its priority or a higher one, and before those of a lower one. Returns
    /// false, and changes nothing, if `EVENTS` events wait already. It fails if memory runs out, if 2^32
    /// events have rows at all places, or if 2^62 events of this priority were posted at this place since it
    /// last had no row of that priority.
    pub fn post(&mut self, place: usize, event: Event) -> Result<bool, AllocError>
        requires { IsPlace self.old place }
        ensures answer { IfOk result (λ answer. answer ≡ has_room (queue_at self.old place)) }
        ensures ok { OnOk result (self.new ≡ with_queue self.old place (enqueued (queue_at self.old place) event)) }
        ensures err { OnErr result (self.new ≡ self.old) }
    {
        let log = self.logs.get_mut(place);
        if log.queued >= EVENTS {
            return Ok(false);
        }
        let object = event.object();
        make_way(&mut self.rows, &mut log.objects, place, object, log.queued);
        log.objects.add(object)?;
        if let Err(error) = place_event(&mut self.rows, place, event) {
            log.objects.subtract(object);
            return Err(error);
        }
        log.queued += 1;
        Ok(true)
    }

    /// The first event, which is taken out.
    pub fn take(&mut self, place: usize) -> Option<Event>
        requires { IsPlace self.old place }
        ensures first { result ≡ slice_get (queue_at self.old place).events 0 }
        ensures rest { self.new ≡ with_queue self.old place (taken (queue_at self.old place)) }
    {
        let log = self.logs.get_mut(place);
        let event = take_first(&mut self.rows, &mut log.objects, place)?;
        log.queued -= 1;
        Some(event)
    }

    /// Drops the events that name an object. A call names its receiver, and not its sender. Events are
    /// looked at only where most rows are of dropped ones by then.
    pub fn drop_object(&mut self, place: usize, object: u32)
        requires { IsPlace self.old place }
        ensures { self.new ≡ with_queue self.old place (dropped object (queue_at self.old place)) }
    {
        let log = self.logs.get_mut(place);
        log.queued -= log.objects.drop_events(object) as usize;
        if self.rows.len(place) > 2 * log.queued {
            sweep(&mut self.rows, &mut log.objects, place);
        }
    }

    /// How many events wait, and how many were noted as lost and as mismatched.
    pub fn counts(&self, place: usize) -> Counts
        requires { IsPlace self.now place }
        ensures counts { result ≡ counts_of (queue_at self.now place) }
        ensures sound { IsSound (queue_at self.now place) }
    {
        let log = self.logs.get(place);
        Counts {
            queued: log.queued,
            lost: log.lost,
            mismatched: log.mismatched,
        }
    }

    /// How many events name an object. No event is looked at.
    pub fn count_of(&self, place: usize, object: u32) -> u32
        requires { IsPlace self.now place }
        ensures { result ≡ count_by (λ event. object_of event == object) (queue_at self.now place).events }
    {
        let count = self.logs.get(place).objects.count(object);
        if count.is_dropped { 0 } else { count.rows }
    }

    /// Counts one more event as lost.
    pub fn note_lost(&mut self, place: usize)
        requires { IsPlace self.old place }
        ensures { self.new ≡ with_queue self.old place (with_lost (queue_at self.old place)) }
    {
        let log = self.logs.get_mut(place);
        log.lost = log.lost.saturating_add(1);
    }

    /// Counts one more event as mismatched.
    pub fn note_mismatched(&mut self, place: usize)
        requires { IsPlace self.old place }
        ensures { self.new ≡ with_queue self.old place (with_mismatched (queue_at self.old place)) }
    {
        let log = self.logs.get_mut(place);
        log.mismatched = log.mismatched.saturating_add(1);
    }
}
