//! The events of sessions, the objects whose signals are blocked, and how much there is.
ghost use Rattle.std.specs.Prelude.{◌≡◌, IfOk, OnOk, OnErr};
ghost use Rattle.std.specs.List.{slice_get};
ghost use Rattle.std.specs.Result.{result_err};
ghost use Rattle.event_queue.specs.Queue.{has_room};
ghost use Rattle.session_model.specs.Operations.{is_blocked};
ghost use Rattle.session_model.specs.Events.{status};
ghost use Rattle.session_model.specs.Posting.{enqueue_refusal, spin_after};
ghost use Rattle.session_model.specs.State.{with_blocking, with_call, with_event, without_first};
ghost use Rattle.session_tables.specs.Tables.{IsPlaced, state_at, with_state};

use crate::tables::Tables;
use event_queue::{EVENTS, Event, QueuedCall};
use plain_types::Code;
use session_model::{Spin, Status};
use std::alloc::AllocError;

impl Tables {
    /// Posts an event, and returns whether there was room for it.
    pub fn enqueue(&mut self, place: usize, event: Event) -> Result<bool, AllocError>
        requires { IsPlaced self.old place }
        ensures room { IfOk result (λ answer. answer ≡ has_room (state_at self.old place).queue) }
        ensures ok { OnOk result (self.new ≡ with_state self.old place
            (with_event (state_at self.old place) event)) }
        ensures err { OnErr result (self.new ≡ self.old) }
    {
        self.queues.post(place, event)
    }

    /// Posts a call, or counts it as lost where there is no room for it.
    pub fn enqueue_call(&mut self, place: usize, call: QueuedCall) -> Result<(), AllocError>
        requires { IsPlaced self.old place }
        ensures ok { OnOk result (self.new ≡ with_state self.old place
            (with_call (state_at self.old place) call)) }
        ensures err { OnErr result (self.new ≡ self.old) }
    {
        if !self.queues.post(place, Event::Call(call))? {
            self.queues.note_lost(place);
        }
        Ok(())
    }

    /// Refuses to post where there is no room.
    pub fn check_room(&self, place: usize) -> Result<(), Code>
        requires { IsPlaced self.now place }
        ensures { result_err result ≡ enqueue_refusal (state_at self.now place).queue }
    {
        if self.queues.counts(place).queued < EVENTS {
            Ok(())
        } else {
            Err(Code::Limit)
        }
    }

    /// The first event, which is taken out.
    pub fn take_event(&mut self, place: usize) -> Option<Event>
        requires { IsPlaced self.old place }
        ensures first { result ≡ slice_get (state_at self.old place).queue.events 0 }
        ensures rest { self.new ≡ with_state self.old place (without_first (state_at self.old place)) }
    {
        self.queues.take(place)
    }

    /// Blocks the signals of an object, or lets them through, and returns whether they were blocked.
    pub fn set_blocked(&mut self, place: usize, object: u32, on: bool) -> bool
        requires { IsPlaced self.old place }
        ensures before { result ≡ is_blocked (state_at self.old place) object }
        ensures after { self.new ≡ with_state self.old place
            (with_blocking (state_at self.old place) object on) }
    {
        self.forests.set_blocked(place, object, on)
    }

    /// How much there is in a session.
    pub fn status(&self, place: usize) -> Status
        requires { IsPlaced self.now place }
        ensures { result ≡ status (state_at self.now place) }
    {
        self.forests.law_sound(place);
        let events = self.queues.counts(place);
        let desk = self.desks.counts(place);
        Status {
            bindings: self.stores.bindings.count(place) as u32,
            connections: self.connections.count(place) as u32,
            group: self.stores.bindings.depth(place),
            joins: desk.joins as u32,
            lost: events.lost,
            mismatched: events.mismatched,
            objects: self.forests.count(place) as u32,
            publications: desk.publications as u32,
            queued: events.queued as u32,
        }
    }

    /// Returns the answer to a command that has taken this many events.
    pub fn spun(&self, place: usize, taken: u32) -> Spin
        requires { IsPlaced self.now place }
        ensures { result ≡ spin_after taken (state_at self.now place).queue }
    {
        let events = self.queues.counts(place);
        Spin {
            events: taken,
            left: events.queued as u32,
            lost: events.lost,
            mismatched: events.mismatched,
        }
    }
}
