//! Sessions publish and join, and objects have ties to others.
ghost use Rattle.std.specs.Prelude.{◌≡◌, IfOk, OnOk, OnErr};
ghost use Rattle.std.specs.List.{list_any};
ghost use Rattle.plain_types.specs.Answers.{RefusedBy};
ghost use Rattle.publish_board.specs.Desk.{join_refusal, with_join, left, publish_refusal, published, unpublished};
ghost use Rattle.publish_board.specs.Rows.{has_name, is_join};
ghost use Rattle.session_model.specs.State.{with_desk, without_ties};
ghost use Rattle.session_tables.specs.Joining.{AreJoiners};
ghost use Rattle.session_tables.specs.Tables.{IsPlaced, state_at, with_state};

use crate::tables::Tables;
use plain_types::{Fault, Text};
use publish_board::{Join, Publication};
use signature_core::Kind;
use std::alloc::{AllocError, Global};

impl Tables {
    /// Publishes a signal of an object.
    pub fn publish(&mut self, place: usize, row: Publication) -> Result<(), Fault>
        requires { IsPlaced self.old place }
        ensures refusal { RefusedBy (publish_refusal (state_at self.old place).desk row.name) result }
        ensures ok { OnOk result (self.new ≡ with_state self.old place (with_desk (state_at self.old place) (published (state_at self.old place).desk row))) }
        ensures err { OnErr result (self.new ≡ self.old) }
    {
        self.desks.publish(place, row)
    }

    /// Publishes nothing under a name any more, and returns whether something was.
    pub fn unpublish(&mut self, place: usize, name: &Text) -> bool
        requires { IsPlaced self.old place }
        ensures was { result ≡ list_any (has_name name.now) (state_at self.old place).desk.publications }
        ensures is { self.new ≡ with_state self.old place (with_desk (state_at self.old place) (unpublished (state_at self.old place).desk name.now)) }
    {
        self.desks.unpublish(place, name)
    }

    /// Makes a join, of a session that has this name, to a method with these parameters.
    pub fn join(
        &mut self,
        place: usize,
        own: &Text,
        join: Join,
        wanted: &[Kind],
    ) -> Result<(), Fault>
        requires { IsPlaced self.old place }
        ensures refusal { RefusedBy (join_refusal own.now (state_at self.old place).desk join wanted.now) result }
        ensures ok { OnOk result (self.new ≡ with_state self.old place (with_desk (state_at self.old place) (with_join (state_at self.old place).desk join))) }
        ensures err { OnErr result (self.new ≡ self.old) }
    {
        self.desks.join(place, own, join, wanted)
    }

    /// Takes the joins out that have these four, and returns whether there was one.
    pub fn leave(
        &mut self,
        place: usize,
        from: &Text,
        name: &Text,
        object: u32,
        method: u32,
    ) -> bool
        requires { IsPlaced self.old place }
        ensures was { result ≡ list_any (is_join from.now name.now object method) (state_at self.old place).desk.joins }
        ensures is { self.new ≡ with_state self.old place
            (with_desk (state_at self.old place) (left (state_at self.old place).desk from.now name.now object method)) }
    {
        self.desks.leave(place, from, name, object, method)
    }

    /// The places of the sessions with a join that names this session, by rising number. The other
    /// places are not walked.
    pub fn joiners(&self, alloc: Global, from: &Text) -> Result<Vec<usize>, AllocError>
        ensures { IfOk result (λ places. AreJoiners self.now from.now places.items) }
    {
        let mut places = Vec::new(alloc);
        let mut least = 0;
        'joiners: while let Some(place) = self.desks.next_joiner(from, least) {
            places.push(place)?;
            // There is no memory for so many places that one has the last number of all.
            least = place.checked_add(1).ok_or(AllocError)?;
        }
        Ok(places)
    }

    /// Breaks the connections that have an object at either end, drops the events that name it, withdraws
    /// what it publishes, and takes the joins out that call it. It is never inlined, so that deletions which
    /// nest keep nothing of it on the stack.
    #[inline(never)]
    pub fn sever(&mut self, place: usize, object: u32)
        requires { IsPlaced self.old place }
        ensures { self.new ≡ with_state self.old place (without_ties (state_at self.old place) object) }
    {
        self.connections.drop_object(place, object);
        self.queues.drop_object(place, object);
        self.desks.drop_object(place, object);
    }
}
