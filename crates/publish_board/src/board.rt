//! The desks of all places.
ghost use Rattle.std.specs.Prelude.{◌≡◌, ◌<◌, ◌≤◌, [], IfOk, IfSome, OnOk, OnErr, count_by, filter, length};
ghost use Rattle.std.specs.List.{list_any};
ghost use Rattle.shared_rows.specs.Table.{IsPlace, MakesRoom, Opens};
ghost use Rattle.plain_types.specs.Answers.{RefusedBy};
ghost use Rattle.publish_board.specs.Rows.{has_name, is_join, listens, names_of, publishes};
ghost use Rattle.publish_board.specs.Desk.{IsSound, counts_of, join_refusal, with_join, left, names_session, no_desk};
ghost use Rattle.publish_board.specs.Desk.{publish_refusal, published, unpublished, without_object};
ghost use Rattle.publish_board.specs.Table.{IsNextJoiner, IsNextListener, desk_at, with_desk};
ghost use Rattle.publish_board.specs.Going.{gone};
ghost use Rattle.publish_board.specs.Inside.{without_join};

use crate::join::{Going, Join, listening};
use crate::joiners::{Joiners, Near};
use crate::lazy_desk::{Counts, LazyDesk};
use crate::publication::{Publication, names_of};
use crate::topic::Sought;
use plain_types::{Fault, Items, Text};
use shared_rows::Places;
use signature_core::Kind;
use std::alloc::{AllocError, Global};
use std::hash::RandomState;
use std::marker::Model;

/// The board holds the publications and the joins of the session of each place. A place is opened by `ready`
/// and then `open`, and is never closed.
#[derive(Drop)]
pub struct Board {
    desks: Places<LazyDesk>,
    joiners: Joiners,
    alloc: Global,
}

impl Model for Board {
    ghost use Rattle.shared_rows.specs.Table.{Table};
    ghost use Rattle.publish_board.specs.Desk.{Desk};

    ghost Value = { Table Desk };

    ghost use Rattle.publish_board.specs.Joiners.{AreListed};

    ghost view = { λ board. board.desks };

    ghost invariant = { λ board. AreListed board.joiners board.desks };
}

impl Board {
    /// A table with no place, which takes no memory yet. The names of sessions are hashed with these
    /// keys.
    pub fn new(alloc: Global, hashing: RandomState) -> Board
        ensures { result.places ≡ [] }
    {
        Board {
            desks: Places::new(alloc),
            joiners: Joiners::new(alloc, hashing),
            alloc,
        }
    }

    /// Makes room for one more place at least.
    pub fn ready(&mut self) -> Result<(), AllocError>
        ensures { MakesRoom self.old self.new result }
    {
        self.desks.ready()
    }

    /// Opens the next place, where nothing is published and nothing joined, and returns its number.
    pub fn open(&mut self) -> usize
        requires { 1 ≤ self.old.room }
        ensures { Opens self.old no_desk self.new result }
    {
        self.desks.open(LazyDesk::new())
    }

    /// Takes out all that a place publishes and joins.
    pub fn clear(&mut self, place: usize)
        requires { IsPlace self.old place }
        ensures { self.new ≡ with_desk self.old place no_desk }
    {
        self.take_out(place, &Going::All);
        *self.desks.get_mut(place) = LazyDesk::new();
    }

    /// Publishes a signal of an object, after the place's other publications. It is refused with
    /// `Code::NameTaken` if the place already publishes this name, and then with `Code::Limit` beyond
    /// `PUBLICATIONS`.
    pub fn publish(&mut self, place: usize, row: Publication) -> Result<(), Fault>
        requires { IsPlace self.old place }
        ensures refusal { RefusedBy (publish_refusal (desk_at self.old place) row.name) result }
        ensures ok { OnOk result (self.new ≡ with_desk self.old place (published (desk_at self.old place) row)) }
        ensures err { OnErr result (self.new ≡ self.old) }
    {
        self.desks.get_mut(place).publish(self.alloc, row)
    }

    /// Removes the publication with a name, and returns whether there was one. Allocates nothing.
    pub fn unpublish(&mut self, place: usize, name: &Text) -> bool
        requires { IsPlace self.old place }
        ensures stood { result ≡ list_any (has_name name.now) (desk_at self.old place).publications }
        ensures rows { self.new ≡ with_desk self.old place (unpublished (desk_at self.old place) name.now) }
    {
        self.desks.get_mut(place).unpublish(name)
    }

    /// Adds a join after all others, for the session named `own` and a method whose parameters have the
    /// kinds `wanted`. It is refused with `Code::DoesNotFit` if these are not the first of the join's kinds,
    /// then with `Code::OwnSession` if it names the session itself, and then with `Code::Limit` beyond
    /// `JOINS`. What it names need not be published.
    pub fn join(
        &mut self,
        place: usize,
        own: &Text,
        join: Join,
        wanted: &[Kind],
    ) -> Result<(), Fault>
        requires { IsPlace self.old place }
        ensures refusal { RefusedBy (join_refusal own.now (desk_at self.old place) join wanted.now) result }
        ensures ok { OnOk result (self.new ≡ with_desk self.old place (with_join (desk_at self.old place) join)) }
        ensures err { OnErr result (self.new ≡ self.old) }
    {
        self.desks.get(place).may_join(own, &join, wanted)?;
        self.add(place, join)?;
        Ok(())
    }

    /// Adds a join that nothing refuses. Where the place cannot be listed, the join is taken out again.
    fn add(&mut self, place: usize, join: Join) -> Result<(), AllocError>
        requires place { IsPlace self.old place }
        requires room { length (desk_at self.old place).joins < 1024 }
        ensures ok { OnOk result (self.new ≡ with_desk self.old place (with_join (desk_at self.old place) join)) }
        ensures err { OnErr result (self.new ≡ self.old) }
    {
        let desk = self.desks.get_mut(place);
        let position = desk.joins().len();
        desk.add_join(self.alloc, join)?;
        if let Err(error) = self.joiners.add(&desk.joins()[position], place) {
            desk.remove_join(position);
            return Err(error);
        }
        Ok(())
    }

    /// Removes the joins that are equal in these four, and returns whether there was one. Allocates nothing. No join
    /// is looked at if none is of what the session publishes under the name.
    pub fn leave(
        &mut self,
        place: usize,
        from: &Text,
        name: &Text,
        object: u32,
        method: u32,
    ) -> bool
        requires { IsPlace self.old place }
        ensures stood { result ≡ list_any (is_join from.now name.now object method) (desk_at self.old place).joins }
        ensures rows { self.new ≡ with_desk self.old place (left (desk_at self.old place) from.now name.now object method) }
    {
        let publication = Sought {
            from,
            name: Some(name),
        };
        if !self.joiners.has(publication, place) {
            return false;
        }
        let going = Going::Same {
            from,
            name,
            object,
            method,
        };
        let stood = going.takes_any(self.joins(place));
        self.take_out(place, &going);
        stood
    }

    /// Removes what an object publishes, and the joins that call it. Allocates nothing.
    pub fn drop_object(&mut self, place: usize, object: u32)
        requires { IsPlace self.old place }
        ensures { self.new ≡ with_desk self.old place (without_object object (desk_at self.old place)) }
    {
        self.take_out(place, &Going::Object(object));
        self.desks.get_mut(place).drop_publications(object);
    }

    /// Takes out some of the joins of a place.
    fn take_out(&mut self, place: usize, going: &Going)
        requires { IsPlace self.old place }
        ensures { self.new ≡ with_desk self.old place (gone going.now (desk_at self.old place)) }
    {
        let count = self.joins(place).len();
        'joins: for position in (0..count).rev() {
            if going.takes(&self.joins(place)[position]) {
                self.remove_join(place, position);
            }
        }
    }

    /// Takes out the join at a position.
    fn remove_join(&mut self, place: usize, position: usize)
        requires place { IsPlace self.old place }
        requires position { position < length (desk_at self.old place).joins }
        ensures { self.new ≡ with_desk self.old place (without_join position (desk_at self.old place)) }
    {
        let desk = self.desks.get_mut(place);
        let join = desk.remove_join(position);
        self.joiners.remove(&join, place);
    }

    /// How many publications and joins a place has.
    pub fn counts(&self, place: usize) -> Counts
        requires { IsPlace self.now place }
        ensures counts { result ≡ counts_of (desk_at self.now place) }
        ensures sound { IsSound (desk_at self.now place) }
    {
        self.desks.get(place).counts()
    }

    /// Returns the publications of a place, in the order of making.
    pub fn publications(&self, place: usize) -> &[Publication]
        requires { IsPlace self.now place }
        ensures { result.now ≡ (desk_at self.now place).publications }
    {
        self.desks.get(place).publications()
    }

    /// Returns the joins of a place, in the order of making.
    pub fn joins(&self, place: usize) -> &[Join]
        requires { IsPlace self.now place }
        ensures { result.now ≡ (desk_at self.now place).joins }
    {
        self.desks.get(place).joins()
    }

    /// Whether a signal of an object is published under any name.
    pub fn is_published(&self, place: usize, object: u32, signal: u32) -> bool
        requires { IsPlace self.now place }
        ensures { result ≡ list_any (publishes object signal) (desk_at self.now place).publications }
    {
        self.publications(place)
            .iter()
            .any(|row| row.publishes(object, signal))
    }

    /// Copies of the names under which a signal of an object is published, in the order of making.
    pub fn published(
        &self,
        place: usize,
        object: u32,
        signal: u32,
    ) -> Result<Items<Text>, AllocError>
        requires { IsPlace self.now place }
        ensures { IfOk result (λ names. names ≡ names_of object signal (desk_at self.now place).publications) }
    {
        names_of(self.alloc, self.publications(place), object, signal)
    }

    /// Copies of the joins that listen to what the session of the name `from` publishes under `name`, in
    /// the order of making.
    pub fn matching(
        &self,
        place: usize,
        from: &Text,
        name: &Text,
    ) -> Result<Items<Join>, AllocError>
        requires { IsPlace self.now place }
        ensures { IfOk result (λ joins. joins ≡ filter (listens from.now name.now) (desk_at self.now place).joins) }
    {
        listening(self.alloc, self.joins(place), from, name)
    }

    /// Whether a join of the place names the session.
    pub fn names(&self, place: usize, from: &Text) -> bool
        requires { IsPlace self.now place }
        ensures { result ≡ names_session from.now (desk_at self.now place) }
    {
        self.desks.get(place).names(from)
    }

    /// The first place from `least` on with a join that names the session. The other places are not
    /// walked.
    pub fn next_joiner(&self, from: &Text, least: usize) -> Option<usize>
        ensures { IsNextJoiner self.now from.now least result }
    {
        let session = Sought { from, name: None };
        self.joiners.next(session, least, &mut Near::new())
    }

    /// The first place from `least` on with a join that listens to what the session `from` publishes under
    /// `name`. No other place is visited. If `near` comes from the last call with these names, they are usually
    /// not hashed again, and the place is usually found without a search. It then knows how many such joins the place
    /// has.
    pub fn next_listener(
        &self,
        from: &Text,
        name: &Text,
        least: usize,
        near: &mut Near,
    ) -> Option<usize>
        ensures next { IsNextListener self.now from.now name.now least result }
        ensures found { IfSome result (λ place. near.new.found ≡ count_by (listens from.now name.now) (desk_at self.now place).joins) }
    {
        let publication = Sought {
            from,
            name: Some(name),
        };
        self.joiners.next(publication, least, near)
    }
}
