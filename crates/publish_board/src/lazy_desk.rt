//! The desk of one place.
ghost use Rattle.std.specs.Prelude.{◌≡◌, ◌<◌, IsSome, OnOk, OnErr, length, slice_index_or};
ghost use Rattle.std.specs.List.{list_any};
ghost use Rattle.std.specs.Result.{result_err};
ghost use Rattle.plain_types.specs.Answers.{RefusedBy};
ghost use Rattle.publish_board.specs.Rows.{has_name};
ghost use Rattle.publish_board.specs.Desk.{IsSound, counts_of, join_refusal, with_join, names_session, no_desk, publish_refusal, published, unpublished};
ghost use Rattle.publish_board.specs.Inside.{desk_of, without_join, without_publications};

use crate::join::Join;
use crate::publication::{Publication, is_taken};
use crate::rows::Rows;
use plain_types::{Code, Fault, Text};
use signature_core::{Kind, fits};
use std::alloc::{AllocError, Global};
use std::marker::Model;

/// How many publications a place holds at most.
pub const PUBLICATIONS: usize = 1024;

/// How many joins a place holds at most.
pub const JOINS: usize = 1024;

/// How many rows a desk has. Clients can ask for these counts.
#[derive(Clone, Copy)]
pub struct Counts {
    pub publications: usize,
    pub joins: usize,
}

/// A desk that takes no memory before its first row.
#[derive(Drop)]
pub(crate) struct LazyDesk {
    made: Option<Box<Rows>>,
}

impl Model for LazyDesk {
    ghost use Rattle.publish_board.specs.Desk.{Desk, IsSound};

    ghost Value = { Desk };

    ghost use Rattle.publish_board.specs.Inside.{desk_of};

    ghost view = { λ desk. desk_of desk.made };

    ghost invariant = { λ desk. IsSound (desk_of desk.made) };
}

impl LazyDesk {
    pub(crate) fn new() -> LazyDesk
        ensures { result ≡ no_desk }
    {
        LazyDesk { made: None }
    }

    pub(crate) fn publications(&self) -> &[Publication]
        ensures rows { result.now ≡ self.now.publications }
        ensures sound { IsSound self.now }
    {
        match &self.made {
            Some(rows) => rows.publications.as_slice(),
            None => &[],
        }
    }

    pub(crate) fn joins(&self) -> &[Join]
        ensures rows { result.now ≡ self.now.joins }
        ensures sound { IsSound self.now }
    {
        match &self.made {
            Some(rows) => rows.joins.as_slice(),
            None => &[],
        }
    }

    pub(crate) fn counts(&self) -> Counts
        ensures counts { result ≡ counts_of self.now }
        ensures sound { IsSound self.now }
    {
        Counts {
            publications: self.publications().len(),
            joins: self.joins().len(),
        }
    }

    fn may_publish(&self, name: &Text) -> Result<(), Code>
        ensures { result_err result ≡ publish_refusal self.now name.now }
    {
        if is_taken(self.publications(), name) {
            return Err(Code::NameTaken);
        }
        if self.publications().len() >= PUBLICATIONS {
            return Err(Code::Limit);
        }
        Ok(())
    }

    /// Publishes a signal, after all other publications.
    pub(crate) fn publish(&mut self, alloc: Global, row: Publication) -> Result<(), Fault>
        ensures refusal { RefusedBy (publish_refusal self.old row.name) result }
        ensures ok { OnOk result (self.new ≡ published self.old row) }
        ensures err { OnErr result (self.new ≡ self.old) }
    {
        self.may_publish(&row.name)?;
        make(&mut self.made, alloc)?;
        let Some(rows) = &mut self.made else {
            unreachable!()
        };
        rows.publish(row)?;
        Ok(())
    }

    /// Removes the publication with a name, and returns whether there was one.
    pub(crate) fn unpublish(&mut self, name: &Text) -> bool
        ensures stood { result ≡ list_any (has_name name.now) self.old.publications }
        ensures rows { self.new ≡ unpublished self.old name.now }
    {
        let Some(rows) = &mut self.made else {
            return false;
        };
        let stood = is_taken(rows.publications.as_slice(), name);
        rows.unpublish(name);
        stood
    }

    /// Takes out what an object publishes.
    pub(crate) fn drop_publications(&mut self, object: u32)
        ensures { self.new ≡ without_publications object self.old }
    {
        let Some(rows) = &mut self.made else {
            return;
        };
        rows.drop_publications(object);
    }

    /// Whether a session of the name `own` may make a join that calls a method with parameters of these
    /// kinds.
    pub(crate) fn may_join(&self, own: &Text, join: &Join, wanted: &[Kind]) -> Result<(), Code>
        ensures { result_err result ≡ join_refusal own.now self.now join.now wanted.now }
    {
        if !fits(join.kinds.as_slice(), wanted) {
            return Err(Code::DoesNotFit);
        }
        if join.from == *own {
            return Err(Code::OwnSession);
        }
        if self.joins().len() >= JOINS {
            return Err(Code::Limit);
        }
        Ok(())
    }

    /// Adds a join after all others.
    pub(crate) fn add_join(&mut self, alloc: Global, join: Join) -> Result<(), AllocError>
        requires { length self.old.joins < 1024 }
        ensures ok { OnOk result (self.new ≡ with_join self.old join) }
        ensures err { OnErr result (self.new ≡ self.old) }
    {
        make(&mut self.made, alloc)?;
        let Some(rows) = &mut self.made else {
            unreachable!()
        };
        rows.join(join)
    }

    /// Takes out the join at a position.
    pub(crate) fn remove_join(&mut self, position: usize) -> Join
        requires { position < length self.old.joins }
        ensures join { result ≡ slice_index_or self.old.joins position result }
        ensures rest { self.new ≡ without_join position self.old }
    {
        let Some(rows) = &mut self.made else {
            unreachable!()
        };
        rows.remove_join(position)
    }

    /// Whether a join names the session.
    pub(crate) fn names(&self, from: &Text) -> bool
        ensures { result ≡ names_session from.now self.now }
    {
        self.joins().iter().any(|join| join.from == *from)
    }
}

/// Allocates the rows, unless that has been done.
fn make(made: &mut Option<Box<Rows>>, alloc: Global) -> Result<(), AllocError>
    ensures same { desk_of made.new ≡ desk_of made.old }
    ensures made { OnOk result (IsSome made.new) }
{
    if made.is_none() {
        *made = Some(Box::new(alloc, Rows::new(alloc))?);
    }
    Ok(())
}
