//! The rows of a desk.
ghost use Rattle.std.specs.Prelude.{◌≡◌, ◌<◌, [], OnOk, OnErr, length, slice_index_or};
ghost use Rattle.publish_board.specs.Desk.{with_join, no_desk, published, unpublished};
ghost use Rattle.publish_board.specs.Inside.{desk_in, without_join, without_publications};

use crate::join::Join;
use crate::publication::Publication;
use plain_types::Text;
use std::alloc::{AllocError, Global};

/// The rows hold a session's publications and its joins, each in the order of making.
#[derive(Drop)]
pub(crate) struct Rows {
    pub(crate) publications: Vec<Publication>,
    pub(crate) joins: Vec<Join>,
}

impl Rows {
    pub(crate) fn new(alloc: Global) -> Rows
        ensures { desk_in result ≡ no_desk }
    {
        Rows {
            publications: Vec::new(alloc),
            joins: Vec::new(alloc),
        }
    }

    pub(crate) fn publish(&mut self, row: Publication) -> Result<(), AllocError>
        ensures ok { OnOk result (desk_in self.new ≡ published (desk_in self.old) row) }
        ensures err { OnErr result (desk_in self.new ≡ desk_in self.old) }
    {
        self.publications.push(row)?;
        Ok(())
    }

    /// Takes out the publications of a name.
    pub(crate) fn unpublish(&mut self, name: &Text)
        ensures { desk_in self.new ≡ unpublished (desk_in self.old) name.now }
    {
        self.publications.retain(|row| !row.has_name(name));
    }

    /// Takes out what an object publishes.
    pub(crate) fn drop_publications(&mut self, object: u32)
        ensures { desk_in self.new ≡ without_publications object (desk_in self.old) }
    {
        self.publications.retain(|row| row.object != object);
    }

    pub(crate) fn join(&mut self, join: Join) -> Result<(), AllocError>
        ensures ok { OnOk result (desk_in self.new ≡ with_join (desk_in self.old) join) }
        ensures err { OnErr result (desk_in self.new ≡ desk_in self.old) }
    {
        self.joins.push(join)?;
        Ok(())
    }

    /// Takes out the join at a position.
    pub(crate) fn remove_join(&mut self, position: usize) -> Join
        requires { position < length (desk_in self.old).joins }
        ensures join { result ≡ slice_index_or (desk_in self.old).joins position result }
        ensures rest { desk_in self.new ≡ without_join position (desk_in self.old) }
    {
        self.joins.remove(position)
    }
}
