//! The tables, and the places in them.
ghost use Rattle.std.specs.Prelude.{◌≡◌, [], OnOk, length};
ghost use Rattle.session_tables.specs.Session.{fresh, failed_session};
ghost use Rattle.session_tables.specs.Tables.{AreSame, HasRoom, IsPlaced, failed_at, opened, with_session, with_state};
ghost use Rattle.session_model.specs.State.{empty};

use crate::bound_stores::BoundStores;
use connection_list::Connections;
use event_queue::Queues;
use object_tree::Forests;
use plain_types::Items;
use property_store::Field;
use publish_board::Board;
use shared_rows::Places;
use std::alloc::{AllocError, Global};
use std::hash::RandomState;

/// The tables keep all that a server has of each session. A question about one table alone is asked of the
/// table itself.
pub struct Tables {
    pub forests: Forests,
    pub stores: BoundStores,
    pub connections: Connections,
    pub queues: Queues,
    pub desks: Board,
    /// Memory was wanted for the session and not found. Its objects, connections and events are gone,
    /// and it refuses every command.
    pub(crate) failed: Places<bool>,
}

impl Drop for Tables {
    fn drop(self) {
        let Tables {
            forests: _,
            stores: _,
            connections: _,
            queues: _,
            desks: _,
            failed: _,
        } = self;
    }
}

impl Tables {
    /// Tables with no place, which take no memory yet. The layout at a class's number lists the properties of its
    /// objects. The names of sessions are hashed with the keys of `hashing`.
    pub fn new(alloc: Global, layouts: Items<Items<Field>>, hashing: RandomState) -> Tables
        ensures forests { result.forests.places ≡ [] }
        ensures layouts { result.stores.shelves.layouts ≡ layouts }
        ensures stores { result.stores.shelves.table.places ≡ [] }
        ensures graphs { result.stores.graphs.places ≡ [] }
        ensures connections { result.connections.places ≡ [] }
        ensures queues { result.queues.places ≡ [] }
        ensures desks { result.desks.places ≡ [] }
        ensures failed { result.failed.places ≡ [] }
    {
        Tables {
            forests: Forests::new(alloc),
            stores: BoundStores::new(alloc, layouts),
            connections: Connections::new(alloc),
            queues: Queues::new(alloc),
            desks: Board::new(alloc, hashing),
            failed: Places::new(alloc),
        }
    }

    /// Makes room for one more place at least.
    pub fn ready(&mut self) -> Result<(), AllocError>
        ensures same { AreSame self.old self.new }
        ensures room { OnOk result (HasRoom self.new) }
    {
        self.forests.ready()?;
        self.stores.ready()?;
        self.connections.ready()?;
        self.queues.ready()?;
        self.desks.ready()?;
        self.failed.ready()
    }

    /// Opens the next place for a session that has had no command, and returns it.
    pub fn open(&mut self) -> usize
        requires { HasRoom self.old }
        ensures place { result ≡ length self.old.failed.places }
        ensures opened { self.new ≡ opened self.old }
    {
        self.forests.open();
        self.stores.open();
        self.connections.open();
        self.queues.open();
        self.desks.open();
        self.failed.open(false)
    }

    /// Removes all that a session holds. The numbers of its objects and connections start again from the first.
    pub fn clear(&mut self, place: usize)
        requires { IsPlaced self.old place }
        ensures { self.new ≡ with_state self.old place empty }
    {
        self.forests.clear(place);
        self.stores.clear(place);
        self.connections.clear(place);
        self.queues.clear(place);
        self.desks.clear(place);
    }

    /// Clears a session and marks it as failed.
    pub fn give_up(&mut self, place: usize)
        requires { IsPlaced self.old place }
        ensures { self.new ≡ with_session self.old place failed_session }
    {
        self.clear(place);
        *self.failed.get_mut(place) = true;
    }

    /// Resets a session, whether it has failed or not.
    pub fn renew(&mut self, place: usize)
        requires { IsPlaced self.old place }
        ensures { self.new ≡ with_session self.old place fresh }
    {
        self.clear(place);
        *self.failed.get_mut(place) = false;
    }

    /// Whether a session has failed.
    pub fn failed(&self, place: usize) -> bool
        requires { IsPlaced self.now place }
        ensures { result ≡ failed_at self.now place }
    {
        *self.failed.get(place)
    }
}
