//! The connections between objects.
ghost use Rattle.std.specs.Prelude.{◌≡◌, ◌+◌, IfOk, OnOk, OnErr, count_by, if◌then◌else◌};
ghost use Rattle.std.specs.List.{list_any};
ghost use Rattle.plain_types.specs.Answers.{RefusedBy};
ghost use Rattle.connection_list.specs.Ends.{matches};
ghost use Rattle.connection_list.specs.Rows.{connect_refusal, has_number};
ghost use Rattle.session_model.specs.State.{functor_state, with_connection, with_functor_state, without_connections};
ghost use Rattle.session_tables.specs.Tables.{IsPlaced, state_at, with_state};

use crate::tables::Tables;
use connection_list::{Connection, NewConnection, Pattern};
use plain_types::Fault;

impl Tables {
    /// Connects, and returns the connection's number. The refusals are those of
    /// [`Connections::connect`](connection_list::Connections::connect).
    pub fn connect(&mut self, place: usize, new: NewConnection, unique: bool) -> Result<u32, Fault>
        requires { IsPlaced self.old place }
        ensures refusal { RefusedBy (connect_refusal (state_at self.old place).connections new unique) result }
        ensures number { IfOk result (λ number. number ≡ (state_at self.old place).connections.last_number + 1) }
        ensures ok { OnOk result (self.new ≡ with_state self.old place
            (with_connection (state_at self.old place) new)) }
        ensures err { OnErr result (self.new ≡ self.old) }
    {
        self.connections.connect(place, new, unique)
    }

    /// Breaks the connection of this number, and returns whether it existed.
    pub fn disconnect_one(&mut self, place: usize, number: u32) -> bool
        requires { IsPlaced self.old place }
        ensures stood { result ≡ list_any (has_number number) (state_at self.old place).connections.rows }
        ensures broken { self.new ≡ with_state self.old place
            (without_connections (state_at self.old place) (has_number number)) }
    {
        self.connections.disconnect_one(place, number)
    }

    /// Breaks the connections that match a pattern, and returns how many.
    pub fn disconnect(&mut self, place: usize, pattern: &Pattern) -> u32
        requires { IsPlaced self.old place }
        ensures count { result ≡ count_by (matches pattern.now) (state_at self.old place).connections.rows }
        ensures broken { self.new ≡ with_state self.old place
            (without_connections (state_at self.old place) (matches pattern.now)) }
    {
        self.connections.disconnect_matching(place, pattern)
    }

    /// Breaks a single-shot connection, as its callee is about to be called; another one stays.
    pub fn break_single_shot(&mut self, place: usize, connection: &Connection)
        requires { IsPlaced self.old place }
        ensures { self.new ≡ with_state self.old place (if connection.now.single
            then without_connections (state_at self.old place) (has_number connection.now.number)
            else state_at self.old place) }
    {
        if connection.single {
            self.connections.disconnect_one(place, connection.number);
        }
    }

    /// The state of the functor of the connection with this number, or 0 if there is no such connection.
    pub fn functor_state(&self, place: usize, number: u32) -> u64
        requires { IsPlaced self.now place }
        ensures { result ≡ functor_state (state_at self.now place) number }
    {
        self.connections.state(place, number).unwrap_or(0)
    }

    /// Gives the functor of the connection with this number another state, if the connection exists.
    pub fn step_functor(&mut self, place: usize, number: u32, next: u64)
        requires { IsPlaced self.old place }
        ensures { self.new ≡ with_state self.old place (with_functor_state (state_at self.old place) number next) }
    {
        self.connections.set_state(place, number, next);
    }
}
