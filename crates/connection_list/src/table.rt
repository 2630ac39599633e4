//! The connections of all places.
ghost use Rattle.std.specs.Prelude.{◌≡◌, ◌+◌, ◌≤◌, [], false, IfOk, OnOk, OnErr, count_by, find, is_some, length};
ghost use Rattle.std.specs.List.{list_any};
ghost use Rattle.shared_rows.specs.Table.{IsPlace, MakesRoom, Opens};
ghost use Rattle.plain_types.specs.Answers.{RefusedBy};
ghost use Rattle.connection_list.specs.Ends.{matches, same_ends, touches};
ghost use Rattle.connection_list.specs.Rows.{IsSound, no_rows, connect_refusal, connected, numbered, without, has_number, is_next, state_of, with_state};
ghost use Rattle.connection_list.specs.Table.{rows_at, with_rows};

use crate::connection::{Connection, NewConnection};
use crate::ends::calls_functor;
use crate::limit::CONNECTIONS;
use crate::pattern::Pattern;
use crate::routes::LazyRoutes;
use plain_types::{Code, Fault};
use shared_rows::{Places, SharedRows};
use std::alloc::{AllocError, Global};
use std::marker::Model;

/// The connections of each place. A place is opened by `ready` and then `open`, and is never closed.
#[derive(Drop)]
pub struct Connections {
    pub(crate) rows: SharedRows<Connection>,
    pub(crate) routes: Places<LazyRoutes>,
    pub(crate) alloc: Global,
}

impl Model for Connections {
    ghost use Rattle.shared_rows.specs.Table.{Table};
    ghost use Rattle.connection_list.specs.Rows.{Rows};

    ghost Value = { Table Rows };

    ghost use Rattle.shared_rows.specs.Paired.{paired_tables};
    ghost use Rattle.connection_list.specs.Routes.{AreKept, place_of};

    ghost view = { λ c. paired_tables place_of c.rows c.routes };

    ghost invariant = { λ c. AreKept c.rows.places c.routes.places };
}

impl Connections {
    /// A table with no place, which takes no memory yet.
    pub fn new(alloc: Global) -> Connections
        ensures { result.places ≡ [] }
    {
        Connections {
            rows: SharedRows::new(alloc),
            routes: Places::new(alloc),
            alloc,
        }
    }

    /// Makes room for one more place at least.
    pub fn ready(&mut self) -> Result<(), AllocError>
        ensures { MakesRoom self.old self.new result }
    {
        self.rows.ready()?;
        self.routes.ready()
    }

    /// Opens the next place, where nothing is connected, and returns its number.
    pub fn open(&mut self) -> usize
        requires { 1 ≤ self.old.room }
        ensures { Opens self.old no_rows self.new result }
    {
        self.rows.open();
        self.routes.open(LazyRoutes::new())
    }

    /// Takes out all connections of a place and forgets its numbers, so that they are counted from 1
    /// again.
    pub fn clear(&mut self, place: usize)
        requires { IsPlace self.old place }
        ensures { self.new ≡ with_rows self.old place no_rows }
    {
        self.rows.clear(place);
        *self.routes.get_mut(place) = LazyRoutes::new();
    }

    /// Adds a connection after all others, and returns its number. If `unique` is set, the refusal is
    /// `Code::ConnectedAlready` when a connection has the same sender, signal, receiver and callee (functors
    /// are compared like methods, and never equal one). Otherwise it is `Code::Limit` beyond `CONNECTIONS`,
    /// and then `Code::NumbersUsedUp` after the number 4,294,967,295.
    pub fn connect(&mut self, place: usize, new: NewConnection, unique: bool) -> Result<u32, Fault>
        requires { IsPlace self.old place }
        ensures refusal { RefusedBy (connect_refusal (rows_at self.old place) new unique) result }
        ensures number { IfOk result (λ number. number ≡ (rows_at self.old place).last_number + 1) }
        ensures ok { OnOk result (self.new ≡ with_rows self.old place (connected (rows_at self.old place) new)) }
        ensures err { OnErr result (self.new ≡ self.old) }
    {
        if let Some(code) = self.refusal(place, &new, unique) {
            return Err(Fault::Refused(code));
        }
        let routes = self.routes.get_mut(place);
        routes.reserve(self.alloc, new.sender, new.receiver)?;
        let row = numbered(routes.last_number() + 1, &new);
        let key = self.rows.push(place, row)?;
        routes.add(&row, key as u32);
        Ok(row.number)
    }

    fn refusal(&self, place: usize, new: &NewConnection, unique: bool) -> Option<Code>
        requires { IsPlace self.now place }
        ensures refusal { result ≡ connect_refusal (rows_at self.now place) new.now unique }
    {
        if unique && self.joins(place, new) {
            return Some(Code::ConnectedAlready);
        }
        if self.count(place) >= CONNECTIONS {
            return Some(Code::Limit);
        }
        if self.last_number(place) == u32::MAX {
            return Some(Code::NumbersUsedUp);
        }
        None
    }

    fn joins(&self, place: usize, new: &NewConnection) -> bool
        requires { IsPlace self.now place }
        ensures { result ≡ list_any (same_ends new.now) (rows_at self.now place).rows }
    {
        self.routes.get(place).joins(&self.rows, place, new)
    }

    /// Removes the connection with a number, and returns whether there was one.
    pub fn disconnect_one(&mut self, place: usize, number: u32) -> bool
        requires { IsPlace self.old place }
        ensures stood { result ≡ list_any (has_number number) (rows_at self.old place).rows }
        ensures rows { self.new ≡ with_rows self.old place (without (has_number number) (rows_at self.old place)) }
    {
        match self.rows.find(place, number as u64) {
            Some(key) => {
                let routes = self.routes.get_mut(place);
                routes.take_out(&mut self.rows, place, key);
                true
            }
            None => false,
        }
    }

    /// Takes out the connections that match a pattern, and returns how many.
    pub fn disconnect_matching(&mut self, place: usize, pattern: &Pattern) -> u32
        requires { IsPlace self.old place }
        ensures count { result ≡ count_by (matches pattern.now) (rows_at self.old place).rows }
        ensures rows { self.new ≡ with_rows self.old place (without (matches pattern.now) (rows_at self.old place)) }
    {
        let before = self.rows.len(place);
        let routes = self.routes.get_mut(place);
        routes.disconnect_matching(&mut self.rows, place, pattern);
        (before - self.rows.len(place)) as u32
    }

    /// Takes out the connections that have an object at either end.
    pub fn drop_object(&mut self, place: usize, object: u32)
        requires { IsPlace self.old place }
        ensures { self.new ≡ with_rows self.old place (without (touches object) (rows_at self.old place)) }
    {
        let routes = self.routes.get_mut(place);
        routes.drop_object(&mut self.rows, place, object);
    }

    /// The connection that an emission of `sender`'s `signal` calls next: the one with the least number
    /// above `after` and at most `up_to`. An emission sets `up_to` to the last number when it begins, so that
    /// connections made meanwhile are not called. `near` is a guess, 0 at first, that the emission passes
    /// from one call to the next: a right guess saves the search.
    pub fn next_after(
        &self,
        place: usize,
        sender: u32,
        signal: u32,
        after: u32,
        up_to: u32,
        near: &mut usize,
    ) -> Option<Connection>
        requires { IsPlace self.now place }
        ensures next { result ≡ find (is_next sender signal after up_to) (rows_at self.now place).rows }
        ensures sound { IsSound (rows_at self.now place) }
    {
        let key = self
            .routes
            .get(place)
            .next_sent(sender, signal, after, up_to, near)?;
        Some(*self.rows.get(place, key as usize))
    }

    /// Whether an emission of `sender`'s `signal` that began now would call any connection.
    pub fn is_sent(&self, place: usize, sender: u32, signal: u32) -> bool
        requires { IsPlace self.now place }
        ensures sent { result ≡ is_some (find (is_next sender signal 0 (rows_at self.now place).last_number) (rows_at self.now place).rows) }
        ensures sound { IsSound (rows_at self.now place) }
    {
        let routes = self.routes.get(place);
        let key = routes.next_sent(sender, signal, 0, routes.last_number(), &mut 0);
        key.is_some()
    }

    /// The connection with a number.
    pub fn row(&self, place: usize, number: u32) -> Option<Connection>
        requires { IsPlace self.now place }
        ensures row { result ≡ find (has_number number) (rows_at self.now place).rows }
        ensures sound { IsSound (rows_at self.now place) }
    {
        let key = self.rows.find(place, number as u64)?;
        Some(*self.rows.get(place, key))
    }

    /// Sets the state of the functor that the connection with a number calls. Returns false and changes
    /// nothing if there is no such connection or it calls a method. Allocates nothing.
    pub fn set_state(&mut self, place: usize, number: u32, state: u64) -> bool
        requires { IsPlace self.old place }
        ensures stood { result ≡ is_some (state_of number (rows_at self.old place)) }
        ensures state { self.new ≡ with_rows self.old place (with_state number state (rows_at self.old place)) }
        ensures absent { result ≡ false → self.new ≡ self.old }
    {
        let Some(key) = self.rows.find(place, number as u64) else {
            return false;
        };
        let row = *self.rows.get(place, key);
        if !calls_functor(row.callee) {
            return false;
        }
        self.rows.replace(place, key, Connection { state, ..row });
        true
    }

    /// The state of the functor that the connection with a number calls; `None` if there is no such
    /// connection or it calls a method.
    pub fn state(&self, place: usize, number: u32) -> Option<u64>
        requires { IsPlace self.now place }
        ensures { result ≡ state_of number (rows_at self.now place) }
    {
        let row = self.row(place, number)?;
        if calls_functor(row.callee) {
            Some(row.state)
        } else {
            None
        }
    }

    /// The number that was given last, or 0.
    pub fn last_number(&self, place: usize) -> u32
        requires { IsPlace self.now place }
        ensures number { result ≡ (rows_at self.now place).last_number }
        ensures sound { IsSound (rows_at self.now place) }
    {
        self.routes.get(place).last_number()
    }

    /// How many connections a place has, at most `CONNECTIONS`.
    pub fn count(&self, place: usize) -> usize
        requires { IsPlace self.now place }
        ensures count { result ≡ length (rows_at self.now place).rows }
        ensures sound { IsSound (rows_at self.now place) }
    {
        self.rows.len(place)
    }
}

fn numbered(number: u32, new: &NewConnection) -> Connection
    ensures { result ≡ numbered number new.now }
{
    Connection {
        number,
        sender: new.sender,
        signal: new.signal,
        receiver: new.receiver,
        callee: new.callee,
        mode: new.mode,
        single: new.single,
        state: 0,
    }
}
