//! How the connections of a place are found from both ends.
ghost use Rattle.std.specs.Prelude.{◌≡◌, ◌≢◌, ◌<◌, ◌^◌, ◌==◌, [], All, Any, Bool, IfNone, IfSome, IsSome};
ghost use Rattle.std.specs.Prelude.{List, OnOk, Some, false, find, length, slice_index_or, true};
ghost use Rattle.std.specs.List.{list_any};
ghost use Rattle.std.specs.Option.{option_map};
ghost use Rattle.shared_rows.specs.Table.{IsPlace};
ghost use Rattle.shared_rows.specs.Links.{IsInOrder};
ghost use Rattle.shared_rows.specs.Rows.{Keyed, added, row_under, rows_at};
ghost use Rattle.connection_list.specs.declared.connection.Connection.{Connection};
ghost use Rattle.connection_list.specs.declared.link.Link.{Link};
ghost use Rattle.connection_list.specs.Ends.{matches, same_ends, touches};
ghost use Rattle.connection_list.specs.Rows.{is_next};
ghost use Rattle.connection_list.specs.Routes.{AreGone, AreSame, HaveRoom, IsGroup, IsPlaceKept, IsRouted, link_cmp};
ghost use Rattle.connection_list.specs.Routes.{Gains, Loses, buckets_of, link_of, links_at, no_routes, received_of, sent_of};

use crate::buckets::Buckets;
use crate::connection::{Connection, NewConnection};
use crate::ends::{matches, same_ends};
use crate::link::{Group, Link, first_near, follower, group_of};
use crate::mark::{mark_of, marks_of, one_mark};
use crate::pattern::Pattern;
use shared_rows::{Links, SharedRows};
use std::alloc::{AllocError, Global};
use std::marker::Model;

/// A place keeps these lists besides its connections.
#[derive(Drop)]
pub(crate) struct Routes {
    pub(crate) last_number: u32,
    /// From the senders.
    pub(crate) sent: Buckets,
    /// From the receivers.
    pub(crate) received: Buckets,
}

impl Routes {
    /// Makes the lists of a place where nothing was ever connected.
    fn new(alloc: Global) -> Routes
        ensures { AreSame no_routes result }
    {
        Routes {
            last_number: 0,
            sent: Buckets::new(alloc),
            received: Buckets::new(alloc),
        }
    }

    fn reserve(&mut self, alloc: Global, sender: u32, receiver: u32) -> Result<(), AllocError>
        ensures same { AreSame self.old self.new }
        ensures room { OnOk result (HaveRoom sender receiver self.new) }
    {
        self.sent.reserve(alloc, sender)?;
        self.received.reserve(alloc, receiver)
    }

    fn link(&mut self, row: &Connection, key: u32)
        requires { HaveRoom row.now.sender row.now.receiver self.old }
        ensures number { self.new.last_number ≡ row.now.number }
        ensures sent { Gains (sent_of (record { key = key; row = row.now })) self.old.sent self.new.sent }
        ensures received { Gains (received_of (record { key = key; row = row.now })) self.old.received self.new.received }
    {
        self.sent.insert_reserved(sent_link(row, key));
        self.received.insert_reserved(received_link(row, key));
        self.last_number = row.number;
    }

    fn unlink(&mut self, row: &Connection, key: u32)
        ensures number { self.new.last_number ≡ self.old.last_number }
        ensures sent { Loses (sent_of (record { key = key; row = row.now })) self.old.sent self.new.sent }
        ensures received { Loses (received_of (record { key = key; row = row.now })) self.old.received self.new.received }
    {
        self.sent.remove(sent_link(row, key));
        self.received.remove(received_link(row, key));
    }
}

/// Routes that are made with the first connection.
#[derive(Drop)]
pub(crate) struct LazyRoutes {
    made: Option<Box<Routes>>,
}

impl Model for LazyRoutes {
    ghost use Rattle.connection_list.specs.declared.routes.Routes.{Routes as Seen};
    ghost use Rattle.connection_list.specs.Routes.{routes_in};

    ghost Value = { Seen };

    ghost view = { λ lazy. routes_in lazy.made };
}

impl LazyRoutes {
    pub(crate) fn new() -> LazyRoutes
        ensures number { result.last_number ≡ 0 }
        ensures routed { IsRouted [] result }
    {
        LazyRoutes { made: None }
    }

    pub(crate) fn last_number(&self) -> u32
        ensures { result ≡ self.now.last_number }
    {
        match &self.made {
            Some(routes) => routes.last_number,
            None => 0,
        }
    }

    /// Makes room for one more connection of two objects.
    pub(crate) fn reserve(
        &mut self,
        alloc: Global,
        sender: u32,
        receiver: u32,
    ) -> Result<(), AllocError>
        ensures same { AreSame self.old self.new }
        ensures room { OnOk result (HaveRoom sender receiver self.new) }
    {
        if let Some(routes) = &mut self.made {
            return routes.reserve(alloc, sender, receiver);
        }
        let mut routes = Box::new(alloc, Routes::new(alloc))?;
        routes.reserve(alloc, sender, receiver)?;
        self.made = Some(routes);
        Ok(())
    }

    /// Adds a connection of the next number.
    pub(crate) fn add(&mut self, row: &Connection, key: u32)
        requires { HaveRoom row.now.sender row.now.receiver self.old }
        ensures number { self.new.last_number ≡ row.now.number }
        ensures routed { (rows : List (Keyed Connection)) → IsRouted rows self.old → IsRouted (added rows key row.now) self.new }
    {
        let Some(routes) = &mut self.made else {
            unreachable!()
        };
        routes.link(row, key);
    }

    /// Takes out the connection under a key.
    pub(crate) fn take_out(&mut self, rows: &mut SharedRows<Connection>, place: usize, key: usize)
        requires place { IsPlace rows.old place }
        requires kept { IsPlaceKept (rows_at rows.old place) self.old }
        requires stands { IsSome (row_under (rows_at rows.old place) key) }
        ensures gone { AreGone (λ keyed. keyed.key == key) place rows.old rows.new self.old self.new }
        ensures links { (received : Bool) (row : Connection) → row_under (rows_at rows.old place) key ≡ Some row
            → Loses (link_of received (record { key = key; row = row })) (buckets_of received self.old) (buckets_of received self.new) }
    {
        let Some(routes) = &mut self.made else {
            unreachable!()
        };
        let row = rows.remove(place, key);
        routes.unlink(&row, key as u32);
    }

    /// Takes out the connections that have an object at either end.
    pub(crate) fn drop_object(
        &mut self,
        rows: &mut SharedRows<Connection>,
        place: usize,
        object: u32,
    )
        requires place { IsPlace rows.old place }
        requires kept { IsPlaceKept (rows_at rows.old place) self.old }
        ensures { AreGone (λ keyed. touches object keyed.row) place rows.old rows.new self.old self.new }
    {
        'keys: while let Some(key) = self.first_touching(object) {
            self.take_out(rows, place, key as usize);
        }
    }

    /// Takes out the connections that match a pattern, from the first link on: then most links are where the last
    /// change was, and need no search.
    pub(crate) fn disconnect_matching(
        &mut self,
        rows: &mut SharedRows<Connection>,
        place: usize,
        pattern: &Pattern,
    )
        requires place { IsPlace rows.old place }
        requires kept { IsPlaceKept (rows_at rows.old place) self.old }
        ensures { AreGone (λ keyed. matches pattern.now keyed.row) place rows.old rows.new self.old self.new }
    {
        let group = self.group(pattern);
        let mut at = group.start;
        let mut end = group.end;
        'links: while at < end {
            let key = self.key_at(group, at);
            if matches(pattern, rows.get(place, key)) {
                self.take_out(rows, place, key);
                end -= 1;
            } else {
                at += 1;
            }
        }
    }

    /// Whether a connection joins what a new one would join.
    pub(crate) fn joins(
        &self,
        rows: &SharedRows<Connection>,
        place: usize,
        new: &NewConnection,
    ) -> bool
        requires place { IsPlace rows.now place }
        requires kept { IsPlaceKept (rows_at rows.now place) self.now }
        ensures { result ≡ list_any (λ keyed. same_ends new.now keyed.row) (rows_at rows.now place) }
    {
        let group = self.joining(new);
        'links: for at in group.start..group.end {
            let key = self.key_at(group, at);
            if same_ends(new, rows.get(place, key)) {
                return true;
            }
        }
        false
    }

    /// The links that lead to what joins the same ends as a new connection.
    fn joining(&self, new: &NewConnection) -> Group
        ensures { IsGroup (λ keyed. same_ends new.now keyed.row) self.now result }
    {
        let Some(routes) = &self.made else {
            return no_group(new.sender);
        };
        let marks = one_mark(mark_of(new.signal, new.callee));
        group_of(
            routes.received.bucket(new.receiver),
            true,
            new.receiver,
            Some(new.sender),
            Some(marks),
        )
    }

    /// The links of a pattern's sender, or, where it names a receiver, those of this one that come from the sender.
    fn group(&self, pattern: &Pattern) -> Group
        ensures { IsGroup (λ keyed. matches pattern.now keyed.row) self.now result }
    {
        let Some(routes) = &self.made else {
            return no_group(pattern.sender);
        };
        match pattern.receiver {
            None => {
                let links = routes.sent.bucket(pattern.sender);
                group_of(links, false, pattern.sender, pattern.signal, None)
            }
            Some(receiver) => group_of(
                routes.received.bucket(receiver.object),
                true,
                receiver.object,
                Some(pattern.sender),
                marks_of(pattern.signal, receiver.method),
            ),
        }
    }

    /// The key that the link at a position of a group's bucket leads to.
    fn key_at(&self, group: Group, at: usize) -> usize
        requires { at < length (links_at group.received group.object self.now) }
        ensures key { (default : Link) → result ≡ (slice_index_or (links_at group.received group.object self.now) at default).key }
        ensures sound { IsInOrder link_cmp (links_at group.received group.object self.now) }
    {
        let Some(routes) = &self.made else {
            unreachable!()
        };
        let buckets = if group.received {
            &routes.received
        } else {
            &routes.sent
        };
        buckets.bucket(group.object).as_buffer().get(at).key as usize
    }

    /// The key of the connection that an emission calls next. The position `near` is tried first. If a link
    /// is found, `near` becomes the position after it.
    #[inline(always)]
    pub(crate) fn next_sent(
        &self,
        sender: u32,
        signal: u32,
        after: u32,
        up_to: u32,
        near: &mut usize,
    ) -> Option<u32>
        ensures { (rows : List (Keyed Connection)) → IsPlaceKept rows self.now
            → result ≡ option_map (λ keyed. keyed.key) (find (λ keyed. is_next sender signal after up_to keyed.row) rows) }
    {
        match self.next_near(sender, signal, after, up_to, near) {
            Some(key) => Some(key),
            None => self.search_sent(sender, signal, after, up_to, near),
        }
    }

    /// The key of the connection that an emission calls next, if its link is at the position `near`, right after the
    /// link that was found last. Then `near` becomes the next position.
    #[inline(always)]
    fn next_near(
        &self,
        sender: u32,
        signal: u32,
        after: u32,
        up_to: u32,
        near: &mut usize,
    ) -> Option<u32>
        ensures { (rows : List (Keyed Connection)) → IsPlaceKept rows self.now
            → IfSome result (λ key. Some key ≡ option_map (λ keyed. keyed.key) (find (λ keyed. is_next sender signal after up_to keyed.row) rows)) }
    {
        let Some(routes) = &self.made else {
            return None;
        };
        let link = follower(routes.sent.bucket(sender), sender, signal, after, *near)?;
        if link.rank > up_to {
            return None;
        }
        *near = near.wrapping_add(1);
        Some(link.key)
    }

    /// Searches for the key of the connection that an emission calls next. If a link is found, `near` becomes the
    /// position after it.
    #[inline(never)]
    fn search_sent(
        &self,
        sender: u32,
        signal: u32,
        after: u32,
        up_to: u32,
        near: &mut usize,
    ) -> Option<u32>
        ensures { (rows : List (Keyed Connection)) → IsPlaceKept rows self.now
            → result ≡ option_map (λ keyed. keyed.key) (find (λ keyed. is_next sender signal after up_to keyed.row) rows) }
    {
        let Some(routes) = &self.made else {
            return None;
        };
        if after == u32::MAX {
            return None;
        }
        let start = Link {
            object: sender,
            source: signal,
            rank: after + 1,
            key: 0,
        };
        let link = first_near(routes.sent.bucket(sender), start, near)?;
        if link.object != sender || link.source != signal || link.rank > up_to {
            return None;
        }
        Some(link.key)
    }

    /// The key of some connection that has an object at either end.
    fn first_touching(&self, object: u32) -> Option<u32>
        ensures found { (rows : List (Keyed Connection)) → IsRouted rows self.now
            → IfSome result (λ key. Any (λ keyed. (keyed.key ≡ key) × (touches object keyed.row ≡ true)) rows) }
        ensures none { (rows : List (Keyed Connection)) → IsRouted rows self.now
            → IfNone result (All (λ keyed. touches object keyed.row ≡ false) rows) }
    {
        let Some(routes) = &self.made else {
            return None;
        };
        match first_of(routes.sent.bucket(object), object) {
            Some(key) => Some(key),
            None => first_of(routes.received.bucket(object), object),
        }
    }
}

/// No links, where nothing was ever connected.
fn no_group(object: u32) -> Group
    ensures { result ≡ record { received = false; object = object; start = 0; end = 0 } }
{
    Group {
        received: false,
        object,
        start: 0,
        end: 0,
    }
}

fn sent_link(row: &Connection, key: u32) -> Link
    ensures { result ≡ sent_of (record { key = key; row = row.now }) }
{
    Link {
        object: row.sender,
        source: row.signal,
        rank: row.number,
        key,
    }
}

fn received_link(row: &Connection, key: u32) -> Link
    ensures { result ≡ received_of (record { key = key; row = row.now }) }
{
    Link {
        object: row.receiver,
        source: row.sender,
        rank: mark_of(row.signal, row.callee),
        key,
    }
}

/// The key that the first link of an object leads to.
fn first_of(links: &Links<Link>, object: u32) -> Option<u32>
    ensures found { IfSome result (λ key. Any (λ link. (link.object ≡ object) × (link.key ≡ key)) links.now.links) }
    ensures none { IfNone result (All (λ link. link.object ≢ object) links.now.links) }
{
    let start = Link {
        object,
        source: 0,
        rank: 0,
        key: 0,
    };
    let link = links.first_from(start)?;
    if link.object != object {
        return None;
    }
    Some(link.key)
}
