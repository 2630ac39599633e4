//! Sorted lists of small keys, which are another way to find rows.
ghost use Rattle.std.specs.Prelude.{◌≡◌, ◌≤◌, ◌↔◌, [], IsTrue, OnOk, OnErr, length};
ghost use Rattle.std.specs.List.{Contains, slice_get};
ghost use Rattle.shared_rows.specs.Links.{HasRoom, IsInOrder, IsSeat, first_from, with_link, without_link};

use crate::GapBuffer;
use std::alloc::{AllocError, Global};
use std::cmp::Ordering;
use std::marker::Model;

/// A list of distinct keys in rising order, kept in a gap buffer.
#[derive(Drop)]
pub struct Links<K: Ord + Copy> {
    items: GapBuffer<K>,
    /// At least this many keys fit without allocating.
    capacity: usize,
}

impl<K: Ord + Copy> Model for Links<K> {
    ghost use Rattle.shared_rows.specs.Links.{HasMemory, IsInOrder, Linked, linked_code};

    ghost Value = { Linked K };

    ghost coded = { linked_code K.code };

    ghost view = { λ list. record { links = list.items.items; capacity = list.capacity } };

    ghost invariant = { λ list. IsInOrder K.cmp list.items.items × HasMemory list.capacity list.items };
}

impl<K: Ord + Copy> Links<K> {
    /// Creates an empty list, without allocating.
    pub fn new(alloc: Global) -> Links<K>
        ensures { result.links ≡ [] }
    {
        Links {
            items: GapBuffer::new(alloc),
            capacity: 0,
        }
    }

    pub fn len(&self) -> usize
        ensures { result ≡ length self.now.links }
    {
        self.items.len()
    }

    pub fn is_empty(&self) -> bool
        ensures { IsTrue result ↔ (self.now.links ≡ []) }
    {
        self.items.is_empty()
    }

    /// Makes room for one more link.
    pub fn reserve(&mut self) -> Result<(), AllocError>
        ensures links { self.new.links ≡ self.old.links }
        ensures room { OnOk result (HasRoom self.new) }
        ensures kept { self.old.capacity ≤ self.new.capacity }
        ensures err { OnErr result (self.new ≡ self.old) }
    {
        self.items.reserve()?;
        self.capacity = self.capacity.max(self.items.len() + 1);
        Ok(())
    }

    /// Adds a link if it is not there yet.
    pub fn insert(&mut self, link: K) -> Result<(), AllocError>
        ensures ok { OnOk result (self.new.links ≡ with_link K.cmp self.old.links link) }
        ensures err { OnErr result (self.new ≡ self.old) }
    {
        self.reserve()?;
        self.insert_reserved(link);
        Ok(())
    }

    /// Adds a link if it is not there yet, without allocating. There must be room for it.
    pub fn insert_reserved(&mut self, link: K)
        requires { HasRoom self.old }
        ensures { self.new ≡ record self.old { links = with_link K.cmp self.old.links link } }
    {
        match seat(&self.items, link) {
            Ok(at) => self.items.set(at, link),
            Err(at) => self.items.insert_reserved(at, link),
        }
    }

    /// Removes a link if it is there.
    pub fn remove(&mut self, link: K)
        ensures { self.new ≡ record self.old { links = without_link K.cmp self.old.links link } }
    {
        if let Ok(at) = seat(&self.items, link) {
            self.items.remove(at);
        }
    }

    /// Replaces a link that is there by another one, without allocating.
    pub fn replace(&mut self, old: K, new: K)
        requires { Contains self.old.links old }
        ensures { self.new ≡ record self.old { links = with_link K.cmp (without_link K.cmp self.old.links old) new } }
    {
        // The loan is for the proof, which then knows how many links have room.
        let _items = &self.items;
        self.remove(old);
        self.insert_reserved(new);
    }

    /// The links in their order.
    pub fn as_buffer(&self) -> &GapBuffer<K>
        ensures links { result.now.items ≡ self.now.links }
        ensures sound { IsInOrder K.cmp self.now.links }
    {
        &self.items
    }

    /// The least link that is not below this one.
    #[inline(always)]
    pub fn first_from(&self, link: K) -> Option<K>
        ensures first { result ≡ first_from K.cmp self.now.links link }
        ensures sound { IsInOrder K.cmp self.now.links }
    {
        match self.items.last() {
            Some(last) if last.cmp(&link).is_lt() => None,
            _ => first_from_front(&self.items, link),
        }
    }

    /// Removes all links and keeps the memory.
    pub fn clear(&mut self)
        ensures { self.new ≡ record self.old { links = [] } }
    {
        self.items.clear();
    }
}

/// The least link that is not below this one. No search is needed for a link below all others, as most that
/// are looked for are.
fn first_from_front<K: Ord + Copy>(links: &GapBuffer<K>, link: K) -> Option<K>
    requires { IsInOrder K.cmp links.now.items }
    ensures { result ≡ first_from K.cmp links.now.items link }
{
    match links.first() {
        Some(first) if first.cmp(&link).is_ge() => Some(first),
        _ => {
            let at = links.partition_point(|other| other.cmp(&link).is_lt());
            link_at(links, at)
        }
    }
}

/// The link at a position, if there is one.
fn link_at<K: Copy>(links: &GapBuffer<K>, at: usize) -> Option<K>
    ensures { result ≡ slice_get links.now.items at }
{
    if at < links.len() {
        Some(links.get(at))
    } else {
        None
    }
}

/// The position of a link, or the one where it would be inserted. Most new links go after all others, before
/// them or right after the last one inserted, and need no search.
fn seat<K: Ord + Copy>(links: &GapBuffer<K>, link: K) -> Result<usize, usize>
    requires { IsInOrder K.cmp links.now.items }
    ensures { IsSeat K.cmp links.now.items link result }
{
    match links.last() {
        Some(last) if last.cmp(&link).is_lt() => Err(links.len()),
        _ => seat_from_front(links, link),
    }
}

/// Finds the position of a link, and first checks if it comes before all others.
fn seat_from_front<K: Ord + Copy>(links: &GapBuffer<K>, link: K) -> Result<usize, usize>
    requires { IsInOrder K.cmp links.now.items }
    ensures { IsSeat K.cmp links.now.items link result }
{
    match links.first() {
        Some(first) if link.cmp(&first).is_lt() => Err(0),
        _ => seat_near(links, link),
    }
}

/// Finds the position of a link, and first looks where the last change was, as the next one is often there.
fn seat_near<K: Ord + Copy>(links: &GapBuffer<K>, link: K) -> Result<usize, usize>
    requires { IsInOrder K.cmp links.now.items }
    ensures { IsSeat K.cmp links.now.items link result }
{
    let at = links.last_change();
    if at == links.len() {
        return seat_by_halves(links, link);
    }
    match links.get(at).cmp(&link) {
        Ordering::Equal => Ok(at),
        Ordering::Greater if at > 0 && links.get(at - 1).cmp(&link).is_lt() => Err(at),
        _ => seat_by_halves(links, link),
    }
}

/// Finds the position of a link by binary search.
fn seat_by_halves<K: Ord + Copy>(links: &GapBuffer<K>, link: K) -> Result<usize, usize>
    requires { IsInOrder K.cmp links.now.items }
    ensures { IsSeat K.cmp links.now.items link result }
{
    let at = links.partition_point(|other| other.cmp(&link).is_lt());
    if at == links.len() {
        return Err(at);
    }
    if links.get(at).cmp(&link).is_eq() {
        Ok(at)
    } else {
        Err(at)
    }
}
