//! A server notes commands, one after another, for the slice of a session.
ghost use Rattle.std.specs.Prelude.{◌≡◌, ◌<◌, ◌≤◌, ◌++◌, ◌∷◌, ◌||◌, ℕ, [], All, IfOk, OnOk, OnErr, length, false, slice_index_or};
ghost use Rattle.std.specs.List.{list_any};
ghost use Rattle.isolation.specs.Slice.{back};
ghost use Rattle.server_world.specs.Noting.{IsWithin, marked_from};
ghost use Rattle.server_world.specs.NotedInside.{by_place, joiners_at};

use plain_types::Items;
use std::alloc::{AllocError, Global};
use std::marker::Model;

/// The sessions of commands, in order, and for each of them the sessions that had a join naming it at the time.
/// Sessions are given by their places. A command takes eight bytes. A list of joiners is stored only where it
/// differs from that of the last command of the same session.
#[derive(Drop)]
pub struct Notes {
    rows: Vec<Row>,
    /// Lists of joiners, numbered from 1 on. Number 0 is the empty list.
    lists: Vec<Items<usize>>,
    /// By the place of a session, the number of the list of its joiners at its last command.
    latest: Vec<u32>,
    alloc: Global,
}

#[derive(Clone, Copy)]
struct Row {
    session: u32,
    list: u32,
}

impl Model for Notes {
    ghost use Rattle.std.specs.Prelude.{List, ℕ};
    ghost use Rattle.std.specs.Coded.{codes};
    ghost use Rattle.isolation.specs.Slice.{Note};
    ghost use Rattle.server_world.specs.NotedInside.{AreNumbered, noted};

    ghost Value = { List (Note ℕ) };

    ghost coded = { Prim.hlevel codes };

    ghost view = { λ n. noted n.rows.items n.lists.items };

    ghost invariant = { λ n. AreNumbered n.rows.items n.lists.items n.latest.items };
}

impl Notes {
    /// No notes, which take no memory.
    pub fn new(alloc: Global) -> Notes
        ensures { result ≡ [] }
    {
        Notes {
            rows: Vec::new(alloc),
            lists: Vec::new(alloc),
            latest: Vec::new(alloc),
            alloc,
        }
    }

    /// Notes a command of the session at a place, and the places of the sessions with a join that names it. Fails
    /// also if the place or the number of the list needs more than 32 bits.
    pub fn add(&mut self, session: usize, joiners: Vec<usize>) -> Result<(), AllocError>
        ensures ok { OnOk result (self.new ≡ self.old ++ record { session = session; joiners = joiners.items } ∷ []) }
        ensures err { OnErr result (self.new ≡ self.old) }
    {
        let Ok(short) = u32::try_from(session) else {
            return Err(AllocError);
        };
        self.rows.reserve(1)?;
        let list = number_of(&mut self.lists, &mut self.latest, short, joiners)?;
        self.rows.push_reserved(Row {
            session: short,
            list,
        });
        Ok(())
    }

    /// Which commands the slice of a session keeps, by their numbers from 0 on, rising. `sessions` is the number of
    /// sessions.
    pub fn kept(&self, session: usize, sessions: usize) -> Result<Vec<usize>, AllocError>
        requires there { session < sessions }
        requires within { All (IsWithin sessions) self.now }
        ensures { IfOk result (λ places. places.items ≡ marked_from 0 (back by_place session self.now).marks) }
    {
        let mut members = vec![in self.alloc; false; sessions]?;
        members[session] = true;
        let mut places = Vec::new(self.alloc);
        'rows: for number in (0..self.rows.len()).rev() {
            let row = self.rows[number];
            if matters(&members, row.session, joiners_of(&self.lists, row.list)) {
                places.push(number)?;
                members[row.session as usize] = true;
            }
        }
        places.reverse();
        Ok(places)
    }
}

/// The number of the list of a session's joiners. A list is added only if the joiners have changed.
fn number_of(
    lists: &mut Vec<Items<usize>>,
    latest: &mut Vec<u32>,
    session: u32,
    joiners: Vec<usize>,
) -> Result<u32, AllocError>
    requires { All (λ number. number ≤ length lists.old.items) latest.old.items }
    ensures is { IfOk result (λ number. joiners_at lists.new.items number ≡ joiners.items) }
    ensures there { IfOk result (λ number. number ≤ length lists.new.items) }
    ensures kept { (number : ℕ) → number ≤ length lists.old.items → joiners_at lists.new.items number ≡ joiners_at lists.old.items number }
    ensures more { length lists.old.items ≤ length lists.new.items }
    ensures latest { All (λ number. number ≤ length lists.new.items) latest.new.items }
{
    let at = session as usize;
    if latest.len() <= at {
        latest.resize(at + 1, 0)?;
    }
    let before = latest[at];
    if joiners_of(lists, before) == joiners.as_slice() {
        return Ok(before);
    }
    let number = append(lists, joiners)?;
    latest[at] = number;
    Ok(number)
}

/// Appends a list of joiners and returns its number. An empty list is not stored: its number is 0.
fn append(lists: &mut Vec<Items<usize>>, joiners: Vec<usize>) -> Result<u32, AllocError>
    ensures is { IfOk result (λ number. joiners_at lists.new.items number ≡ joiners.items) }
    ensures there { IfOk result (λ number. number ≤ length lists.new.items) }
    ensures kept { (number : ℕ) → number ≤ length lists.old.items → joiners_at lists.new.items number ≡ joiners_at lists.old.items number }
    ensures more { length lists.old.items ≤ length lists.new.items }
{
    if joiners.is_empty() {
        return Ok(0);
    }
    let Ok(number) = u32::try_from(lists.len() + 1) else {
        return Err(AllocError);
    };
    lists.push(Items::from_vec(joiners))?;
    Ok(number)
}

/// The list of joiners with this number.
fn joiners_of(lists: &[Items<usize>], number: u32) -> &[usize]
    requires { number ≤ length lists.now }
    ensures { result.now ≡ joiners_at lists.now number }
{
    match (number as usize).checked_sub(1) {
        Some(at) => lists[at].as_slice(),
        None => &[],
    }
}

/// Whether a command matters to the members: its session is one of them, or one of them joins it.
fn matters(members: &[bool], session: u32, joiners: &[usize]) -> bool
    requires session { session < length members.now }
    requires joiners { All (λ place. place < length members.now) joiners.now }
    ensures { result ≡ (slice_index_or members.now session false || list_any (λ place. slice_index_or members.now place false) joiners.now) }
{
    for place in joiners {
        if members[*place] {
            return true;
        }
    }
    members[session as usize]
}
