//! Three sessions publish and join, call by call, and a session does as much of both as it may.
ghost use Rattle.std.specs.Prelude.{◌≡◌, ◌<◌, length};

use crate::benches::{Bench, are_answered, digit_behind, gives};
use plain_types::{Code, Fault, Items, Text};
use publish_board::{Board, JOINS, PUBLICATIONS, Publication};
use signature_core::Kind;
use std::alloc::{AllocError, Global};
use std::hash::RandomState;
use std::io;
use std::random::RandomSource;
use std::test::Fail;

/// A test asks this of a board.
#[derive(Clone, Copy)]
enum Asked {
    /// A name, an object and its signal; 0, or the number of the code.
    Publish(&'static str, u32, u32),
    Unpublish(&'static str),
    /// A session and what it publishes, an object and its method, and how many of `KINDS` the method
    /// takes; the publication has two. 0, or the number of the code.
    Join(&'static str, &'static str, u32, u32, usize),
    Leave(&'static str, &'static str, u32, u32),
    DropObject(u32),
    Clear,
    /// The two counts, as the digits of one number.
    Counts,
    /// The objects that publish, and those that are called, as digits.
    Rows,
    IsPublished(u32, u32),
    /// The lengths of the names, as digits.
    Published(u32, u32),
    /// The methods that are called, as digits.
    Matching(&'static str, &'static str),
    Names(&'static str),
    /// The place, counted from 1, or 0.
    NextJoiner(&'static str, usize),
}

use Asked::*;

const KINDS: [Kind; 3] = [Kind::Bool, Kind::Int, Kind::Text];

/// Gives the same bytes in every run.
struct Sevens;

impl RandomSource for Sevens {
    fn fill_bytes(&self, buffer: &mut [u8]) -> io::Result<()> {
        buffer.fill(7);
        Ok(())
    }
}

/// A board with three places, of the sessions `a`, `b` and `c`.
#[derive(Drop)]
struct Sessions {
    board: Board,
    alloc: Global,
    ghost three: { length board.places ≡ 3 },
}

impl Bench for Sessions {
    type Asked = Asked;

    fn new(alloc: Global) -> Result<Sessions, AllocError> {
        let Ok(hashing) = RandomState::new(&Sevens) else {
            return Err(AllocError);
        };
        let mut board = Board::new(alloc, hashing);
        board.ready()?;
        board.open();
        board.ready()?;
        board.open();
        board.ready()?;
        board.open();
        Ok(Sessions { board, alloc })
    }

    fn ask(&mut self, place: usize, asked: Asked) -> Result<u64, AllocError> {
        let place = place.min(2);
        match asked {
            Publish(name, object, signal) => self.publish(place, name, object, signal),
            Unpublish(name) => {
                let name = Text::from_str(self.alloc, name)?;
                Ok(self.board.unpublish(place, &name) as u64)
            }
            Join(from, name, object, method, wanted) => {
                self.join(place, from, name, (object, method), wanted)
            }
            Leave(from, name, object, method) => self.leave(place, from, name, (object, method)),
            DropObject(object) => Ok(self.drop_object(place, object)),
            Clear => Ok(self.clear(place)),
            _ => self.read(place, asked),
        }
    }
}

impl Sessions {
    fn read(&self, place: usize, asked: Asked) -> Result<u64, AllocError>
        requires { place < length self.now.board.places }
    {
        match asked {
            Counts => Ok(self.counts(place)),
            Rows => Ok(self.rows(place)),
            IsPublished(object, signal) => {
                Ok(self.board.is_published(place, object, signal) as u64)
            }
            Published(object, signal) => self.published(place, object, signal),
            Matching(from, name) => self.matching(place, from, name),
            Names(from) => {
                let from = Text::from_str(self.alloc, from)?;
                Ok(self.board.names(place, &from) as u64)
            }
            NextJoiner(from, least) => self.next_joiner(from, least),
            _ => Err(AllocError),
        }
    }

    fn publish(
        &mut self,
        place: usize,
        name: &str,
        object: u32,
        signal: u32,
    ) -> Result<u64, AllocError>
        requires { place < length self.old.board.places }
    {
        let row = Publication {
            name: Text::from_str(self.alloc, name)?,
            object,
            signal,
        };
        number_of(self.board.publish(place, row))
    }

    fn join(
        &mut self,
        place: usize,
        from: &str,
        name: &str,
        called: (u32, u32),
        wanted: usize,
    ) -> Result<u64, AllocError>
        requires { place < length self.old.board.places }
    {
        let own = self.own(place)?;
        let join = publish_board::Join {
            from: Text::from_str(self.alloc, from)?,
            name: Text::from_str(self.alloc, name)?,
            kinds: Items::from_vec(Vec::from_slice(self.alloc, &KINDS[..2])?),
            object: called.0,
            method: called.1,
        };
        number_of(self.board.join(place, &own, join, &KINDS[..wanted.min(3)]))
    }

    /// The name of a place's own session.
    fn own(&self, place: usize) -> Result<Text, AllocError> {
        let name = match place {
            0 => "a",
            1 => "b",
            _ => "c",
        };
        Text::from_str(self.alloc, name)
    }

    fn leave(
        &mut self,
        place: usize,
        from: &str,
        name: &str,
        called: (u32, u32),
    ) -> Result<u64, AllocError>
        requires { place < length self.old.board.places }
    {
        let from = Text::from_str(self.alloc, from)?;
        let name = Text::from_str(self.alloc, name)?;
        Ok(self.board.leave(place, &from, &name, called.0, called.1) as u64)
    }

    fn drop_object(&mut self, place: usize, object: u32) -> u64
        requires { place < length self.old.board.places }
    {
        self.board.drop_object(place, object);
        self.counts(place)
    }

    fn clear(&mut self, place: usize) -> u64
        requires { place < length self.old.board.places }
    {
        self.board.clear(place);
        self.counts(place)
    }

    fn counts(&self, place: usize) -> u64
        requires { place < length self.now.board.places }
    {
        let counts = self.board.counts(place);
        digit_behind(counts.publications as u64, counts.joins as u64)
    }

    fn rows(&self, place: usize) -> u64
        requires { place < length self.now.board.places }
    {
        let mut digits = 0;
        for row in self.board.publications(place) {
            digits = digit_behind(digits, row.object as u64);
        }
        for join in self.board.joins(place) {
            digits = digit_behind(digits, join.object as u64);
        }
        digits
    }

    fn published(&self, place: usize, object: u32, signal: u32) -> Result<u64, AllocError>
        requires { place < length self.now.board.places }
    {
        let names = self.board.published(place, object, signal)?;
        let mut digits = 0;
        for name in names.as_slice() {
            digits = digit_behind(digits, name.len() as u64);
        }
        Ok(digits)
    }

    fn matching(&self, place: usize, from: &str, name: &str) -> Result<u64, AllocError>
        requires { place < length self.now.board.places }
    {
        let from = Text::from_str(self.alloc, from)?;
        let name = Text::from_str(self.alloc, name)?;
        let joins = self.board.matching(place, &from, &name)?;
        let mut digits = 0;
        for join in joins.as_slice() {
            digits = digit_behind(digits, join.method as u64);
        }
        Ok(digits)
    }

    fn next_joiner(&self, from: &str, least: usize) -> Result<u64, AllocError> {
        let from = Text::from_str(self.alloc, from)?;
        match self.board.next_joiner(&from, least) {
            Some(place) => Ok((place as u64).wrapping_add(1)),
            None => Ok(0),
        }
    }
}

/// 0 where it is done, or the number of the code that refuses it.
fn number_of(done: Result<(), Fault>) -> Result<u64, AllocError> {
    match done {
        Ok(()) => Ok(0),
        Err(Fault::Refused(Code::DoesNotFit)) => Ok(7),
        Err(Fault::Refused(Code::Limit)) => Ok(14),
        Err(Fault::Refused(Code::NameTaken)) => Ok(15),
        Err(Fault::Refused(Code::OwnSession)) => Ok(16),
        Err(_) => Err(AllocError),
    }
}

/// A place, what is asked of it, and what is answered.
type Case = (usize, Asked, u64);

const IN_ORDER: &[Case] = &[
    (0, Publish("on", 3, 1), 0),
    (0, Publish("off", 3, 1), 0),
    (0, Publish("on", 4, 2), 15),
    // Another session may publish under the same name.
    (1, Publish("on", 4, 2), 0),
    (0, IsPublished(3, 1), 1),
    (0, IsPublished(3, 2), 0),
    (0, IsPublished(4, 1), 0),
    (0, Published(3, 1), 23),
    (0, Counts, 20),
    (0, Unpublish("on"), 1),
    (0, Unpublish("on"), 0),
    (1, Counts, 10),
    (0, Publish("on", 4, 2), 0),
    (0, Rows, 34),
    // The method may take fewer of the kinds that are sent, and no other.
    (1, Join("a", "on", 6, 1, 3), 7),
    (1, Join("b", "on", 6, 1, 3), 7),
    (1, Join("b", "on", 6, 1, 2), 16),
    (1, NextJoiner("a", 0), 0),
    (2, Join("a", "on", 6, 1, 2), 0),
    (1, Join("a", "on", 6, 1, 1), 0),
    (1, Join("a", "on", 7, 2, 0), 0),
    (1, Join("a", "off", 6, 3, 2), 0),
    (1, Join("c", "on", 6, 4, 2), 0),
    (1, Join("a", "on", 6, 1, 2), 0),
    (1, Matching("a", "on"), 121),
    (1, Matching("a", "off"), 3),
    (1, Matching("c", "off"), 0),
    (1, Counts, 15),
    (1, Rows, 467666),
    (0, NextJoiner("a", 0), 2),
    (0, NextJoiner("a", 1), 2),
    (0, NextJoiner("a", 2), 3),
    (0, NextJoiner("a", 3), 0),
    (0, NextJoiner("c", 0), 2),
    (0, NextJoiner("b", 0), 0),
    (1, Names("a"), 1),
    (2, Names("c"), 0),
    // All joins that are equal go, and the others keep the place listed.
    (1, Leave("a", "on", 6, 1), 1),
    (1, Leave("a", "on", 6, 1), 0),
    (1, Leave("a", "on", 7, 1), 0),
    (1, Matching("a", "on"), 2),
    (0, NextJoiner("a", 0), 2),
    (1, Leave("a", "off", 6, 3), 1),
    (1, Leave("a", "on", 7, 2), 1),
    (1, Names("a"), 0),
    (0, NextJoiner("a", 0), 3),
    (0, NextJoiner("c", 0), 2),
    // An object takes its publications and its joins with it, in its own session alone.
    (1, DropObject(6), 10),
    (0, NextJoiner("c", 0), 0),
    (2, Counts, 1),
    (0, DropObject(4), 10),
    (1, Rows, 4),
    (0, Join("c", "x", 1, 1, 0), 0),
    (0, Clear, 0),
    (0, NextJoiner("c", 0), 0),
    (0, NextJoiner("a", 0), 3),
    (2, Clear, 0),
    (0, NextJoiner("a", 0), 0),
];

#[test]
fn joins_are_found_by_the_session_that_they_name(rt: HostRuntime) -> Result<(), Fail> {
    assert!(rt; are_answered::<Sessions>(rt.alloc(), IN_ORDER)?);
    Ok(())
}

/// A place that joins and publishes as often as it may answers these, always with object 5.
const FULL: &[Case] = &[
    (0, Counts, 11264),
    (0, Join("b", "x", 5, 1, 2), 14),
    (0, Join("a", "x", 5, 1, 2), 16),
    (0, Publish("y", 5, 1), 14),
    (0, Publish("x0", 5, 1), 15),
    (1, Join("c", "x", 5, 1, 2), 0),
    (1, Publish("x0", 5, 1), 0),
    (0, NextJoiner("b", 0), 1),
    (0, DropObject(5), 0),
    (0, NextJoiner("b", 0), 0),
];

/// Whether a place joins so often and publishes under so many names, and no more.
fn is_full_behind(alloc: Global, joins: usize, publications: usize) -> Result<bool, AllocError> {
    let mut bench = Sessions::new(alloc)?;
    for _ in 0..joins {
        if bench.ask(0, Join("b", "x", 5, 1, 2))? != 0 {
            return Ok(false);
        }
    }
    for number in 0..publications {
        let name = format!(in alloc; "x{number}")?;
        if bench.publish(0, name.as_str(), 5, 1)? != 0 {
            return Ok(false);
        }
    }
    gives(&mut bench, FULL)
}

#[test]
fn a_place_joins_and_publishes_so_often(rt: HostRuntime) -> Result<(), Fail> {
    assert!(rt; is_full_behind(rt.alloc(), JOINS, PUBLICATIONS)?);
    Ok(())
}
