//! The links of one object's properties.
ghost use Rattle.std.specs.Prelude.{◌≡◌, ◌<◌, IfOk, Some, length, slice_get, slice_set};
ghost use Rattle.property_store.specs.Chain.{AreNew, IsLinking, IsMarking, new_link};
ghost use Rattle.property_store.specs.declared.link.Link.TheVariants.{Unmarked};

use crate::link::{Head, Link};
use crate::property::Property;
use std::alloc::{AllocError, Global};
use std::marker::Model;
use std::mem;

/// One link is kept here itself, and takes no memory.
#[derive(Drop)]
enum Linked {
    One(Link),
    Many(Vec<Link>),
}

/// Links that contracts see as a list, by the numbers of the properties.
pub(crate) struct Links {
    kept: Linked,
}

impl Drop for Links {
    fn drop(self) {
        let Links { kept: _ } = self;
    }
}

impl Model for Links {
    ghost use Rattle.std.specs.Prelude.{List};
    ghost use Rattle.std.specs.Coded.{coded_list};
    ghost use Rattle.property_store.specs.contracts.link.Link as link;
    ghost use Rattle.property_store.specs.declared.link.Link.{Link};
    ghost use Rattle.property_store.specs.Chain.{links_kept};

    ghost Value = { List Link };

    ghost coded = { coded_list link.the_row.coded };

    ghost view = { λ links. links_kept links.kept };
}

impl Links {
    /// Those of a new object, each of whose properties is marked: each leads to the next, and the last to
    /// what was marked before them. Where all are marked anyway none is linked.
    pub(crate) fn new(
        alloc: Global,
        object: u32,
        count: usize,
        head: Head,
    ) -> Result<Links, AllocError>
        ensures { IfOk result (AreNew object count head) }
    {
        let kept = if count == 1 {
            Linked::One(new_link(object, count, head, 0))
        } else {
            Linked::Many(new_links(alloc, object, count, head)?)
        };
        Ok(Links { kept })
    }

    /// Marks a property as the first, where it is not marked and not all are, and returns whether it did.
    #[inline(always)]
    pub(crate) fn mark(&mut self, number: usize, head: Head) -> bool
        requires { number < length self.old }
        ensures { IsMarking head number self.old self.new result }
    {
        match &mut self.kept {
            Linked::One(link) => mark(link, head),
            Linked::Many(links) => mark(&mut links[number], head),
        }
    }

    /// Takes the mark of a property, and returns what its link was.
    pub(crate) fn unlink(&mut self, number: usize) -> Link
        requires { number < length self.old }
        ensures link { slice_get self.old number ≡ Some result }
        ensures rest { self.new ≡ slice_set self.old number Unmarked }
    {
        match &mut self.kept {
            Linked::One(link) => mem::replace(link, Link::Unmarked),
            Linked::Many(links) => mem::replace(&mut links[number], Link::Unmarked),
        }
    }
}

fn new_links(alloc: Global, object: u32, count: usize, head: Head) -> Result<Vec<Link>, AllocError>
    ensures { IfOk result (λ links. AreNew object count head links.items) }
{
    let mut links = Vec::with_capacity(alloc, count)?;
    for number in 0..count {
        links.push(new_link(object, count, head, number))?;
    }
    Ok(links)
}

/// The link of this number among so many of a new object.
fn new_link(object: u32, count: usize, head: Head, number: usize) -> Link
    requires { number < count }
    ensures { result ≡ new_link object count head number }
{
    match head {
        Head::All => Link::Unmarked,
        _ if number + 1 < count => Link::Before(Property {
            object,
            number: number + 1,
        }),
        Head::None => Link::Last,
        Head::First(before) => Link::Before(before),
    }
}

#[inline(always)]
fn mark(link: &mut Link, head: Head) -> bool
    ensures { IsLinking head link.old link.new result }
{
    match *link {
        Link::Unmarked => {}
        _ => return false,
    }
    *link = match head {
        Head::All => return false,
        Head::None => Link::Last,
        Head::First(before) => Link::Before(before),
    };
    true
}
