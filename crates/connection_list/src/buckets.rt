//! Buckets of links, by object.
ghost use Rattle.std.specs.Prelude.{◌≡◌, ◌<◌, IfOk, OnOk};
ghost use Rattle.shared_rows.specs.Links.{HasRoom};
ghost use Rattle.connection_list.specs.Buckets.{AreDivided, AreEmpty, HaveSame, bucket_number, bucket_of, no_buckets};
ghost use Rattle.connection_list.specs.Routes.{Gains, Loses};

use crate::link::Link;
use shared_rows::Links;
use std::alloc::{AllocError, Global};
use std::marker::Model;

/// How many buckets many links are divided among.
pub(crate) const BUCKETS: usize = 64;

/// How many links one bucket holds before they are divided.
const FEW: usize = 256;

/// The links of one end of a place's connections. A few are in one bucket. More are divided by their objects, so
/// that inserting or removing one moves only those of its bucket. All links of an object are in the same bucket.
#[derive(Drop)]
pub(crate) struct Buckets {
    /// The only bucket, until the links are divided.
    few: Links<Link>,
    /// Empty until the links are divided.
    many: Vec<Links<Link>>,
}

impl Model for Buckets {
    ghost use Rattle.connection_list.specs.Buckets.{Bucketed};

    ghost Value = { Bucketed };

    ghost view = { λ buckets. record { few = buckets.few; many = buckets.many.items } };
}

impl Buckets {
    /// Creates an empty bucket, without allocating.
    pub(crate) fn new(alloc: Global) -> Buckets
        ensures { HaveSame no_buckets result }
    {
        Buckets {
            few: Links::new(alloc),
            many: Vec::new(alloc),
        }
    }

    /// The bucket of an object, whose links are found in it.
    pub(crate) fn bucket(&self, object: u32) -> &Links<Link>
        ensures { result.now ≡ bucket_of object self.now }
    {
        let number = bucket_number(object);
        if number < self.many.len() {
            &self.many[number]
        } else {
            &self.few
        }
    }

    /// Makes room for one more link of an object.
    pub(crate) fn reserve(&mut self, alloc: Global, object: u32) -> Result<(), AllocError>
        ensures same { HaveSame self.old self.new }
        ensures room { OnOk result (HasRoom (bucket_of object self.new)) }
    {
        self.divide(alloc)?;
        let number = bucket_number(object);
        if number < self.many.len() {
            let bucket = &mut self.many[number];
            bucket.reserve()
        } else {
            self.few.reserve()
        }
    }

    /// Divides the links if they are no longer few.
    fn divide(&mut self, alloc: Global) -> Result<(), AllocError>
        ensures { HaveSame self.old self.new }
    {
        if !self.many.is_empty() || self.few.len() < FEW {
            return Ok(());
        }
        self.many = divided(alloc, &self.few)?;
        self.few = Links::new(alloc);
        Ok(())
    }

    /// Adds a link, without allocating. There must be room for it.
    pub(crate) fn insert_reserved(&mut self, link: Link)
        requires { HasRoom (bucket_of link.object self.old) }
        ensures { Gains link self.old self.new }
    {
        let number = bucket_number(link.object);
        if number < self.many.len() {
            let bucket = &mut self.many[number];
            bucket.insert_reserved(link);
        } else {
            self.few.insert_reserved(link);
        }
    }

    /// Removes a link if it is there.
    pub(crate) fn remove(&mut self, link: Link)
        ensures { Loses link self.old self.new }
    {
        let number = bucket_number(link.object);
        if number < self.many.len() {
            let bucket = &mut self.many[number];
            bucket.remove(link);
        } else {
            self.few.remove(link);
        }
    }
}

/// The number of an object's bucket.
fn bucket_number(object: u32) -> usize
    ensures number { result ≡ bucket_number object }
    ensures bound { result < BUCKETS }
{
    object as usize % BUCKETS
}

/// Buckets without links.
fn empty_buckets(alloc: Global) -> Result<Vec<Links<Link>>, AllocError>
    ensures { IfOk result (λ many. AreEmpty BUCKETS many.items) }
{
    let mut many = Vec::new(alloc);
    many.reserve_exact(BUCKETS)?;
    'buckets: while many.len() < BUCKETS {
        many.push_reserved(Links::new(alloc));
    }
    Ok(many)
}

/// Buckets with the same links.
fn divided(alloc: Global, few: &Links<Link>) -> Result<Vec<Links<Link>>, AllocError>
    ensures { IfOk result (λ many. AreDivided few.now.links many.items) }
{
    let mut many = empty_buckets(alloc)?;
    let all = few.as_buffer();
    'links: for at in 0..all.len() {
        let link = all.get(at);
        let number = bucket_number(link.object);
        let bucket = &mut many[number];
        bucket.insert(link)?;
    }
    Ok(many)
}
