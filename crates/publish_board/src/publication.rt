//! Publications.
ghost use Rattle.std.specs.Prelude.{◌≡◌, IfOk};
ghost use Rattle.std.specs.List.{list_any};
ghost use Rattle.publish_board.specs.Rows.{has_name, names_of, publishes};

use plain_types::{Items, Text};
use std::alloc::{AllocError, Global};

/// A signal of an object that is published under a name.
#[derive(Drop)]
pub struct Publication {
    pub name: Text,
    pub object: u32,
    pub signal: u32,
}

impl Publication {
    pub(crate) fn has_name(&self, name: &Text) -> bool
        ensures { result ≡ has_name name.now self.now }
    {
        self.name == *name
    }

    /// Whether it is of this signal of this object.
    pub fn publishes(&self, object: u32, signal: u32) -> bool
        ensures { result ≡ publishes object signal self.now }
    {
        self.object == object && self.signal == signal
    }
}

/// Whether anything is published under a name.
pub(crate) fn is_taken(rows: &[Publication], name: &Text) -> bool
    ensures { result ≡ list_any (has_name name.now) rows.now }
{
    rows.iter().any(|row| row.has_name(name))
}

/// Copies of the names under which a signal of an object is published.
pub(crate) fn names_of(
    alloc: Global,
    rows: &[Publication],
    object: u32,
    signal: u32,
) -> Result<Items<Text>, AllocError>
    ensures { IfOk result (λ names. names ≡ names_of object signal rows.now) }
{
    let mut names = Items::new(alloc);
    'rows: for row in rows {
        if row.publishes(object, signal) {
            names.push(row.name.copy(alloc)?)?;
        }
    }
    Ok(names)
}
