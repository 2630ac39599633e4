//! Joins.
ghost use Rattle.std.specs.Prelude.{◌≡◌, IfOk, None, Some, filter};
ghost use Rattle.std.specs.List.{list_any};
ghost use Rattle.publish_board.specs.Rows.{listens};
ghost use Rattle.publish_board.specs.Going.{goes};
ghost use Rattle.publish_board.specs.Topics.{topic_of};

use crate::topic::Sought;
use plain_types::{Items, Text};
use signature_core::Kind;
use std::alloc::{AllocError, Global};

/// A session listens by a join: whatever the session of the name `from` publishes under `name`, with these
/// kinds of parameters, calls a method of an object.
#[derive(Drop)]
pub struct Join {
    pub from: Text,
    pub name: Text,
    pub kinds: Items<Kind>,
    pub object: u32,
    pub method: u32,
}

impl Join {
    /// Whether it listens to what the session of the name `from` publishes under `name`.
    pub fn listens(&self, from: &Text, name: &Text) -> bool
        ensures { result ≡ listens from.now name.now self.now }
    {
        self.from == *from && self.name == *name
    }

    /// The session that it names, as a topic.
    pub(crate) fn session(&self) -> Sought<'_>
        ensures { topic_of result ≡ record { from = self.now.from; name = None } }
    {
        Sought {
            from: &self.from,
            name: None,
        }
    }

    /// The topic of that session and of the name of the join.
    pub(crate) fn publication(&self) -> Sought<'_>
        ensures { topic_of result ≡ record { from = self.now.from; name = Some self.now.name } }
    {
        Sought {
            from: &self.from,
            name: Some(&self.name),
        }
    }

    /// An equal join in a value of its own.
    pub(crate) fn copy(&self, alloc: Global) -> Result<Join, AllocError>
        ensures { IfOk result (λ join. join ≡ self.now) }
    {
        Ok(Join {
            from: self.from.copy(alloc)?,
            name: self.name.copy(alloc)?,
            kinds: Items::from_vec(Vec::from_slice(alloc, self.kinds.as_slice())?),
            object: self.object,
            method: self.method,
        })
    }
}

/// Which joins of a desk are taken out.
#[derive(Clone, Copy)]
pub(crate) enum Going<'a> {
    All,
    /// Those that call this object.
    Object(u32),
    /// Those that are equal in these four.
    Same {
        from: &'a Text,
        name: &'a Text,
        object: u32,
        method: u32,
    },
}

impl<'a> Going<'a> {
    pub(crate) fn takes(&self, join: &Join) -> bool
        ensures { result ≡ goes self.now join.now }
    {
        match self {
            Going::All => true,
            Going::Object(object) => join.object == *object,
            Going::Same {
                from,
                name,
                object,
                method,
            } => join.listens(from, name) && join.object == *object && join.method == *method,
        }
    }

    pub(crate) fn takes_any(&self, joins: &[Join]) -> bool
        ensures { result ≡ list_any (goes self.now) joins.now }
    {
        joins.iter().any(|join| self.takes(join))
    }
}

/// Copies of the joins that listen to what the session of a name publishes under a name.
pub(crate) fn listening(
    alloc: Global,
    joins: &[Join],
    from: &Text,
    name: &Text,
) -> Result<Items<Join>, AllocError>
    ensures { IfOk result (λ copies. copies ≡ filter (listens from.now name.now) joins.now) }
{
    let mut copies = Items::new(alloc);
    'joins: for join in joins {
        if join.listens(from, name) {
            copies.push(join.copy(alloc)?)?;
        }
    }
    Ok(copies)
}
