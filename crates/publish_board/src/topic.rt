//! Places are listed under topics.
ghost use Rattle.std.specs.Prelude.{◌≡◌, IfOk};
ghost use Rattle.publish_board.specs.Topics.{is_same, topic_fed, topic_of};
ghost use Rattle.std.proofs.Common.{rules};
ghost use Rattle.std.specs.Cmp.Rules.{comparing, hashing};

use indexmap::Equivalent;
use plain_types::Text;
use std::alloc::{AllocError, Global};
use std::hash::{Hash, Hasher};

/// A join is of two topics: the session that it names, and what that publishes under the join's name.
#[derive(PartialEq, Eq, Drop)]
pub(crate) struct Topic {
    from: Text,
    name: Option<Text>,
}

impl Hash for Topic {
    ghost hash_input = { topic_fed };

    ghost respects_eq = { Prim.search (hashing, rules) };

    // The name feeds nothing where there is none, which takes less than what an `Option` feeds.
    fn hash<H: Hasher>(&self, state: &mut H) {
        self.from.hash(state);
        if let Some(name) = &self.name {
            name.hash(state);
        }
    }
}

/// A topic that is looked for.
#[derive(Clone, Copy, PartialEq, Eq)]
pub(crate) struct Sought<'a> {
    pub(crate) from: &'a Text,
    pub(crate) name: Option<&'a Text>,
}

impl<'a> Hash for Sought<'a> {
    ghost hash_input = { λ sought. topic_fed (topic_of sought) };

    ghost respects_eq = { Prim.search (hashing, rules) };

    fn hash<H: Hasher>(&self, state: &mut H) {
        self.from.hash(state);
        if let Some(name) = self.name {
            name.hash(state);
        }
    }
}

impl<'a> Equivalent<Topic> for Sought<'a> {
    ghost equivalent = { λ sought. is_same (topic_of sought) };

    ghost respects_hash = { Prim.search (hashing, rules) };

    ghost respects_eq = { Prim.search (comparing, rules) };

    fn equivalent(&self, key: &Topic) -> bool {
        if *self.from != key.from {
            return false;
        }
        match (self.name, &key.name) {
            (Some(name), Some(other)) => *name == *other,
            (None, None) => true,
            _ => false,
        }
    }
}

impl<'a> Sought<'a> {
    /// The topic as a value of its own.
    pub(crate) fn to_topic(self, alloc: Global) -> Result<Topic, AllocError>
        ensures { IfOk result (λ topic. topic ≡ topic_of self.entry) }
    {
        let from = self.from.copy(alloc)?;
        let name = match self.name {
            Some(name) => Some(name.copy(alloc)?),
            None => None,
        };
        Ok(Topic { from, name })
    }
}
