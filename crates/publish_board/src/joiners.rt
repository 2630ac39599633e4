//! Which places have joins of each topic.
ghost use Rattle.std.specs.Prelude.{◌≡◌, ◌+◌, ◌-◌, ◌^◌, ◌<◌, ◌&&◌, ◌==◌, ℕ, IfSome, OnOk, OnErr, if◌then◌else◌};
ghost use Rattle.std.specs.Option.{option_copied};
ghost use Rattle.indexmap.specs.IndexMap.{get};
ghost use Rattle.publish_board.specs.Filled.{AreFilled};
ghost use Rattle.publish_board.specs.Topics.{is_of, is_same, topic_of};
ghost use Rattle.publish_board.specs.declared.topic.Topic.{Topic as TopicValue};

use crate::join::Join;
use crate::listed::{Listed, find_place, first_place, list_one, unlist_one};
use crate::topic::{Sought, Topic};
use indexmap::{Equivalent, IndexMap};
use shared_rows::Links;
use std::alloc::{AllocError, Global};
use std::hash::RandomState;

/// Where a search for joiners ended. The next one begins there.
#[derive(Clone, Copy)]
pub struct Near {
    /// The position of the topic.
    list: usize,
    /// The position after that of the place, among those of the topic.
    seat: usize,
    /// How many joins of the topic the place has.
    pub found: usize,
}

impl Near {
    /// Before the first search.
    pub fn new() -> Near {
        Near {
            list: usize::MAX,
            seat: 0,
            found: 0,
        }
    }
}

/// For each topic of any join, the places with such joins by rising number. Clients choose the names, so
/// they are hashed with keys that no client knows.
#[derive(Drop)]
pub(crate) struct Joiners {
    lists: IndexMap<Topic, Links<Listed>, RandomState>,
    alloc: Global,
    ghost filled: { AreFilled lists },
}

impl Joiners {
    ghost use Rattle.publish_board.specs.Joiners.{IsFirstOf, count_at, is_listed, is_pair};

    pub(crate) fn new(alloc: Global, hashing: RandomState) -> Joiners
        ensures { (topic : TopicValue) (place : ℕ) → count_at result topic place ≡ 0 }
    {
        Joiners {
            lists: IndexMap::with_hasher(alloc, hashing),
            alloc,
        }
    }

    /// The first of the places of a topic from `least` on. The search begins at `near`, which is then set to where
    /// it ended.
    pub(crate) fn next(&self, topic: Sought, least: usize, near: &mut Near) -> Option<usize>
        ensures first { IsFirstOf (is_listed self.now (topic_of topic.entry)) least result }
        ensures found { IfSome result (λ place. near.new.found ≡ count_at self.now (topic_of topic.entry) place) }
    {
        let list = self.list_near(topic, near)?;
        let listed = first_place(list, least, &mut near.seat)?;
        near.found = listed.further as usize + 1;
        Some(listed.place)
    }

    /// Whether a place has a join of a topic.
    pub(crate) fn has(&self, topic: Sought, place: usize) -> bool
        ensures { result ≡ is_listed self.now (topic_of topic.entry) place }
    {
        let Some(list) = self.lists.get(topic) else {
            return false;
        };
        match find_place(list, place) {
            Some(_) => true,
            None => false,
        }
    }

    fn list_near(&self, topic: Sought, near: &mut Near) -> Option<&Links<Listed>>
        ensures { option_copied result ≡ get is_same self.now.lists (topic_of topic.entry) }
    {
        if let Some((there, list)) = self.lists.get_index(near.list) {
            if topic.equivalent(there) {
                return Some(list);
            }
        }
        let (at, _, list) = self.lists.get_full(topic)?;
        near.list = at;
        Some(list)
    }

    /// Lists a join of a place under both of its topics.
    pub(crate) fn add(&mut self, join: &Join, place: usize) -> Result<(), AllocError>
        requires { (topic : TopicValue) → count_at self.old topic place < 2 ^ 32 }
        ensures ok { OnOk result ((topic : TopicValue) (at : ℕ)
            → count_at self.new topic at ≡ count_at self.old topic at + (if is_of topic join.now && place == at then 1 else 0)) }
        ensures err { OnErr result ((topic : TopicValue) (at : ℕ) → count_at self.new topic at ≡ count_at self.old topic at) }
    {
        self.list(join.session(), place)?;
        if let Err(error) = self.list(join.publication(), place) {
            self.unlist(join.session(), place);
            return Err(error);
        }
        Ok(())
    }

    /// Lists a join of a place no longer. This takes no memory.
    pub(crate) fn remove(&mut self, join: &Join, place: usize)
        ensures { (topic : TopicValue) (at : ℕ)
            → count_at self.new topic at ≡ count_at self.old topic at - (if is_of topic join.now && place == at then 1 else 0) }
    {
        self.unlist(join.session(), place);
        self.unlist(join.publication(), place);
    }

    /// Lists one more join of a place under a topic.
    fn list(&mut self, topic: Sought, place: usize) -> Result<(), AllocError>
        requires { count_at self.old (topic_of topic) place < 2 ^ 32 }
        ensures ok { OnOk result ((other : TopicValue) (at : ℕ)
            → count_at self.new other at ≡ count_at self.old other at + (if is_pair (topic_of topic.entry) place other at then 1 else 0)) }
        ensures err { OnErr result ((other : TopicValue) (at : ℕ) → count_at self.new other at ≡ count_at self.old other at) }
    {
        if let Some(list) = self.lists.get_mut(topic) {
            return list_one(list, place);
        }
        let topic = topic.to_topic(self.alloc)?;
        let mut list = Links::new(self.alloc);
        list.insert(Listed { place, further: 0 })?;
        self.lists.insert(topic, list)?;
        Ok(())
    }

    /// Lists one join of a place under a topic no longer; the topic goes with its last place.
    fn unlist(&mut self, topic: Sought, place: usize)
        ensures { (other : TopicValue) (at : ℕ)
            → count_at self.new other at ≡ count_at self.old other at - (if is_pair (topic_of topic.entry) place other at then 1 else 0) }
    {
        let Some(list) = self.lists.get_mut(topic) else {
            return;
        };
        unlist_one(list, place);
        let was_last = list.is_empty();
        if was_last {
            self.lists.swap_remove(topic);
        }
    }
}
