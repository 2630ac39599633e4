//! The places of one topic.
ghost use Rattle.std.specs.Prelude.{◌≡◌, ◌+◌, ◌-◌, ◌^◌, ◌<◌, ◌≤◌, ◌==◌, ℕ, IfSome, IsTrue, OnOk, OnErr, find, if◌then◌else◌, length, nat_lt};
ghost use Rattle.std.specs.List.{HoldsAt};
ghost use Rattle.std.specs.Option.{option_map};
ghost use Rattle.std.proofs.Common.{rules};
ghost use Rattle.std.specs.Cmp.{partial_order_from_own_ties};
ghost use Rattle.std.specs.Cmp.Rules.{comparing};
ghost use Rattle.std.specs.Ordering.{as_partial_cmp};
ghost use Rattle.shared_rows.specs.Links.{IsInOrder};
ghost use Rattle.publish_board.specs.Joiners.{IsFirstOf};
ghost use Rattle.publish_board.specs.Listed.{IsSeatFrom, count_in, is_of_same, listed_cmp};

use shared_rows::{GapBuffer, Links};
use std::alloc::AllocError;
use std::cmp::Ordering;

/// A place with joins of a topic. Listed places are ordered by their numbers alone.
#[derive(Clone, Copy)]
pub(crate) struct Listed {
    pub(crate) place: usize,
    /// How many more joins than one the place has of the topic.
    pub(crate) further: u32,
}

impl PartialEq for Listed {
    ghost eq = { is_of_same };

    ghost laws = { Prim.search (comparing, rules) };

    fn eq(&self, other: &Listed) -> bool {
        self.place == other.place
    }
}

impl Eq for Listed {
    ghost laws = { Prim.search (comparing, rules) };
}

impl Ord for Listed {
    ghost cmp = { listed_cmp };

    ghost total = { Prim.search (comparing, rules) };

    ghost matches_partial_cmp = { Prim.search (comparing, rules) };

    ghost matches_eq = { Prim.search (comparing, rules) };

    fn cmp(&self, other: &Listed) -> Ordering {
        self.place.cmp(&other.place)
    }
}

impl PartialOrd for Listed {
    ghost partial_cmp = { as_partial_cmp listed_cmp };

    ghost laws = { partial_order_from_own_ties (Prim.search (comparing, rules)) (Prim.search (comparing, rules)) };

    fn partial_cmp(&self, other: &Listed) -> Option<Ordering> {
        Some(self.cmp(other))
    }
}

/// The first of the places from `least` on. It is looked for at the position `near` first, which then is the
/// position after it.
pub(crate) fn first_place(list: &Links<Listed>, least: usize, near: &mut usize) -> Option<Listed>
    ensures first { IsFirstOf (λ place. nat_lt 0 (count_in list.now.links place)) least (option_map (λ listed. listed.place) result) }
    ensures count { IfSome result (λ listed. count_in list.now.links listed.place ≡ listed.further + 1) }
{
    let links = list.as_buffer();
    let at = seat_from(links, least, *near);
    if at == links.len() {
        return None;
    }
    *near = at + 1;
    Some(links.get(at))
}

/// The position of the first place from `least` on. No search is needed if it is at `near`.
fn seat_from(links: &GapBuffer<Listed>, least: usize, near: usize) -> usize
    requires { IsInOrder listed_cmp links.now.items }
    ensures { IsSeatFrom links.now.items least result }
{
    if near <= links.len() && is_behind(links, least, near) && is_ahead(links, least, near) {
        return near;
    }
    links.partition_point(|listed| listed.place < least)
}

/// Whether the place before a position is below `least`.
fn is_behind(links: &GapBuffer<Listed>, least: usize, at: usize) -> bool
    requires { at ≤ length links.now.items }
    ensures { IsTrue result → 0 < at → HoldsAt (λ listed. listed.place < least) links.now.items (at - 1) }
{
    at == 0 || links.get(at - 1).place < least
}

/// Whether the place at a position is not below `least`.
fn is_ahead(links: &GapBuffer<Listed>, least: usize, at: usize) -> bool
    requires { at ≤ length links.now.items }
    ensures { IsTrue result → at < length links.now.items → HoldsAt (λ listed. least ≤ listed.place) links.now.items at }
{
    at == links.len() || least <= links.get(at).place
}

/// Finds a place.
pub(crate) fn find_place(list: &Links<Listed>, place: usize) -> Option<Listed>
    ensures { result ≡ find (λ listed. listed.place == place) list.now.links }
{
    let probe = Listed { place, further: 0 };
    let Some(listed) = list.first_from(probe) else {
        return None;
    };
    if listed.place == place {
        Some(listed)
    } else {
        None
    }
}

/// How many joins of a place are listed.
fn count(list: &Links<Listed>, place: usize) -> u32
    requires { count_in list.now.links place < 2 ^ 32 }
    ensures { result ≡ count_in list.now.links place }
{
    match find_place(list, place) {
        Some(listed) => listed.further + 1,
        None => 0,
    }
}

/// Lists one more join of a place.
pub(crate) fn list_one(list: &mut Links<Listed>, place: usize) -> Result<(), AllocError>
    requires { count_in list.old.links place < 2 ^ 32 }
    ensures ok { OnOk result ((at : ℕ) → count_in list.new.links at ≡ count_in list.old.links at + (if place == at then 1 else 0)) }
    ensures some { OnOk result (0 < length list.new.links) }
    ensures err { OnErr result (list.new ≡ list.old) }
{
    let further = count(list, place);
    list.insert(Listed { place, further })
}

/// Removes one join of a place from the list. Allocates nothing.
pub(crate) fn unlist_one(list: &mut Links<Listed>, place: usize)
    ensures { (at : ℕ) → count_in list.new.links at ≡ count_in list.old.links at - (if place == at then 1 else 0) }
{
    let Some(listed) = find_place(list, place) else {
        return;
    };
    if listed.further == 0 {
        list.remove(listed);
        return;
    }
    let further = listed.further - 1;
    list.replace(listed, Listed { place, further });
}
