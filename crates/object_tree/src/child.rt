//! The children of all parents in one order: later parents first, and the children of one by age.
ghost use Rattle.std.specs.Prelude.{◌≡◌, ◌≢◌, ◌+◌, ◌<◌, ◌==◌, ◌^◌, All, IfNone, IfSome, IsTrue, filter};
ghost use Rattle.std.proofs.Common.{rules};
ghost use Rattle.std.specs.Cmp.{partial_order_from_own_ties};
ghost use Rattle.std.specs.Cmp.Rules.{comparing};
ghost use Rattle.std.specs.Ordering.{as_partial_cmp};
ghost use Rattle.std.specs.List.{Contains};
ghost use Rattle.shared_rows.specs.Links.{IsInOrder};
ghost use Rattle.object_tree.specs.Children.{AreWithin, IsCountFrom, child_cmp, child_of, kids_of, order_of};

use crate::row::Row;
use shared_rows::GapBuffer;
use std::cmp::Ordering;

/// A child, with its parent and its age. The fields are in this order so that they fill 16 bytes, which
/// a removal moves fast.
///
/// Children of later parents come first, and the roots come last.
#[derive(Clone, Copy, PartialEq, Eq)]
pub(crate) struct Child {
    pub(crate) stamp: u64,
    /// The number of the parent; a root has 0, which no object has.
    pub(crate) parent: u32,
    pub(crate) number: u32,
}

impl Ord for Child {
    ghost cmp = { child_cmp };

    ghost total = { Prim.search (comparing, rules) };

    ghost matches_partial_cmp = { Prim.search (comparing, rules) };

    ghost matches_eq = { Prim.search (comparing, rules) };

    fn cmp(&self, other: &Child) -> Ordering {
        other
            .parent
            .cmp(&self.parent)
            .then(self.stamp.cmp(&other.stamp))
            .then(self.number.cmp(&other.number))
    }
}

impl PartialOrd for Child {
    ghost partial_cmp = { as_partial_cmp child_cmp };

    ghost laws = { partial_order_from_own_ties (Prim.search (comparing, rules) depth 7) (Prim.search (comparing, rules)) };

    fn partial_cmp(&self, other: &Child) -> Option<Ordering> {
        Some(self.cmp(other))
    }
}

/// The number of a parent, or 0 for a root. Children of greater parents come first.
pub(crate) fn order_of(parent: Option<u32>) -> u32
    ensures { result ≡ order_of parent }
{
    parent.unwrap_or(0)
}

/// The place of a row among the children of all parents.
pub(crate) fn child_of(row: Row) -> Child
    ensures { result ≡ child_of row }
{
    Child {
        stamp: row.stamp,
        parent: order_of(row.parent),
        number: row.number,
    }
}

/// The children of a parent, by age: those of all from `start` on and before `end`.
#[derive(Clone, Copy)]
pub(crate) struct Kids<'a> {
    pub(crate) all: &'a GapBuffer<Child>,
    pub(crate) start: usize,
    pub(crate) end: usize,
}

/// A guess at where the children of the next parent are. When the parents are visited in order, a group
/// is usually as large as the last one, and as far before it as that one was before its predecessor.
#[derive(Clone, Copy)]
pub(crate) struct Near {
    start: usize,
    gap: usize,
    size: usize,
    /// Where the last parent without a child would have had its own: others mostly would there too.
    none: usize,
}

impl Near {
    /// Guesses one child, just before a position.
    pub(crate) fn before(start: usize) -> Near {
        Near {
            start,
            gap: 0,
            size: 1,
            none: 0,
        }
    }

    /// The guess after this one has led to a group. An empty group changes only `none`.
    pub(crate) fn behind(self, kids: Kids<'_>) -> Near
        requires { AreWithin kids }
    {
        if kids.start == kids.end {
            return Near {
                none: kids.end,
                ..self
            };
        }
        Near {
            start: kids.start,
            gap: self.start.saturating_sub(kids.end),
            size: kids.end - kids.start,
            none: self.none,
        }
    }
}

/// The children of a parent.
#[inline(always)]
pub(crate) fn group(all: &GapBuffer<Child>, parent: u32, near: Near) -> Kids<'_>
    requires { IsInOrder child_cmp all.now.items }
    ensures kids { kids_of result ≡ filter (λ child. child.parent == parent) all.now.items }
    ensures within { AreWithin result }
{
    let guess = near.start.saturating_sub(near.gap);
    let end = count_from(all, parent as u64, guess, near.none);
    let start = start_of(all, parent as u64, end, near.size);
    Kids { all, start, end }
}

/// How many children have a later parent, given that `end` have this parent or a later one. `size` is a
/// guess at how many have this parent.
#[inline(always)]
fn start_of(children: &GapBuffer<Child>, parent: u64, end: usize, size: usize) -> usize
    requires order { IsInOrder child_cmp children.now.items }
    requires parent { parent < 2 ^ 32 }
    requires end { IsCountFrom children.now.items parent end }
    ensures { IsCountFrom children.now.items (parent + 1) result }
{
    if end == 0 || parent < children.get(end - 1).parent as u64 {
        return end;
    }
    count_from(children, parent + 1, end.saturating_sub(size), end - 1)
}

/// The oldest child of a parent. It is looked for first where the last change was.
pub(crate) fn first_of(all: &GapBuffer<Child>, parent: u32) -> Option<Child>
    requires { IsInOrder child_cmp all.now.items }
    ensures child { IfSome result (λ child. Contains all.now.items child × (child.parent ≡ parent)) }
    ensures none { IfNone result (All (λ child. child.parent ≢ parent) all.now.items) }
{
    let at = count_from(all, parent as u64 + 1, all.last_change(), 0);
    if at == all.len() {
        return None;
    }
    let child = all.get(at);
    if child.parent == parent {
        Some(child)
    } else {
        None
    }
}

/// How many children have this parent or a later one: they come before all others. A right guess saves
/// the search.
#[inline(always)]
fn count_from(children: &GapBuffer<Child>, parent: u64, guess: usize, second: usize) -> usize
    requires { IsInOrder child_cmp children.now.items }
    ensures { IsCountFrom children.now.items parent result }
{
    if is_count_from(children, parent, guess) {
        return guess;
    }
    count_from_second(children, parent, second)
}

/// Counts the children that have this parent or a later one, with the second guess.
#[inline(never)]
fn count_from_second(children: &GapBuffer<Child>, parent: u64, guess: usize) -> usize
    requires { IsInOrder child_cmp children.now.items }
    ensures { IsCountFrom children.now.items parent result }
{
    if parent == 0 {
        return children.len();
    }
    if is_count_from(children, parent, guess) {
        return guess;
    }
    children.partition_point(|child| parent <= child.parent as u64)
}

/// Whether exactly `count` children have this parent or a later one.
#[inline(always)]
fn is_count_from(children: &GapBuffer<Child>, parent: u64, count: usize) -> bool
    requires { IsInOrder child_cmp children.now.items }
    ensures { IsTrue result → IsCountFrom children.now.items parent count }
{
    let len = children.len();
    if count > len || count < len && parent <= children.get(count).parent as u64 {
        return false;
    }
    count == 0 || parent <= children.get(count - 1).parent as u64
}
