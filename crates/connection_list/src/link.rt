//! Links lead from an object to its connections.
ghost use Rattle.std.specs.Prelude.{◌≡◌, ◌+◌, ◌≤◌, ℕ, IfSome, Some, false, length, true};
ghost use Rattle.std.specs.List.{AllWithin};
ghost use Rattle.std.specs.List.Sorted.{IsPartitionPoint};
ghost use Rattle.std.specs.Ordering.{is_lt};
ghost use Rattle.shared_rows.specs.Links.{IsInOrder, first_from};
ghost use Rattle.connection_list.specs.Routes.{is_before, is_past, link_cmp};

use crate::mark::Marks;
use shared_rows::Links;

/// Leads to a connection from one of its ends. Links are sorted by object, then source, then rank, so the links of
/// an object are adjacent, and so are those of one of its signals, or from one sender.
#[derive(Clone, Copy, PartialEq, Eq, PartialOrd, Ord)]
pub(crate) struct Link {
    /// The sender, or at the receiving end the receiver.
    pub(crate) object: u32,
    /// The signal, or at the receiving end the sender.
    pub(crate) source: u32,
    /// The connection's number, or at the receiving end its mark.
    pub(crate) rank: u32,
    /// The key of the connection's row in the table of all places.
    pub(crate) key: u32,
}

/// The links of an object at one end that a walk looks at: those of its bucket from `start` on and before `end`.
#[derive(Clone, Copy)]
pub(crate) struct Group {
    /// Whether it is the receiving end.
    pub(crate) received: bool,
    /// The object at that end.
    pub(crate) object: u32,
    pub(crate) start: usize,
    pub(crate) end: usize,
}

/// The links of an object, those of one source, or those of them with certain marks.
pub(crate) fn group_of(
    links: &Links<Link>,
    received: bool,
    object: u32,
    source: Option<u32>,
    marks: Option<Marks>,
) -> Group
    ensures received { result.received ≡ received }
    ensures object { result.object ≡ object }
    ensures within { result.end ≤ length links.now.links }
    ensures before { AllWithin (λ link. is_before object source marks link ≡ true) links.now.links 0 result.start }
    ensures inside { AllWithin (λ link. link.object ≡ object) links.now.links result.start result.end }
    ensures past { AllWithin (λ link. is_past object source marks link ≡ true) links.now.links result.end (length links.now.links) }
{
    let all = links.as_buffer();
    Group {
        received,
        object,
        start: all.partition_point(|link| is_before(object, source, marks, link)),
        end: all.partition_point(|link| !is_past(object, source, marks, link)),
    }
}

/// Whether a link sorts before every link of a group.
fn is_before(object: u32, source: Option<u32>, marks: Option<Marks>, link: &Link) -> bool
    ensures { result ≡ is_before object source marks link.now }
{
    match (source, marks) {
        (None, _) => link.object < object,
        (Some(source), None) => {
            link.object < object || (link.object == object && link.source < source)
        }
        (Some(source), Some(marks)) => {
            link.object < object
                || (link.object == object
                    && (link.source < source || (link.source == source && link.rank < marks.least)))
        }
    }
}

/// Whether a link sorts after every link of a group.
fn is_past(object: u32, source: Option<u32>, marks: Option<Marks>, link: &Link) -> bool
    ensures { result ≡ is_past object source marks link.now }
{
    match (source, marks) {
        (None, _) => object < link.object,
        (Some(source), None) => {
            object < link.object || (link.object == object && source < link.source)
        }
        (Some(source), Some(marks)) => {
            object < link.object
                || (link.object == object
                    && (source < link.source
                        || (link.source == source && marks.greatest < link.rank)))
        }
    }
}

/// The first link that is not less than `link`. The position `near` is tried first. If a link is found,
/// `near` becomes the position after it.
pub(crate) fn first_near(links: &Links<Link>, link: Link, near: &mut usize) -> Option<Link>
    ensures first { result ≡ first_from link_cmp links.now.links link }
    ensures sound { IsInOrder link_cmp links.now.links }
{
    let at = count_below(links, link, *near);
    let all = links.as_buffer();
    if at >= all.len() {
        return None;
    }
    *near = at + 1;
    Some(all.get(at))
}

/// The link at a position of the sending end, if it is one of this signal of this object with a number above `after`,
/// and the link before it has a number of at most `after`. As links are sorted, it is then the first with a number
/// above `after`.
#[inline(always)]
pub(crate) fn follower(
    links: &Links<Link>,
    object: u32,
    signal: u32,
    after: u32,
    at: usize,
) -> Option<Link>
    ensures first { IfSome result (λ there. first_from link_cmp links.now.links
        (record { object = object; source = signal; rank = after + 1; key = 0 }) ≡ Some there) }
    ensures ends { IfSome result (λ there. (there.object ≡ object) × (there.source ≡ signal)) }
    ensures sound { IsInOrder link_cmp links.now.links }
{
    let all = links.as_buffer();
    if at == 0 || at >= all.len() {
        return None;
    }
    let before = all.get(at - 1);
    if before.rank > after {
        return None;
    }
    let there = all.get(at);
    if there.object != object {
        return None;
    }
    if there.source != signal {
        return None;
    }
    if there.rank <= after {
        return None;
    }
    Some(there)
}

/// How many links are less than `link`. The guess is tried first, then the number of all links, then a search.
fn count_below(links: &Links<Link>, link: Link, guess: usize) -> usize
    ensures { IsPartitionPoint (λ other. is_lt (link_cmp other link) ≡ true) (λ other. is_lt (link_cmp other link) ≡ false) links.now.links result }
{
    let all = links.as_buffer();
    if is_parted(links, link, guess) {
        return guess;
    }
    if is_parted(links, link, all.len()) {
        return all.len();
    }
    all.partition_point(|other| other.cmp(&link).is_lt())
}

/// Whether the links before a position are below a link, and those from there on are not.
fn is_parted(links: &Links<Link>, link: Link, at: usize) -> bool
    ensures { result ≡ true → IsPartitionPoint (λ other. is_lt (link_cmp other link) ≡ true) (λ other. is_lt (link_cmp other link) ≡ false) links.now.links at }
{
    let all = links.as_buffer();
    let len = all.len();
    if at > len {
        return false;
    }
    if at > 0 && !all.get(at - 1).cmp(&link).is_lt() {
        return false;
    }
    at == len || !all.get(at).cmp(&link).is_lt()
}
