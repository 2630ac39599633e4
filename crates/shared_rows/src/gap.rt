//! The gap.
#![tactic(auto, using(crate::proofs::GapLemmas::of_gaps))]

ghost use Rattle.std.specs.Prelude.{◌≡◌, ◌+◌, ◌-◌, ◌<◌, ◌≤◌, ◌↔◌, ◌++◌, ◌∷◌, [], length, set, slice_index_or, IfOk, IsTrue, OnErr};
ghost use Rattle.std.specs.List.{insert, remove};
ghost use Rattle.std.specs.Vec.{vec_capacity};
ghost use Rattle.shared_rows.specs.Gap.{HasRoom, IsGapOf, IsPlaceOf, listed};

use std::alloc::AllocError;

/// A run of unused places among those of a list: the first of them, and how many there are.
#[derive(Clone, Copy)]
pub(crate) struct Gap {
    pub(crate) start: u32,
    pub(crate) gone: u32,
}

/// The length of the list, without the places of the gap.
pub(crate) fn count<T: Copy>(places: &Vec<T>, gap: Gap) -> usize
    requires { IsGapOf places.now.items gap }
    ensures { result ≡ length (listed places.now.items gap) }
{
    places.len() - gap.gone as usize
}

/// The place that holds the element at a position of the list.
pub(crate) fn position(gap: Gap, at: usize) -> usize
    requires { at + gap.gone < 4294967296 }
    ensures { IsPlaceOf gap at result }
{
    if at < gap.start as usize {
        at
    } else {
        at + gap.gone as usize
    }
}

/// The element at a position of the list.
pub(crate) fn read<T: Copy>(places: &Vec<T>, gap: Gap, at: usize) -> &T
    requires gap { IsGapOf places.now.items gap }
    requires within { at < length (listed places.now.items gap) }
    ensures { result.now ≡ slice_index_or (listed places.now.items gap) at result.now }
{
    &places[position(gap, at)]
}

/// Replaces the element at a position of the list.
pub(crate) fn write<T: Copy>(places: &mut Vec<T>, gap: Gap, at: usize, element: T)
    requires gap { IsGapOf places.old.items gap }
    requires within { at < length (listed places.old.items gap) }
    ensures items { listed places.new.items gap ≡ set (listed places.old.items gap) at element }
    ensures fits { IsGapOf places.new.items gap }
    ensures capacity { vec_capacity places.new ≡ vec_capacity places.old }
{
    places[position(gap, at)] = element;
}

/// Whether one more element fits without allocating, and 32 bits can still count the places.
fn has_room<T: Copy>(places: &Vec<T>) -> bool
    ensures { IsTrue result ↔ HasRoom places.now (length places.now.items) }
{
    places.len() < places.capacity().min(4294967295)
}

/// Moves the gap so that it starts at `to`. Moving an empty gap moves no elements.
fn moved<T: Copy>(places: &mut Vec<T>, gap: Gap, to: usize) -> Gap
    requires gap { IsGapOf places.old.items gap }
    requires within { to + gap.gone ≤ length places.old.items }
    ensures items { listed places.new.items result ≡ listed places.old.items gap }
    ensures gap { (result.start ≡ to) × (result.gone ≡ gap.gone) }
    ensures len { length places.new.items ≡ length places.old.items }
    ensures capacity { vec_capacity places.new ≡ vec_capacity places.old }
{
    let (start, gone) = (gap.start as usize, gap.gone as usize);
    if gone > 0 {
        if start < to {
            places.copy_within(start + gone..to + gone, start);
        } else {
            places.copy_within(to..start, to + gone);
        }
    }
    Gap {
        start: to as u32,
        gone: gap.gone,
    }
}

/// Drops the gap if it is at the end of the places. A gap elsewhere stays, for the next change there.
fn trimmed<T: Copy>(places: &mut Vec<T>, gap: Gap) -> Gap
    requires { IsGapOf places.old.items gap }
    ensures items { listed places.new.items result ≡ listed places.old.items gap }
    ensures fits { IsGapOf places.new.items result }
    ensures closed { gap.start + gap.gone ≡ length places.old.items → result.gone ≡ 0 }
    ensures capacity { vec_capacity places.new ≡ vec_capacity places.old }
{
    if (gap.start as usize + gap.gone as usize) < places.len() {
        return gap;
    }
    places.truncate(gap.start as usize);
    Gap {
        start: gap.start,
        gone: 0,
    }
}

/// Moves the gap to the end and drops it.
#[cold]
#[inline(never)]
fn closed<T: Copy>(places: &mut Vec<T>, gap: Gap) -> Gap
    requires { IsGapOf places.old.items gap }
    ensures items { listed places.new.items result ≡ listed places.old.items gap }
    ensures fits { IsGapOf places.new.items result }
    ensures closed { result.gone ≡ 0 }
    ensures capacity { vec_capacity places.new ≡ vec_capacity places.old }
{
    let len = count(places, gap);
    let gap = moved(places, gap, len);
    trimmed(places, gap)
}

/// Makes room at the end for one more element, by closing the gap if there is no other room.
fn with_room<T: Copy>(places: &mut Vec<T>, gap: Gap) -> Gap
    requires gap { IsGapOf places.old.items gap }
    requires room { HasRoom places.old (length (listed places.old.items gap)) }
    ensures items { listed places.new.items result ≡ listed places.old.items gap }
    ensures fits { IsGapOf places.new.items result }
    ensures room { HasRoom places.new (length places.new.items) }
    ensures capacity { vec_capacity places.new ≡ vec_capacity places.old }
{
    if has_room(places) {
        return gap;
    }
    closed(places, gap)
}

/// Appends an element.
pub(crate) fn pushed<T: Copy>(places: &mut Vec<T>, gap: Gap, element: T) -> Gap
    requires gap { IsGapOf places.old.items gap }
    requires room { HasRoom places.old (length (listed places.old.items gap)) }
    ensures items { listed places.new.items result ≡ listed places.old.items gap ++ element ∷ [] }
    ensures fits { IsGapOf places.new.items result }
    ensures capacity { vec_capacity places.new ≡ vec_capacity places.old }
{
    let gap = with_room(places, gap);
    places.push_reserved(element);
    gap
}

/// Inserts an element by moving the gap to its position and filling the gap's first place.
fn filled<T: Copy>(places: &mut Vec<T>, gap: Gap, at: usize, element: T) -> Gap
    requires gap { IsGapOf places.old.items gap }
    requires some { 0 < gap.gone }
    requires within { at ≤ length (listed places.old.items gap) }
    ensures items { listed places.new.items result ≡ insert (listed places.old.items gap) at element }
    ensures fits { IsGapOf places.new.items result }
    ensures capacity { vec_capacity places.new ≡ vec_capacity places.old }
{
    let gap = moved(places, gap, at);
    places[at] = element;
    Gap {
        start: gap.start + 1,
        gone: gap.gone - 1,
    }
}

/// Whether a position is more than `most` elements after the gap. Then the elements after the position are
/// shifted by one, and the gap is not moved.
fn is_far(gap: Gap, at: usize, most: usize) -> bool
    ensures { IsTrue result → gap.start ≤ at }
{
    most < at.saturating_sub(gap.start as usize)
}

/// If the gap is empty, opens one at the end with half the free places, but at most one more than a
/// sixteenth of the list. Its places hold copies of `element`.
fn opened<T: Copy>(places: &mut Vec<T>, gap: Gap, element: T) -> Gap
    requires gap { IsGapOf places.old.items gap }
    requires room { HasRoom places.old (length (listed places.old.items gap)) }
    ensures items { listed places.new.items result ≡ listed places.old.items gap }
    ensures fits { IsGapOf places.new.items result }
    ensures some { 0 < result.gone }
    ensures capacity { vec_capacity places.new ≡ vec_capacity places.old }
{
    if gap.gone > 0 {
        return gap;
    }
    let len = places.len();
    let free = places.capacity().min(4294967295) - len;
    let gone = ((free + 1) / 2).min(1 + len / 16);
    'copies: for copy in 0..gone {
        places.push_reserved(element);
    }
    Gap {
        start: len as u32,
        gone: gone as u32,
    }
}

/// Inserts an element after the gap, without moving the gap.
fn inserted_behind<T: Copy>(places: &mut Vec<T>, gap: Gap, at: usize, element: T)
    requires gap { IsGapOf places.old.items gap }
    requires room { HasRoom places.old (length places.old.items) }
    requires behind { gap.start ≤ at }
    requires within { at ≤ length (listed places.old.items gap) }
    ensures items { listed places.new.items gap ≡ insert (listed places.old.items gap) at element }
    ensures fits { IsGapOf places.new.items gap }
    ensures capacity { vec_capacity places.new ≡ vec_capacity places.old }
{
    let put = places.insert(at + gap.gone as usize, element);
    prove!(put.is_ok());
}

/// Inserts an element the faster way: into the gap, or by shifting the elements after its position.
pub(crate) fn inserted<T: Copy>(places: &mut Vec<T>, gap: Gap, at: usize, element: T) -> Gap
    requires gap { IsGapOf places.old.items gap }
    requires room { HasRoom places.old (length (listed places.old.items gap)) }
    requires within { at ≤ length (listed places.old.items gap) }
    ensures items { listed places.new.items result ≡ insert (listed places.old.items gap) at element }
    ensures fits { IsGapOf places.new.items result }
    ensures capacity { vec_capacity places.new ≡ vec_capacity places.old }
{
    let len = count(places, gap);
    if at == len {
        return pushed(places, gap, element);
    }
    if is_far(gap, at, len - at) && has_room(places) {
        inserted_behind(places, gap, at, element);
        return gap;
    }
    let gap = opened(places, gap, element);
    filled(places, gap, at, element)
}

/// Removes an element after the gap, without moving the gap.
fn removed_behind<T: Copy>(places: &mut Vec<T>, gap: Gap, at: usize)
    requires gap { IsGapOf places.old.items gap }
    requires behind { gap.start ≤ at }
    requires within { at < length (listed places.old.items gap) }
    ensures items { listed places.new.items gap ≡ remove (listed places.old.items gap) at }
    ensures fits { IsGapOf places.new.items gap }
    ensures capacity { vec_capacity places.new ≡ vec_capacity places.old }
{
    places.remove(at + gap.gone as usize);
}

/// Removes an element by moving the gap up to it and widening the gap by its place.
fn widened<T: Copy>(places: &mut Vec<T>, gap: Gap, at: usize) -> Gap
    requires gap { IsGapOf places.old.items gap }
    requires within { at < length (listed places.old.items gap) }
    ensures items { listed places.new.items result ≡ remove (listed places.old.items gap) at }
    ensures fits { IsGapOf places.new.items result }
    ensures capacity { vec_capacity places.new ≡ vec_capacity places.old }
{
    let gap = moved(places, gap, at);
    Gap {
        start: gap.start,
        gone: gap.gone + 1,
    }
}

/// Removes an element the faster way, and drops the gap if it is then at the end. Moving the gap may move
/// twice as many elements as shifting would, since the next removal is usually nearby.
pub(crate) fn removed<T: Copy>(places: &mut Vec<T>, gap: Gap, at: usize) -> Gap
    requires gap { IsGapOf places.old.items gap }
    requires within { at < length (listed places.old.items gap) }
    ensures items { listed places.new.items result ≡ remove (listed places.old.items gap) at }
    ensures fits { IsGapOf places.new.items result }
    ensures capacity { vec_capacity places.new ≡ vec_capacity places.old }
{
    if gap.gone > 0 && is_far(gap, at, (count(places, gap) - at) * 2) {
        removed_behind(places, gap, at);
        return gap;
    }
    let gap = widened(places, gap, at);
    trimmed(places, gap)
}

/// Makes room for one more element if there is no room yet.
pub(crate) fn reserved<T: Copy>(places: &mut Vec<T>, gap: Gap) -> Result<Gap, AllocError>
    requires { IsGapOf places.old.items gap }
    ensures ok { IfOk result (λ now. (listed places.new.items now ≡ listed places.old.items gap)
        × IsGapOf places.new.items now × HasRoom places.new (length (listed places.new.items now))) }
    ensures err { OnErr result ((places.new.items ≡ places.old.items) × (vec_capacity places.new ≡ vec_capacity places.old)) }
    ensures kept { vec_capacity places.old ≤ vec_capacity places.new }
{
    if has_room(places) {
        return Ok(gap);
    }
    with_more_room(places, gap)
}

/// Makes room by closing the gap if that has more than a 64th of the places, or else by allocating. It
/// fails if memory runs out or the list has 2^32 - 1 elements.
#[cold]
#[inline(never)]
fn with_more_room<T: Copy>(places: &mut Vec<T>, gap: Gap) -> Result<Gap, AllocError>
    requires { IsGapOf places.old.items gap }
    ensures ok { IfOk result (λ now. (listed places.new.items now ≡ listed places.old.items gap)
        × IsGapOf places.new.items now × HasRoom places.new (length (listed places.new.items now))) }
    ensures err { OnErr result ((places.new.items ≡ places.old.items) × (vec_capacity places.new ≡ vec_capacity places.old)) }
    ensures kept { vec_capacity places.old ≤ vec_capacity places.new }
{
    let len = places.len();
    if gap.gone as usize > len / 64 {
        return Ok(closed(places, gap));
    }
    if len == 4294967295 {
        return if gap.gone > 0 {
            Ok(closed(places, gap))
        } else {
            Err(AllocError)
        };
    }
    places.reserve_exact(len.max(2))?;
    Ok(gap)
}
