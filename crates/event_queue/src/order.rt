//! The events of a place in their order.
ghost use Rattle.std.specs.Prelude.{◌≡◌, ◌+◌, ◌*◌, ◌^◌, ◌<◌, ◌≤◌, IfOk, OnOk, OnErr, drop, false, length};
ghost use Rattle.std.specs.List.{All, slice_get};
ghost use Rattle.shared_rows.specs.Table.{IsPlace};
ghost use Rattle.shared_rows.specs.Rows.{IsSound, rows_at};
ghost use Rattle.event_queue.specs.Queue.{placed, priority_of, rank_of};
ghost use Rattle.event_queue.specs.Inside.{AreCounted, HasEvents, HasWaiting, IsCountBelow, IsSeat, count_of, events_at, is_dropped, number_of, waiting};

use crate::event::{Event, NUMBERS, QueuedEvent};
use crate::object_counts::ObjectCounts;
use shared_rows::{Numbered, SharedRows};
use std::alloc::AllocError;

/// Puts an event after those of its priority or a higher one, and before those of a lower one.
pub(crate) fn place_event(
    rows: &mut SharedRows<QueuedEvent>,
    place: usize,
    event: Event,
) -> Result<(), AllocError>
    requires { IsPlace rows.old place }
    ensures ok { OnOk result (HasEvents rows.old rows.new place (placed event (events_at rows.old place))) }
    ensures err { OnErr result (rows.new ≡ rows.old) }
{
    let start = event.priority().rank() * NUMBERS;
    let next = after_last(rows, place);
    if next > start + NUMBERS {
        return insert_event(rows, place, event, start);
    }
    if next == start + NUMBERS {
        return Err(AllocError);
    }
    let number = next.saturating_sub(start);
    rows.push(place, QueuedEvent { number, event })?;
    Ok(())
}

/// The number after that of the last event, or 0 if the place has none. It is above the numbers of all events.
fn after_last(rows: &SharedRows<QueuedEvent>, place: usize) -> u64
    requires { IsPlace rows.now place }
    ensures { All (λ keyed. number_of keyed.row < result) (rows_at rows.now place) }
{
    let len = rows.len(place);
    if len == 0 {
        return 0;
    }
    let (_, last) = rows.at(place, len - 1);
    last.number() + 1
}

/// Puts an event before those of a lower priority. `start` is the first number of its own priority.
#[inline(never)]
fn insert_event(
    rows: &mut SharedRows<QueuedEvent>,
    place: usize,
    event: Event,
    start: u64,
) -> Result<(), AllocError>
    requires place { IsPlace rows.old place }
    requires start { start ≡ rank_of (priority_of event) * 2 ^ 62 }
    ensures ok { OnOk result (HasEvents rows.old rows.new place (placed event (events_at rows.old place))) }
    ensures err { OnErr result (rows.new ≡ rows.old) }
{
    let before = count_below(rows, place, start + NUMBERS);
    let number = next_number(rows, place, before, start)?;
    rows.insert(place, QueuedEvent { number, event })?;
    Ok(())
}

/// How many events of the place have a number below this one. They come before all others.
fn count_below(rows: &SharedRows<QueuedEvent>, place: usize, number: u64) -> usize
    requires { IsPlace rows.now place }
    ensures count { IsCountBelow (rows_at rows.now place) number result }
    ensures sound { IsSound number_of (rows_at rows.now place) }
{
    let mut low = 0;
    let mut high = rows.len(place);
    // Usually all of them do, so the last one is checked first.
    let mut at = high.saturating_sub(1);
    'looks: while low < high {
        let (_, posted) = rows.at(place, at);
        if posted.number() < number {
            low = at + 1;
        } else {
            high = at;
        }
        at = low + (high - low) / 2;
    }
    low
}

/// A number, relative to `start`, for a new event of the priority whose numbers begin at `start`. It is
/// above the numbers of all queued events of that priority, which are before the position `before`. It
/// fails if the numbers are used up.
fn next_number(
    rows: &SharedRows<QueuedEvent>,
    place: usize,
    before: usize,
    start: u64,
) -> Result<u64, AllocError>
    requires place { IsPlace rows.now place }
    requires sound { IsSound number_of (rows_at rows.now place) }
    requires start { start ≤ 2 * 2 ^ 62 }
    requires before { IsCountBelow (rows_at rows.now place) (start + 2 ^ 62) before }
    ensures few { IfOk result (λ number. number < 2 ^ 62) }
    ensures seat { IfOk result (λ number. IsSeat (rows_at rows.now place) (start + number) (start + 2 ^ 62)) }
{
    if before == 0 {
        return Ok(0);
    }
    let (_, last) = rows.at(place, before - 1);
    let next = last.number() + 1;
    if next == start + NUMBERS {
        return Err(AllocError);
    }
    Ok(next.saturating_sub(start))
}

/// Takes out the first event of the place that waits, and the rows of dropped ones before it.
pub(crate) fn take_first(
    rows: &mut SharedRows<QueuedEvent>,
    objects: &mut ObjectCounts,
    place: usize,
) -> Option<Event>
    requires place { IsPlace rows.old place }
    requires counted { AreCounted objects.old (events_at rows.old place) }
    ensures first { result ≡ slice_get (waiting objects.old (events_at rows.old place)) 0 }
    ensures rest { HasWaiting rows.old rows.new place objects.old objects.new (drop 1 (waiting objects.old (events_at rows.old place))) }
{
    'rows: while let Some(event) = take_row(rows, place) {
        let was_dropped = objects.subtract(event.object());
        if !was_dropped {
            return Some(event);
        }
    }
    None
}

/// Takes out the event of the first row.
fn take_row(rows: &mut SharedRows<QueuedEvent>, place: usize) -> Option<Event>
    requires { IsPlace rows.old place }
    ensures first { result ≡ slice_get (events_at rows.old place) 0 }
    ensures rest { HasEvents rows.old rows.new place (drop 1 (events_at rows.old place)) }
{
    if rows.len(place) == 0 {
        return None;
    }
    let (key, _) = rows.at(place, 0);
    Some(rows.remove(place, key).event)
}

/// Sweeps out dropped events if some are the object's, so that a new event of the object can wait. `queued`
/// events wait: if there are no more rows than that, none is dropped, and the object is not looked up.
pub(crate) fn make_way(
    rows: &mut SharedRows<QueuedEvent>,
    objects: &mut ObjectCounts,
    place: usize,
    object: u32,
    queued: usize,
)
    requires place { IsPlace rows.old place }
    requires counted { AreCounted objects.old (events_at rows.old place) }
    requires queued { queued ≡ length (waiting objects.old (events_at rows.old place)) }
    ensures rest { HasWaiting rows.old rows.new place objects.old objects.new (waiting objects.old (events_at rows.old place)) }
    ensures way { 0 < count_of objects.new object → is_dropped objects.new object ≡ false }
{
    if rows.len(place) > queued && objects.count(object).is_dropped {
        sweep(rows, objects, place);
    }
}

/// Takes out the rows of all dropped events, from the last row to the first.
pub(crate) fn sweep(rows: &mut SharedRows<QueuedEvent>, objects: &mut ObjectCounts, place: usize)
    requires place { IsPlace rows.old place }
    requires counted { AreCounted objects.old (events_at rows.old place) }
    ensures rest { HasWaiting rows.old rows.new place objects.old objects.new (waiting objects.old (events_at rows.old place)) }
    ensures all { events_at rows.new place ≡ waiting objects.old (events_at rows.old place) }
{
    'rows: for position in (0..rows.len(place)).rev() {
        let (key, posted) = rows.at(place, position);
        let object = posted.event.object();
        if objects.count(object).is_dropped {
            drop(rows.remove(place, key));
            objects.subtract(object);
        }
    }
}
