//! The index of a place, which finds its rows by their numbers.
ghost use Rattle.std.specs.Prelude.{◌-◌, ◌<◌, ◌≤◌, IfErr, IfOk, IfSome, IfNone};
ghost use Rattle.shared_rows.specs.Index.{IsAt, IsCountBelow, IsRisingIndex, IsWindow, HasNot};

use crate::GapBuffer;
use crate::number::Number;

/// A row, and the place that it belongs to.
#[derive(Drop)]
pub(crate) struct Slot<R> {
    pub(crate) place: usize,
    pub(crate) row: R,
}

/// The number of a row, and the key of its slot, which fill 8 bytes where numbers have 32 bits.
#[derive(Clone, Copy)]
pub(crate) struct Entry<N> {
    pub(crate) number: N,
    pub(crate) key: u32,
}

/// The positions where an entry may be: from `low` on and before `high`, most likely at `guess`.
#[derive(Clone, Copy)]
pub(crate) struct Window {
    low: usize,
    high: usize,
    guess: usize,
}

/// The position of the entry with a number. Two entries are no farther apart than their numbers are, and
/// exactly as far if there is an entry for each number between. So every entry that is read gives a guess
/// of the position, beginning with the first entry.
#[inline(always)]
pub(crate) fn position<N: Number>(entries: &GapBuffer<Entry<N>>, number: u64) -> Option<usize>
    requires { IsRisingIndex N.value entries.now.items }
    ensures found { IfSome result (IsAt N.value entries.now.items number) }
    ensures absent { IfNone result (HasNot N.value entries.now.items number) }
{
    let first = entries.first()?.number.value();
    if number < first {
        return None;
    }
    let high = entries.len();
    let guess = (number - first).min((high - 1) as u64) as usize;
    let window = Window {
        low: 0,
        high,
        guess,
    };
    match look(entries, number, window, guess) {
        Ok(at) => Some(at),
        Err(rest) => search(entries, number, rest),
    }
}

/// Searches a window, reading alternately at the guess and in the middle of what is left.
#[inline(never)]
fn search<N: Number>(
    entries: &GapBuffer<Entry<N>>,
    number: u64,
    mut window: Window,
) -> Option<usize>
    requires rising { IsRisingIndex N.value entries.now.items }
    requires window { IsWindow N.value entries.now.items number window }
    ensures found { IfSome result (IsAt N.value entries.now.items number) }
    ensures absent { IfNone result (HasNot N.value entries.now.items number) }
{
    let mut is_guess = true;
    'looks: while window.low < window.high {
        let at = if is_guess {
            window.guess
        } else {
            middle(window)
        };
        match look(entries, number, window, at) {
            Ok(at) => return Some(at),
            Err(rest) => window = rest,
        }
        is_guess = !is_guess;
    }
    None
}

/// The middle position of a window.
fn middle(window: Window) -> usize
    requires { window.low < window.high }
    ensures { (window.low ≤ result) × (result < window.high) }
{
    window.low + (window.high - window.low) / 2
}

/// Reads the entry at a position of a window: returns the position if it has the number, or a narrower window.
#[inline(always)]
fn look<N: Number>(
    entries: &GapBuffer<Entry<N>>,
    number: u64,
    window: Window,
    at: usize,
) -> Result<usize, Window>
    requires rising { IsRisingIndex N.value entries.now.items }
    requires window { IsWindow N.value entries.now.items number window }
    requires within { (window.low ≤ at) × (at < window.high) }
    ensures found { IfOk result (IsAt N.value entries.now.items number) }
    ensures rest { IfErr result (IsWindow N.value entries.now.items number) }
    ensures less { IfErr result (λ rest. rest.high - rest.low < window.high - window.low) }
{
    let there = entries.get(at).number.value();
    if there == number {
        return Ok(at);
    }
    if there < number {
        let behind = (number - there).min((window.high - 1 - at) as u64) as usize;
        return Err(Window {
            low: at + 1,
            high: at + behind + 1,
            guess: at + behind,
        });
    }
    let before = (there - number).min((at - window.low) as u64) as usize;
    Err(Window {
        low: at - before,
        high: at,
        guess: at - before,
    })
}

/// How many entries have a smaller number, which is the position where an entry with this number belongs.
pub(crate) fn count_below<N: Number>(entries: &GapBuffer<Entry<N>>, number: u64) -> usize
    requires { IsRisingIndex N.value entries.now.items }
    ensures { IsCountBelow N.value entries.now.items number result }
{
    match entries.last() {
        Some(last) if last.number.value() < number => entries.len(),
        _ => entries.partition_point(|entry| entry.number.value() < number),
    }
}
