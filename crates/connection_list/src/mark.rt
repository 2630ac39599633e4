//! The connections of two objects are sorted by marks.
ghost use Rattle.std.specs.Prelude.{◌≡◌, ◌≤◌};
ghost use Rattle.connection_list.specs.Marks.{callee_mark, mark_of, marks_of, one_mark, signal_mark};

use plain_types::Callee;

/// The least and the greatest mark of some connections. A mark is made of a connection's signal and callee: equal
/// ones have the same mark, and the marks of a signal are adjacent. Different ones have different marks up to 65,535
/// signals, 32,767 methods and 32,767 functors.
#[derive(Clone, Copy)]
pub(crate) struct Marks {
    pub(crate) least: u32,
    pub(crate) greatest: u32,
}

/// The mark of connections of a signal to a callee.
pub(crate) fn mark_of(signal: u32, callee: Callee) -> u32
    ensures { result ≡ mark_of signal callee }
{
    signal_mark(signal) + callee_mark(callee)
}

/// The bits that a signal adds to a mark.
fn signal_mark(signal: u32) -> u32
    ensures mark { result ≡ signal_mark signal }
    ensures bound { result ≤ 4294901760 }
{
    65536 * signal.min(65535)
}

/// The bits that a callee adds to a mark.
fn callee_mark(callee: Callee) -> u32
    ensures mark { result ≡ callee_mark callee }
    ensures bound { result ≤ 65535 }
{
    match callee {
        Callee::Method(index) => index.min(32767),
        Callee::Functor(index) => 32768 + index.min(32767),
    }
}

/// Only this mark.
pub(crate) fn one_mark(mark: u32) -> Marks
    ensures { result ≡ one_mark mark }
{
    Marks {
        least: mark,
        greatest: mark,
    }
}

/// The marks of connections of a signal, and to a method if one is named. If no signal is named, they have any.
pub(crate) fn marks_of(signal: Option<u32>, method: Option<u32>) -> Option<Marks>
    ensures { result ≡ marks_of signal method }
{
    match (signal, method) {
        (None, _) => None,
        (Some(signal), None) => {
            let least = signal_mark(signal);
            Some(Marks {
                least,
                greatest: least + 65535,
            })
        }
        (Some(signal), Some(index)) => Some(one_mark(mark_of(signal, Callee::Method(index)))),
    }
}
