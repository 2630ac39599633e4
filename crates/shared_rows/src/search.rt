//! The search.
ghost use Rattle.std.specs.Prelude.{◌≡◌, ◌≤◌, Bool, false, length, true};
ghost use Rattle.std.specs.Fn.{ComputesKey};
ghost use Rattle.std.specs.List.Sorted.{IsPartitionPoint, IsPartitionedBy};
ghost use Rattle.shared_rows.specs.Gap.{IsGapOf, listed};

use crate::gap::{Gap, count, read};

/// How many elements pass, by halves.
pub(crate) fn point<T: Copy, P: FnMut(&T) -> bool>(places: &Vec<T>, gap: Gap, mut pred: P) -> usize
    requires gap { IsGapOf places.now.items gap }
    requires callable { P.IsAlwaysCallable pred }
    ensures bound { result ≤ length (listed places.now.items gap) }
    ensures partitioned { (p : T → Bool) → ComputesKey P.FnMut p pred → IsPartitionedBy p (listed places.now.items gap)
        → IsPartitionPoint (λ y. p y ≡ true) (λ y. p y ≡ false) (listed places.now.items gap) result }
{
    let mut size = count(places, gap);
    if size == 0 {
        return 0;
    }
    let mut base = 0;
    'halves: while size > 1 {
        let half = size / 2;
        let middle = base + half;
        if pred(read(places, gap, middle)) {
            base = middle;
            size -= half;
        } else {
            size -= half;
        }
    }
    if pred(read(places, gap, base)) {
        base + 1
    } else {
        base
    }
}
