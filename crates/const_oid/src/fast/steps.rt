//! How many of the first items of a list pass a test, by galloping search: steps that grow, and then halves.

ghost use Rattle.std.specs.Prelude.{◌≡◌, ◌≤◌, Bool, length, true, false};
ghost use Rattle.std.specs.Fn.{ComputesKey};
ghost use Rattle.std.specs.List.Sorted.{IsPartitionPoint, IsPartitionedBy};

/// How many of the first items pass a test that no item passes after one that fails it.
///
/// A run of n items, one or more, takes at most 4/3 log2(n) + 7 tests, however many items follow.
pub(crate) fn gallop<T, P: FnMut(&T) -> bool>(items: &[T], mut test: P) -> usize
    requires { P.IsAlwaysCallable test }
    ensures within { result ≤ length items.now }
    ensures cut { (p : T → Bool) → ComputesKey P.FnMut p test → IsPartitionedBy p items.now
        → IsPartitionPoint (λ item. p item ≡ true) (λ item. p item ≡ false) items.now result }
{
    let mut start = 0;
    let mut place = 0;
    // Most runs are short: an empty one takes one test, a single item takes two, and up to nine items take seven.
    while place < items.len() && test(&items[place]) {
        start = place + 1;
        place = place.saturating_mul(8).saturating_add(1);
    }
    let end = place.min(items.len());
    start + items[start..end].partition_point(test)
}
