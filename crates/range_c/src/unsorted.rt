//! Sets from lists in any order, in place.
ghost use Rattle.std.specs.Prelude.{◌≡◌, ◌≤◌, length, take};
ghost use Rattle.std.specs.List.{dedup};
ghost use Rattle.range_collections.specs.Unsorted.{AreDistinctOf};

// Sorts the items and moves the distinct ones to the front, as many as it returns.
pub(crate) fn from_unsorted<T: Ord + Copy>(items: &mut [T]) -> usize
    ensures within { result ≤ length items.old }
    ensures distinct { AreDistinctOf T.cmp items.old (take result items.new) }
{
    items.sort_unstable();
    keep_distinct(items)
}

// Moves each item that differs from the one before it to the front, and counts them.
fn keep_distinct<T: PartialEq + Copy>(items: &mut [T]) -> usize
    ensures within { result ≤ length items.old }
    ensures distinct { take result items.new ≡ dedup T.eq items.old }
{
    if items.is_empty() {
        return 0;
    }
    let mut kept = 1;
    for i in 1..items.len() {
        let item = items[i];
        if item != items[kept - 1] {
            items[kept] = item;
            kept += 1;
        }
    }
    kept
}
