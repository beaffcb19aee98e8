//! One range put into a set or taken out of it, in a buffer of the caller's.
//!
//! The start and the end are searched for. What stands between gives way to those of the two at
//! which the set changes, and what comes after moves once.
ghost use Rattle.std.specs.Prelude.{◌≡◌, ◌+◌, ◌<◌, ◌≤◌, ◌++◌, ◌^◌, length, take, drop};
ghost use Rattle.std.specs.Option.{option_to_list};
ghost use Rattle.range_collections.specs.Boundaries.{IsAscending};
ghost use Rattle.range_collections.specs.Connective.{union_table, difference_table};
ghost use Rattle.range_collections.specs.Splicing.{range_table, spliced};
ghost use Rattle.range_collections.specs.Ranges.{range_items};
ghost use Rattle.range_c.specs.InPlace.{ChangesList};

use range_collections::{Comparisons, cut_at, has_elements};

// Puts the numbers from `start` to below `end` into the set of the first `len` boundaries, and
// returns how many it has then. Where the buffer has no room for them it is as it was.
pub(crate) fn insert<T: Ord + Copy>(buffer: &mut [T], len: usize, start: T, end: T) -> usize
    requires within { len ≤ length buffer.old }
    requires fits { len + 2 < 2 ^ 64 }
    requires sorted { IsAscending T.cmp (take len buffer.old) }
    ensures { ChangesList T.cmp union_table (take len buffer.old)
        (range_items T.cmp start end) buffer.old buffer.new result }
{
    set_range(buffer, len, start, end, true)
}

// Takes the numbers from `start` to below `end` out of the set of the first `len` boundaries, and
// returns how many it has then. Where the buffer has no room for them it is as it was.
pub(crate) fn remove<T: Ord + Copy>(buffer: &mut [T], len: usize, start: T, end: T) -> usize
    requires within { len ≤ length buffer.old }
    requires fits { len + 2 < 2 ^ 64 }
    requires sorted { IsAscending T.cmp (take len buffer.old) }
    ensures { ChangesList T.cmp difference_table (take len buffer.old)
        (range_items T.cmp start end) buffer.old buffer.new result }
{
    set_range(buffer, len, start, end, false)
}

// Leaves at the front of the buffer the set of its first `len` boundaries, with the numbers from
// `start` to below `end` as members where `inside` is true, and else as no members. It returns how
// many boundaries that are. Where the buffer has no room for them it is as it was.
fn set_range<T: Ord + Copy>(buffer: &mut [T], len: usize, start: T, end: T, inside: bool) -> usize
    requires within { len ≤ length buffer.old }
    requires fits { len + 2 < 2 ^ 64 }
    requires sorted { IsAscending T.cmp (take len buffer.old) }
    ensures { ChangesList T.cmp (range_table inside) (take len buffer.old)
        (range_items T.cmp start end) buffer.old buffer.new result }
{
    if !has_elements(&start, &end, &mut Comparisons::new()) {
        return len;
    }
    let (set, _room) = buffer.split_at(len);
    let (from, first) = cut_at(set, start, inside, &mut Comparisons::new());
    let (to, last) = cut_at(set, end, inside, &mut Comparisons::new());
    splice(buffer, len, from, to, first, last)
}

// Replaces those of the first `len` items that stand between `from` and `to` by the start and the
// end, where they are given. It returns how many items that are. Where the buffer has no room for
// them it is as it was.
fn splice<T: Copy>(
    buffer: &mut [T],
    len: usize,
    from: usize,
    to: usize,
    start: Option<T>,
    end: Option<T>,
) -> usize
    requires ordered { from ≤ to }
    requires within { to ≤ len }
    requires room { len ≤ length buffer.old }
    requires fits { len + 2 < 2 ^ 64 }
    ensures counted { result ≡ length (spliced (take len buffer.old) from to start end) }
    ensures items { result ≤ length buffer.old →
        take result buffer.new ≡ spliced (take len buffer.old) from to start end }
    ensures unchanged { length buffer.old < result → buffer.new ≡ buffer.old }
{
    let after = from + count(&start) + count(&end);
    let needed = after + (len - to);
    if needed > buffer.len() {
        return needed;
    }
    buffer.copy_within(to..len, after);
    let next = overwrite(buffer, from, start);
    overwrite(buffer, next, end);
    needed
}

#[inline(always)]
fn count<T>(item: &Option<T>) -> usize
    ensures value { result ≡ length (option_to_list item.now) }
    ensures few { result ≤ 1 }
{
    match item {
        Some(_) => 1,
        None => 0,
    }
}

// Replaces the item at index `at` by this one, if there is one. Returns the index after it.
#[inline(always)]
pub(crate) fn overwrite<T: Copy>(items: &mut [T], at: usize, item: Option<T>) -> usize
    requires { at + length (option_to_list item) ≤ length items.old }
    ensures items { items.new ≡
        take at items.old ++ (option_to_list item ++ drop result items.old) }
    ensures after { result ≡ at + length (option_to_list item) }
{
    match item {
        Some(item) => {
            items[at] = item;
            at + 1
        }
        None => at,
    }
}
