//! Searches in a strictly sorted list, at most as many comparisons long as the list's length has
//! binary digits.
ghost use Rattle.std.specs.Prelude.{◌≡◌, ◌^◌, ◌<◌, ◌≤◌, true, length, IfOk, IfErr, HoldsAt, IsTrue};
ghost use Rattle.std.specs.List.{AllWithin};
ghost use Rattle.std.specs.Ordering.{is_le};
ghost use Rattle.std.specs.declared.cmp.Ordering.TheVariants.{Less, Equal, Greater};
ghost use Rattle.range_merge.specs.Boundaries.{IsAscending};
ghost use Rattle.range_merge.specs.Counting.{AddsAtMost};
ghost use Rattle.range_merge.specs.Runs.{digits};
ghost use Rattle.range_merge.specs.Searching.{IsAnswer};

use crate::compare::Compare;
use crate::fast::branchless::{SELECTS, count_branchless, search_selecting};
use std::mem::size_of_val;

/// The index of the item that is equal to `key`, or in an `Err` the index where such an item would
/// go.
///
/// The items must be strictly sorted. It makes at most as many comparisons as `items.len()` has
/// binary digits.
#[inline(always)]
pub fn search<K, C: Compare<K>>(items: &[K], key: &K, cmp: &mut C) -> Result<usize, usize>
    requires ascending { IsAscending C.order items.now }
    requires made { C.count cmp.old < 2 ^ 127 }
    ensures found_within { IfOk result (λ i. i < length items.now) }
    ensures found { IfOk result (HoldsAt (λ y. C.order y key.now ≡ Equal) items.now) }
    ensures missing_within { IfErr result (λ i. i ≤ length items.now) }
    ensures missing_before { IfErr result (λ i.
        AllWithin (λ y. C.order y key.now ≡ Less) items.now 0 i) }
    ensures missing_from { IfErr result (λ i.
        AllWithin (λ y. C.order y key.now ≡ Greater) items.now i (length items.now)) }
    ensures comparisons { AddsAtMost (C.count cmp.old) (C.count cmp.new)
        (digits (length items.now)) }
{
    if !is_short(items, key, true) {
        return search_longer(items, key, cmp, true);
    }
    let front = count_branchless(items, key, cmp);
    if front.has_equal {
        Ok(front.len - 1)
    } else {
        Err(front.len)
    }
}

/// How many items are at or below `key`.
///
/// The items must be strictly sorted. It makes at most as many comparisons as `items.len()` has
/// binary digits.
#[inline]
pub fn count_up_to<K, C: Compare<K>>(items: &[K], key: &K, cmp: &mut C) -> usize
    requires ascending { IsAscending C.order items.now }
    requires made { C.count cmp.old < 2 ^ 127 }
    ensures within { result ≤ length items.now }
    ensures before { AllWithin (λ y. is_le (C.order y key.now) ≡ true) items.now 0 result }
    ensures from { AllWithin (λ y. C.order y key.now ≡ Greater)
        items.now result (length items.now) }
    ensures comparisons { AddsAtMost (C.count cmp.old) (C.count cmp.new)
        (digits (length items.now)) }
{
    if is_short(items, key, false) {
        return count_branchless(items, key, cmp).len;
    }
    match search_longer(items, key, cmp, false) {
        Ok(i) => i + 1,
        Err(i) => i,
    }
}

// The index of the item that is equal to `key`, or in an `Err` how many are at or below it. If it
// doesn't have to find an equal one, it may count it among these.
#[inline(always)]
fn search_longer<K, C: Compare<K>>(
    items: &[K],
    key: &K,
    cmp: &mut C,
    finds: bool,
) -> Result<usize, usize>
    requires ascending { IsAscending C.order items.now }
    requires made { C.count cmp.old < 2 ^ 127 }
    ensures answer { IsAnswer C.order items.now key.now finds result }
    ensures comparisons { AddsAtMost (C.count cmp.old) (C.count cmp.new)
        (digits (length items.now)) }
{
    if is_read_fast(items, key) {
        search_selecting(items, key, cmp, finds)
    } else {
        search_by_halves(items, key, cmp)
    }
}

// Whether a search steps by powers of two.
#[inline(always)]
fn is_short<K>(items: &[K], key: &K, finds: bool) -> bool
    ensures { IsTrue result → length items.now < 2 ^ 17 }
{
    is_word(key) && items.len() < fewest_halved(finds)
}

// From how many items on a search halves. From 2^14 on most places of steps share a few lines of a
// processor's cache. But a search that needn't find the equal item steps as fast up to 2^16.
#[inline(always)]
fn fewest_halved(finds: bool) -> usize
    ensures { result ≤ 2 ^ 17 }
{
    match (SELECTS, finds) {
        (true, true) => 1 << 14,
        (true, false) => (1 << 16) + 1,
        (false, _) => 1 << 17,
    }
}

// Whether the items are read fast: each, as `key`, is a word at most, and few lie outside of a
// processor's own cache. Where reading takes long, a branch that is guessed well, and reads ahead,
// is better than none.
#[inline(always)]
fn is_read_fast<K>(items: &[K], key: &K) -> bool {
    SELECTS && is_word(key) && items.len() < 1 << 18
}

/// Whether an item is a word at most, as numbers are. Longer items mostly point to what is
/// compared.
#[inline(always)]
pub(crate) fn is_word<K>(item: &K) -> bool {
    size_of_val(item) <= 8
}

/// The index of the item that is equal to `key`, or in an `Err` the index where such an item would
/// go.
pub(crate) fn search_by_halves<K, C: Compare<K>>(
    items: &[K],
    key: &K,
    cmp: &mut C,
) -> Result<usize, usize>
    requires ascending { IsAscending C.order items.now }
    requires made { C.count cmp.old < 2 ^ 127 }
    ensures answer { IsAnswer C.order items.now key.now true result }
    ensures comparisons { AddsAtMost (C.count cmp.old) (C.count cmp.new)
        (digits (length items.now)) }
{
    let mut low = 0;
    let mut high = items.len();
    while low < high {
        let mid = low + (high - low) / 2;
        let how = cmp.compare(&items[mid], key);
        if how.is_gt() {
            high = mid;
        } else if how.is_lt() {
            low = mid + 1;
        } else {
            return Ok(mid);
        }
    }
    Err(low)
}
