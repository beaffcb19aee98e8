//! Searches without a branch on what they compare.
//!
//! Of a list that isn't long the length alone decides how many items are compared. The first
//! comparison leaves one item less than a power of two. Each further one leaves half of that, so its
//! step is a constant in the compiled code, and a level takes few instructions.
//!
//! Of a longer list whose items are read fast, each comparison selects the half in which it goes on.
ghost use Rattle.std.specs.Prelude.{◌≡◌, ◌+◌, ◌-◌, ◌*◌, ◌^◌, ◌<◌, ◌≤◌, length, min};
ghost use Rattle.range_merge.specs.Boundaries.{IsAscending};
ghost use Rattle.range_merge.specs.Counting.{AddsAtMost};
ghost use Rattle.range_merge.specs.Runs.{digits};
ghost use Rattle.range_merge.specs.Searching.{IsAnswer, IsNarrowed, IsSearched};

use crate::compare::Compare;
use std::hint::select_unpredictable;

/// How many items at the front of a list are known to be at or below a key, and whether one of them
/// is equal to it.
#[derive(Clone, Copy)]
pub(crate) struct AtOrBelow {
    pub(crate) len: usize,
    pub(crate) has_equal: bool,
}

/// The items at or below `key`, of a list that isn't long.
#[inline(always)]
pub(crate) fn count_branchless<K, C: Compare<K>>(items: &[K], key: &K, cmp: &mut C) -> AtOrBelow
    requires ascending { IsAscending C.order items.now }
    requires short { length items.now < 2 ^ 17 }
    requires made { C.count cmp.old < 2 ^ 127 }
    ensures front { IsSearched C.order items.now key.now
        result.len result.len result.has_equal }
    ensures comparisons { AddsAtMost (C.count cmp.old) (C.count cmp.new)
        (digits (length items.now)) }
{
    if items.len() < 4 {
        return count_few(items, key, cmp);
    }
    let levels = items.len().ilog2();
    let front = first_comparison(items, key, cmp, levels);
    let front = four_levels(items, key, cmp, front, levels, 12);
    let front = four_levels(items, key, cmp, front, levels, 8);
    let front = four_levels(items, key, cmp, front, levels, 4);
    four_levels(items, key, cmp, front, levels, 0)
}

// The same of at most three items, where all steps are known.
#[inline(always)]
fn count_few<K, C: Compare<K>>(items: &[K], key: &K, cmp: &mut C) -> AtOrBelow
    requires ascending { IsAscending C.order items.now }
    requires few { length items.now < 4 }
    requires made { C.count cmp.old < 2 ^ 127 }
    ensures front { IsSearched C.order items.now key.now
        result.len result.len result.has_equal }
    ensures comparisons { AddsAtMost (C.count cmp.old) (C.count cmp.new)
        (digits (length items.now)) }
{
    let none = AtOrBelow {
        len: 0,
        has_equal: false,
    };
    match items.len() {
        0 => none,
        1 => step(items, key, cmp, none, 0),
        _ => {
            let front = first_comparison(items, key, cmp, 1);
            step(items, key, cmp, front, 0)
        }
    }
}

// Leaves `2 ^ levels - 1` items: those before the item that is compared, or as many at the list's
// end.
#[inline(always)]
fn first_comparison<K, C: Compare<K>>(items: &[K], key: &K, cmp: &mut C, levels: u32) -> AtOrBelow
    requires ascending { IsAscending C.order items.now }
    requires few { levels < 17 }
    requires at_most { 2 ^ levels ≤ length items.now }
    requires below { length items.now < 2 * 2 ^ levels }
    requires made { C.count cmp.old < 2 ^ 128 - 1 }
    ensures narrowed { IsNarrowed C.order items.now key.now result.len
        (2 ^ levels - 1) result.has_equal }
    ensures counted { C.count cmp.new ≡ C.count cmp.old + 1 }
{
    let power = 1usize << levels;
    let past = items.len() - power + 1;
    let how = cmp.compare(&items[power - 1], key);
    AtOrBelow {
        // A shift by the result would make each search wait for the one before.
        len: select_unpredictable(how.is_le(), past, 0),
        has_equal: how.is_eq(),
    }
}

// Those of the four levels from `bits` on that the list has. One look at its length skips all four.
#[inline(always)]
fn four_levels<K, C: Compare<K>>(
    items: &[K],
    key: &K,
    cmp: &mut C,
    front: AtOrBelow,
    levels: u32,
    bits: u32,
) -> AtOrBelow
    requires ascending { IsAscending C.order items.now }
    requires few { bits < 13 }
    requires made { C.count cmp.old < 2 ^ 128 - 5 }
    requires short { length items.now < 2 ^ 17 }
    requires narrowed { IsNarrowed C.order items.now key.now front.len
        (2 ^ min levels (bits + 4) - 1) front.has_equal }
    ensures narrowed { IsNarrowed C.order items.now key.now result.len
        (2 ^ min levels bits - 1) result.has_equal }
    ensures counted { C.count cmp.new + min levels bits ≡ C.count cmp.old + min levels (bits + 4) }
{
    if levels <= bits {
        return front;
    }
    let front = level(items, key, cmp, front, levels, bits + 3);
    let front = level(items, key, cmp, front, levels, bits + 2);
    let front = level(items, key, cmp, front, levels, bits + 1);
    level(items, key, cmp, front, levels, bits)
}

// Leaves `2 ^ bits - 1` items, if more are left.
#[inline(always)]
fn level<K, C: Compare<K>>(
    items: &[K],
    key: &K,
    cmp: &mut C,
    front: AtOrBelow,
    levels: u32,
    bits: u32,
) -> AtOrBelow
    requires ascending { IsAscending C.order items.now }
    requires few { bits < 16 }
    requires made { C.count cmp.old < 2 ^ 128 - 1 }
    requires short { length items.now < 2 ^ 17 }
    requires narrowed { IsNarrowed C.order items.now key.now front.len
        (2 ^ min levels (bits + 1) - 1) front.has_equal }
    ensures narrowed { IsNarrowed C.order items.now key.now result.len
        (2 ^ min levels bits - 1) result.has_equal }
    ensures counted { C.count cmp.new + min levels bits ≡ C.count cmp.old + min levels (bits + 1) }
{
    if levels <= bits {
        return front;
    }
    step(items, key, cmp, front, bits)
}

// Compares the middle one of the items that are left.
#[inline(always)]
fn step<K, C: Compare<K>>(
    items: &[K],
    key: &K,
    cmp: &mut C,
    front: AtOrBelow,
    bits: u32,
) -> AtOrBelow
    requires ascending { IsAscending C.order items.now }
    requires few { bits < 16 }
    requires made { C.count cmp.old < 2 ^ 128 - 1 }
    requires short { length items.now < 2 ^ 17 }
    requires narrowed { IsNarrowed C.order items.now key.now front.len
        (2 ^ (bits + 1) - 1) front.has_equal }
    ensures narrowed { IsNarrowed C.order items.now key.now result.len
        (2 ^ bits - 1) result.has_equal }
    ensures counted { C.count cmp.new ≡ C.count cmp.old + 1 }
{
    let how = cmp.compare(&items[front.len + ((1usize << bits) - 1)], key);
    AtOrBelow {
        len: front.len + ((how.is_le() as usize) << bits),
        has_equal: front.has_equal | how.is_eq(),
    }
}

/// Whether the compiler selects without a branch.
pub(crate) const SELECTS: bool = true;

/// If it `finds`, the index of the item that is equal to `key`; in an `Err`, and else always, how
/// many items are at or below it.
#[inline(always)]
pub(crate) fn search_selecting<K, C: Compare<K>>(
    items: &[K],
    key: &K,
    cmp: &mut C,
    finds: bool,
) -> Result<usize, usize>
    requires ascending { IsAscending C.order items.now }
    requires made { C.count cmp.old < 2 ^ 127 }
    ensures answer { IsAnswer C.order items.now key.now finds result }
    ensures comparisons { AddsAtMost (C.count cmp.old) (C.count cmp.new)
        (digits (length items.now)) }
{
    let mut front = 0;
    let mut remaining = items.len();
    while remaining > 0 {
        let half = remaining / 2;
        let at = front + (remaining - half - 1);
        let how = cmp.compare(&items[at], key);
        if finds & how.is_eq() {
            return Ok(at);
        }
        front = select_unpredictable(how.is_le(), at + 1, front);
        remaining = half;
    }
    Err(front)
}
