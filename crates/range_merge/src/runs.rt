//! The first run of two lists, and how long it is.
//!
//! A run's length is found by doubled steps and then by halving.
ghost use Rattle.std.specs.Ordering.{ordering_reverse};
ghost use Rattle.std.specs.Prelude.{option_map, ◌≡◌, ◌+◌, ◌*◌, ◌^◌, ◌<◌, ◌≤◌, drop, length, Some, slice_get, ◌-◌, HoldsAt};
ghost use Rattle.range_merge.specs.Boundaries.{IsAscending};
ghost use Rattle.range_merge.specs.Counting.{AddsAtMost};
ghost use Rattle.range_merge.specs.Runs.{digits, run_len, runs};
ghost use Rattle.range_merge.specs.OneRun.{FirstsStand, ahead_of};
ghost use Rattle.range_merge.specs.declared.runs.Run.TheVariants.{Left, Right};
ghost use Rattle.std.specs.declared.cmp.Ordering.TheVariants.{Less, Greater};
ghost use Rattle.range_merge.specs.Galloping.{IsBracket, StandsAt};

use crate::compare::Compare;
use crate::indexed::Indexed;
use crate::merge_state::MergeState;
use std::cmp::Ordering;

/// The first run of two strictly sorted lists: the longest stretch of items of one side that all
/// stand before the other side's first item, or an item of each that are equal.
#[derive(Clone, Copy, Debug, PartialEq, Eq)]
pub enum Run {
    /// This number of items of the left list.
    Left(usize),
    /// This number of items of the right list.
    Right(usize),
    /// One item of each list, equal to one another.
    Both,
}

// The left list of a state.
#[derive_where(Clone, Copy)]
pub(crate) struct LeftOf<'a, S>(pub(crate) &'a S);

// The right list of a state.
#[derive_where(Clone, Copy)]
pub(crate) struct RightOf<'a, S>(pub(crate) &'a S);

impl<S: MergeState> Indexed<S::Item> for LeftOf<'_, S> {
    ghost items = { λ it. S.left it.0.now };

    #[inline(always)]
    fn len(&self) -> usize {
        self.0.a_len()
    }

    #[inline(always)]
    fn at(&self, i: usize) -> &S::Item {
        self.0.a_at(i)
    }
}

impl<S: MergeState> Indexed<S::Item> for RightOf<'_, S> {
    ghost items = { λ it. S.right it.0.now };

    #[inline(always)]
    fn len(&self) -> usize {
        self.0.b_len()
    }

    #[inline(always)]
    fn at(&self, i: usize) -> &S::Item {
        self.0.b_at(i)
    }
}

/// The first run of the unread lists of `state`.
///
/// Both lists must be strictly sorted, with at least one item. For a run of `n` items it makes at
/// most twice as many comparisons as `n` has binary digits.
#[inline(always)]
pub fn run_length<S: MergeState, C: Compare<S::Item>>(state: &S, cmp: &mut C) -> Run
    requires left_some { 0 < length (S.left state.now) }
    requires right_some { 0 < length (S.right state.now) }
    requires left_ascending { IsAscending C.order (S.left state.now) }
    requires right_ascending { IsAscending C.order (S.right state.now) }
    requires made { C.count cmp.old < 2 ^ 127 }
    ensures first { slice_get (runs C.order (S.left state.now) (S.right state.now)) 0 ≡
        Some result }
    ensures comparisons { AddsAtMost (C.count cmp.old) (C.count cmp.new)
        (2 * digits (run_len result)) }
{
    let a = state.a_at(0);
    let b = state.b_at(0);
    match cmp.compare(a, b) {
        Ordering::Less => Run::Left(gallop(&LeftOf(state), b, cmp).len),
        Ordering::Equal => Run::Both,
        Ordering::Greater => Run::Right(gallop(&RightOf(state), a, cmp).len),
    }
}

/// How the two unread items at index `i` stand to one another, if both lists have one.
#[inline(always)]
pub(crate) fn order_at<S: MergeState, C: Compare<S::Item>>(
    state: &S,
    i: usize,
    cmp: &mut C,
) -> Option<Ordering>
    requires made { C.count cmp.old < 2 ^ 127 }
    ensures firsts { FirstsStand C.order (drop i (S.left state.now)) (drop i (S.right state.now))
        result }
    ensures comparisons { C.count cmp.new ≡ C.count cmp.old + ahead_of result }
{
    if i < state.a_len() && i < state.b_len() {
        return Some(cmp.compare(state.a_at(i), state.b_at(i)));
    }
    None
}

/// How the second of two items stands to the first, where it is known how the first stands to the
/// second.
#[inline(always)]
pub(crate) fn reversed(how: Option<Ordering>) -> Option<Ordering>
    ensures { result ≡ option_map ordering_reverse how }
{
    match how {
        None => None,
        Some(how) => Some(how.reverse()),
    }
}

/// How many items at the start of a side are below a key, and how the item after them stands to the
/// key, if there is one.
#[derive(Clone, Copy)]
pub(crate) struct Below {
    pub(crate) len: usize,
    pub(crate) next: Option<Ordering>,
}

// The item before `low` is known to be below a key, and the one at `high`, if there is one, not to
// be: it stands to the key as `next` says.
struct Bracket {
    low: usize,
    high: usize,
    next: Option<Ordering>,
}

/// How many items at the front of a side are below `key`, where the first is known to be.
///
/// For a result of `n` it makes at most twice as many comparisons as `n` has binary digits, less
/// one. Most runs are of one item, so the second is looked at before any step is doubled.
#[inline(always)]
pub(crate) fn gallop<K, L: Indexed<K>, C: Compare<K>>(side: &L, key: &K, cmp: &mut C) -> Below
    requires some { 0 < length (L.items side.now) }
    requires first { HoldsAt (λ y. C.order y key.now ≡ Less) (L.items side.now) 0 }
    requires made { C.count cmp.old + 2 ^ 66 < 2 ^ 128 }
    ensures bracket { IsBracket C.order (L.items side.now) key.now result.len result.len }
    ensures next { StandsAt C.order (L.items side.now) key.now result.len result.next }
    ensures comparisons { AddsAtMost (C.count cmp.old) (C.count cmp.new)
        (2 * digits result.len - 1) }
{
    if side.len() < 2 {
        return Below { len: 1, next: None };
    }
    let second = cmp.compare(side.at(1), key);
    if !second.is_lt() {
        return Below {
            len: 1,
            next: Some(second),
        };
    }
    let known = doubled(side, key, cmp);
    halved(side, key, known, cmp)
}

// Looks at the places 3, 7, 15, .. until one is not below the key or the list ends, where the
// second item is known to be below it.
#[inline(always)]
fn doubled<K, L: Indexed<K>, C: Compare<K>>(side: &L, key: &K, cmp: &mut C) -> Bracket
    requires some { 1 < length (L.items side.now) }
    requires second { HoldsAt (λ y. C.order y key.now ≡ Less) (L.items side.now) 1 }
    requires made { C.count cmp.old + 2 ^ 65 < 2 ^ 128 }
    ensures bracket { IsBracket C.order (L.items side.now) key.now result.low result.high }
    ensures next { StandsAt C.order (L.items side.now) key.now result.high result.next }
    ensures narrow { digits (result.high - result.low) + 1 ≤ digits result.low }
    ensures comparisons { AddsAtMost (C.count cmp.old) (C.count cmp.new) (digits result.low - 1) }
{
    let len = side.len();
    let mut low = 2;
    while low <= len / 2 {
        let place = 2 * low - 1;
        let how = cmp.compare(side.at(place), key);
        if !how.is_lt() {
            return Bracket {
                low,
                high: place,
                next: Some(how),
            };
        }
        low *= 2;
    }
    Bracket {
        low,
        high: len,
        next: None,
    }
}

// Halves a bracket until it is empty, which is where the items below the key end.
#[inline(always)]
fn halved<K, L: Indexed<K>, C: Compare<K>>(side: &L, key: &K, known: Bracket, cmp: &mut C) -> Below
    requires bracket { IsBracket C.order (L.items side.now) key.now known.low known.high }
    requires next { StandsAt C.order (L.items side.now) key.now known.high known.next }
    requires made { C.count cmp.old + 2 ^ 64 < 2 ^ 128 }
    ensures bracket { IsBracket C.order (L.items side.now) key.now result.len result.len }
    ensures next { StandsAt C.order (L.items side.now) key.now result.len result.next }
    ensures onward { known.low ≤ result.len }
    ensures comparisons { AddsAtMost (C.count cmp.old) (C.count cmp.new)
        (digits (known.high - known.low)) }
{
    let Bracket {
        mut low,
        mut high,
        mut next,
    } = known;
    while low < high {
        let mid = low + (high - low) / 2;
        let how = cmp.compare(side.at(mid), key);
        if how.is_lt() {
            low = mid + 1;
        } else {
            high = mid;
            next = Some(how);
        }
    }
    Below { len: low, next }
}
