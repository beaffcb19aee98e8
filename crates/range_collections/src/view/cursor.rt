//! Values looked up in a view one after another, each from where the last one was found.
ghost use Rattle.std.specs.Prelude.{◌≡◌, ◌+◌, ◌-◌, ◌*◌, ◌<◌, ◌≤◌, ◌^◌, length, min, max};
ghost use Rattle.std.proofs.Props.{props};
ghost use Rattle.range_merge.specs.Boundaries.{IsAscending, count_up_to, member};
ghost use Rattle.range_merge.specs.Counting.{AddsAtMost};
ghost use Rattle.range_merge.specs.Runs.{digits};

use crate::comparisons::Comparisons;
use crate::lists::is_odd;
use crate::view::RangeSetRef;
use range_merge::{Compare, MergeState, Run, count_up_to, run_length};
use std::alloc::AllocError;

/// A view that looks up values one after another, and keeps its place: each search begins where the
/// last one ended.
///
/// Values may come in any order. In ascending order, and close to one another, each takes a few
/// comparisons, however many boundaries there are; in no order `contains` of the view is faster.
///
/// ```text
/// let mut open = hours.cursor();       // of RangeSet{9..13, 15..20}
/// open.contains(&12)                   // true
/// open.contains(&14)                   // false
/// ```
pub struct Cursor<'a, T: Ord> {
    /// The view.
    pub set: RangeSetRef<'a, T>,
    /// How many boundaries are at or below the last value.
    pub place: usize,
    pub ghost within: { place ≤ length set.boundaries.now } by { Prim.hlevel props },
}

impl<'a, T: Ord> Clone for Cursor<'a, T> {
    ghost is_clone = { λ cursor copied. (copied.set.boundaries ≡ cursor.set.boundaries)
        × (copied.place ≡ cursor.place) };

    ghost is_infallible = { λ _. Unit {0} };

    /// A cursor of the same view, at the same place.
    #[inline(always)]
    fn clone(&self) -> Result<Self, AllocError> {
        Ok(*self)
    }
}

impl<'a, T: Ord> Copy for Cursor<'a, T> {}

impl<'a, T: Ord> RangeSetRef<'a, T> {
    /// A cursor of this view, before its first boundary.
    #[inline(always)]
    pub fn cursor(&self) -> Cursor<'a, T>
        ensures view { result.set ≡ self.now }
        ensures place { result.place ≡ 0 }
    {
        Cursor {
            set: *self,
            place: 0,
        }
    }
}

impl<'a, T: Ord> Cursor<'a, T> {
    /// Whether `value` is a member of the view.
    #[inline]
    pub fn contains(&mut self, value: &T) -> bool
        ensures member { result ≡ member T.cmp self.old.set.boundaries.now value.now }
        ensures unchanged { self.new.set ≡ self.old.set }
        ensures place { self.new.place ≡
            count_up_to T.cmp self.old.set.boundaries.now value.now }
    {
        self.contains_counted(value, &mut Comparisons::new())
    }

    /// The same as `contains`, counted: at most `2 d + 2` comparisons, where `d` is the number of
    /// binary digits of the number of boundaries that the place passes, or of all boundaries if it
    /// goes back.
    #[inline]
    pub fn contains_counted(&mut self, value: &T, count: &mut Comparisons) -> bool
        requires { count.old < 2 ^ 64 }
        ensures member { result ≡ member T.cmp self.old.set.boundaries.now value.now }
        ensures unchanged { self.new.set ≡ self.old.set }
        ensures place { self.new.place ≡
            count_up_to T.cmp self.old.set.boundaries.now value.now }
        ensures onward { self.old.place ≤ self.new.place → AddsAtMost count.old count.new
            (2 * digits (self.new.place - self.old.place) + 2) }
        ensures comparisons { AddsAtMost count.old count.new
            (2 * digits (length self.old.set.boundaries.now) + 2) }
    {
        let place = count_from(self.set.boundaries, self.place, value, count);
        *self = Cursor {
            set: self.set,
            place,
        };
        is_odd(place)
    }
}

// How many boundaries are at or below `value`, looked for from a place on.
#[inline(always)]
fn count_from<T: Ord>(items: &[T], place: usize, value: &T, count: &mut Comparisons) -> usize
    requires ascending { IsAscending T.cmp items.now }
    requires within { place ≤ length items.now }
    requires made { count.old < 2 ^ 64 }
    ensures value { result ≡ count_up_to T.cmp items.now value.now }
    ensures onward { place ≤ result → AddsAtMost count.old count.new
        (2 * digits (result - place) + 2) }
    ensures comparisons { AddsAtMost count.old count.new (2 * digits (length items.now) + 2) }
{
    let (before, rest) = items.split_at(place);
    let ahead = count_ahead(rest, value, count);
    if ahead > 0 {
        return place + ahead;
    }
    match before.last() {
        Some(last) if count.compare(last, value).is_gt() => count_up_to(items, value, count),
        _ => place,
    }
}

// How many of the boundaries are at or below `value`. Most often it is none or one, so the first two
// are looked at before any step is doubled.
#[inline(always)]
fn count_ahead<T: Ord>(items: &[T], value: &T, count: &mut Comparisons) -> usize
    requires ascending { IsAscending T.cmp items.now }
    requires made { count.old < 2 ^ 64 }
    ensures value { result ≡ count_up_to T.cmp items.now value.now }
    ensures comparisons { AddsAtMost count.old count.new (2 * digits result + 1 + min 1 result) }
{
    match items.split_first() {
        Some((first, rest)) if !count.compare(first, value).is_gt() => {
            1 + count_run(rest, value, count)
        }
        _ => 0,
    }
}

// The same, by the run of the boundaries that are below `value`.
#[inline(always)]
fn count_run<T: Ord>(items: &[T], value: &T, count: &mut Comparisons) -> usize
    requires ascending { IsAscending T.cmp items.now }
    requires made { count.old < 2 ^ 65 }
    ensures value { result ≡ count_up_to T.cmp items.now value.now }
    ensures comparisons { AddsAtMost count.old count.new (max 2 (2 * digits result + 1)) }
{
    if items.is_empty() {
        return 0;
    }
    match run_length(&Ahead { items, value }, count) {
        Run::Left(n) => match items.get(n) {
            Some(next) if count.compare(next, value).is_eq() => n + 1,
            _ => n,
        },
        Run::Right(_) => 0,
        Run::Both => 1,
    }
}

// Boundaries, and beside them one value.
#[derive(Drop)]
struct Ahead<'a, 'v, T> {
    items: &'a [T],
    value: &'v T,
}

impl<'a, 'v, T> MergeState for Ahead<'a, 'v, T> {
    ghost use Rattle.std.specs.Prelude.{[], ◌∷◌};

    type Item = T;

    ghost left = { λ s. s.items.now };

    ghost right = { λ s. s.value.now ∷ [] };

    #[inline(always)]
    fn a_len(&self) -> usize {
        self.items.len()
    }

    #[inline(always)]
    fn b_len(&self) -> usize {
        1
    }

    #[inline(always)]
    fn a_at(&self, i: usize) -> &T {
        &self.items[i]
    }

    #[inline(always)]
    fn b_at(&self, _i: usize) -> &T {
        self.value
    }
}
