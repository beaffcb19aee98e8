//! The set of many ranges, in any order.
//!
//! Ranges that come in the order of their starts go to the end of one list. From the first that
//! doesn't on they are put aside, unless the list still lies in the set itself. The starts and the
//! ends of these are sorted apart: the ranges from the first start to the first end, from the
//! second to the second, and so on, have the same elements, and come in order.
//!
//! ```text
//! add_copy: a borrowed range, copied
//!     add: an owned range; one at the end of all others goes to `put_at_end` at once
//!         add_anywhere: any other, to `put_range` or aside
//!             put_range: one for the list, also if it was aside
//!                 put_ends: with an end, to `put`, which calls `put_at_end` or `put_within`
//!                 put_from: without an end, a set of its own, to `add_all`
//! ```
ghost use Rattle.std.specs.Prelude.{◌≡◌, ◌+◌, ◌≤◌, ◌<◌, true, List, ◌∷◌, ◌++◌, [], length, take, drop, All, IsTrue, IsOk, IfOk, OnOk, Ok, IfSome, ◌↔◌};
ghost use Rattle.std.specs.List.{flat_map};
ghost use Rattle.std.specs.List.Sorted.{IsPermutation, IsSorted, IsStable};
ghost use Rattle.std.specs.Option.{option_to_list};
ghost use Rattle.std.specs.declared.cmp.Ordering.TheVariants.{Less};
ghost use Rattle.range_merge.specs.Boundaries.{IsAscending};
ghost use Rattle.range_merge.specs.Connective.{Means, union_table};
ghost use Rattle.range_collections.specs.InPlace.{AreOwnElseOf};
ghost use Rattle.range_collections.specs.ManyRanges.{EndsBefore, GivesOwn, IsAddedOwn, NoneStartsAbove, IsRangeAdded, IsUnderway, IsUnderwayByCopies, pairs_of, starts_of, ends_of};
ghost use Rattle.range_collections.specs.Ranges.{range_boundaries, range_items, range_start};
ghost use Rattle.range_collections.specs.Unions.{GivesUnion};
ghost use Rattle.range_collections.specs.declared.range_set_range.RangeSetRange.{RangeSetRange as Ranged};

use crate::changes::Splice;
use crate::comparisons::Comparisons;
use crate::range_set::RangeSet;
use crate::range_set::at_end::{cut_near_end, put_at_end, touches_end};
use crate::range_set::joining::joined;
use crate::range_set_range::{RangeSetRange, has_elements};
use range_entry::EntryClone;
use range_merge::{Indexed, UnionOp};
use smallvec::SmallVec;
use std::alloc::{AllocError, Global};
use std::default::MadeWith;
use std::ops::{Range, RangeFrom};

// The elements that lie in at least one of the ranges.
pub(super) fn set_of_ranges<T: EntryClone + MadeWith<Global> + Drop, const N: usize>(
    alloc: Global,
    ranges: &[RangeSetRange<T>],
) -> Result<RangeSet<T, N>, AllocError>
    ensures { GivesUnion T.cmp T.is_copy T.is_infallible (range_boundaries T.cmp) N
        ranges.now result }
{
    let mut set = RangeSet::empty(alloc);
    let mut aside = Aside::new(alloc);
    for i in 0..ranges.len() {
        add_copy(&mut set, &mut aside, &ranges[i])?;
    }
    finished(alloc, set, aside)
}

// Adds a copy of the range, if it has elements.
fn add_copy<T: EntryClone + MadeWith<Global> + Drop, const N: usize>(
    set: &mut RangeSet<T, N>,
    aside: &mut Aside<T>,
    range: &RangeSetRange<T>,
) -> Result<(), AllocError>
    ensures underway { (ranges : List (Ranged T)) →
        IsUnderwayByCopies T.cmp T.is_copy N ranges set.old aside.old.starts.items aside.old.ends.items →
        OnOk result (IsUnderwayByCopies T.cmp T.is_copy N (ranges ++ range.now ∷ []) set.new
        aside.new.starts.items aside.new.ends.items) }
    ensures succeeds { (ranges : List (Ranged T)) →
        IsUnderwayByCopies T.cmp T.is_copy N ranges set.old aside.old.starts.items aside.old.ends.items →
        length (flat_map (range_boundaries T.cmp) (ranges ++ range.now ∷ [])) ≤ N →
        All T.is_infallible (range_boundaries T.cmp range.now) → IsOk result }
{
    if range.len() == 0 {
        return Ok(());
    }
    add(set, aside, range.as_ref().cloned()?)
}

// Ranges that were put aside: where they start, and where those of them end that have an end.
#[derive(Drop)]
pub(crate) struct Aside<T> {
    pub(crate) starts: Vec<T>,
    pub(crate) ends: Vec<T>,
}

impl<T: Ord + Drop> Aside<T> {
    // None was put aside.
    pub(crate) fn new(alloc: Global) -> Self
        ensures starts { result.starts.items ≡ [] }
        ensures ends { result.ends.items ≡ [] }
    {
        Aside {
            starts: Vec::new(alloc),
            ends: Vec::new(alloc),
        }
    }

    // Whether no range that has elements was put aside.
    fn is_empty(&self) -> bool
        ensures { IsTrue result ↔ (length self.now.starts.items ≡ 0) }
    {
        self.starts.is_empty()
    }

    // Puts a range aside, if it has elements.
    fn push(&mut self, range: RangeSetRange<T>) -> Result<(), AllocError>
        ensures starts { OnOk result (self.new.starts.items ≡
            self.old.starts.items ++ take 1 (range_boundaries T.cmp range)) }
        ensures ends { OnOk result (self.new.ends.items ≡
            self.old.ends.items ++ drop 1 (range_boundaries T.cmp range)) }
        ensures succeeds { length (range_boundaries T.cmp range) ≡ 0 → IsOk result }
    {
        match range {
            RangeSetRange::Range(range) => self.push_range(range),
            RangeSetRange::RangeFrom(range) => {
                self.starts.push(range.start)?;
                Ok(())
            }
        }
    }

    // Puts a range with an end aside, if it has elements.
    fn push_range(&mut self, range: Range<T>) -> Result<(), AllocError>
        ensures starts { OnOk result (self.new.starts.items ≡
            self.old.starts.items ++ take 1 (range_items T.cmp range.start range.end)) }
        ensures ends { OnOk result (self.new.ends.items ≡
            self.old.ends.items ++ drop 1 (range_items T.cmp range.start range.end)) }
        ensures succeeds { length (range_items T.cmp range.start range.end) ≡ 0 → IsOk result }
    {
        let Range { start, end } = range;
        if has_elements(&start, &end, &mut Comparisons::new()) {
            self.starts.push(start)?;
            self.ends.push(end)?;
        }
        Ok(())
    }
}

// Adds the elements of the range to the set, or puts it aside. In a caller's loop lies only what a
// range at the end of all others takes.
#[inline(always)]
pub(crate) fn add<T: Ord + MadeWith<Global> + Drop, const N: usize>(
    set: &mut RangeSet<T, N>,
    aside: &mut Aside<T>,
    range: RangeSetRange<T>,
) -> Result<(), AllocError>
    ensures { IsRangeAdded T.cmp N range set.old aside.old set.new aside.new result }
{
    match range {
        RangeSetRange::Range(range) => match touches_last(set, aside, &range) {
            Some(touches) => put_at_end(&mut set.list, touches, range.start, range.end),
            None => add_anywhere(set, aside, RangeSetRange::Range(range)),
        },
        RangeSetRange::RangeFrom(range) => add_anywhere(
            set,
            aside,
            RangeSetRange::RangeFrom(range),
        ),
    }
}

// Adds the elements of the range to the set, or puts it aside, wherever it belongs.
#[inline(never)]
fn add_anywhere<T: Ord + MadeWith<Global> + Drop, const N: usize>(
    set: &mut RangeSet<T, N>,
    aside: &mut Aside<T>,
    range: RangeSetRange<T>,
) -> Result<(), AllocError>
    ensures { IsRangeAdded T.cmp N range set.old aside.old set.new aside.new result }
{
    if aside.is_empty() && takes(set, &range) {
        put_range(set, range)
    } else {
        aside.push(range)
    }
}

// Whether the range touches the set's last one. `None` if it doesn't come at the end of all others,
// or has no elements.
#[inline(always)]
fn touches_last<T: Ord + Drop, const N: usize>(
    set: &RangeSet<T, N>,
    aside: &Aside<T>,
    range: &Range<T>,
) -> Option<bool>
    ensures none_aside { IfSome result (λ _. length aside.now.starts.items ≡ 0) }
    ensures ends { IfSome result (λ touches. EndsBefore T.cmp touches set.now range.now.start) }
    ensures less { IfSome result (λ _. T.cmp range.now.start range.now.end ≡ Less) }
{
    if !aside.is_empty() {
        return None;
    }
    let touches = touches_end(set.boundaries(), &range.start)?;
    if has_elements(&range.start, &range.end, &mut Comparisons::new()) {
        Some(touches)
    } else {
        None
    }
}

// Whether the range goes to the set: this lies in the value itself, or the range comes in order.
#[inline(always)]
fn takes<T: Ord, const N: usize>(set: &RangeSet<T, N>, range: &RangeSetRange<T>) -> bool
    ensures room { length set.now < N → result ≡ true }
    ensures in_order { N ≤ length set.now →
        IsTrue result ↔ NoneStartsAbove T.cmp set.now (range_start range.now) }
{
    let items = set.boundaries();
    if items.len() < N {
        return true;
    }
    none_starts_above(items, start_of(range))
}

// Whether no range of the set with these boundaries starts above the element.
#[inline(always)]
fn none_starts_above<T: Ord>(items: &[T], at: &T) -> bool
    requires { IsAscending T.cmp items.now }
    ensures { IsTrue result ↔ NoneStartsAbove T.cmp items.now at.now }
{
    let len = items.len();
    if len == 0 {
        return true;
    }
    let last = (len - 1) / 2 * 2;
    items[last].cmp(at).is_le()
}

// Where the range starts.
#[inline(always)]
fn start_of<T>(range: &RangeSetRange<T>) -> &T
    ensures { result.now ≡ range_start range.now }
{
    match range {
        RangeSetRange::Range(range) => &range.start,
        RangeSetRange::RangeFrom(range) => &range.start,
    }
}

// The union of the set and the ranges that were put aside.
pub(crate) fn finished<T: Ord + MadeWith<Global> + Drop, const N: usize>(
    alloc: Global,
    set: RangeSet<T, N>,
    aside: Aside<T>,
) -> Result<RangeSet<T, N>, AllocError>
    ensures { (ranges : List (Ranged T)) →
        IsUnderway T.cmp N ranges set aside.starts.items aside.ends.items →
        GivesOwn T.cmp N ranges result }
{
    if aside.is_empty() {
        return Ok(set);
    }
    let that = of_aside(alloc, aside)?;
    joined(set, that, &mut Comparisons::new())
}

// The union of the ranges that were put aside.
fn of_aside<T: Ord + MadeWith<Global> + Drop, const N: usize>(
    alloc: Global,
    aside: Aside<T>,
) -> Result<RangeSet<T, N>, AllocError>
    ensures { (ranges : List (Ranged T)) → aside.starts.items ≡ starts_of T.cmp ranges →
        aside.ends.items ≡ ends_of T.cmp ranges →
        IfOk result (λ set. GivesOwn T.cmp N ranges (Ok set)) }
{
    let Aside { starts, ends } = aside;
    let starts = sorted(alloc, starts)?;
    let ends = sorted(alloc, ends)?;
    of_pairs(alloc, starts, ends)
}

// The items in order. Equal ones stay in the order in which they stood.
fn sorted<T: Ord + Drop>(alloc: Global, items: Vec<T>) -> Result<Vec<T>, AllocError>
    ensures permutation { IfOk result (λ sorted. IsPermutation items.items sorted.items) }
    ensures sorted { IfOk result (λ sorted. IsSorted T.cmp sorted.items) }
    ensures stable { IfOk result (λ sorted. IsStable T.cmp items.items sorted.items) }
{
    let mut items = items;
    items.as_mut_slice().sort(alloc)?;
    Ok(items)
}

// The union of the ranges from the first start to the first end, from the second to the second, and
// so on. A start for which no end is left has a range without one.
fn of_pairs<T: Ord + MadeWith<Global> + Drop, const N: usize>(
    alloc: Global,
    starts: Vec<T>,
    ends: Vec<T>,
) -> Result<RangeSet<T, N>, AllocError>
    ensures { IfOk result (λ set. GivesOwn T.cmp N (pairs_of starts.items ends.items) (Ok set)) }
{
    let mut set = RangeSet::empty(alloc);
    let mut left = ends.into_iter();
    for start in starts {
        put_range(&mut set, from_to(start, left.next()))?;
    }
    Ok(set)
}

// The range from the start on, up to the end if there is one.
fn from_to<T>(start: T, end: Option<T>) -> RangeSetRange<T>
    ensures { result ∷ [] ≡ pairs_of (start ∷ []) (option_to_list end) }
{
    match end {
        Some(end) => RangeSetRange::Range(Range { start, end }),
        None => RangeSetRange::RangeFrom(RangeFrom { start }),
    }
}

// Adds the elements of the range.
#[inline(always)]
fn put_range<T: Ord + MadeWith<Global> + Drop, const N: usize>(
    set: &mut RangeSet<T, N>,
    range: RangeSetRange<T>,
) -> Result<(), AllocError>
    ensures { IsAddedOwn T.cmp N set.old (range_boundaries T.cmp range) set.new result }
{
    match range {
        RangeSetRange::Range(range) => put_ends(&mut set.list, range),
        RangeSetRange::RangeFrom(range) => put_from(set, range),
    }
}

// Adds the elements of a range with an end.
#[inline(always)]
fn put_ends<T: Ord + MadeWith<Global> + Drop, const N: usize>(
    list: &mut SmallVec<T, N>,
    range: Range<T>,
) -> Result<(), AllocError>
    requires { IsAscending T.cmp list.old.items }
    ensures sorted { IsAscending T.cmp list.new.items }
    ensures added { IsAddedOwn T.cmp N list.old.items (range_items T.cmp range.start range.end)
        list.new.items result }
{
    let Range { start, end } = range;
    if !has_elements(&start, &end, &mut Comparisons::new()) {
        return Ok(());
    }
    put(list, start, end)
}

// Adds the elements of a range without an end.
fn put_from<T: Ord + MadeWith<Global> + Drop, const N: usize>(
    set: &mut RangeSet<T, N>,
    range: RangeFrom<T>,
) -> Result<(), AllocError>
    ensures { IsAddedOwn T.cmp N set.old (range.start ∷ []) set.new result }
{
    let that = RangeSet::from_range_from(*set.list.allocator(), range)?;
    add_all(set, that)
}

// Adds the members of the other set.
fn add_all<T: Ord + MadeWith<Global> + Drop, const N: usize>(
    set: &mut RangeSet<T, N>,
    that: RangeSet<T, N>,
) -> Result<(), AllocError>
    ensures means { OnOk result (Means T.cmp union_table set.new set.old that) }
    ensures left_own_item { OnOk result (AreOwnElseOf T.cmp set.old that set.new) }
    ensures succeeds { length set.old + length that ≤ N → IsOk result }
{
    match set.merge_owned(that, &UnionOp, &mut Comparisons::new()) {
        Ok(()) => Ok(()),
        Err((error, _)) => Err(error),
    }
}

// Adds the elements from the start up to the end to the set with these boundaries.
#[inline(always)]
fn put<T: Ord + MadeWith<Global> + Drop, const N: usize>(
    list: &mut SmallVec<T, N>,
    start: T,
    end: T,
) -> Result<(), AllocError>
    requires sorted { IsAscending T.cmp list.old.items }
    requires less { T.cmp start end ≡ Less }
    ensures sorted { IsAscending T.cmp list.new.items }
    ensures means { OnOk result (Means T.cmp union_table list.new.items list.old.items
        (start ∷ end ∷ [])) }
    ensures left_own_item { OnOk result (AreOwnElseOf T.cmp list.old.items
        (start ∷ end ∷ []) list.new.items) }
    ensures succeeds { length list.old.items + 2 ≤ N → IsOk result }
{
    match touches_end(list.as_slice(), &start) {
        Some(touches) => put_at_end(list, touches, start, end),
        None => put_within(list, start, end),
    }
}

// Adds the elements from the start up to the end, wherever they lie among those of the set.
fn put_within<T: Ord + MadeWith<Global> + Drop, const N: usize>(
    list: &mut SmallVec<T, N>,
    start: T,
    end: T,
) -> Result<(), AllocError>
    requires sorted { IsAscending T.cmp list.old.items }
    requires less { T.cmp start end ≡ Less }
    ensures sorted { IsAscending T.cmp list.new.items }
    ensures means { OnOk result (Means T.cmp union_table list.new.items list.old.items
        (start ∷ end ∷ [])) }
    ensures left_own_item { OnOk result (AreOwnElseOf T.cmp list.old.items
        (start ∷ end ∷ []) list.new.items) }
    ensures succeeds { length list.old.items + 2 ≤ N → IsOk result }
{
    let (from, start) = cut_near_end(list.as_slice(), start);
    let (to, end) = cut_near_end(list.as_slice(), end);
    list.splice(from, to, start, end)
}
