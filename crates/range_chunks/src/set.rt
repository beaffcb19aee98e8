//! The set: strictly sorted boundaries in a list in chunks.
ghost use Rattle.std.specs.Prelude.{◌≡◌, ◌↔◌, ◌&&◌, ◌||◌, ◌∷◌, [], not, true, false, IsTrue, IfSome, IfNone, OnOk};
ghost use Rattle.std.specs.Ordering.{is_le, is_lt};
ghost use Rattle.range_merge.specs.Boundaries.{member};
ghost use Rattle.range_merge.specs.Connective.{union_table, difference_table};
ghost use Rattle.range_collections.specs.Extent.{HasAllWithin, IsNext};
ghost use Rattle.range_collections.specs.Insertion.{IsChangedByRange};
ghost use Rattle.range_collections.specs.Intersects.{HasMemberWithin};
ghost use Rattle.range_collections.specs.Ranges.{range_items};

mod changing;
mod combining;
mod counted;
mod fitting;
mod joining;
mod making;
mod many_ranges;
mod many_sets;
mod members;
mod ranges;
mod reading;
mod relations;
mod several;
mod taking;
mod values;

use crate::iter::Iter;
use range_collections::Comparisons;
use range_collections::questions::{has_some, next_at};
use range_list::Chunks;
use std::alloc::{AllocError, Global};
use std::marker::Model;
use std::ops::{Range, RangeFrom};

/// A set of values that is changed range by range, and may grow to millions of ranges.
///
/// As in a `RangeSet`, an element is a member if an odd number of boundaries is at or below it, and
/// the boundaries are always strictly sorted. They lie in chunks of at most 512, so a change moves
/// those of one chunk, and now and then the list of chunks. A clause reads a set as the list of its
/// boundaries.
///
/// ```text
/// let mut pieces = ChunkedRangeSet::new(alloc);
/// pieces.insert(40..50)?;
/// pieces.insert(10..20)?;
/// pieces.remove(12..15)?;
/// pieces.contains(&16)                 // true
/// ```
///
/// A range has its start and not its end; an empty or reversed range has no members. Of two equal
/// boundaries the set's own stays. If memory runs out, the set has the boundaries that it had.
/// Nothing is copied but by `from_view`, `from_ranges`, `clone` and operations with a view.
///
/// A chunk that is left with fewer than 128 is joined with a neighbour whose list has room for both,
/// so a set that shrinks gives its chunks back. It takes no memory.
///
/// Among `c` chunks a search makes at most `d(c) + 10` comparisons, where `d` counts binary digits.
/// `contains`, `range_at`, `next_member`, `next_gap` and calls with a range without an end search
/// once. So do `contains_range` and `intersects_range`, with two comparisons more. Other calls with a
/// range search at most twice, after one comparison of its ends. A change searches once if no
/// boundary lies between its ends. Calls with a counter, as `insert_counted`, promise it of
/// the number of boundaries in the place of `c`.
pub struct ChunkedRangeSet<T: Ord> {
    list: Chunks<T, bool>,
}

// By hand: a call is proved once, and a derived drop anew at each exit of each function that owns a
// set.
impl<T: Ord + Drop> Drop for ChunkedRangeSet<T> {
    #[inline]
    fn drop(self) {
        let Self { list: _list } = self;
    }
}

impl<T: Ord> Model for ChunkedRangeSet<T> {
    ghost use Rattle.std.specs.Prelude.{List};
    ghost use Rattle.std.specs.Coded.{coded_list};
    ghost use Rattle.range_merge.specs.Boundaries.{IsAscending};
    ghost use Rattle.range_list.specs.Lists.{joined};

    ghost Value = { List T };

    ghost coded = { coded_list T.code };

    ghost view = { λ set. joined set.list };

    ghost invariant = { λ set. IsAscending T.cmp (joined set.list) };
}

impl<T: Ord> ChunkedRangeSet<T> {
    /// The empty set. It takes no memory.
    #[inline]
    pub fn new(alloc: Global) -> Self
        ensures boundaries { result ≡ [] }
        ensures members { (x : T) → member T.cmp result x ≡ false }
    {
        ChunkedRangeSet {
            list: Chunks::new(alloc),
        }
    }

    /// Whether `value` is a member: an odd number of boundaries is at or below it.
    #[inline]
    pub fn contains(&self, value: &T) -> bool
        ensures { result ≡ member T.cmp self.now value.now }
    {
        self.contains_counted(value, &mut Comparisons::new())
    }

    /// The least member at or above `from`, or `None` if there is none: `from` itself, or else the
    /// start of the next range.
    #[inline]
    pub fn next_member<'a>(&'a self, from: &'a T) -> Option<&'a T>
        ensures next { IfSome result (λ next. IsNext T.cmp true self.now from.now next.now) }
        ensures none { IfNone result ((x : T) →
            is_le (T.cmp from.now x) ≡ true → member T.cmp self.now x ≡ false) }
    {
        next_at(&self.list, from, true)
    }

    /// The least element at or above `from` that isn't a member: `from` itself, or else the end of
    /// the range that holds it, or `None` if that range has no end.
    #[inline]
    pub fn next_gap<'a>(&'a self, from: &'a T) -> Option<&'a T>
        ensures next { IfSome result (λ next. IsNext T.cmp false self.now from.now next.now) }
        ensures none { IfNone result ((x : T) →
            is_le (T.cmp from.now x) ≡ true → member T.cmp self.now x ≡ true) }
    {
        next_at(&self.list, from, false)
    }

    /// The ranges, from the lowest on. The last one may have no end.
    #[inline]
    pub fn iter(&self) -> Iter<'_, T>
        ensures { result ≡ self.now }
    {
        Iter::new(&self.list)
    }

    /// Whether the set is empty.
    #[inline]
    pub fn is_empty(&self) -> bool
        ensures { IsTrue result ↔ ((x : T) → member T.cmp self.now x ≡ false) }
    {
        self.list.is_empty()
    }
}

impl<T: Ord + Drop> ChunkedRangeSet<T> {
    /// Whether every element of the range is a member. It is `true` for an empty or reversed range.
    #[inline]
    pub fn contains_range(&self, range: Range<T>) -> bool
        ensures { IsTrue result ↔ HasAllWithin T.cmp self.now range.start range.end }
    {
        self.contains_range_counted(range, &mut Comparisons::new())
    }

    /// Whether some member lies in the range. It is `false` for an empty or reversed range.
    #[inline]
    pub fn intersects_range(&self, range: Range<T>) -> bool
        ensures { IsTrue result ↔ HasMemberWithin T.cmp self.now range.start range.end }
    {
        has_some(&self.list, &range.start, &range.end)
    }

    /// Adds the elements of the range. An empty or reversed range changes nothing. Of two equal
    /// boundaries, this set's own stays.
    ///
    /// It asks for memory only if the set grows by two boundaries, and before it changes anything.
    /// If that fails, the set has the boundaries that it had and the range is dropped.
    pub fn insert(&mut self, range: Range<T>) -> Result<(), AllocError>
        ensures changed { IsChangedByRange T.cmp union_table 0
            self.old (range_items T.cmp range.start range.end) self.new result }
        ensures members { OnOk result ((x : T) → member T.cmp self.new x ≡
            (member T.cmp self.old x || (is_le (T.cmp range.start x) && is_lt (T.cmp x range.end)))) }
    {
        self.insert_counted(range, &mut Comparisons::new())
    }

    /// Removes the elements of the range. An empty or reversed range changes nothing. Of two equal
    /// boundaries, this set's own stays.
    ///
    /// It asks for memory only if the set grows by two boundaries, and before it changes anything.
    /// If that fails, the set has the boundaries that it had and the range is dropped.
    pub fn remove(&mut self, range: Range<T>) -> Result<(), AllocError>
        ensures changed { IsChangedByRange T.cmp difference_table 0
            self.old (range_items T.cmp range.start range.end) self.new result }
        ensures members { OnOk result ((x : T) → member T.cmp self.new x ≡
            (member T.cmp self.old x && not (is_le (T.cmp range.start x) && is_lt (T.cmp x range.end)))) }
    {
        self.remove_counted(range, &mut Comparisons::new())
    }

    /// Adds the elements from the start on. Of two equal boundaries, this set's own stays.
    ///
    /// It asks for memory only if the set grows by a boundary, and before it changes anything. If
    /// that fails, the set has the boundaries that it had and the start is dropped.
    pub fn insert_from(&mut self, range: RangeFrom<T>) -> Result<(), AllocError>
        ensures changed { IsChangedByRange T.cmp union_table 0
            self.old (range.start ∷ []) self.new result }
        ensures members { OnOk result ((x : T) → member T.cmp self.new x ≡
            (member T.cmp self.old x || is_le (T.cmp range.start x))) }
    {
        self.insert_from_counted(range, &mut Comparisons::new())
    }

    /// Removes the elements from the start on. Of two equal boundaries, this set's own stays.
    ///
    /// It asks for memory only if the set grows by a boundary, which it does if its last range has
    /// no end and holds the start, and before it changes anything. If that fails, the set has the
    /// boundaries that it had and the start is dropped.
    pub fn remove_from(&mut self, range: RangeFrom<T>) -> Result<(), AllocError>
        ensures changed { IsChangedByRange T.cmp difference_table 0
            self.old (range.start ∷ []) self.new result }
        ensures members { OnOk result ((x : T) → member T.cmp self.new x ≡
            (member T.cmp self.old x && not (is_le (T.cmp range.start x)))) }
    {
        self.remove_from_counted(range, &mut Comparisons::new())
    }

    /// Removes all elements. It keeps the room for the list of chunks.
    pub fn clear(&mut self)
        ensures boundaries { self.new ≡ [] }
        ensures members { (x : T) → member T.cmp self.new x ≡ false }
    {
        self.list.clear();
    }
}
