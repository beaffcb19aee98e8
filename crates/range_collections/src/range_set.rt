//! A set that owns its strictly sorted list of boundaries.
//!
//! Sets are equal if their members are the same, which is that their boundaries are equal item by
//! item.
ghost use Rattle.std.specs.Prelude.{◌≡◌, ◌↔◌, [], IsSome, IfSome, IsTrue, ◌≤◌, IsOk, IfOk, All, length, false};
ghost use Rattle.std.specs.Cmp.Lexicographic.{pointwise, lists_per, lists_equiv};
ghost use Rattle.std.specs.List.{AllZip};
ghost use Rattle.range_merge.specs.Boundaries.{IsAscending, IsSameSet, member};
ghost use Rattle.range_collections.specs.Sets.{AreEqual};

mod at_end;
mod by_view;
mod constructors;
mod copying;
mod endless;
mod first_fit;
mod in_place;
mod insertion;
mod intersection_all;
mod joining;
pub(crate) mod many_ranges;
mod operations;
mod operators;
mod rank;
mod taking;
mod values;

use crate::comparisons::EntryCopier;
use crate::iter::Iter;
use crate::lists::is_ascending;
use crate::range_set_range::RangeSetRange;
use crate::view::RangeSetRef;
use copying::copied;
use range_entry::EntryClone;
use smallvec::SmallVec;
use std::alloc::{AllocError, Global};
use std::default::MadeWith;
use std::marker::Model;

/// A set of values, stored as the sorted list of boundaries between what is in it and what is not.
///
/// An element is a member if an odd number of boundaries is at or below it: `[0, 10, 20]` holds 0
/// to 9, and everything from 20 on. Boundaries are always strictly sorted, so two sets with the
/// same members have equal boundaries. Up to `N` boundaries lie in the value itself, and more in an
/// allocation. A clause reads a set as the list of its boundaries.
///
/// ```text
/// let day = RangeSet2::from_range(alloc, 9..17)?;
/// let mut busy = RangeSet2::from_range(alloc, 11..12)?;
/// busy.insert(15..18)?;
/// let free = (&day - &busy)?;            // RangeSet{9..11, 12..15}
/// free.contains(&14)                     // true
/// ```
///
/// A range has its start and not its end; an empty or reversed range has no members. Of two equal
/// boundaries the left set's stays. Calls fail only if an allocation or a copy of an element does.
/// A set that is changed in place is then as it was.
///
/// # Costs
///
/// `n` and `m` are the numbers of boundaries, `d(n)` is how many binary digits `n` has, and `w` is
/// the weight: the digits of the lengths of all runs, where a run is a longest stretch of
/// boundaries of one side alone. It is at most `n + m`, and for one range beside many boundaries
/// some `3 d(n)`.
///
/// | Calls | Comparisons, at most | Memory |
/// |---|---|---|
/// | `contains`, `range_at`, `split`, `next_member`, `next_gap`, `prev_member`, `prev_gap`, `rank` | `d(n)` | |
/// | `contains` of a cursor | `2 d(k) + 2` if its place passes `k` boundaries; `2 d(n) + 2` if it goes back | |
/// | `contains_range` | `d(n) + 2` | |
/// | `gaps`, `ranges_within`, `overlapping` | `2 d(n) + 1` | |
/// | `intersects_range` | `d(n) + 2` | |
/// | `first_fit`, `first_fit_count`, `first_fit_aligned`, `first_run` | `2 d(n) + 1`, then two numbers a boundary | |
/// | `iter`, `members`, `cursor`, `first`, `last`, `span`, `ranges_len`, `covered`, `select`, `is_empty`, `as_ref`, `boundaries`, `pop_first`, `pop_last` | none | |
/// | `is_all` | one `is_min_value` | |
/// | `==`, `eq_ref`, `new` | one a boundary | |
/// | `intersects`, `is_disjoint`, `is_subset`, `is_superset`, `merge_test`, `merge_len` | `2 w` | |
/// | `insert`, `remove` | `2 d(n) + 1` | if the list grows beyond its room |
/// | `insert_changed`, `remove_changed` | `3 d(n) + 3` | the same |
/// | `bitor_assign` and the like, `merge_owned` | `2 w` | room for the right side |
/// | `union_with` and the like, `merge_ref` | `2 w` | a list for both, if they are long and hold numbers or characters; else the same, and copies of the right side where a copy may fail |
/// | `union` and the like, operators, `merge_new`, `combine` | `2 w` | the result |
/// | `merge_into` a slice | `2 w` | |
/// | `!` | one `is_min_value` | one boundary; of a reference the result |
/// | `from_range` | 1 | beyond `N` |
/// | `from_ranges`, `from_values` | nine a range with an end that comes in order, also behind one without, and `2 d(n) + 5` one without an end; of the others also the sorts of their starts and of their ends | the result; of those not in order as much again, and a sort's buffer |
/// | `union_all`, `intersection_all` of k sets with l boundaries | `2 l d(k - 1)` | the result |
/// | `from_unsorted`, `from_json` | a sort's | a sort's buffer |
/// | `clone`, `to_json` | none | the result |
///
/// `union`, `insert` and the others move or copy each boundary that they keep, or that lies after
/// the range.
pub struct RangeSet<T: Ord, const N: usize> {
    list: SmallVec<T, N>,
}

// By hand: a call is proved once, and a derived drop anew at each exit of each function that owns a
// set.
impl<T: Ord + Drop, const N: usize> Drop for RangeSet<T, N> {
    #[inline]
    fn drop(self) {
        let Self { list: _list } = self;
    }
}

/// A set with room for one range, which is two boundaries, in the value itself.
pub type RangeSet2<T> = RangeSet<T, 2>;

impl<T: Ord, const N: usize> Model for RangeSet<T, N> {
    ghost use Rattle.std.specs.Prelude.{List};
    ghost use Rattle.std.specs.Coded.{coded_list};
    ghost use Rattle.range_merge.specs.Boundaries.{IsAscending};

    ghost Value = { List T };

    ghost coded = { coded_list T.code };

    ghost view = { λ set. set.list.items };

    ghost invariant = { λ set. IsAscending T.cmp set.list.items };
}

impl<T: Ord, const N: usize> RangeSet<T, N> {
    /// The set with these boundaries, or `None` if they aren't strictly sorted.
    #[inline]
    pub fn new(boundaries: SmallVec<T, N>) -> Option<Self>
    where
        T: Drop,
        ensures variant { IsSome result ↔ IsAscending T.cmp boundaries.items }
        ensures boundaries { IfSome result (λ set. set ≡ boundaries.items) }
    {
        if is_ascending(boundaries.as_slice()) {
            Some(RangeSet { list: boundaries })
        } else {
            None
        }
    }

    /// The set with these boundaries, which must be strictly sorted.
    #[inline(always)]
    pub fn new_unchecked(boundaries: SmallVec<T, N>) -> Self
        requires { IsAscending T.cmp boundaries.items }
        ensures { result ≡ boundaries.items }
    {
        RangeSet { list: boundaries }
    }

    /// The list of the boundaries.
    #[inline(always)]
    pub fn into_inner(self) -> SmallVec<T, N>
        ensures items { result.items ≡ self }
        ensures sorted { IsAscending T.cmp result.items }
    {
        let RangeSet { list } = self;
        list
    }

    // The allocator of the list.
    #[inline(always)]
    pub(crate) fn allocator(&self) -> Global {
        *self.list.allocator()
    }

    /// The view of the set.
    #[inline(always)]
    pub fn as_ref(&self) -> RangeSetRef<'_, T>
        ensures same { result.boundaries.now ≡ self.now }
        ensures sorted { IsAscending T.cmp self.now }
    {
        RangeSetRef {
            boundaries: self.list.as_slice(),
        }
    }

    /// The boundaries.
    #[inline(always)]
    pub fn boundaries(&self) -> &[T]
        ensures same { result.now ≡ self.now }
        ensures sorted { IsAscending T.cmp result.now }
    {
        self.list.as_slice()
    }

    /// Whether the view has the same members.
    pub fn eq_ref(&self, that: RangeSetRef<T>) -> bool
        ensures { IsTrue result ↔ IsSameSet T.cmp self.now that.entry.boundaries.now }
    {
        self.boundaries() == that.boundaries()
    }
}

impl<T: Ord + MadeWith<Global> + Drop, const N: usize> RangeSet<T, N> {
    /// The empty set.
    #[inline]
    pub fn empty(alloc: Global) -> Self
        ensures boundaries { result ≡ [] }
        ensures members { (x : T) → member T.cmp result x ≡ false }
    {
        RangeSet {
            list: SmallVec::new(alloc),
        }
    }
}

impl<T: Ord, const N: usize> PartialEq for RangeSet<T, N> {
    ghost eq = { pointwise T.eq };

    ghost laws = { lists_per T.PartialEq.laws };

    /// Whether both have the same members.
    fn eq(&self, other: &Self) -> bool
        ensures value { result ≡ pointwise T.eq self.now other.now }
        ensures members { IsTrue result ↔ IsSameSet T.cmp self.now other.now }
    {
        self.boundaries() == other.boundaries()
    }
}

impl<T: Ord, const N: usize> Eq for RangeSet<T, N> {
    ghost laws = { lists_equiv T.Eq.laws };
}

impl<'a, T: Ord, const N: usize> IntoIterator for &'a RangeSet<T, N> {
    type Item = RangeSetRange<&'a T>;

    type IntoIter = Iter<'a, T>;

    ghost into_iter_gives = { λ set it. it ≡ set.now };

    #[inline]
    fn into_iter(self) -> Iter<'a, T> {
        self.iter()
    }
}

impl<T: EntryClone + MadeWith<Global> + Drop, const N: usize> RangeSet<T, N> {
    /// A set of clones of the boundaries.
    pub fn clone(&self) -> Result<Self, AllocError>
        ensures copies { IfOk result (λ set. AllZip T.is_copy self.now set) }
        ensures equal { IfOk result (λ set. AreEqual T.cmp self.now set) }
        ensures succeeds { length self.now ≤ N → All T.is_infallible self.now → IsOk result }
    {
        copied(self.allocator(), self.as_ref(), &EntryCopier)
    }
}

/// std's `Clone`, so that a struct that holds a set can derive it.
impl<T: EntryClone + MadeWith<Global> + Drop, const N: usize> Clone for RangeSet<T, N> {
    ghost is_clone = { AreEqual T.cmp };

    ghost is_infallible = { λ set. (length set ≤ N) × All T.is_infallible set };

    /// A set of clones of the boundaries.
    fn clone(&self) -> Result<Self, AllocError> {
        RangeSet::clone(self)
    }
}
