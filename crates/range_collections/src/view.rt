//! A view of a set: a strictly sorted slice of boundaries.
ghost use Rattle.std.specs.Prelude.{◌≡◌, ◌↔◌, [], ◌∷◌, IsSome, IfSome, false};
ghost use Rattle.std.specs.Mem.{FitsInMemory};
ghost use Rattle.std.specs.Ordering.{is_le};
ghost use Rattle.std.proofs.Props.{props};
ghost use Rattle.range_merge.specs.Boundaries.{IsAscending, member};

mod counting;
mod cursor;
mod endless;
mod equality;
mod first_fit;
mod operations;
mod parts;
mod predicates;
mod ranges;
mod rank;

use crate::lists::is_ascending;
pub use cursor::Cursor;
use std::alloc::AllocError;
use std::slice;

/// A borrowed set: a strictly sorted slice of boundaries.
///
/// It answers what a set answers, and makes new sets. It is `Copy`, and the parts that it is split
/// into are slices of the same list. The costs are those of `RangeSet`.
///
/// ```text
/// let hours = RangeSetRef::new(&[9, 13, 15, 20])?;     // None if they aren't strictly sorted
/// hours.contains(&12)                                  // true
/// hours.contains_range(10..16)                         // false
/// hours.union::<4>(alloc, busy.as_ref())?              // a new set
/// ```
///
/// Calls that take another set take it as a view: `set.union(other.as_ref())`.
pub struct RangeSetRef<'a, T: Ord> {
    /// The boundaries, strictly sorted.
    pub boundaries: &'a [T],
    pub ghost sorted: { IsAscending T.cmp boundaries.now } by { Prim.hlevel props },
}

impl<'a, T: Ord> Clone for RangeSetRef<'a, T> {
    ghost is_clone = { λ set copied. copied.boundaries ≡ set.boundaries };

    ghost is_infallible = { λ _. Unit {0} };

    /// A view of the same boundaries.
    #[inline(always)]
    fn clone(&self) -> Result<Self, AllocError> {
        Ok(*self)
    }
}

impl<'a, T: Ord> Copy for RangeSetRef<'a, T> {}

impl<'a, T: Ord> Default for RangeSetRef<'a, T> {
    ghost is_default = { λ set. set.boundaries.now ≡ [] };

    /// The empty set.
    #[inline]
    fn default() -> Self {
        Self::empty()
    }
}

impl<'a, T: Ord> RangeSetRef<'a, T> {
    /// The empty set.
    #[inline]
    pub fn empty() -> Self
        ensures boundaries { result.boundaries.now ≡ [] }
        ensures members { (x : T) → member T.cmp result.boundaries.now x ≡ false }
    {
        RangeSetRef { boundaries: &[] }
    }

    /// The elements at or above `value`.
    #[inline]
    pub fn single(value: &'a T) -> Self
        requires { FitsInMemory T.row }
        ensures boundaries { result.boundaries.now ≡ value.now ∷ [] }
        ensures members { (x : T) →
            member T.cmp result.boundaries.now x ≡ is_le (T.cmp value.now x) }
    {
        RangeSetRef {
            boundaries: slice::from_ref(value),
        }
    }

    /// The set with these boundaries, or `None` if they aren't strictly sorted.
    #[inline]
    pub fn new(boundaries: &'a [T]) -> Option<Self>
        ensures variant { IsSome result ↔ IsAscending T.cmp boundaries.now }
        ensures boundaries { IfSome result (λ set. set.boundaries ≡ boundaries.entry) }
    {
        if is_ascending(boundaries) {
            Some(RangeSetRef { boundaries })
        } else {
            None
        }
    }

    /// The set with these boundaries, which must be strictly sorted.
    #[inline(always)]
    pub fn new_unchecked(boundaries: &'a [T]) -> Self
        requires { IsAscending T.cmp boundaries.now }
        ensures { result.boundaries ≡ boundaries.entry }
    {
        RangeSetRef { boundaries }
    }

    /// The boundaries.
    #[inline(always)]
    pub fn boundaries(&self) -> &'a [T]
        ensures same { result ≡ self.now.boundaries }
        ensures sorted { IsAscending T.cmp result.now }
    {
        self.boundaries
    }
}
