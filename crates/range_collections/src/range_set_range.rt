//! One range of a set: with an end, or without one.
//!
//! Two are equal if both have an end or neither has, the starts are equal, and so are the ends. Two
//! ranges of nothing differ where their ends do.
ghost use Rattle.std.specs.Prelude.{◌≡◌, ℕ, List, IsOk, IfOk, ◌↔◌, ◌+◌, ◌<◌, ◌^◌, IsTrue};
ghost use Rattle.std.specs.Fmt.{WritesOnOk};
ghost use Rattle.std.specs.Ordering.{is_lt};
ghost use Rattle.range_collections.specs.Ranges.{range_now, bound_now, range_start, range_end, IsEqualRange, AllEnds, AllEndsZip};
ghost use Rattle.range_collections.specs.EqualRanges.{eq_range, eq_range-per, eq_range-equiv};
ghost use Rattle.range_collections.specs.Text.{IsText, range_text};
ghost use Rattle.std.specs.declared.cmp.Ordering.TheVariants.{Less};

use crate::comparisons::Comparisons;
use crate::whole_number::WholeNumber;
use range_entry::EntryClone;
use range_merge::Compare;
use std::alloc::AllocError;
use std::fmt;
use std::ops::{Bound, Range, RangeFrom};

/// The elements from a start on, up to an end or without one.
#[derive(Drop)]
pub enum RangeSetRange<T> {
    /// From the start on, and below the end.
    Range(Range<T>),
    /// From the start on.
    RangeFrom(RangeFrom<T>),
}

/// Whether the range from `start` to below `end` has an element, which is that `start` is below
/// `end`. Calls that take a range ask this first: an empty or reversed range has no element, and
/// stands for the empty set.
#[inline(always)]
pub fn has_elements<T: Ord>(start: &T, end: &T, count: &mut Comparisons) -> bool
    requires { count.old < 2 ^ 127 }
    ensures answer { IsTrue result ↔ (T.cmp start.now end.now ≡ Less) }
    ensures value { result ≡ is_lt (T.cmp start.now end.now) }
    ensures counted { count.new ≡ count.old + 1 }
{
    count.compare(start, end).is_lt()
}

impl<'a, T: EntryClone + Drop> RangeSetRange<&'a T> {
    /// The range of copies of what the references point to, each end of its own.
    pub fn cloned(&self) -> Result<RangeSetRange<T>, AllocError>
        ensures same { IfOk result (λ copied. IsEqualRange T.cmp (range_now self.now) copied) }
        ensures copies { IfOk result (λ copied. AllEndsZip T.is_copy (range_now self.now) copied) }
        ensures succeeds { AllEnds T.is_infallible (range_now self.now) → IsOk result }
    {
        match self {
            RangeSetRange::Range(range) => {
                let start = range.start.entry_clone()?;
                let end = range.end.entry_clone()?;
                Ok(RangeSetRange::Range(Range { start, end }))
            }
            RangeSetRange::RangeFrom(range) => {
                let start = range.start.entry_clone()?;
                Ok(RangeSetRange::RangeFrom(RangeFrom { start }))
            }
        }
    }
}

impl<T: EntryClone + Drop> RangeSetRange<T> {
    /// A copy of the range, or an error if memory runs out.
    pub fn clone(&self) -> Result<RangeSetRange<T>, AllocError>
        ensures same { IfOk result (λ copied. IsEqualRange T.cmp self.now copied) }
        ensures copies { IfOk result (λ copied. AllEndsZip T.is_copy self.now copied) }
        ensures succeeds { AllEnds T.is_infallible self.now → IsOk result }
    {
        self.as_ref().cloned()
    }
}

impl<T> RangeSetRange<T> {
    /// The range of references to the ends.
    pub fn as_ref(&self) -> RangeSetRange<&T>
        ensures { range_now result ≡ self.now }
    {
        match self {
            RangeSetRange::Range(range) => RangeSetRange::Range(Range {
                start: &range.start,
                end: &range.end,
            }),
            RangeSetRange::RangeFrom(range) => RangeSetRange::RangeFrom(RangeFrom {
                start: &range.start,
            }),
        }
    }

    /// The start, which is part of the range.
    pub fn start_bound(&self) -> Bound<&T>
        ensures { bound_now result ≡ Bound.Included (range_start self.now) }
    {
        match self {
            RangeSetRange::Range(range) => Bound::Included(&range.start),
            RangeSetRange::RangeFrom(range) => Bound::Included(&range.start),
        }
    }

    /// The end, which isn't part of the range, or no bound if there is none.
    pub fn end_bound(&self) -> Bound<&T>
        ensures { bound_now result ≡ range_end self.now }
    {
        match self {
            RangeSetRange::Range(range) => Bound::Excluded(&range.end),
            RangeSetRange::RangeFrom(_) => Bound::Unbounded,
        }
    }
}

impl<T> From<Range<T>> for RangeSetRange<T> {
    ghost use Rattle.range_collections.specs.declared.range_set_range.RangeSetRange.TheVariants.{Range as with_end};

    ghost from_gives = { λ range made. made ≡ with_end range };

    fn from(ends: Range<T>) -> Self {
        RangeSetRange::Range(ends)
    }
}

impl<T> From<RangeFrom<T>> for RangeSetRange<T> {
    ghost use Rattle.range_collections.specs.declared.range_set_range.RangeSetRange.TheVariants.{RangeFrom as without_end};

    ghost from_gives = { λ range made. made ≡ without_end range };

    fn from(range: RangeFrom<T>) -> Self {
        RangeSetRange::RangeFrom(range)
    }
}

impl<T: EntryClone + Drop> Clone for RangeSetRange<T> {
    ghost is_clone = { IsEqualRange T.cmp };

    ghost is_infallible = { AllEnds T.is_infallible };

    /// A copy of the range, or an error if memory runs out.
    fn clone(&self) -> Result<Self, AllocError> {
        RangeSetRange::clone(self)
    }
}

impl<T: PartialEq> PartialEq for RangeSetRange<T> {
    ghost eq = { eq_range T.eq };

    ghost laws = { eq_range-per T.eq T.PartialEq.laws };

    /// Whether both have equal starts, and equal ends or none.
    fn eq(&self, other: &Self) -> bool
        ensures { result ≡ eq_range T.eq self.now other.now }
    {
        match (self, other) {
            (RangeSetRange::Range(one), RangeSetRange::Range(two)) => one == two,
            (RangeSetRange::RangeFrom(one), RangeSetRange::RangeFrom(two)) => {
                one.start == two.start
            }
            _ => false,
        }
    }
}

impl<T: Eq> Eq for RangeSetRange<T> {
    ghost laws = { eq_range-equiv T.eq T.Eq.laws };
}

impl<T: WholeNumber> fmt::Debug for RangeSetRange<T> {
    ghost use Rattle.std.specs.Prelude.{Some};
    ghost use Rattle.range_collections.specs.Text.{range_text};

    ghost debug_output = { λ range. Some (range_text T.digits range) };

    fn fmt<W: fmt::Write>(&self, f: &mut fmt::Formatter<W>) -> fmt::Result {
        write_range(&self.as_ref(), f)
    }
}

/// Writes the range as `0..10`, or as `20..` if it has no end. Each end is written as its own Debug
/// text.
///
/// The text is known where that of each end is.
pub fn write_range<T: fmt::Debug, W: fmt::Write>(
    range: &RangeSetRange<&T>,
    f: &mut fmt::Formatter<W>,
) -> fmt::Result
    ensures { (text : T → List ℕ) → AllEnds (IsText T.debug_output text) (range_now range.now) →
        WritesOnOk W.write_str_gives f.old result (range_text text (range_now range.now)) f.new }
{
    match range {
        RangeSetRange::Range(range) => {
            fmt::Debug::fmt(range.start, f)?;
            f.write_str("..")?;
            fmt::Debug::fmt(range.end, f)
        }
        RangeSetRange::RangeFrom(range) => {
            fmt::Debug::fmt(range.start, f)?;
            f.write_str("..")
        }
    }
}
