//! The set of single values, which stand in a row.
ghost use Rattle.std.specs.Prelude.{◌≡◌, ◌↔◌, ◌+◌, ◌≤◌, true, IfOk, IfSome, IfNone};
ghost use Rattle.std.specs.List.{Any};
ghost use Rattle.std.specs.declared.cmp.Ordering.TheVariants.{Equal};
ghost use Rattle.range_merge.specs.Boundaries.{member};
ghost use Rattle.range_collections.specs.Ranges.{IsInRange};

use crate::countable::FromPlace;
use crate::range_set::RangeSet;
use crate::range_set_range::RangeSetRange;
use range_entry::EntryClone;
use std::alloc::{AllocError, Global};
use std::default::MadeWith;
use std::ops::{Range, RangeFrom};

impl<T: FromPlace + EntryClone + MadeWith<Global>, const N: usize> RangeSet<T, N> {
    /// The set of these values, which may come in any order and more than once.
    ///
    /// It takes a list of as many ranges, and joins these as `from_ranges` does.
    pub fn from_values(alloc: Global, values: &[T]) -> Result<Self, AllocError>
        ensures { IfOk result (λ set. (x : T) → T.is_value x → (member T.cmp set x ≡ true) ↔
            Any (λ value. T.cmp value x ≡ Equal) values.now) }
    {
        let mut ranges = Vec::new(alloc);
        for value in values {
            ranges.push(range_of(value))?;
        }
        Self::from_ranges(alloc, ranges.as_slice())
    }
}

// The range that has this value alone.
#[inline(always)]
fn range_of<T: FromPlace>(value: &T) -> RangeSetRange<T>
    ensures { (x : T) → T.is_value x → IsInRange T.cmp result x ↔ (T.cmp value.now x ≡ Equal) }
{
    value.known();
    match next_value(value) {
        Some(end) => RangeSetRange::Range(Range { start: *value, end }),
        None => RangeSetRange::RangeFrom(RangeFrom { start: *value }),
    }
}

// The least value above this one, if there is one.
#[inline(always)]
fn next_value<T: FromPlace>(value: &T) -> Option<T>
    ensures next { IfSome result (λ next.
        T.is_value next × (T.place next ≡ T.place value.now + 1)) }
    ensures greatest { IfNone result (T.count ≤ T.place value.now + 1) }
{
    T::from_place(value.place().checked_add(1)?)
}
