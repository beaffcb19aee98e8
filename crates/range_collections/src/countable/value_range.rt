//! Ranges of values that stand in a row.
ghost use Rattle.std.specs.Prelude.{◌≡◌, ◌+◌, ℕ, false, IsTrue};
ghost use Rattle.range_collections.specs.Fits.{place_after, IsFromTo};

use crate::countable::{Countable, FromPlace};
use std::ops::{Range, RangeFrom};

/// Where a range of values starts, and where it ends.
#[derive(Drop)]
pub struct ValueEnds<T> {
    /// The first value.
    pub start: T,
    /// The value after the last one, or the last one itself.
    pub end: T,
    /// Whether `end` is in the range. It is the greatest value then.
    pub closed: bool,
}

/// A range of values: `a..b`, or `a..` up to the greatest value.
pub trait ValueRange<T: Countable>: Drop {
    // The place of the first value.
    ghost start: { Self → ℕ };

    // The place after the last value.
    ghost end: { Self → ℕ };

    // It goes from one value to below another.
    ghost is_from_to: { Self → T → T → Type 0 };

    /// The ends of the range.
    fn ends(self) -> ValueEnds<T>
        ensures start { T.place result.start ≡ start self }
        ensures end { place_after T.place result ≡ end self }
        ensures closed { IsTrue result.closed → T.place result.end + 1 ≡ T.count }
        ensures from_to { (s e : T) → is_from_to self s e → IsFromTo result s e };
}

impl<T: Countable + Drop> ValueRange<T> for Range<T> {
    ghost use Rattle.std.specs.Prelude.{◌≡◌};

    ghost start = { λ range. T.place range.start };

    ghost end = { λ range. T.place range.end };

    ghost is_from_to = { λ range s e. (range.start ≡ s) × (range.end ≡ e) };

    fn ends(self) -> ValueEnds<T> {
        let Range { start, end } = self;
        ValueEnds {
            start,
            end,
            closed: false,
        }
    }
}

impl<T: FromPlace> ValueRange<T> for RangeFrom<T> {
    ghost start = { λ range. T.place range.start };

    ghost end = { λ _. T.count };

    // It has no end.
    ghost is_from_to = { λ _ _ _. ⊥ };

    fn ends(self) -> ValueEnds<T> {
        let RangeFrom { start } = self;
        ValueEnds {
            start,
            end: T::greatest(),
            closed: true,
        }
    }
}
