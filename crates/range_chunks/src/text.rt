//! The Debug and the Display text of a set in chunks: its ranges, as `0..10, 20..`, and no character
//! for the empty set.
use crate::set::ChunkedRangeSet;
use range_collections::{WholeNumber, write_ranges};
use std::fmt;

impl<T: Ord + WholeNumber> fmt::Debug for ChunkedRangeSet<T> {
    ghost use Rattle.std.specs.Prelude.{Some, codes, ◌++◌};
    ghost use Rattle.range_collections.specs.Ranges.{ranges_of};
    ghost use Rattle.range_collections.specs.Text.{ranges_text};

    ghost debug_output = { λ set. Some (codes "ChunkedRangeSet{"
        ++ (ranges_text T.digits (ranges_of set) ++ codes "}")) };

    fn fmt<W: fmt::Write>(&self, f: &mut fmt::Formatter<W>) -> fmt::Result {
        write!(f, "ChunkedRangeSet{{{}}}", self)
    }
}

impl<T: Ord + WholeNumber> fmt::Display for ChunkedRangeSet<T> {
    ghost use Rattle.std.specs.Prelude.{Some};
    ghost use Rattle.range_collections.specs.Ranges.{ranges_of};
    ghost use Rattle.range_collections.specs.Text.{ranges_text};

    ghost output = { λ set. Some (ranges_text T.digits (ranges_of set)) };

    fn fmt<W: fmt::Write>(&self, f: &mut fmt::Formatter<W>) -> fmt::Result {
        write_ranges(self.items(), f)
    }
}
