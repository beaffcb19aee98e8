//! The texts of sets of characters, quoted as Rust prints them: `'a'..'{'`. The contracts have the
//! bytes where all boundaries are ASCII; of others the library says nothing.
use crate::range_set::RangeSet;
use crate::range_set_range::{RangeSetRange, write_range};
use crate::text::write_ranges;
use crate::view::RangeSetRef;
use std::fmt;

impl<const N: usize> fmt::Debug for RangeSet<char, N> {
    ghost use Rattle.range_collections.specs.Text.{if_ascii, quoted, set_text};

    ghost debug_output = { λ set. if_ascii set (set_text quoted set) };

    fn fmt<W: fmt::Write>(&self, f: &mut fmt::Formatter<W>) -> fmt::Result {
        f.write_str("RangeSet{")?;
        write_ranges(self.as_ref().boundaries, f)?;
        f.write_str("}")
    }
}

impl<const N: usize> fmt::Display for RangeSet<char, N> {
    ghost use Rattle.range_collections.specs.Ranges.{ranges_of};
    ghost use Rattle.range_collections.specs.Text.{if_ascii, quoted, ranges_text};

    ghost output = { λ set. if_ascii set (ranges_text quoted (ranges_of set)) };

    fn fmt<W: fmt::Write>(&self, f: &mut fmt::Formatter<W>) -> fmt::Result {
        write!(f, "{}", self.as_ref())
    }
}

impl<'a> fmt::Display for RangeSetRef<'a, char> {
    ghost use Rattle.range_collections.specs.Ranges.{ranges_of};
    ghost use Rattle.range_collections.specs.Text.{if_ascii, quoted, ranges_text};

    ghost output = { λ set.
        if_ascii set.boundaries.now (ranges_text quoted (ranges_of set.boundaries.now)) };

    fn fmt<W: fmt::Write>(&self, f: &mut fmt::Formatter<W>) -> fmt::Result {
        write_ranges(self.boundaries, f)
    }
}

impl fmt::Debug for RangeSetRange<char> {
    ghost use Rattle.range_collections.specs.Ranges.{range_ends};
    ghost use Rattle.range_collections.specs.Text.{if_ascii, quoted, range_text};

    ghost debug_output = { λ range. if_ascii (range_ends range) (range_text quoted range) };

    fn fmt<W: fmt::Write>(&self, f: &mut fmt::Formatter<W>) -> fmt::Result {
        write_range(&self.as_ref(), f)
    }
}
