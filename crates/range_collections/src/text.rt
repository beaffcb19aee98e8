//! The Debug and the Display text of a set: its ranges, as `0..10, 20..`, and no character for the
//! empty set.
ghost use Rattle.std.specs.Prelude.{ℕ, List};
ghost use Rattle.std.specs.Fmt.{WritesOnOk};
ghost use Rattle.range_collections.specs.Ranges.{ranges_of};
ghost use Rattle.range_collections.specs.Text.{AreTexts, others_text, ranges_text};

mod chars;

use crate::boundaries::Unread;
use crate::questions::next_range;
use crate::range_set::RangeSet;
use crate::range_set_range::write_range;
use crate::view::RangeSetRef;
use crate::whole_number::WholeNumber;
use std::fmt;

impl<T: Ord + WholeNumber, const N: usize> fmt::Debug for RangeSet<T, N> {
    ghost use Rattle.std.specs.Prelude.{Some};
    ghost use Rattle.range_collections.specs.Text.{set_text};

    ghost debug_output = { λ set. Some (set_text T.digits set) };

    fn fmt<W: fmt::Write>(&self, f: &mut fmt::Formatter<W>) -> fmt::Result {
        write!(f, "RangeSet{{{}}}", self.as_ref())
    }
}

impl<T: Ord + WholeNumber, const N: usize> fmt::Display for RangeSet<T, N> {
    ghost use Rattle.std.specs.Prelude.{Some};
    ghost use Rattle.range_collections.specs.Ranges.{ranges_of};
    ghost use Rattle.range_collections.specs.Text.{ranges_text};

    ghost output = { λ set. Some (ranges_text T.digits (ranges_of set)) };

    fn fmt<W: fmt::Write>(&self, f: &mut fmt::Formatter<W>) -> fmt::Result {
        write!(f, "{}", self.as_ref())
    }
}

impl<'a, T: Ord + WholeNumber> fmt::Display for RangeSetRef<'a, T> {
    ghost use Rattle.std.specs.Prelude.{Some};
    ghost use Rattle.range_collections.specs.Ranges.{ranges_of};
    ghost use Rattle.range_collections.specs.Text.{ranges_text};

    ghost output = { λ set. Some (ranges_text T.digits (ranges_of set.boundaries.now)) };

    fn fmt<W: fmt::Write>(&self, f: &mut fmt::Formatter<W>) -> fmt::Result {
        write_ranges(self.boundaries, f)
    }
}

/// Writes the ranges of these boundaries, with a comma and a space between them.
pub fn write_ranges<'a, T: fmt::Debug + 'a, U: Unread<'a, T>, W: fmt::Write>(
    boundaries: U,
    f: &mut fmt::Formatter<W>,
) -> fmt::Result
    ensures { (text : T → List ℕ) →
        AreTexts T.debug_output text (ranges_of (U.unread boundaries)) →
        WritesOnOk W.write_str_gives f.old result
        (ranges_text text (ranges_of (U.unread boundaries))) f.new }
{
    let mut unread = boundaries;
    match next_range(&mut unread) {
        Some(first) => {
            write_range(&first, f)?;
            write_others(unread, f)
        }
        None => Ok(()),
    }
}

// Writes the ranges, each after a comma and a space.
fn write_others<'a, T: fmt::Debug + 'a, U: Unread<'a, T>, W: fmt::Write>(
    boundaries: U,
    f: &mut fmt::Formatter<W>,
) -> fmt::Result
    ensures { (text : T → List ℕ) →
        AreTexts T.debug_output text (ranges_of (U.unread boundaries)) →
        WritesOnOk W.write_str_gives f.old result
        (others_text text (ranges_of (U.unread boundaries))) f.new }
{
    let mut unread = boundaries;
    while let Some(range) = next_range(&mut unread) {
        f.write_str(", ")?;
        write_range(&range, f)?;
    }
    Ok(())
}
