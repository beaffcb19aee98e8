//! A set read from a text of ranges.
ghost use Rattle.std.specs.Prelude.{◌≡◌, ◌≢◌, ◌↔◌, true, false, Any, IfOk, IfErr, OnOk};
ghost use Rattle.range_merge.specs.Boundaries.{member};
ghost use Rattle.range_merge.specs.Connective.{Means, union_table};
ghost use Rattle.range_collections.specs.Ranges.{range_boundaries, IsInRange};
ghost use Rattle.range_collections.specs.ParseErrors.{IsFaultIn};
ghost use Rattle.range_collections.specs.Reading.{is_ranges, ranges_in};
ghost use Rattle.range_collections.specs.declared.parse.ParseError.TheVariants.{OutOfMemory};

use crate::set::ChunkedRangeSet;
use range_collections::{ParseError, RangeSetRange, WholeNumber, check_ranges};
use std::alloc::{AllocError, Global};

impl<T: Ord + WholeNumber + Drop> ChunkedRangeSet<T> {
    /// Reads ranges like `0..10, 20..`: in any order, with commas between them and blanks around
    /// each. A text of blanks is the empty set.
    ///
    /// The errors are those of `RangeSet::parse`. It inserts one range after the other.
    pub fn parse(alloc: Global, text: &str) -> Result<Self, ParseError>
        ensures ok { IfOk result (λ set. is_ranges T.number text.now ≡ true) }
        ensures members { IfOk result (λ set. (x : T) → (member T.cmp set x ≡ true) ↔
            Any (λ range. IsInRange T.cmp range x) (ranges_in T.number text.now)) }
        ensures malformed { IfErr result (λ error. error ≢ OutOfMemory → is_ranges T.number text.now ≡ false) }
        ensures fault { IfErr result (λ error. error ≢ OutOfMemory → IsFaultIn text.now error) }
        ensures out_of_memory { IfErr result (λ error. error ≡ OutOfMemory → is_ranges T.number text.now ≡ true) }
    {
        check_ranges::<T>(text)?;
        Ok(read(alloc, text)?)
    }
}

// The set of the ranges that stand between the commas of a text.
fn read<T: Ord + WholeNumber + Drop>(
    alloc: Global,
    text: &str,
) -> Result<ChunkedRangeSet<T>, AllocError>
    ensures { IfOk result (λ set. (x : T) → (member T.cmp set x ≡ true) ↔
        Any (λ range. IsInRange T.cmp range x) (ranges_in T.number text.now)) }
{
    let mut set = ChunkedRangeSet::new(alloc);
    for part in text.split(',') {
        if let Some(range) = RangeSetRange::parse(part) {
            put(&mut set, range)?;
        }
    }
    Ok(set)
}

// Adds the elements of the range.
fn put<T: Ord + Drop>(
    set: &mut ChunkedRangeSet<T>,
    range: RangeSetRange<T>,
) -> Result<(), AllocError>
    ensures { OnOk result (Means T.cmp union_table set.new set.old (range_boundaries T.cmp range)) }
{
    match range {
        RangeSetRange::Range(range) => set.insert(range),
        RangeSetRange::RangeFrom(range) => set.insert_from(range),
    }
}
