//! Ranges of a set in chunks: the one that holds a number, the next one, the first and the last, and
//! those that share a number with a range.
ghost use Rattle.std.specs.Prelude.{◌≡◌, true, false, None, filter, Contains, IsTrue, slice_get};
ghost use Rattle.std.specs.List.{last_or};
ghost use Rattle.std.specs.Ordering.{is_le, is_lt};
ghost use Rattle.range_collections.specs.Boundaries.{member};
ghost use Rattle.range_collections.specs.Overlapping.{overlaps};
ghost use Rattle.range_collections.specs.Ranges.{ranges_of, IsInRange};
ghost use Rattle.range_c.specs.Chunked.{CopiesFront};
ghost use Rattle.range_c.specs.Parts.{range_told, TellsRange};

use crate::chunked::put_ends;
use crate::parts::tell;
use range_chunks::{ChunkedRangeSet, Iter};

// Whether `value` is a member, and then writes the range that holds it.
pub(crate) fn range_at<T: Ord + Copy>(
    set: &ChunkedRangeSet<T>,
    value: &T,
    start: &mut T,
    end: &mut T,
    has_end: &mut bool,
) -> bool
    ensures member { result ≡ member T.cmp set.now value.now }
    ensures of_set { IsTrue result →
        Contains (ranges_of set.now) (range_told start.new end.new has_end.new) }
    ensures holds { IsTrue result →
        IsInRange T.cmp (range_told start.new end.new has_end.new) value.now }
    ensures no_answer { result ≡ false →
        (start.new ≡ start.old) × (end.new ≡ end.old) × (has_end.new ≡ has_end.old) }
    ensures no_end { has_end.new ≡ false → end.new ≡ end.old }
{
    tell(set.range_at(value), start, end, has_end)
}

// Whether a range holds `value` or lies above it, and then writes the first such range.
pub(crate) fn range_from<T: Ord + Copy>(
    set: &ChunkedRangeSet<T>,
    value: &T,
    start: &mut T,
    end: &mut T,
    has_end: &mut bool,
) -> bool
    ensures of_set { IsTrue result →
        Contains (ranges_of set.now) (range_told start.new end.new has_end.new) }
    ensures first { IsTrue result → (x : T) → is_le (T.cmp value.now x) ≡ true →
        is_lt (T.cmp x start.new) ≡ true → member T.cmp set.now x ≡ false }
    ensures ends_above { IsTrue result → has_end.new ≡ true →
        is_lt (T.cmp value.now end.new) ≡ true }
    ensures none { result ≡ false → (x : T) →
        is_le (T.cmp value.now x) ≡ true → member T.cmp set.now x ≡ false }
    ensures no_answer { result ≡ false →
        (start.new ≡ start.old) × (end.new ≡ end.old) × (has_end.new ≡ has_end.old) }
    ensures no_end { has_end.new ≡ false → end.new ≡ end.old }
{
    match set.next_member(value) {
        Some(next) => range_at(set, next, start, end, has_end),
        None => false,
    }
}

// Whether there is a first range, and then writes it.
pub(crate) fn first<T: Ord + Copy>(
    set: &ChunkedRangeSet<T>,
    start: &mut T,
    end: &mut T,
    has_end: &mut bool,
) -> bool
    ensures { TellsRange (slice_get (ranges_of set.now) 0)
        start.old end.old has_end.old start.new end.new has_end.new result }
{
    tell(set.first(), start, end, has_end)
}

// Whether there is a last range, and then writes it.
pub(crate) fn last<T: Ord + Copy>(
    set: &ChunkedRangeSet<T>,
    start: &mut T,
    end: &mut T,
    has_end: &mut bool,
) -> bool
    ensures { TellsRange (last_or None (ranges_of set.now))
        start.old end.old has_end.old start.new end.new has_end.new result }
{
    tell(set.last(), start, end, has_end)
}

// Writes the boundaries of the ranges that share a number with the one from `start` to below `end`
// to the front of `out`, of as many ranges as have room for two, and returns how many boundaries
// these are.
pub(crate) fn overlapping<T: Ord + Copy>(
    set: &ChunkedRangeSet<T>,
    start: T,
    end: T,
    out: &mut [T],
) -> usize
    ensures { CopiesFront (filter (overlaps T.cmp start end) (ranges_of set.now))
        out.old out.new result }
{
    put_front(set.overlapping(&start..&end), out)
}

// Puts the ends of the first ranges to the front, of as many as have room for two.
fn put_front<T: Copy>(ranges: Iter<'_, T>, out: &mut [T]) -> usize
    ensures { CopiesFront (ranges_of ranges.entry) out.old out.new result }
{
    let mut len = 0;
    let mut left = out.len() / 2;
    for range in ranges {
        if left == 0 {
            return len;
        }
        left -= 1;
        len = put_ends(out, len, &range);
    }
    len
}
