//! The ranges of a set: they make it again, in texts and arrays too; where they begin and end, how
//! many values they have, and which numbers fit beside them.
ghost use Rattle.std.specs.Prelude.{◌≡◌, ◌↔◌, ◌+◌, ◌/◌, ℤ, true, List, length, All, FitsSigned, ◌^◌, ◌<◌, ◌≤◌, ℕ, [], None, decimal, false, Some, slice_get, ◌-◌};
ghost use Rattle.std.specs.Int.{w64};
ghost use Rattle.std.specs.List.{Any, AllAdjacentBelow, last_or};
ghost use Rattle.std.specs.Ordering.{int_cmp};
ghost use Rattle.std.specs.Fmt.{signed_decimal};
ghost use Rattle.std.specs.declared.ops.Bound.TheVariants.{Excluded, Unbounded};
ghost use Rattle.range_merge.specs.Boundaries.{IsAscending, member, is_odd};
ghost use Rattle.range_merge.specs.Connective.{Means, union_table, intersection_table};
ghost use Rattle.range_collections.specs.Json.{array_of, IsReadingOf};
ghost use Rattle.range_collections.specs.Ranges.{ranges_of, IsInRange, EndsBelow, range_start, range_end, range_items};
ghost use Rattle.range_collections.specs.Text.{ranges_text};
ghost use Rattle.range_collections.specs.Reading.{IsReadBack, is_ranges, is_within, ranges_in, signed_number, unsigned_number};
ghost use Rattle.range_collections.specs.Extent.{IsSpan};
ghost use Rattle.range_collections.specs.Covered.{covered_of};
ghost use Rattle.range_collections.specs.Fits.{Fits};

use crate::countable::{Countable, Unsigned};
use crate::range_set_range::RangeSetRange;
use crate::whole_number::WholeNumber;

/// The ranges of a strictly sorted list: half as many as its items, rounded up; each has an
/// element; each ends below the start of the next; together they have exactly the members.
pub fn ranges_make_the_set<T: Ord>()
    ensures count { (items : List T) → length (ranges_of items) ≡ (length items + 1) / 2 }
    ensures filled { (items : List T) →
        IsAscending T.cmp items → All (λ r. (x : T) × IsInRange T.cmp r x) (ranges_of items) }
    ensures apart { (items : List T) → IsAscending T.cmp items →
        AllAdjacentBelow (EndsBelow T.cmp) (ranges_of items) (length (ranges_of items)) }
    ensures members { (items : List T) (x : T) → IsAscending T.cmp items →
        (member T.cmp items x ≡ true) ↔ Any (λ r. IsInRange T.cmp r x) (ranges_of items) }
{}

/// Reading the array of a strictly sorted list of numbers of i64 gives that list, and no other.
pub fn arrays_read_back()
    ensures reads { (numbers : List ℤ) → IsAscending int_cmp numbers →
        All (FitsSigned w64) numbers → IsReadingOf (array_of numbers) numbers }
    ensures only { (numbers items : List ℤ) →
        IsAscending int_cmp numbers → All (FitsSigned w64) numbers →
        IsReadingOf (array_of numbers) items → items ≡ numbers }
{}

/// What is written of a set is read back: it is a text of ranges, and these are the set's. So of
/// numbers of up to 128 bits without a sign, and of up to 128 bits besides one.
pub fn texts_read_back<T: WholeNumber>()
    ensures ranges { (items : List T) →
        T.number [] ≡ None → All (IsReadBack T.number T.digits) items →
        is_ranges T.number (ranges_text T.digits (ranges_of items)) ≡ true }
    ensures same { (items : List T) →
        T.number [] ≡ None → All (IsReadBack T.number T.digits) items →
        ranges_in T.number (ranges_text T.digits (ranges_of items)) ≡ ranges_of items }
    ensures unsigned { (k : ℕ) (items : List ℕ) → k ≤ 128 → All (λ n. n < 2 ^ k) items →
        (is_ranges (unsigned_number k) (ranges_text decimal (ranges_of items)) ≡ true)
        × (ranges_in (unsigned_number k) (ranges_text decimal (ranges_of items)) ≡
        ranges_of items) }
    ensures signed { (k : ℕ) (items : List ℤ) → k ≤ 128 → All (λ z. is_within k z ≡ true) items →
        (is_ranges (signed_number k) (ranges_text signed_decimal (ranges_of items)) ≡ true)
        × (ranges_in (signed_number k) (ranges_text signed_decimal (ranges_of items)) ≡
        ranges_of items) }
{}

/// The range from the start of a set's first range to the end of its last one starts at the first
/// boundary, and ends before the last one where their number is even. Else it has no end.
pub fn spans_go_from_the_first_boundary_to_the_last<T>()
    ensures start { (items : List T) (s : RangeSetRange T) → IsSpan (ranges_of items) s →
        slice_get items 0 ≡ Some (range_start s) }
    ensures end { (items : List T) (s : RangeSetRange T) (last : T) → IsSpan (ranges_of items) s →
        is_odd (length items) ≡ false → last_or None items ≡ Some last →
        range_end s ≡ Excluded last }
    ensures no_end { (items : List T) (s : RangeSetRange T) → IsSpan (ranges_of items) s →
        is_odd (length items) ≡ true → range_end s ≡ Unbounded }
{}

/// A range has as many values as lie from its start on, up to its end. Where two sets have an end,
/// their union and their intersection have one too, and together as many values as both sets.
pub fn values_are_counted<T: Countable>()
    ensures range { (start end : T) → T.is_value start → T.is_value end →
        covered_of T.cmp T.value T.count (range_items T.cmp start end) ≡
        Some (T.place end - T.place start) }
    ensures both { (a b either both : List T) (m n : ℕ) →
        Means T.cmp union_table either a b → Means T.cmp intersection_table both a b →
        covered_of T.cmp T.value T.count a ≡ Some m → covered_of T.cmp T.value T.count b ≡ Some n →
        (k : ℕ) × (l : ℕ) × (covered_of T.cmp T.value T.count either ≡ Some k) ×
        (covered_of T.cmp T.value T.count both ≡ Some l) × (k + l ≡ m + n) }
{}

/// Where some numbers fit, each of them lies in the range and is no member. Where no number of a
/// range is a member, just as many as it has fit at its start.
pub fn as_many_fit_as_lie_in_a_range_of_no_members<T: Unsigned>()
    ensures inside { (items : List T) (start end : ℕ) (len x y : T) →
        Fits T.cmp T.place items start end len x →
        T.place x ≤ T.place y → T.place y < T.place x + T.place len →
        (start ≤ T.place y) × (T.place y < end) × (member T.cmp items y ≡ false) }
    ensures whole { (items : List T) (start len : T) (end : ℕ) →
        T.place start + T.place len ≡ end →
        ((y : T) → T.place start ≤ T.place y → T.place y < end →
        member T.cmp items y ≡ false) → Fits T.cmp T.place items (T.place start) end len start }
{}
