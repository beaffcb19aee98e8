//! Single ranges of a set, and how many numbers are members, for numbers of any type.
ghost use Rattle.std.specs.Prelude.{◌≡◌, ◌≤◌, ◌^◌, true, false, Some, None, Contains, IsTrue, IfSome, IfNone, slice_get};
ghost use Rattle.std.specs.Ordering.{is_le, is_lt};
ghost use Rattle.std.specs.List.{last_or};
ghost use Rattle.range_collections.specs.Boundaries.{IsAscending, member};
ghost use Rattle.range_collections.specs.Covered.{covered_of};
ghost use Rattle.range_collections.specs.Extent.{IsNext};
ghost use Rattle.range_collections.specs.Fits.{Fits};
ghost use Rattle.range_collections.specs.Ranges.{ranges_of, range_now, IsInRange};
ghost use Rattle.range_c.specs.Parts.{range_told, TellsRange};

use range_collections::{Countable, RangeSetRange, RangeSetRef, Unsigned};

// Whether there is a range, and then writes its start, whether it has an end, and that.
pub(crate) fn tell<T: Copy>(
    range: Option<RangeSetRange<&T>>,
    start: &mut T,
    end: &mut T,
    has_end: &mut bool,
) -> bool
    ensures some { IfSome range.entry (λ r. TellsRange (Some (range_now r))
        start.old end.old has_end.old start.new end.new has_end.new result) }
    ensures none { IfNone range.entry (TellsRange None
        start.old end.old has_end.old start.new end.new has_end.new result) }
{
    match range {
        Some(RangeSetRange::Range(range)) => {
            *start = *range.start;
            *end = *range.end;
            *has_end = true;
            true
        }
        Some(RangeSetRange::RangeFrom(range)) => {
            *start = *range.start;
            *has_end = false;
            true
        }
        None => false,
    }
}

// Whether `value` is a member, and then writes the range that holds it.
pub(crate) fn range_at<T: Ord + Copy>(
    a: &[T],
    value: &T,
    start: &mut T,
    end: &mut T,
    has_end: &mut bool,
) -> bool
    requires { IsAscending T.cmp a.now }
    ensures member { result ≡ member T.cmp a.now value.now }
    ensures of_set { IsTrue result →
        Contains (ranges_of a.now) (range_told start.new end.new has_end.new) }
    ensures holds { IsTrue result →
        IsInRange T.cmp (range_told start.new end.new has_end.new) value.now }
    ensures none { result ≡ false →
        (start.new ≡ start.old) × (end.new ≡ end.old) × (has_end.new ≡ has_end.old) }
    ensures no_end { has_end.new ≡ false → end.new ≡ end.old }
{
    tell(
        RangeSetRef::new_unchecked(a).range_at(value),
        start,
        end,
        has_end,
    )
}

// Whether a range holds `value` or lies above it, and then writes the first such range.
pub(crate) fn range_from<T: Ord + Copy>(
    a: &[T],
    value: &T,
    start: &mut T,
    end: &mut T,
    has_end: &mut bool,
) -> bool
    requires { IsAscending T.cmp a.now }
    ensures of_set { IsTrue result →
        Contains (ranges_of a.now) (range_told start.new end.new has_end.new) }
    ensures first { IsTrue result → (x : T) → is_le (T.cmp value.now x) ≡ true →
        is_lt (T.cmp x start.new) ≡ true → member T.cmp a.now x ≡ false }
    ensures ends_above { IsTrue result → has_end.new ≡ true →
        is_lt (T.cmp value.now end.new) ≡ true }
    ensures none { result ≡ false → (x : T) →
        is_le (T.cmp value.now x) ≡ true → member T.cmp a.now x ≡ false }
    ensures unchanged { result ≡ false →
        (start.new ≡ start.old) × (end.new ≡ end.old) × (has_end.new ≡ has_end.old) }
    ensures no_end { has_end.new ≡ false → end.new ≡ end.old }
{
    match RangeSetRef::new_unchecked(a).next_member(value) {
        Some(next) => range_at(a, next, start, end, has_end),
        None => false,
    }
}

// Whether a number at or above `from` is a member, and then writes the least.
pub(crate) fn next_member<T: Ord + Copy>(a: &[T], from: &T, next: &mut T) -> bool
    requires { IsAscending T.cmp a.now }
    ensures next { IsTrue result → IsNext T.cmp true a.now from.now next.new }
    ensures none { result ≡ false → (x : T) →
        is_le (T.cmp from.now x) ≡ true → member T.cmp a.now x ≡ false }
    ensures unchanged { result ≡ false → next.new ≡ next.old }
{
    put(
        RangeSetRef::new_unchecked(a).next_member(from).copied(),
        next,
    )
}

// Whether a number at or above `from` is no member, and then writes the least.
pub(crate) fn next_gap<T: Ord + Copy>(a: &[T], from: &T, next: &mut T) -> bool
    requires { IsAscending T.cmp a.now }
    ensures next { IsTrue result → IsNext T.cmp false a.now from.now next.new }
    ensures none { result ≡ false → (x : T) →
        is_le (T.cmp from.now x) ≡ true → member T.cmp a.now x ≡ true }
    ensures unchanged { result ≡ false → next.new ≡ next.old }
{
    put(RangeSetRef::new_unchecked(a).next_gap(from).copied(), next)
}

// Writes what was found, and returns whether anything was.
pub(crate) fn put<T: Copy>(found: Option<T>, place: &mut T) -> bool
    ensures some { IfSome found (λ it. (result ≡ true) × (place.new ≡ it)) }
    ensures none { IfNone found ((result ≡ false) × (place.new ≡ place.old)) }
{
    match found {
        Some(it) => {
            *place = it;
            true
        }
        None => false,
    }
}

// Whether there is a range with `index` others before it, and then writes it.
pub(crate) fn range<T: Ord + Copy>(
    a: &[T],
    index: usize,
    start: &mut T,
    end: &mut T,
    has_end: &mut bool,
) -> bool
    requires { IsAscending T.cmp a.now }
    ensures { TellsRange (slice_get (ranges_of a.now) index)
        start.old end.old has_end.old start.new end.new has_end.new result }
{
    if index > a.len() / 2 {
        return false;
    }
    let (_before, rest) = a.split_at(2 * index);
    first(rest, start, end, has_end)
}

// Whether there is a first range, and then writes it.
pub(crate) fn first<T: Ord + Copy>(a: &[T], start: &mut T, end: &mut T, has_end: &mut bool) -> bool
    requires { IsAscending T.cmp a.now }
    ensures { TellsRange (slice_get (ranges_of a.now) 0)
        start.old end.old has_end.old start.new end.new has_end.new result }
{
    tell(RangeSetRef::new_unchecked(a).first(), start, end, has_end)
}

// Whether there is a last range, and then writes it.
pub(crate) fn last<T: Ord + Copy>(a: &[T], start: &mut T, end: &mut T, has_end: &mut bool) -> bool
    requires { IsAscending T.cmp a.now }
    ensures { TellsRange (last_or None (ranges_of a.now))
        start.old end.old has_end.old start.new end.new has_end.new result }
{
    tell(RangeSetRef::new_unchecked(a).last(), start, end, has_end)
}

// Whether the set has an end, and then writes how many numbers are members.
pub(crate) fn covered<T: Countable>(a: &[T], count: &mut u64) -> bool
    requires few { T.count ≤ 2 ^ 64 }
    requires sorted { IsAscending T.cmp a.now }
    ensures value { IsTrue result → covered_of T.cmp T.value T.count a.now ≡ Some count.new }
    ensures no_end { result ≡ false → covered_of T.cmp T.value T.count a.now ≡ None }
    ensures unchanged { result ≡ false → count.new ≡ count.old }
{
    match RangeSetRef::new_unchecked(a).covered() {
        Some(n) => {
            *count = n as u64;
            true
        }
        None => false,
    }
}

// Whether there is a number from which on `len` numbers lie between `start` and `end` and none is a
// member, and then writes the least.
pub(crate) fn first_fit<T: Unsigned>(a: &[T], start: T, end: T, len: T, at: &mut T) -> bool
    requires { IsAscending T.cmp a.now }
    ensures fits { IsTrue result →
        Fits T.cmp T.place a.now (T.place start) (T.place end) len at.new }
    ensures least { IsTrue result → (x : T) →
        Fits T.cmp T.place a.now (T.place start) (T.place end) len x → T.place at.new ≤ T.place x }
    ensures none { result ≡ false → (x : T) →
        ¬ (Fits T.cmp T.place a.now (T.place start) (T.place end) len x) }
    ensures unchanged { result ≡ false → at.new ≡ at.old }
{
    put(RangeSetRef::new_unchecked(a).first_fit(start..end, len), at)
}
