//! Where as many values in a row fit, all of them members or none: the first of the parts of a
//! range that has room for them.
ghost use Rattle.std.specs.Prelude.{◌≡◌, ◌-◌, ◌<◌, ◌≤◌, ◌+◌, ℕ, true, false, IfSome, IfNone, IsTrue, [], ◌∷◌, Bool, List, Some, None, cond, get_or, length, not};
ghost use Rattle.std.specs.Option.{option_map};
ghost use Rattle.std.specs.Ordering.{is_le};
ghost use Rattle.range_merge.specs.Boundaries.{IsAscending, is_odd, member};
ghost use Rattle.range_merge.specs.Connective.{Means};
ghost use Rattle.range_collections.specs.Fits.{EndsAlike, Fits, IsFirstFit, IsFit, IsFitSearch, IsFromTo, IsLeastFit, IsMultiple, IsOneOf, IsWhole, first_start, fit_of, place_after};
ghost use Rattle.range_collections.specs.Ranges.{range_items};
ghost use Rattle.range_collections.specs.Within.{borrowed_items, within_table};

use crate::boundaries::{Boundaries, Unread};
use crate::comparisons::Comparisons;
use crate::countable::{Countable, FromPlace, Multiples, Unsigned, ValueEnds};
use crate::questions::parts::{Within, parts_within, take_first};
use std::ops::Range;

/// Values in a row: the start of the part that has them, and the place of the first.
#[derive(Drop)]
pub struct Fit<T> {
    /// The start of the part.
    pub start: T,
    /// The place of the first value.
    pub place: u128,
}

/// What a search through parts found.
#[derive(Drop)]
pub enum FitSearch<T> {
    /// Values in one of them.
    Found(Fit<T>),
    /// None up to the end of a part; the longest one up to there has `most` values.
    Stopped { end: T, most: u128 },
    /// None.
    End,
}

/// Where a search stops: after this number of parts, or after the first one that ends at the place
/// or above it.
#[derive(Clone, Copy)]
pub struct Until {
    pub parts: usize,
    pub place: u128,
}

/// The least number from which `len` numbers lie between the ends, none of them a member.
#[inline(always)]
pub fn first_gap_of<'a, T: Unsigned + 'a, L: Boundaries<'a, T>>(
    list: L,
    ends: &'a ValueEnds<T>,
    len: T,
) -> Option<T>
    requires sorted { IsAscending T.cmp (L.items list) }
    requires closed { IsTrue ends.now.closed → T.place ends.now.end + 1 ≡ T.count }
    ensures fits { IfSome result (Fits T.cmp T.place (L.items list)
        (T.place ends.now.start) (place_after T.place ends.now) len) }
    ensures free { IfSome result (λ at. (x : T) → T.place at ≤ T.place x →
        T.place x < T.place at + T.place len → member T.cmp (L.items list) x ≡ false) }
    ensures least { IfSome result (λ x. (y : T) → Fits T.cmp T.place (L.items list)
        (T.place ends.now.start) (place_after T.place ends.now) len y → T.place x ≤ T.place y) }
    ensures none { IfNone result ((x : T) → ¬ (Fits T.cmp T.place (L.items list)
        (T.place ends.now.start) (place_after T.place ends.now) len x)) }
{
    ends.end.known();
    len.known();
    first_alike(list, ends, false, len.place())
}

/// The least value from which `count` values lie between the ends, which are members exactly if
/// `inside`.
#[inline(always)]
pub fn first_alike<'a, T: Countable + Copy + 'a, L: Boundaries<'a, T>>(
    list: L,
    ends: &'a ValueEnds<T>,
    inside: bool,
    count: u128,
) -> Option<T>
    requires sorted { IsAscending T.cmp (L.items list) }
    requires closed { IsTrue ends.now.closed → T.place ends.now.end + 1 ≡ T.count }
    ensures fits { IfSome result (λ at. IsFit T.cmp T.value inside (L.items list)
        (T.place ends.now.start) (place_after T.place ends.now) count (T.place at)) }
    ensures least { IfSome result (λ at. (n : ℕ) → IsFit T.cmp T.value inside (L.items list)
        (T.place ends.now.start) (place_after T.place ends.now) count n → T.place at ≤ n) }
    ensures none { IfNone result ((n : ℕ) → ¬ (IsFit T.cmp T.value inside (L.items list)
        (T.place ends.now.start) (place_after T.place ends.now) count n)) }
    ensures first { inside ≡ false → (s e : T) → IsFromTo ends.now s e → 0 < count →
        IsFirstFit T.cmp T.place (L.items list) s e count result }
    ensures nothing { (s e : T) → IsFromTo ends.now s e → count ≡ 0 →
        result ≡ cond (is_le (T.cmp s e)) (Some s) None }
{
    ends.start.known();
    ends.end.known();
    let fit = first_fit_in(list, ends, inside, count, Multiples::of_one())?;
    Some(fit.start)
}

/// The least multiple of `align` from which `count` values lie between the ends, none of them a
/// member. `None` if there is none, or if `align` is 0.
#[inline(always)]
pub fn first_aligned<'a, T: FromPlace + 'a, L: Boundaries<'a, T>>(
    list: L,
    ends: &'a ValueEnds<T>,
    count: u128,
    align: u128,
) -> Option<T>
    requires sorted { IsAscending T.cmp (L.items list) }
    requires closed { IsTrue ends.now.closed → T.place ends.now.end + 1 ≡ T.count }
    ensures fits { IfSome result (λ at. IsFit T.cmp T.value false (L.items list)
        (T.place ends.now.start) (place_after T.place ends.now) count (T.place at)) }
    ensures aligned { IfSome result (λ at. IsMultiple T.zero align (T.place at)) }
    ensures least { IfSome result (λ at. (n : ℕ) → IsMultiple T.zero align n →
        IsFit T.cmp T.value false (L.items list)
        (T.place ends.now.start) (place_after T.place ends.now) count n → T.place at ≤ n) }
    ensures none { 0 < align → IfNone result ((n : ℕ) → n < T.count → IsMultiple T.zero align n →
        ¬ (IsFit T.cmp T.value false (L.items list)
        (T.place ends.now.start) (place_after T.place ends.now) count n)) }
    ensures no_align { align ≡ 0 → result ≡ None }
{
    if align == 0 {
        return None;
    }
    T::from_place(first_aligned_place(list, ends, count, align)?)
}

// The place of that value.
#[inline(always)]
fn first_aligned_place<'a, T: FromPlace + 'a, L: Boundaries<'a, T>>(
    list: L,
    ends: &'a ValueEnds<T>,
    count: u128,
    align: u128,
) -> Option<u128>
    requires sorted { IsAscending T.cmp (L.items list) }
    requires closed { IsTrue ends.now.closed → T.place ends.now.end + 1 ≡ T.count }
    requires aligned { 0 < align }
    ensures fits { IfSome result (IsFit T.cmp T.value false (L.items list)
        (T.place ends.now.start) (place_after T.place ends.now) count) }
    ensures below { IfSome result (λ at. at < T.count) }
    ensures aligned { IfSome result (λ at. IsMultiple T.zero align at) }
    ensures least { IfSome result (λ at. (n : ℕ) → IsMultiple T.zero align n →
        IsFit T.cmp T.value false (L.items list)
        (T.place ends.now.start) (place_after T.place ends.now) count n → at ≤ n) }
    ensures none { IfNone result ((n : ℕ) → n < T.count → IsMultiple T.zero align n →
        ¬ (IsFit T.cmp T.value false (L.items list)
        (T.place ends.now.start) (place_after T.place ends.now) count n)) }
{
    let fit = first_fit_in(list, ends, false, count, Multiples::among::<T>(align))?;
    Some(fit.place)
}

// The first `count` values in a row between the ends, from one of the multiples on, which are
// members exactly if `inside`. It is inlined, so that nothing is divided for the multiples of 1.
#[inline(always)]
fn first_fit_in<'a, T: Countable + Copy + 'a, L: Boundaries<'a, T>>(
    list: L,
    ends: &'a ValueEnds<T>,
    inside: bool,
    count: u128,
    multiples: Multiples,
) -> Option<Fit<T>>
    requires sorted { IsAscending T.cmp (L.items list) }
    requires closed { IsTrue ends.now.closed → T.place ends.now.end + 1 ≡ T.count }
    requires aligned { 0 < multiples.of }
    ensures fit { IfSome result (IsLeastFit T.cmp T.value T.place inside (L.items list)
        (T.place ends.now.start) (place_after T.place ends.now) count multiples) }
    ensures below { IfSome result (λ fit. fit.place < T.count) }
    ensures none { IfNone result ((n : ℕ) → n < T.count → IsOneOf multiples n →
        ¬ (IsFit T.cmp T.value inside (L.items list)
        (T.place ends.now.start) (place_after T.place ends.now) count n)) }
    ensures first { inside ≡ false → ends.now.closed ≡ false → 0 < count → multiples.of ≡ 1 →
        IsFirstFit T.cmp T.place (L.items list)
        ends.now.start ends.now.end count (option_map (λ fit. fit.start) result) }
    ensures nothing { ends.now.closed ≡ false → count ≡ 0 → multiples.of ≡ 1 →
        option_map (λ fit. fit.start) result ≡
        cond (is_le (T.cmp ends.now.start ends.now.end)) (Some ends.now.start) None }
{
    ends.end.known();
    let (start, end) = (&ends.start, &ends.end);
    if let Some(fit) = first_fit_between(list, start, end, inside, count, multiples) {
        return Some(fit);
    }
    if !ends.closed {
        return None;
    }
    if count == 0 {
        return None;
    }
    last_fit(list, start, end, inside, count, multiples)
}

// The same from a value to below another.
#[inline(always)]
fn first_fit_between<'a, T: Countable + Copy + 'a, L: Boundaries<'a, T>>(
    list: L,
    start: &'a T,
    end: &'a T,
    inside: bool,
    count: u128,
    multiples: Multiples,
) -> Option<Fit<T>>
    requires sorted { IsAscending T.cmp (L.items list) }
    requires aligned { 0 < multiples.of }
    ensures fit { IfSome result (IsLeastFit T.cmp T.value T.place inside (L.items list)
        (T.place start.now) (T.place end.now) count multiples) }
    ensures below { IfSome result (λ fit. fit.place < T.count) }
    ensures none { IfNone result ((n : ℕ) → IsOneOf multiples n → ¬ (IsFit T.cmp T.value inside
        (L.items list) (T.place start.now) (T.place end.now) count n)) }
    ensures first { inside ≡ false → 0 < count → multiples.of ≡ 1 →
        IsFirstFit T.cmp T.place (L.items list)
        start.now end.now count (option_map (λ fit. fit.start) result) }
    ensures nothing { count ≡ 0 → multiples.of ≡ 1 → option_map (λ fit. fit.start) result ≡
        cond (is_le (T.cmp start.now end.now)) (Some start.now) None }
{
    start.known();
    end.known();
    if count > 0 {
        let parts = parts_within(list, start..end, inside, &mut Comparisons::new());
        return first_of(parts, count, multiples);
    }
    if !start.cmp(end).is_le() {
        return None;
    }
    let place = first_multiple_in(&(start..end), 0, multiples)?;
    Some(Fit {
        start: *start,
        place,
    })
}

/// The `count` values in a row that end with the greatest value, of those from one of the multiples
/// on, if they are members exactly if `inside`.
#[inline(always)]
pub fn last_fit<'a, T: Countable + Copy + 'a, L: Boundaries<'a, T>>(
    list: L,
    start: &'a T,
    greatest: &T,
    inside: bool,
    count: u128,
    multiples: Multiples,
) -> Option<Fit<T>>
    requires sorted { IsAscending T.cmp (L.items list) }
    requires greatest { T.place greatest.now + 1 ≡ T.count }
    requires some { 0 < count }
    requires aligned { 0 < multiples.of }
    ensures fit { IfSome result (λ fit. IsFit T.cmp T.value inside (L.items list)
        (T.place start.now) T.count count fit.place) }
    ensures aligned { IfSome result (λ fit. IsOneOf multiples fit.place) }
    ensures begins { IfSome result (λ fit. multiples.of ≡ 1 → T.place fit.start ≡ fit.place) }
    ensures none { IfNone result ((n : ℕ) → n + count ≡ T.count → IsOneOf multiples n →
        ¬ (IsFit T.cmp T.value inside (L.items list) (T.place start.now) T.count count n)) }
{
    let start = last_part(list, start, greatest, inside)?;
    start.known();
    let place = first_multiple_in(&(start..greatest), count - 1, multiples)?;
    Some(Fit {
        start: *start,
        place,
    })
}

// The least value from the start on from which all values are members exactly if `inside`.
#[inline(always)]
fn last_part<'a, T: Countable + 'a, L: Boundaries<'a, T>>(
    list: L,
    start: &'a T,
    greatest: &T,
    inside: bool,
) -> Option<&'a T>
    requires sorted { IsAscending T.cmp (L.items list) }
    requires greatest { T.place greatest.now + 1 ≡ T.count }
    ensures alike { IfSome result (λ from. EndsAlike T.cmp T.value T.place T.count inside (L.items list)
        start.now from.now) }
    ensures none { IfNone result
        (member T.cmp (L.items list) (T.value (T.place greatest.now)) ≡ not inside) }
{
    start.known();
    greatest.known();
    let before = list.up_to(greatest, &mut Comparisons::new());
    if list.is_odd(before) == inside {
        let Some(item) = list.item_before(before) else {
            return Some(start);
        };
        item.known();
        know_before(list, list.position_before(before));
        if item.place() > start.place() {
            return Some(item);
        }
        return Some(start);
    }
    None
}

// A caller learns that the boundary before a position, if there is one, is a value.
#[inline(always)]
fn know_before<'a, T: Countable + 'a, L: Boundaries<'a, T>>(list: L, at: L::Position)
    requires { L.is_position list at }
    ensures { (d : T) → 0 < L.index list at → T.is_value (get_or (L.items list) (L.index list at - 1) d) }
{
    if let Some(item) = list.item_before(at) {
        item.known();
    }
}

// The first `count` values in a row of the parts, from one of the multiples on.
#[inline(always)]
fn first_of<'a, T: Countable + Copy + 'a, U: Unread<'a, T>>(
    parts: Within<'a, T, U>,
    count: u128,
    multiples: Multiples,
) -> Option<Fit<T>>
    requires sorted { IsAscending T.cmp (borrowed_items parts.first (U.unread parts.between) parts.last) }
    requires even { is_odd (length (borrowed_items parts.first (U.unread parts.between) parts.last)) ≡ false }
    requires some { 0 < count }
    requires aligned { 0 < multiples.of }
    ensures fit { IfSome result (IsLeastFit T.cmp T.value T.place true
        (borrowed_items parts.entry.first (U.unread parts.entry.between) parts.entry.last) 0 T.count count multiples) }
    ensures none { IfNone result ((n : ℕ) → IsOneOf multiples n → ¬ (IsFit T.cmp T.value true
        (borrowed_items parts.entry.first (U.unread parts.entry.between) parts.entry.last) 0 T.count count n)) }
    ensures first { multiples.of ≡ 1 → option_map (λ fit. fit.start) result ≡
        first_start T.cmp T.place count
        (borrowed_items parts.entry.first (U.unread parts.entry.between) parts.entry.last) }
{
    match search_fit(parts, count, multiples, None) {
        FitSearch::Found(fit) => Some(fit),
        FitSearch::Stopped { .. } => None,
        FitSearch::End => None,
    }
}

/// Looks for the first part that has `count` values from one of the multiples on. It is inlined, so
/// that nothing is counted where the search stops nowhere, and nothing divided for the multiples
/// of 1.
#[inline(always)]
pub fn search_fit<'a, T: Countable + Copy + 'a, U: Unread<'a, T>>(
    parts: Within<'a, T, U>,
    count: u128,
    multiples: Multiples,
    until: Option<Until>,
) -> FitSearch<T>
    requires sorted { IsAscending T.cmp (borrowed_items parts.first (U.unread parts.between) parts.last) }
    requires even { is_odd (length (borrowed_items parts.first (U.unread parts.between) parts.last)) ≡ false }
    requires some { 0 < count }
    requires aligned { 0 < multiples.of }
    ensures search { IsFitSearch T.cmp T.value T.place T.count
        (borrowed_items parts.entry.first (U.unread parts.entry.between) parts.entry.last) count multiples result }
    ensures whole { until ≡ None → IsWhole result }
    ensures first { until ≡ None → multiples.of ≡ 1 → option_map (λ fit. fit.start) (fit_of result) ≡
        first_start T.cmp T.place count
        (borrowed_items parts.entry.first (U.unread parts.entry.between) parts.entry.last) }
{
    let mut unread = parts;
    let mut most: u128 = 0;
    let mut read: usize = 0;
    while let Some(part) = next_ended(&mut unread) {
        part.start.known();
        part.end.known();
        if let Some(place) = first_multiple_in(&(&part.start..&part.end), count, multiples) {
            return FitSearch::Found(Fit {
                start: part.start,
                place,
            });
        }
        most = most.max(part.end.place() - part.start.place());
        read = read.saturating_add(1);
        if is_reached(until, read, part.end.place()) {
            return FitSearch::Stopped {
                end: part.end,
                most,
            };
        }
    }
    FitSearch::End
}

// Takes the first part out.
#[inline(always)]
fn next_ended<'a, T: Copy + 'a, U: Unread<'a, T>>(parts: &mut Within<'a, T, U>) -> Option<Range<T>>
    requires even { is_odd (length
        (borrowed_items parts.old.first (U.unread parts.old.between) parts.old.last)) ≡ false }
    ensures some { IfSome result (λ part.
        borrowed_items parts.old.first (U.unread parts.old.between) parts.old.last ≡
        part.start ∷ part.end ∷
        borrowed_items parts.new.first (U.unread parts.new.between) parts.new.last) }
    ensures none { IfNone result
        (borrowed_items parts.old.first (U.unread parts.old.between) parts.old.last ≡ []) }
{
    let start = take_first(parts)?;
    let end = take_first(parts)?;
    Some(*start..*end)
}

// The first place in the range, one of the multiples, from which on it has `count` values, or
// `None` if there is none. The range isn't reversed, and the multiples aren't those of 0.
#[inline(always)]
fn first_multiple_in<T: Countable>(
    range: &Range<&T>,
    count: u128,
    multiples: Multiples,
) -> Option<u128>
    requires aligned { 0 < multiples.of }
    requires in_order { T.place range.now.start.now ≤ T.place range.now.end.now }
    ensures fits { IfSome result (λ at. (T.place range.now.start.now ≤ at)
        × (at + count ≤ T.place range.now.end.now)) }
    ensures aligned { IfSome result (λ at. IsOneOf multiples at) }
    ensures least { IfSome result (λ at. (n : ℕ) → IsOneOf multiples n →
        T.place range.now.start.now ≤ n → at ≤ n) }
    ensures none { IfNone result ((n : ℕ) → IsOneOf multiples n → T.place range.now.start.now ≤ n →
        T.place range.now.end.now < n + count) }
{
    let start = range.start.place();
    let room = range.end.place() - start;
    // Without a division where the range is too short.
    if room < count {
        return None;
    }
    let ahead = multiples.ahead(start);
    if room.checked_sub(ahead)? < count {
        None
    } else {
        Some(start + ahead)
    }
}

// Whether the search stops after `read` parts, of which the last one ends at the place.
#[inline(always)]
fn is_reached(until: Option<Until>, read: usize, place: u128) -> bool
    ensures { until ≡ None → result ≡ false }
{
    match until {
        Some(until) => read >= until.parts || place >= until.place,
        None => false,
    }
}
