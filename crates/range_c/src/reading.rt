//! A set read from a text of ranges, `0..10, 20..`, into a buffer of the caller's.
//!
//! The ranges are put into the buffer in the order of the text, and joined once all are there.
ghost use Rattle.std.specs.Prelude.{◌≡◌, ◌↔◌, ◌+◌, ◌*◌, ◌<◌, ◌≤◌, ◌^◌, ◌||◌, Any, true, length, take};
ghost use Rattle.std.specs.List.{flat_map, list_any};
ghost use Rattle.std.specs.Option.{option_to_list};
ghost use Rattle.std.specs.Str.{IsUtf8};
ghost use Rattle.range_collections.specs.Boundaries.{IsAscending, member};
ghost use Rattle.range_collections.specs.Ranges.{range_boundaries, range_ends, IsInRange};
ghost use Rattle.range_collections.specs.Reading.{is_ranges, ranges_in};
ghost use Rattle.range_collections.specs.Unions.{is_in_one};
ghost use Rattle.range_c.specs.Ranges.{ends_and, is_from, is_within};
ghost use Rattle.range_c.specs.Reading.{numbers_in, TellsText};

use crate::ends::Ends;
use crate::ranges::{lowest, union_from};
use range_collections::{ParseError, RangeSetRange, WholeNumber, check_ranges};
use std::str;

/// A text of ranges.
const RANGES: u32 = 0;
/// A text that stops being one of ranges somewhere.
const MALFORMED: u32 = 1;
/// A text of ranges, but for a number that the type doesn't hold.
const OUT_OF_RANGE: u32 = 2;
/// Bytes that are no text.
const NOT_TEXT: u32 = 3;

// Which of these it is, and how many numbers the text has, or where it stops being one.
pub(crate) fn check<T: WholeNumber + Copy + Drop>(bytes: &[u8], told: &mut usize) -> u32
    requires fits { numbers_in T.number bytes.now < 2 ^ 64 }
    ensures { TellsText T.number bytes.now result told.new }
{
    match str::from_utf8(bytes) {
        Ok(text) => check_text::<T>(text, told),
        Err(error) => {
            *told = error.valid_up_to();
            NOT_TEXT
        }
    }
}

// Which of these a text is, and how many numbers it has, or where it stops being one.
fn check_text<T: WholeNumber + Copy + Drop>(text: &str, told: &mut usize) -> u32
    requires fits { numbers_in T.number text.now < 2 ^ 64 }
    ensures { TellsText T.number text.now result told.new }
{
    let (count, are_ranges) = count_numbers::<T>(text);
    if are_ranges {
        *told = count;
        return RANGES;
    }
    match check_ranges::<T>(text) {
        // Blanks alone.
        Ok(()) => {
            *told = count;
            RANGES
        }
        Err(ParseError::Malformed { at, .. }) => {
            *told = at;
            MALFORMED
        }
        Err(_) => OUT_OF_RANGE,
    }
}

// How many numbers the text has, and whether each of its parts is a range.
fn count_numbers<T: WholeNumber + Copy + Drop>(text: &str) -> (usize, bool)
    requires fits { numbers_in T.number text.now < 2 ^ 64 }
    ensures count { result.0 ≡ numbers_in T.number text.now }
    ensures ranges { result.1 ≡ true → is_ranges T.number text.now ≡ true }
{
    let mut count = 0;
    let mut are_ranges = true;
    for part in text.split(',') {
        let range = RangeSetRange::<T>::parse(part);
        are_ranges &= range.is_some();
        count += ends(range);
    }
    (count, are_ranges)
}

// How many ends a range has, where there is one.
fn ends<T: Copy + Drop>(range: Option<RangeSetRange<T>>) -> usize
    ensures { result ≡ length (flat_map range_ends (option_to_list range)) }
{
    match range {
        Some(RangeSetRange::Range(_)) => 2,
        Some(RangeSetRange::RangeFrom(_)) => 1,
        None => 0,
    }
}

// Leaves the ranges with an end of the set of a text's ranges at the front of the buffer. Returns
// how many these are, and where the range without an end starts.
pub(crate) fn read<E: Ends>(bytes: &[u8], ranges: &mut [E]) -> (usize, Option<E::Number>)
    requires text { IsUtf8 bytes.now }
    requires room { numbers_in E.Number.number bytes.now < 2 * length ranges.old + 2 }
    ensures within { result.0 ≤ length ranges.old }
    ensures few { length (ends_and E.first E.last (take result.0 ranges.new) result.1) ≤
        numbers_in E.Number.number bytes.now }
    ensures sorted { IsAscending E.Number.cmp
        (ends_and E.first E.last (take result.0 ranges.new) result.1) }
    ensures members { (x : E.Number) →
        (member E.Number.cmp (ends_and E.first E.last (take result.0 ranges.new) result.1) x ≡ true) ↔
        Any (λ range. IsInRange E.Number.cmp range x) (ranges_in E.Number.number bytes.now) }
{
    match str::from_utf8(bytes) {
        Ok(text) => read_text(text, ranges),
        Err(_) => (0, None),
    }
}

// The same as `read`, for bytes that are a text.
fn read_text<E: Ends>(text: &str, ranges: &mut [E]) -> (usize, Option<E::Number>)
    requires room { numbers_in E.Number.number text.now < 2 * length ranges.old + 2 }
    ensures within { result.0 ≤ length ranges.old }
    ensures few { length (ends_and E.first E.last (take result.0 ranges.new) result.1) ≤
        numbers_in E.Number.number text.now }
    ensures sorted { IsAscending E.Number.cmp
        (ends_and E.first E.last (take result.0 ranges.new) result.1) }
    ensures members { (x : E.Number) →
        member E.Number.cmp (ends_and E.first E.last (take result.0 ranges.new) result.1) x ≡
        is_in_one E.Number.cmp (range_boundaries E.Number.cmp)
        (ranges_in E.Number.number text.now) x }
{
    let (len, from) = read_ranges(text, ranges);
    let (front, _room) = ranges.split_at_mut(len);
    union_from(front, from)
}

// Puts the ranges with an end to the front of the buffer as they come. Returns how many these are,
// and where the first of the others starts.
fn read_ranges<E: Ends>(text: &str, ranges: &mut [E]) -> (usize, Option<E::Number>)
    requires room { numbers_in E.Number.number text.now < 2 * length ranges.old + 2 }
    ensures within { result.0 ≤ length ranges.old }
    ensures few { 2 * result.0 + length (option_to_list result.1) ≤
        numbers_in E.Number.number text.now }
    ensures len { length ranges.new ≡ length ranges.old }
    ensures members { (x : E.Number) →
        (list_any (is_within E.Number.cmp E.first E.last x) (take result.0 ranges.new)
        || is_from E.Number.cmp result.1 x) ≡
        is_in_one E.Number.cmp (range_boundaries E.Number.cmp)
        (ranges_in E.Number.number text.now) x }
{
    let mut len = 0;
    let mut from = None;
    for part in text.split(',') {
        match RangeSetRange::parse(part) {
            Some(RangeSetRange::Range(range)) => {
                ranges[len] = E::of(range.start, range.end);
                len += 1;
            }
            Some(RangeSetRange::RangeFrom(range)) => from = Some(lowest(from, range.start)),
            None => {}
        }
    }
    (len, from)
}
