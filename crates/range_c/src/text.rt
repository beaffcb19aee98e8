//! The text of a set, as `0..10, 20..`, in a buffer of the caller's.
ghost use Rattle.std.specs.Prelude.{◌≡◌, ◌+◌, ◌<◌, ◌^◌, codes, length};
ghost use Rattle.range_collections.specs.Boundaries.{IsAscending};
ghost use Rattle.range_collections.specs.Ranges.{ranges_of, range_now};
ghost use Rattle.range_collections.specs.Text.{range_text, others_text, ranges_text};
ghost use Rattle.range_c.specs.Text.{AnswersText, PutsText};

use itoa::{Buffer, Integer};
use range_collections::{Iter, RangeSetRange, RangeSetRef};

// Writes the ranges to the front of the buffer, with a comma and a space between them, and returns
// how many bytes that is. Where the buffer has no room for them it is as it was.
pub(crate) fn print<T: Ord + Integer>(a: &[T], out: &mut [u8]) -> usize
    requires sorted { IsAscending T.cmp a.now }
    requires fits { length (ranges_text T.text (ranges_of a.now)) < 2 ^ 64 }
    ensures { AnswersText (ranges_text T.text (ranges_of a.now)) out.old out.new result }
{
    let set = RangeSetRef::new_unchecked(a);
    let needed = put_ranges(set.iter(), &mut []);
    if needed > out.len() {
        return needed;
    }
    put_ranges(set.iter(), out)
}

// Puts the ranges to the front of the buffer, where it has room, and returns how long their text
// is.
fn put_ranges<T: Integer>(mut ranges: Iter<'_, T>, out: &mut [u8]) -> usize
    requires fits { length (ranges_text T.text (ranges_of ranges)) < 2 ^ 64 }
    ensures { PutsText 0 (ranges_text T.text (ranges_of ranges.entry)) out.old out.new result }
{
    match ranges.next() {
        Some(first) => {
            let len = put_range(out, 0, &first);
            put_others(ranges, out, len)
        }
        None => 0,
    }
}

// Puts the ranges after the first `len` bytes, each after a comma and a space.
fn put_others<T: Integer>(ranges: Iter<'_, T>, out: &mut [u8], len: usize) -> usize
    requires fits { len + length (others_text T.text (ranges_of ranges)) < 2 ^ 64 }
    ensures { PutsText len (others_text T.text (ranges_of ranges.entry)) out.old out.new result }
{
    let mut len = len;
    for range in ranges {
        len = put(out, len, b", ");
        len = put_range(out, len, &range);
    }
    len
}

// Puts a range after the first `len` bytes.
fn put_range<T: Integer>(out: &mut [u8], len: usize, range: &RangeSetRange<&T>) -> usize
    requires fits { len + length (range_text T.text (range_now range.now)) < 2 ^ 64 }
    ensures { PutsText len (range_text T.text (range_now range.now)) out.old out.new result }
{
    match range {
        RangeSetRange::Range(range) => {
            let len = put_number(out, len, range.start);
            let len = put(out, len, b"..");
            put_number(out, len, range.end)
        }
        RangeSetRange::RangeFrom(range) => {
            let len = put_number(out, len, range.start);
            put(out, len, b"..")
        }
    }
}

// Puts a number after the first `len` bytes.
fn put_number<T: Integer>(out: &mut [u8], len: usize, n: &T) -> usize
    requires fits { len + length (T.text n.now) < 2 ^ 64 }
    ensures { PutsText len (T.text n.now) out.old out.new result }
{
    put(out, len, Buffer::new().format(*n).as_bytes())
}

// Puts bytes after the first `len`, where the buffer has room for them, and returns how many it
// needs room for with them.
fn put(out: &mut [u8], len: usize, bytes: &[u8]) -> usize
    requires fits { len + length bytes.now < 2 ^ 64 }
    ensures { PutsText len bytes.now out.old out.new result }
{
    let end = len + bytes.len();
    if end <= out.len() {
        out[len..end].copy_from_slice(bytes);
    }
    end
}
