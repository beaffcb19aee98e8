//! What a connective makes of a set in a buffer of the caller's and another set, in that buffer.
//!
//! The set moves to the end of the buffer, and the result is written at its front. So there has to
//! be room for both.
ghost use Rattle.std.specs.Prelude.{◌≡◌, ◌+◌, ◌<◌, ◌≤◌, ◌^◌, length, take};
ghost use Rattle.range_collections.specs.Changes.{changes};
ghost use Rattle.range_c.specs.Answers.{AreAscending, connective_of};
ghost use Rattle.range_c.specs.InPlace.{ChangesWithin};

use crate::calls::combine;
use range_collections::Comparisons;
use range_merge::laws::changes_are_at_most_the_lengths;

// Leaves at the front of the buffer what the connective makes of the set of its first `len`
// boundaries and another, and returns how many boundaries that is. Where there is no room for that
// set and the result, the buffer is as it was, and it returns the room that both take.
pub(crate) fn combine_within<T: Ord + Copy>(
    buffer: &mut [T],
    len: usize,
    other: &[T],
    connective: u32,
) -> usize
    requires within { len ≤ length buffer.old }
    requires off { connective < 8 }
    requires sorted { AreAscending T.cmp (take len buffer.old) other.now }
    requires fits { len + len + length other.now < 2 ^ 64 }
    ensures { ChangesWithin T.cmp (connective_of connective) (take len buffer.old) other.now
        buffer.old buffer.new result }
{
    let (set, _room) = buffer.split_at(len);
    let needed = room_for_both(set, other, connective, buffer.len());
    if needed > buffer.len() {
        return needed;
    }
    let start = buffer.len() - len;
    buffer.copy_within(0..len, start);
    let (out, set) = buffer.split_at_mut(start);
    combine(set, other, connective, out)
}

// The room for a set and for what the connective makes of it and another. If there is enough for
// the longest result that there could be, it is that, and nothing is counted.
#[inline(always)]
fn room_for_both<T: Ord + Copy>(a: &[T], b: &[T], connective: u32, room: usize) -> usize
    requires sorted { AreAscending T.cmp a.now b.now }
    requires off { connective < 8 }
    requires fits { length a.now + length a.now + length b.now < 2 ^ 64 }
    ensures enough { length a.now
        + length (changes T.cmp (connective_of connective) a.now b.now) ≤ result }
    ensures counted { room < result → result ≡ length a.now
        + length (changes T.cmp (connective_of connective) a.now b.now) }
{
    changes_are_at_most_the_lengths::<T, Comparisons>();
    let most = a.len() + a.len() + b.len();
    if most <= room {
        most
    } else {
        a.len() + combine(a, b, connective, &mut [])
    }
}
