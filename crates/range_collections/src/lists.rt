//! Lists of boundaries: whether one is strictly sorted, whether it begins at the least value, which
//! places are odd, how much room a new one keeps, and two items put at its end.
ghost use Rattle.std.specs.Prelude.{◌↔◌, IsTrue, ◌≡◌, ◌+◌, ◌≤◌, ◌∷◌, ◌++◌, [], length, IsOk, OnOk, OnErr};
ghost use Rattle.range_merge.specs.Boundaries.{IsAscending, is_odd as odd};
ghost use Rattle.range_collections.specs.Values.{BeginsAt, BeginsWithValue};

use range_entry::RangeSetEntry;
use smallvec::SmallVec;
use std::alloc::{AllocError, Global};
use std::default::MadeWith;

// This number of pairs of neighbours is compared with no branch between them.
const BLOCK: usize = 16;

// Whether each item is below the next. It goes block by block, each of which begins with the last
// item of the one before, up to the first that is not sorted.
pub(crate) fn is_ascending<T: Ord>(items: &[T]) -> bool
    ensures { IsTrue result ↔ IsAscending T.cmp items.now }
{
    let mut rest = items;
    while rest.len() > BLOCK {
        if !block_ascends(&rest[..BLOCK + 1]) {
            return false;
        }
        rest = &rest[BLOCK..];
    }
    block_ascends(rest)
}

// Whether each of a few items is below the next. It looks at all of them, whatever the first ones
// say.
#[inline(always)]
fn block_ascends<T: Ord>(items: &[T]) -> bool
    ensures { IsTrue result ↔ IsAscending T.cmp items.now }
{
    let mut ascends = true;
    for i in 0..items.len().saturating_sub(1) {
        ascends = ascends & items[i].cmp(&items[i + 1]).is_lt();
    }
    ascends
}

// Whether the first item is the least value. A caller learns that the first item is a value.
pub(crate) fn begins_at_least<T: RangeSetEntry>(items: &[T]) -> bool
    ensures begins { IsTrue result ↔ BeginsAt T.cmp T.least items.now }
    ensures value { BeginsWithValue T.cmp T.is_value items.now }
{
    match items.first() {
        Some(first) => {
            first.known();
            first.is_min_value()
        }
        None => false,
    }
}

// Whether a number of boundaries is odd: an element with an odd number at or below it is a member.
#[inline(always)]
pub(crate) fn is_odd(n: usize) -> bool
    ensures { result ≡ odd n }
{
    n % 2 == 1
}

// Gives back the room of a list that has some for more than twice its items, which come to lie
// inline where they fit. What the allocator doesn't take back stays.
#[inline]
pub(crate) fn give_back_room<T: MadeWith<Global> + Drop, const N: usize>(list: &mut SmallVec<T, N>)
    ensures { list.new.items ≡ list.old.items }
{
    if list.capacity() > list.len().saturating_mul(2) {
        list.shrink_to_fit();
    }
}

// Puts two items at the end.
#[inline(always)]
pub(crate) fn append_both<T: MadeWith<Global> + Drop, const N: usize>(
    list: &mut SmallVec<T, N>,
    start: T,
    end: T,
) -> Result<(), AllocError>
    ensures items { OnOk result (list.new.items ≡ list.old.items ++ (start ∷ end ∷ [])) }
    ensures unchanged { OnErr result (list.new.items ≡ list.old.items) }
    ensures succeeds { length list.old.items + 2 ≤ N → IsOk result }
{
    // `capacity` is called for its clause that it is at least N, which the proof cites.
    let _inline = list.capacity();
    list.reserve(2)?;
    list.push_reserved(start);
    list.push_reserved(end);
    Ok(())
}
