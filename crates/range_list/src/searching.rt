//! The place of a key: a search among the chunks' first keys, and one in the rest of a chunk.
//!
//! A comparer's count has to stay within a `u128`, so a search requires one below `2 ^ 127`. What
//! compares before it searches, as `find` does and then `find_from`, requires half the bound of
//! what it calls next: it adds less than the other half, so the count is still low enough there.
ghost use Rattle.std.specs.Prelude.{◌≡◌, ◌-◌, ◌≤◌, ◌<◌, ◌+◌, ◌^◌, true, length, IfOk, IfErr, MatchResult, HoldsAt, map};
ghost use Rattle.std.specs.List.{AllWithin};
ghost use Rattle.std.specs.Ordering.{is_le};
ghost use Rattle.std.specs.declared.cmp.Ordering.TheVariants.{Less, Equal, Greater};
ghost use Rattle.range_merge.specs.Boundaries.{IsAscending};
ghost use Rattle.range_merge.specs.Counting.{AddsAtMost};
ghost use Rattle.range_merge.specs.Runs.{digits};
ghost use Rattle.range_list.specs.Chunks.{flat};
ghost use Rattle.range_list.specs.Places.{place_in, IsPlace, IsItem, keys_of, first_keys};

use crate::chunk::Chunk;
use crate::chunk_list::ChunkList;
use crate::key_of::{KeyOf, SearchBy};
use crate::mark::Mark;
use crate::overwriting::behind_item;
use crate::place::Place;
use crate::reading::settled;
use range_merge::Compare;
use std::cmp::Ordering;
use std::hint::select_unpredictable;
use std::marker::PhantomData;

/// The place before which all keys are below this one, and from which on none is.
pub fn below<T, K, M: Mark, L: SearchBy<T, K>, C: Compare<K>>(
    chunks: &ChunkList<T, M>,
    lens: &L,
    key: &K,
    cmp: &mut C,
) -> Place
    requires some { 0 < length chunks.now }
    requires ascending { IsAscending C.order (keys_of L.key_of chunks.now) }
    requires made { C.count cmp.old < 2 ^ 126 }
    ensures place { IsPlace chunks.now result }
    ensures below { AllWithin (λ y. C.order y key.now ≡ Less) (keys_of L.key_of chunks.now) 0 (place_in chunks.now result) }
    ensures from { AllWithin (λ y. is_le (C.order key.now y) ≡ true) (keys_of L.key_of chunks.now)
        (place_in chunks.now result) (length (flat chunks.now)) }
    ensures comparisons { AddsAtMost (C.count cmp.old) (C.count cmp.new)
        (digits (length chunks.now) + digits (M.FULL - 1)) }
{
    match find(chunks, lens, key, cmp) {
        Ok(p) => p,
        Err(p) => p,
    }
}

/// The place before which all keys are at or below this one, and from which on all are above it.
#[inline]
pub fn up_to<T, K, M: Mark, L: SearchBy<T, K>, C: Compare<K>>(
    chunks: &ChunkList<T, M>,
    lens: &L,
    key: &K,
    cmp: &mut C,
) -> Place
    requires some { 0 < length chunks.now }
    requires ascending { IsAscending C.order (keys_of L.key_of chunks.now) }
    requires made { C.count cmp.old < 2 ^ 126 }
    ensures place { IsPlace chunks.now result }
    ensures up_to { AllWithin (λ y. is_le (C.order y key.now) ≡ true) (keys_of L.key_of chunks.now) 0 (place_in chunks.now result) }
    ensures above { AllWithin (λ y. C.order y key.now ≡ Greater) (keys_of L.key_of chunks.now)
        (place_in chunks.now result) (length (flat chunks.now)) }
    ensures comparisons { AddsAtMost (C.count cmp.old) (C.count cmp.new)
        (digits (length chunks.now) + digits (M.FULL - 1)) }
{
    match find(chunks, lens, key, cmp) {
        Ok(p) => behind_item(chunks, p),
        Err(p) => p,
    }
}

/// The place of the item whose key is equal to this one, or in an `Err` the place where it would go.
#[inline]
pub fn find<T, K, M: Mark, L: SearchBy<T, K>, C: Compare<K>>(
    chunks: &ChunkList<T, M>,
    _lens: &L,
    key: &K,
    cmp: &mut C,
) -> Result<Place, Place>
    requires some { 0 < length chunks.now }
    requires ascending { IsAscending C.order (keys_of L.key_of chunks.now) }
    requires made { C.count cmp.old < 2 ^ 126 }
    ensures places { MatchResult result (IsPlace chunks.now) (IsPlace chunks.now) }
    ensures item { IfOk result (IsItem chunks.now) }
    ensures found_within { IfOk result (λ p. place_in chunks.now p < length (flat chunks.now)) }
    ensures found { IfOk result (λ p.
        HoldsAt (λ y. C.order y key.now ≡ Equal) (keys_of L.key_of chunks.now) (place_in chunks.now p)) }
    ensures missing_before { IfErr result (λ p.
        AllWithin (λ y. C.order y key.now ≡ Less) (keys_of L.key_of chunks.now) 0 (place_in chunks.now p)) }
    ensures missing_from { IfErr result (λ p. AllWithin (λ y. C.order y key.now ≡ Greater)
        (keys_of L.key_of chunks.now) (place_in chunks.now p) (length (flat chunks.now))) }
    ensures comparisons { AddsAtMost (C.count cmp.old) (C.count cmp.new)
        (digits (length chunks.now) + digits (M.FULL - 1)) }
{
    match search_keys(
        chunks.as_slice(),
        &FirstKey::<L> { of: PhantomData },
        key,
        cmp,
    ) {
        Ok(chunk) => Ok(Place { chunk, index: 0 }),
        Err(0) => Err(Place { chunk: 0, index: 0 }),
        Err(after) => find_behind(chunks, after - 1, _lens, key, cmp),
    }
}

/// `find` for a key above those of all items before a place. Mostly no item lies between the two, and
/// then it searches nothing.
#[inline(always)]
pub fn find_from<T, K, M: Mark, L: SearchBy<T, K>, C: Compare<K>>(
    chunks: &ChunkList<T, M>,
    from: Place,
    lens: &L,
    key: &K,
    cmp: &mut C,
) -> Result<Place, Place>
    requires place { IsPlace chunks.now from }
    requires before { AllWithin (λ y. C.order y key.now ≡ Less)
        (keys_of L.key_of chunks.now) 0 (place_in chunks.now from) }
    requires ascending { IsAscending C.order (keys_of L.key_of chunks.now) }
    requires made { C.count cmp.old < 2 ^ 125 }
    ensures places { MatchResult result (IsPlace chunks.now) (IsPlace chunks.now) }
    ensures found_within { IfOk result (λ p. place_in chunks.now p < length (flat chunks.now)) }
    ensures found { IfOk result (λ p.
        HoldsAt (λ y. C.order y key.now ≡ Equal) (keys_of L.key_of chunks.now) (place_in chunks.now p)) }
    ensures missing_before { IfErr result (λ p.
        AllWithin (λ y. C.order y key.now ≡ Less) (keys_of L.key_of chunks.now) 0 (place_in chunks.now p)) }
    ensures missing_from { IfErr result (λ p. AllWithin (λ y. C.order y key.now ≡ Greater)
        (keys_of L.key_of chunks.now) (place_in chunks.now p) (length (flat chunks.now))) }
    ensures comparisons { AddsAtMost (C.count cmp.old) (C.count cmp.new)
        (digits (length chunks.now) + digits (M.FULL - 1) + 1) }
{
    let Some(next) = settled(chunks, from) else {
        return Err(from);
    };
    match cmp.compare(L::key_of(chunks.list[next.chunk].at(next.index)), key) {
        Ordering::Less => find(chunks, lens, key, cmp),
        Ordering::Equal => Ok(next),
        Ordering::Greater => Err(from),
    }
}

// Where a chunk has the key of its first item.
struct FirstKey<L> {
    of: PhantomData<L>,
}

impl<T, K, M, L: KeyOf<T, K>> KeyOf<Chunk<T, M>, K> for FirstKey<L> {
    ghost key_of = { λ chunk. L.key_of chunk.first };

    #[inline(always)]
    fn key_of(item: &Chunk<T, M>) -> &K {
        L::key_of(&item.first)
    }
}

// The place of the key among the items behind the first of a chunk, where that first one is below
// the key.
#[inline(always)]
fn find_behind<T, K, M: Mark, L: SearchBy<T, K>, C: Compare<K>>(
    chunks: &ChunkList<T, M>,
    chunk: usize,
    _lens: &L,
    key: &K,
    cmp: &mut C,
) -> Result<Place, Place>
    requires within { chunk < length chunks.now }
    requires ascending { IsAscending C.order (keys_of L.key_of chunks.now) }
    requires before { AllWithin (λ y. C.order y key.now ≡ Less) (first_keys L.key_of chunks.now) 0 (chunk + 1) }
    requires from { AllWithin (λ y. C.order y key.now ≡ Greater)
        (first_keys L.key_of chunks.now) (chunk + 1) (length chunks.now) }
    requires made { C.count cmp.old < 2 ^ 127 }
    ensures places { MatchResult result (IsPlace chunks.now) (IsPlace chunks.now) }
    ensures item { IfOk result (IsItem chunks.now) }
    ensures found_within { IfOk result (λ p. place_in chunks.now p < length (flat chunks.now)) }
    ensures found { IfOk result (λ p.
        HoldsAt (λ y. C.order y key.now ≡ Equal) (keys_of L.key_of chunks.now) (place_in chunks.now p)) }
    ensures missing_before { IfErr result (λ p.
        AllWithin (λ y. C.order y key.now ≡ Less) (keys_of L.key_of chunks.now) 0 (place_in chunks.now p)) }
    ensures missing_from { IfErr result (λ p. AllWithin (λ y. C.order y key.now ≡ Greater)
        (keys_of L.key_of chunks.now) (place_in chunks.now p) (length (flat chunks.now))) }
    ensures comparisons { AddsAtMost (C.count cmp.old) (C.count cmp.new) (digits (M.FULL - 1)) }
{
    match L::search(chunks.list[chunk].rest.as_slice(), key, cmp) {
        Ok(i) => Ok(Place {
            chunk,
            index: i + 1,
        }),
        Err(i) => Err(Place {
            chunk,
            index: i + 1,
        }),
    }
}

/// `KeyOf::search` by halves.
#[inline(always)]
pub fn search_keys<T, K, L: KeyOf<T, K>, C: Compare<K>>(
    items: &[T],
    _lens: &L,
    key: &K,
    cmp: &mut C,
) -> Result<usize, usize>
    requires ascending { IsAscending C.order (map L.key_of items.now) }
    requires made { C.count cmp.old < 2 ^ 127 }
    ensures found_within { IfOk result (λ i. i < length items.now) }
    ensures found { IfOk result (HoldsAt (λ y. C.order y key.now ≡ Equal) (map L.key_of items.now)) }
    ensures missing_within { IfErr result (λ i. i ≤ length items.now) }
    ensures missing_before { IfErr result (λ i.
        AllWithin (λ y. C.order y key.now ≡ Less) (map L.key_of items.now) 0 i) }
    ensures missing_from { IfErr result (λ i.
        AllWithin (λ y. C.order y key.now ≡ Greater) (map L.key_of items.now) i (length items.now)) }
    ensures comparisons { AddsAtMost (C.count cmp.old) (C.count cmp.new) (digits (length items.now)) }
{
    let mut front = 0;
    let mut left = items.len();
    while left > 0 {
        let half = left / 2;
        let at = front + (left - 1) / 2;
        let how = cmp.compare(L::key_of(&items[at]), key);
        if how.is_eq() {
            return Ok(at);
        }
        front = select_unpredictable(how.is_lt(), at + 1, front);
        left = half;
    }
    Err(front)
}
