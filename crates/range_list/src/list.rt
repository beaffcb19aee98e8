//! A list whose items lie in chunks, with places in it: the type that sets and maps keep.
ghost use Rattle.std.specs.Prelude.{◌≡◌, ◌≤◌, ◌<◌, ◌+◌, ◌-◌, ◌^◌, [], true, false, map, length, IfOk, IfErr, MatchResult, HoldsAt};
ghost use Rattle.std.specs.List.{AllWithin};
ghost use Rattle.std.specs.Ordering.{is_le};
ghost use Rattle.std.specs.declared.cmp.Ordering.TheVariants.{Less, Equal, Greater};
ghost use Rattle.range_merge.specs.Boundaries.{IsAscending};
ghost use Rattle.range_merge.specs.Counting.{AddsAtMost};
ghost use Rattle.range_merge.specs.Runs.{digits};
ghost use Rattle.range_list.specs.Lists.{joined, place_at, IsPlaceAt};

mod changing;
mod counting;
mod making;
mod reading;
mod taking;

use crate::chunk_list::ChunkList;
use crate::key_of::SearchBy;
use crate::mark::Mark;
use crate::place::{FRONT, Place};
use crate::searching::{below, find, find_from, up_to};
use range_merge::Compare;
use std::alloc::Global;
use std::marker::Model;

/// A list of items in chunks of at most `M::FULL`, so that a change moves those of one chunk, and now
/// and then the list of chunks. Each chunk has the mark of the number of items before it. How many
/// items there are in all is known.
///
/// A clause reads it as the list of its chunks' items. A place is one of them until the next change.
pub struct Chunks<T, M: Mark> {
    chunks: ChunkList<T, M>,
    len: usize,
}

impl<T: Drop, M: Mark> Drop for Chunks<T, M> {
    #[inline]
    fn drop(self) {
        let Self {
            chunks: _chunks,
            len: _len,
        } = self;
    }
}

impl<T, M: Mark> Model for Chunks<T, M> {
    ghost use Rattle.std.specs.Prelude.{◌≡◌, List, length};
    ghost use Rattle.std.specs.Coded.{coded_list};
    ghost use Rattle.range_list.specs.Chunks.{flat};
    ghost use Rattle.range_list.specs.Lists.{lists_of};

    ghost Value = { List (List T) };

    ghost coded = { coded_list (coded_list T.code) };

    ghost view = { λ list. lists_of list.chunks };

    ghost invariant = { λ list. list.len ≡ length (flat list.chunks) };
}

impl<T, M: Mark> Chunks<T, M> {
    /// The empty list. It takes no memory.
    #[inline]
    pub fn new(alloc: Global) -> Self
        ensures { result ≡ [] }
    {
        Chunks {
            chunks: ChunkList::new(alloc),
            len: 0,
        }
    }

    /// The allocator of the list.
    #[inline(always)]
    pub fn allocator(&self) -> Global {
        self.chunks.allocator()
    }

    /// Whether there are no items.
    #[inline]
    pub fn is_empty(&self) -> bool
        ensures none { result ≡ true → joined self.now ≡ [] }
        ensures some { result ≡ false → 0 < length (joined self.now) }
    {
        self.chunks.is_empty()
    }

    /// The place of the item whose key is equal to this one, or in an `Err` the place where it would go.
    #[inline(always)]
    pub fn find<K, L: SearchBy<T, K>, C: Compare<K>>(
        &self,
        lens: &L,
        key: &K,
        cmp: &mut C,
    ) -> Result<Place, Place>
        requires ascending { IsAscending C.order (map L.key_of (joined self.now)) }
        requires made { C.count cmp.old < 2 ^ 126 }
        ensures few { length self.now < 2 ^ 64 }
        ensures fewer { length self.now ≤ length (joined self.now) }
        ensures places { MatchResult result (IsPlaceAt self.now) (IsPlaceAt self.now) }
        ensures found_within { IfOk result (λ p. place_at self.now p < length (joined self.now)) }
        ensures found { IfOk result (λ p.
            HoldsAt (λ y. C.order y key.now ≡ Equal) (map L.key_of (joined self.now)) (place_at self.now p)) }
        ensures missing_within { IfErr result (λ p. place_at self.now p ≤ length (joined self.now)) }
        ensures missing_before { IfErr result (λ p.
            AllWithin (λ y. C.order y key.now ≡ Less) (map L.key_of (joined self.now)) 0 (place_at self.now p)) }
        ensures missing_from { IfErr result (λ p. AllWithin (λ y. C.order y key.now ≡ Greater)
            (map L.key_of (joined self.now)) (place_at self.now p) (length (joined self.now))) }
        ensures comparisons { AddsAtMost (C.count cmp.old) (C.count cmp.new)
            (digits (length self.now) + digits (M.FULL - 1)) }
    {
        if self.chunks.is_empty() {
            return Err(FRONT);
        }
        match find(&self.chunks, lens, key, cmp) {
            Ok(p) => Ok(p),
            Err(p) => Err(p),
        }
    }

    /// `find` for a key above those of all items before a place. Mostly no item lies between the two,
    /// and then it searches nothing.
    #[inline(always)]
    pub fn find_from<K, L: SearchBy<T, K>, C: Compare<K>>(
        &self,
        from: Place,
        lens: &L,
        key: &K,
        cmp: &mut C,
    ) -> Result<Place, Place>
        requires place { IsPlaceAt self.now from }
        requires before { AllWithin (λ y. C.order y key.now ≡ Less)
            (map L.key_of (joined self.now)) 0 (place_at self.now from) }
        requires ascending { IsAscending C.order (map L.key_of (joined self.now)) }
        requires made { C.count cmp.old < 2 ^ 125 }
        ensures few { length self.now < 2 ^ 64 }
        ensures fewer { length self.now ≤ length (joined self.now) }
        ensures places { MatchResult result (IsPlaceAt self.now) (IsPlaceAt self.now) }
        ensures found_within { IfOk result (λ p. place_at self.now p < length (joined self.now)) }
        ensures found { IfOk result (λ p.
            HoldsAt (λ y. C.order y key.now ≡ Equal) (map L.key_of (joined self.now)) (place_at self.now p)) }
        ensures missing_within { IfErr result (λ p. place_at self.now p ≤ length (joined self.now)) }
        ensures missing_before { IfErr result (λ p.
            AllWithin (λ y. C.order y key.now ≡ Less) (map L.key_of (joined self.now)) 0 (place_at self.now p)) }
        ensures missing_from { IfErr result (λ p. AllWithin (λ y. C.order y key.now ≡ Greater)
            (map L.key_of (joined self.now)) (place_at self.now p) (length (joined self.now))) }
        ensures comparisons { AddsAtMost (C.count cmp.old) (C.count cmp.new)
            (digits (length self.now) + digits (M.FULL - 1) + 1) }
    {
        if self.chunks.is_empty() {
            return Err(FRONT);
        }
        match find_from(&self.chunks, from, lens, key, cmp) {
            Ok(p) => Ok(p),
            Err(p) => Err(p),
        }
    }

    /// The place before which all keys are below this one, and from which on none is.
    pub fn place_below<K, L: SearchBy<T, K>, C: Compare<K>>(
        &self,
        lens: &L,
        key: &K,
        cmp: &mut C,
    ) -> Place
        requires ascending { IsAscending C.order (map L.key_of (joined self.now)) }
        requires made { C.count cmp.old < 2 ^ 126 }
        ensures place { IsPlaceAt self.now result }
        ensures few { length self.now < 2 ^ 64 }
        ensures fewer { length self.now ≤ length (joined self.now) }
        ensures within { place_at self.now result ≤ length (joined self.now) }
        ensures below { AllWithin (λ y. C.order y key.now ≡ Less) (map L.key_of (joined self.now)) 0 (place_at self.now result) }
        ensures from { AllWithin (λ y. is_le (C.order key.now y) ≡ true) (map L.key_of (joined self.now))
            (place_at self.now result) (length (joined self.now)) }
        ensures comparisons { AddsAtMost (C.count cmp.old) (C.count cmp.new)
            (digits (length self.now) + digits (M.FULL - 1)) }
    {
        if self.chunks.is_empty() {
            return FRONT;
        }
        below(&self.chunks, lens, key, cmp)
    }

    /// The place before which all keys are at or below this one, and from which on all are above it.
    #[inline]
    pub fn place_up_to<K, L: SearchBy<T, K>, C: Compare<K>>(
        &self,
        lens: &L,
        key: &K,
        cmp: &mut C,
    ) -> Place
        requires ascending { IsAscending C.order (map L.key_of (joined self.now)) }
        requires made { C.count cmp.old < 2 ^ 126 }
        ensures place { IsPlaceAt self.now result }
        ensures few { length self.now < 2 ^ 64 }
        ensures fewer { length self.now ≤ length (joined self.now) }
        ensures within { place_at self.now result ≤ length (joined self.now) }
        ensures up_to { AllWithin (λ y. is_le (C.order y key.now) ≡ true) (map L.key_of (joined self.now)) 0 (place_at self.now result) }
        ensures above { AllWithin (λ y. C.order y key.now ≡ Greater) (map L.key_of (joined self.now))
            (place_at self.now result) (length (joined self.now)) }
        ensures comparisons { AddsAtMost (C.count cmp.old) (C.count cmp.new)
            (digits (length self.now) + digits (M.FULL - 1)) }
    {
        if self.chunks.is_empty() {
            return FRONT;
        }
        up_to(&self.chunks, lens, key, cmp)
    }
}
