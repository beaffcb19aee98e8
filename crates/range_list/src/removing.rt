//! Items taken out between two places, which takes no memory.
ghost use Rattle.std.specs.Prelude.{◌≡◌, ◌≤◌, ◌<◌, ◌+◌, ℕ, length, take, drop, get_or, vec_capacity};
ghost use Rattle.std.specs.List.{remove_range};
ghost use Rattle.range_list.specs.Chunks.{items_of, flat, AreShort, KnowMarks};
ghost use Rattle.range_list.specs.Places.{place_in, IsPlace};

use crate::chunk::Chunk;
use crate::chunk_list::ChunkList;
use crate::mark::Mark;
use crate::place::Place;
use std::mem;

/// Removes the items between two places.
pub fn remove_between<T: Drop, M: Mark>(chunks: &mut ChunkList<T, M>, from: Place, to: Place)
    requires from { IsPlace chunks.old from }
    requires to { IsPlace chunks.old to }
    requires ordered { place_in chunks.old from ≤ place_in chunks.old to }
    requires alike { M.of (place_in chunks.old from) ≡ M.of (place_in chunks.old to) }
    ensures { flat chunks.new ≡ remove_range (flat chunks.old)
        (place_in chunks.old from) (place_in chunks.old to) }
{
    if from.chunk > to.chunk {
        return;
    }
    if from.chunk == to.chunk && to.index - from.index < chunks.list[to.chunk].len() {
        remove_in(chunks, from, to.index);
    } else {
        remove_across(chunks, from, to);
    }
}

// Removes some items of one chunk, but not all.
fn remove_in<T: Drop, M: Mark>(chunks: &mut ChunkList<T, M>, from: Place, to: usize)
    requires from { IsPlace chunks.old from }
    requires to { IsPlace chunks.old (record { chunk = from.chunk; index = to }) }
    requires ordered { from.index ≤ to }
    requires alike { M.of (place_in chunks.old from) ≡
        M.of (place_in chunks.old (record { chunk = from.chunk; index = to })) }
    requires some { (d : Chunk T M) → to < from.index + length (items_of (get_or chunks.old from.chunk d)) }
    ensures { flat chunks.new ≡ remove_range (flat chunks.old)
        (place_in chunks.old from) (place_in chunks.old (record { chunk = from.chunk; index = to })) }
{
    chunks.list[from.chunk].remove_between(from.index, to);
}

// Removes what lies between two places of different chunks, or a whole chunk. In Rust a drop may
// panic, so the list is empty until what is left of it is whole.
fn remove_across<T: Drop, M: Mark>(chunks: &mut ChunkList<T, M>, from: Place, to: Place)
    requires from { IsPlace chunks.old from }
    requires to { IsPlace chunks.old to }
    requires ordered { from.chunk ≤ to.chunk }
    requires whole { from.chunk ≡ to.chunk → from.index ≡ 0 }
    requires alike { M.of (place_in chunks.old from) ≡ M.of (place_in chunks.old to) }
    ensures { flat chunks.new ≡ remove_range (flat chunks.old)
        (place_in chunks.old from) (place_in chunks.old to) }
{
    let empty = ChunkList::new(chunks.allocator());
    let mut taken = mem::replace(chunks, empty);
    cut_across(&mut taken, from, to);
    *chunks = taken;
}

// The same as `remove_across`, in steps, between which the marks are wrong.
fn cut_across<T: Drop, M: Mark>(chunks: &mut ChunkList<T, M>, from: Place, to: Place)
    requires from { IsPlace chunks.old from }
    requires to { IsPlace chunks.old to }
    requires ordered { from.chunk ≤ to.chunk }
    requires whole { from.chunk ≡ to.chunk → from.index ≡ 0 }
    requires alike { M.of (place_in chunks.old from) ≡ M.of (place_in chunks.old to) }
    ensures { flat chunks.new ≡ remove_range (flat chunks.old)
        (place_in chunks.old from) (place_in chunks.old to) }
{
    let low = cut_behind(&mut chunks.list, from);
    let high = cut_before(&mut chunks.list, to);
    remove_chunks(&mut chunks.list, low, high);
}

/// Removes the chunks between two indices.
pub fn remove_chunks<T: Drop, M: Mark>(chunks: &mut Vec<Chunk<T, M>>, from: usize, to: usize)
    requires ordered { from ≤ to }
    requires within { to ≤ length chunks.old.items }
    ensures { chunks.new.items ≡ remove_range chunks.old.items from to }
{
    chunks.drain(from..to);
}

/// Removes the items behind a place from its chunk. Returns how many chunks stand before the
/// place then: one that has none left is not among them, and is left as it was.
pub fn cut_behind<T: Drop, M: Mark>(chunks: &mut Vec<Chunk<T, M>>, at: Place) -> usize
    requires short { AreShort M.FULL chunks.old.items }
    requires marks { KnowMarks M.of 0 chunks.old.items }
    requires place { IsPlace chunks.old.items at }
    ensures items { flat (take result chunks.new.items) ≡
        take (place_in chunks.old.items at) (flat chunks.old.items) }
    ensures short { AreShort M.FULL (take result chunks.new.items) }
    ensures marks { KnowMarks M.of 0 (take result chunks.new.items) }
    ensures below { at.chunk ≤ result }
    ensures within { result ≤ at.chunk + 1 }
    ensures start { at.index ≡ 0 → result ≡ at.chunk }
    ensures same { at.index ≡ 0 → chunks.new.items ≡ chunks.old.items }
    ensures len { length chunks.new.items ≡ length chunks.old.items }
    ensures capacity { vec_capacity chunks.old ≤ vec_capacity chunks.new }
    ensures others { (k : ℕ) → at.chunk < k → drop k chunks.new.items ≡ drop k chunks.old.items }
{
    if at.index == 0 {
        return at.chunk;
    }
    chunks[at.chunk].keep_front(at.index);
    at.chunk + 1
}

// Removes the items before a place from its chunk. Returns the chunk that begins at the place
// then: the next one where the place is the chunk's end, which is left as it was.
fn cut_before<T: Drop, M: Mark>(chunks: &mut Vec<Chunk<T, M>>, at: Place) -> usize
    requires short { AreShort M.FULL (drop at.chunk chunks.old.items) }
    requires place { IsPlace chunks.old.items at }
    ensures items { flat (drop result chunks.new.items) ≡
        drop at.index (flat (drop at.chunk chunks.old.items)) }
    ensures short { AreShort M.FULL (drop result chunks.new.items) }
    ensures marks { (n : ℕ) → KnowMarks M.of n (drop at.chunk chunks.old.items) →
        KnowMarks M.of (n + at.index) (drop result chunks.new.items) }
    ensures within { result ≤ length chunks.new.items }
    ensures below { at.chunk ≤ result }
    ensures others { take at.chunk chunks.new.items ≡ take at.chunk chunks.old.items }
{
    if at.index == chunks[at.chunk].len() {
        return at.chunk + 1;
    }
    chunks[at.chunk].remove_front(at.index);
    at.chunk
}
