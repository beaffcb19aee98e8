//! What lies between two places replaced by the items of a list: within a chunk where they fit there,
//! and else in chunks of their own.
ghost use Rattle.std.specs.Prelude.{◌≡◌, ◌≤◌, ◌<◌, ◌+◌, ◌-◌, ◌++◌, [], true, length, take, drop, get_or, vec_len, vec_capacity, OnOk, OnErr, IfOk};
ghost use Rattle.range_list.specs.Chunks.{items_of, flat, start_of, AreShort, KnowMarks, AreChunks};
ghost use Rattle.range_list.specs.Places.{place_in, IsPlace};

use crate::chunk::{Chunk, insert_list_reserved};
use crate::chunk_list::ChunkList;
use crate::inserting::split_at;
use crate::joining::{join_around, join_where_they_fit};
use crate::mark::Mark;
use crate::moving::cut_up;
use crate::place::Place;
use crate::reading::mark_at;
use crate::removing::{cut_behind, remove_chunks};
use std::alloc::AllocError;
use std::mem;

/// Replaces the items between two places by those of a list. It asks for all memory that it needs before
/// it changes an item. If that fails, the list is dropped.
pub fn replace_between<T: Drop, M: Mark>(
    chunks: &mut ChunkList<T, M>,
    from: Place,
    to: Place,
    list: Vec<T>,
) -> Result<(), AllocError>
    requires from { IsPlace chunks.old from }
    requires to { IsPlace chunks.old to }
    requires ordered { place_in chunks.old from ≤ place_in chunks.old to }
    requires alike { place_in chunks.old to < length (flat chunks.old) →
        M.of (place_in chunks.old from + length list.items) ≡ M.of (place_in chunks.old to) }
    ensures items { OnOk result (flat chunks.new ≡
        take (place_in chunks.old from) (flat chunks.old)
        ++ (list.items ++ drop (place_in chunks.old to) (flat chunks.old))) }
    ensures unchanged { OnErr result (flat chunks.new ≡ flat chunks.old) }
{
    if fits(chunks, from, to, list.len()) {
        replace_in(chunks, from, to.index, list)?;
        join_around(chunks, from.chunk);
        return Ok(());
    }
    let from = up_to(chunks, from, to);
    replace_across(chunks, from, to, list)
}

/// Puts the items of a list into chunks of which there are none. If memory runs out, they are dropped.
pub fn fill_from<T: Drop, M: Mark>(
    chunks: &mut ChunkList<T, M>,
    list: Vec<T>,
) -> Result<(), AllocError>
    requires none { length chunks.old ≡ 0 }
    ensures items { OnOk result (flat chunks.new ≡ list.items) }
    ensures unchanged { OnErr result (flat chunks.new ≡ []) }
{
    let made = cut_up(list, M::front())?;
    chunks.list = made;
    Ok(())
}

// Whether both places are in one chunk, in which this number of items fits in the place of those between
// them, and some items stay.
fn fits<T, M: Mark>(chunks: &ChunkList<T, M>, from: Place, to: Place, len: usize) -> bool
    requires from { IsPlace chunks.now from }
    requires to { IsPlace chunks.now to }
    requires ordered { place_in chunks.now from ≤ place_in chunks.now to }
    ensures same { result ≡ true → from.chunk ≡ to.chunk }
    ensures ordered { result ≡ true → from.index ≤ to.index }
    ensures behind { result ≡ true → 0 < to.index }
    ensures some { result ≡ true → (d : Chunk T M) →
        to.index < from.index + (len + length (items_of (get_or chunks.now to.chunk d))) }
    ensures room { result ≡ true → (d : Chunk T M) →
        from.index + (len + length (items_of (get_or chunks.now to.chunk d))) ≤ M.FULL + to.index }
{
    if from.chunk != to.chunk || to.index == 0 {
        return false;
    }
    let stay = chunks.list[to.chunk].len() - (to.index - from.index);
    (stay > 0 || len > 0) && len <= M::FULL - stay
}

// Replaces the items between two indices of a chunk.
fn replace_in<T: Drop, M: Mark>(
    chunks: &mut ChunkList<T, M>,
    from: Place,
    to: usize,
    list: Vec<T>,
) -> Result<(), AllocError>
    requires from { IsPlace chunks.old from }
    requires to { IsPlace chunks.old (record { chunk = from.chunk; index = to }) }
    requires ordered { from.index ≤ to }
    requires behind { 0 < to }
    requires some { (d : Chunk T M) →
        to < from.index + (length list.items + length (items_of (get_or chunks.old from.chunk d))) }
    requires room { (d : Chunk T M) → from.index
        + (length list.items + length (items_of (get_or chunks.old from.chunk d))) ≤ M.FULL + to }
    requires alike { start_of chunks.old from.chunk + to < length (flat chunks.old) →
        M.of (place_in chunks.old from + length list.items) ≡
        M.of (start_of chunks.old from.chunk + to) }
    ensures items { OnOk result (flat chunks.new ≡
        take (place_in chunks.old from) (flat chunks.old)
        ++ (list.items ++ drop (start_of chunks.old from.chunk + to) (flat chunks.old))) }
    ensures unchanged { OnErr result (flat chunks.new ≡ flat chunks.old) }
{
    chunks.list[from.chunk].replace(from.index, to, list)
}

// The first of two places, or the other one if that is of an earlier chunk and as many items stand before.
fn up_to<T, M: Mark>(chunks: &ChunkList<T, M>, from: Place, to: Place) -> Place
    requires from { IsPlace chunks.now from }
    requires to { IsPlace chunks.now to }
    requires ordered { place_in chunks.now from ≤ place_in chunks.now to }
    ensures place { IsPlace chunks.now result }
    ensures same { place_in chunks.now result ≡ place_in chunks.now from }
    ensures ordered { result.chunk ≤ to.chunk }
    ensures within { result.chunk ≡ to.chunk → result.index ≤ to.index }
{
    if from.chunk > to.chunk { to } else { from }
}

// Replaces the items between two places by chunks of their own. Small ones are joined with their
// neighbours.
fn replace_across<T: Drop, M: Mark>(
    chunks: &mut ChunkList<T, M>,
    from: Place,
    to: Place,
    list: Vec<T>,
) -> Result<(), AllocError>
    requires from { IsPlace chunks.old from }
    requires to { IsPlace chunks.old to }
    requires ordered { from.chunk ≤ to.chunk }
    requires within { from.chunk ≡ to.chunk → from.index ≤ to.index }
    requires alike { place_in chunks.old to < length (flat chunks.old) →
        M.of (place_in chunks.old from + length list.items) ≡ M.of (place_in chunks.old to) }
    ensures items { OnOk result (flat chunks.new ≡
        take (place_in chunks.old from) (flat chunks.old)
        ++ (list.items ++ drop (place_in chunks.old to) (flat chunks.old))) }
    ensures unchanged { OnErr result (flat chunks.new ≡ flat chunks.old) }
{
    let made = cut_up(list, mark_at(chunks, from))?;
    let count = made.len();
    let high = begin_chunk(chunks, from, to)?;
    let low = put_chunks(chunks, from, high, made)?;
    join_where_they_fit(chunks, low.saturating_add(count).saturating_sub(1));
    join_where_they_fit(chunks, low.saturating_sub(1));
    Ok(())
}

// Splits the chunk of a place if there are items of it before and behind. Returns the chunk that begins
// at the place. An earlier place stays as it was.
fn begin_chunk<T: Drop, M: Mark>(
    chunks: &mut ChunkList<T, M>,
    from: Place,
    at: Place,
) -> Result<usize, AllocError>
    requires from { IsPlace chunks.old from }
    requires place { IsPlace chunks.old at }
    requires ordered { from.chunk ≤ at.chunk }
    requires within { from.chunk ≡ at.chunk → from.index ≤ at.index }
    ensures same { flat chunks.new ≡ flat chunks.old }
    ensures within { IfOk result (λ high. high ≤ length chunks.new) }
    ensures start { IfOk result (λ high. start_of chunks.new high ≡ place_in chunks.old at) }
    ensures from { IfOk result (λ high. IsPlace chunks.new from) }
    ensures from_same { IfOk result (λ high. place_in chunks.new from ≡ place_in chunks.old from) }
    ensures ordered { IfOk result (λ high. from.chunk ≤ high) }
    ensures front { IfOk result (λ high. from.chunk ≡ high → from.index ≡ 0) }
{
    if at.index == 0 {
        return Ok(at.chunk);
    }
    if at.index < chunks.list[at.chunk].len() {
        split_at(chunks, at)?;
    }
    Ok(at.chunk + 1)
}

// Puts chunks in the place of the items from a place up to a chunk. Returns how many chunks stand before
// them. In Rust a drop may panic, so the list is empty until it is whole.
fn put_chunks<T: Drop, M: Mark>(
    chunks: &mut ChunkList<T, M>,
    from: Place,
    high: usize,
    made: Vec<Chunk<T, M>>,
) -> Result<usize, AllocError>
    requires from { IsPlace chunks.old from }
    requires within { high ≤ length chunks.old }
    requires ordered { from.chunk ≤ high }
    requires front { from.chunk ≡ high → from.index ≡ 0 }
    requires made_short { AreShort M.FULL made.items }
    requires made_marks { KnowMarks M.of (place_in chunks.old from) made.items }
    requires alike { start_of chunks.old high < length (flat chunks.old) →
        M.of (place_in chunks.old from + length (flat made.items)) ≡ M.of (start_of chunks.old high) }
    ensures items { OnOk result (flat chunks.new ≡ take (place_in chunks.old from) (flat chunks.old)
        ++ (flat made.items ++ drop (start_of chunks.old high) (flat chunks.old))) }
    ensures unchanged { OnErr result (flat chunks.new ≡ flat chunks.old) }
{
    chunks.list.reserve(made.len())?;
    let empty = Vec::new(*chunks.list.allocator());
    let mut taken = mem::replace(&mut chunks.list, empty);
    let low = put_between(&mut taken, from, high, made);
    chunks.list = taken;
    Ok(low)
}

// The same as `put_chunks`, in a plain list that has the room: in steps, between which the marks
// are wrong.
fn put_between<T: Drop, M: Mark>(
    chunks: &mut Vec<Chunk<T, M>>,
    from: Place,
    high: usize,
    made: Vec<Chunk<T, M>>,
) -> usize
    requires chunks { AreChunks M.FULL M.of chunks.old.items }
    requires from { IsPlace chunks.old.items from }
    requires within { high ≤ length chunks.old.items }
    requires ordered { from.chunk ≤ high }
    requires front { from.chunk ≡ high → from.index ≡ 0 }
    requires room { vec_len chunks.old + vec_len made ≤ vec_capacity chunks.old }
    requires made_short { AreShort M.FULL made.items }
    requires made_marks { KnowMarks M.of (place_in chunks.old.items from) made.items }
    requires alike { start_of chunks.old.items high < length (flat chunks.old.items) →
        M.of (place_in chunks.old.items from + length (flat made.items)) ≡ M.of (start_of chunks.old.items high) }
    ensures items { flat chunks.new.items ≡ take (place_in chunks.old.items from) (flat chunks.old.items)
        ++ (flat made.items ++ drop (start_of chunks.old.items high) (flat chunks.old.items)) }
    ensures chunks { AreChunks M.FULL M.of chunks.new.items }
{
    let low = cut_behind(chunks, from);
    insert_list_reserved(chunks, high, made);
    remove_chunks(chunks, low, high);
    low
}
