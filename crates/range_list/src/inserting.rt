//! Items put at a place. A full chunk is split first, so that none becomes longer than a full one.
ghost use Rattle.std.specs.Prelude.{◌≡◌, ◌≤◌, ◌<◌, ◌+◌, ◌^◌, ◌++◌, ◌∷◌, [], take, drop, length, get_or, vec_len, vec_capacity, true, is_some, OnOk, OnErr, IfOk, IfErr, IsOk};
ghost use Rattle.std.specs.List.{insert};
ghost use Rattle.std.specs.Option.{option_to_list};
ghost use Rattle.range_list.specs.Chunks.{items_of, flat, start_of, AreChunks};
ghost use Rattle.range_list.specs.Places.{place_in, IsPlace};

use crate::chunk::Chunk;
use crate::chunk_list::ChunkList;
use crate::mark::Mark;
use crate::place::Place;
use std::alloc::AllocError;

/// Inserts one item or two at a place. A full chunk is split first. Returns the place of the first
/// one. If memory runs out, the items are as they were, and those to be put are handed back.
pub fn insert_at<T: Drop, M: Mark>(
    chunks: &mut ChunkList<T, M>,
    at: Place,
    first: T,
    second: Option<T>,
) -> Result<Place, (T, Option<T>)>
    requires place { IsPlace chunks.old at }
    requires alike { M.of (place_in chunks.old at) ≡
        M.of (place_in chunks.old at + length (first ∷ option_to_list second)) }
    ensures items { OnOk result (flat chunks.new ≡
        take (place_in chunks.old at) (flat chunks.old)
        ++ ((first ∷ option_to_list second) ++ drop (place_in chunks.old at) (flat chunks.old))) }
    ensures unchanged { OnErr result (flat chunks.new ≡ flat chunks.old) }
    ensures handed_back { IfErr result (λ back. (back.0 ≡ first) × (back.1 ≡ second)) }
    ensures place { IfOk result (IsPlace chunks.new) }
    ensures same { IfOk result (λ p. place_in chunks.new p ≡ place_in chunks.old at) }
{
    match make_room(chunks, at) {
        Ok(at) => {
            insert_in(chunks, at, first, second);
            Ok(at)
        }
        Err(_) => Err((first, second)),
    }
}

// Inserts one item or two in a chunk with room for them.
fn insert_in<T: Drop, M: Mark>(chunks: &mut ChunkList<T, M>, at: Place, first: T, second: Option<T>)
    requires place { IsPlace chunks.old at }
    requires room { (d : Chunk T M) → length (items_of (get_or chunks.old at.chunk d)) + 2 ≤ M.FULL }
    requires memory { (d : Chunk T M) → vec_len (get_or chunks.old at.chunk d).rest + 2 ≤
        vec_capacity (get_or chunks.old at.chunk d).rest }
    requires alike { M.of (place_in chunks.old at) ≡
        M.of (place_in chunks.old at + length (first ∷ option_to_list second)) }
    ensures items { flat chunks.new ≡
        take (place_in chunks.old at) (flat chunks.old)
        ++ ((first ∷ option_to_list second) ++ drop (place_in chunks.old at) (flat chunks.old)) }
    ensures place { IsPlace chunks.new at }
    ensures same { place_in chunks.new at ≡ place_in chunks.old at }
{
    chunks.list[at.chunk].insert(at.index, first, second);
}

// The place in a chunk that has room for two more items, and memory for them.
fn make_room<T: Drop, M: Mark>(chunks: &mut ChunkList<T, M>, at: Place) -> Result<Place, AllocError>
    requires place { IsPlace chunks.old at }
    ensures same { flat chunks.new ≡ flat chunks.old }
    ensures place { IfOk result (IsPlace chunks.new) }
    ensures before { IfOk result (λ p. place_in chunks.new p ≡ place_in chunks.old at) }
    ensures room { IfOk result (λ p. (d : Chunk T M) →
        length (items_of (get_or chunks.new p.chunk d)) + 2 ≤ M.FULL) }
    ensures memory { IfOk result (λ p. (d : Chunk T M) →
        vec_len (get_or chunks.new p.chunk d).rest + 2 ≤
        vec_capacity (get_or chunks.new p.chunk d).rest) }
{
    let at = with_room(chunks, at)?;
    reserve_in(chunks, at)?;
    Ok(at)
}

// Makes memory for two more items in the chunk of a place.
fn reserve_in<T: Drop, M: Mark>(chunks: &mut ChunkList<T, M>, at: Place) -> Result<(), AllocError>
    requires place { IsPlace chunks.old at }
    ensures same { flat chunks.new ≡ flat chunks.old }
    ensures place { IsPlace chunks.new at }
    ensures before { place_in chunks.new at ≡ place_in chunks.old at }
    ensures long { (d : Chunk T M) → length (items_of (get_or chunks.new at.chunk d)) ≡
        length (items_of (get_or chunks.old at.chunk d)) }
    ensures memory { OnOk result ((d : Chunk T M) →
        vec_len (get_or chunks.new at.chunk d).rest + 2 ≤
        vec_capacity (get_or chunks.new at.chunk d).rest) }
{
    chunks.list[at.chunk].reserve(2)
}

// The place in a chunk that has room for two more items: a full one is split.
fn with_room<T: Drop, M: Mark>(chunks: &mut ChunkList<T, M>, at: Place) -> Result<Place, AllocError>
    requires place { IsPlace chunks.old at }
    ensures same { flat chunks.new ≡ flat chunks.old }
    ensures place { IfOk result (IsPlace chunks.new) }
    ensures before { IfOk result (λ p. place_in chunks.new p ≡ place_in chunks.old at) }
    ensures room { IfOk result (λ p. (d : Chunk T M) →
        length (items_of (get_or chunks.new p.chunk d)) + 2 ≤ M.FULL) }
{
    if chunks.list[at.chunk].len() + 2 <= M::FULL {
        return Ok(at);
    }
    split(chunks, at)
}

// Splits a full chunk in two. Returns the place in its part.
fn split<T: Drop, M: Mark>(chunks: &mut ChunkList<T, M>, at: Place) -> Result<Place, AllocError>
    requires place { IsPlace chunks.old at }
    requires many { (d : Chunk T M) → M.FULL < length (items_of (get_or chunks.old at.chunk d)) + 2 }
    ensures same { flat chunks.new ≡ flat chunks.old }
    ensures place { IfOk result (IsPlace chunks.new) }
    ensures before { IfOk result (λ p. place_in chunks.new p ≡ place_in chunks.old at) }
    ensures room { IfOk result (λ p. (d : Chunk T M) →
        length (items_of (get_or chunks.new p.chunk d)) + 2 ≤ M.FULL) }
    ensures appended { place_in chunks.old at ≡ length (flat chunks.old) → OnOk result ((d : Chunk T M) →
        length (items_of (get_or chunks.new at.chunk d)) + 1 ≡ length (items_of (get_or chunks.old at.chunk d))) }
{
    let len = split_index(chunks, at);
    let cut = Place {
        chunk: at.chunk,
        index: len,
    };
    split_at(chunks, cut)?;
    if at.index <= len {
        Ok(at)
    } else {
        Ok(Place {
            chunk: at.chunk + 1,
            index: at.index - len,
        })
    }
}

// Where a full chunk is split for what is put at a place: in the middle, or before its last item if
// that comes behind all others, so that a list that grows at its end has full chunks.
fn split_index<T, M: Mark>(chunks: &ChunkList<T, M>, at: Place) -> usize
    requires place { IsPlace chunks.now at }
    requires many { (d : Chunk T M) → M.FULL < length (items_of (get_or chunks.now at.chunk d)) + 2 }
    ensures count { length chunks.now < 2 ^ 64 }
    ensures some { 0 < result }
    ensures within { (d : Chunk T M) → result < length (items_of (get_or chunks.now at.chunk d)) }
    ensures low { at.index ≤ result → result + 2 ≤ M.FULL }
    ensures high { result < at.index → (d : Chunk T M) →
        length (items_of (get_or chunks.now at.chunk d)) + 2 ≤ M.FULL + result }
    ensures appended { place_in chunks.now at ≡ length (flat chunks.now) → (d : Chunk T M) →
        result + 1 ≡ length (items_of (get_or chunks.now at.chunk d)) }
{
    let len = chunks.list[at.chunk].len();
    if at.chunk + 1 == chunks.len() && at.index == len {
        len - 1
    } else {
        M::FULL / 2
    }
}

/// Splits the chunk of a place there, where items stand before and behind it. An earlier place of that
/// chunk stays, and the place is the chunk's end then.
pub fn split_at<T: Drop, M: Mark>(chunks: &mut ChunkList<T, M>, at: Place) -> Result<(), AllocError>
    requires some { 0 < at.index }
    requires chunk { at.chunk < length chunks.old }
    requires within { (d : Chunk T M) → at.index < length (items_of (get_or chunks.old at.chunk d)) }
    ensures same { flat chunks.new ≡ flat chunks.old }
    ensures len { OnOk result (length chunks.new ≡ length chunks.old + 1) }
    ensures lower { OnOk result ((d : Chunk T M) → length (items_of (get_or chunks.new at.chunk d)) ≡ at.index) }
    ensures upper { OnOk result ((d : Chunk T M) → length (items_of (get_or chunks.new (at.chunk + 1) d)) + at.index ≡
        length (items_of (get_or chunks.old at.chunk d))) }
    ensures places { OnOk result ((p : Place) → IsPlace chunks.old p → p.chunk ≤ at.chunk → (p.chunk ≡ at.chunk → p.index ≤ at.index) →
        IsPlace chunks.new p × (place_in chunks.new p ≡ place_in chunks.old p)) }
    ensures end { OnOk result (start_of chunks.new (at.chunk + 1) ≡ place_in chunks.old at) }
{
    chunks.list.reserve(1)?;
    let upper = chunks.list[at.chunk].split_off(at.index)?;
    insert_chunk(&mut chunks.list, at.chunk + 1, upper);
    Ok(())
}

// Inserts a chunk where there is room for one.
fn insert_chunk<T: Drop, M: Mark>(chunks: &mut Vec<Chunk<T, M>>, at: usize, chunk: Chunk<T, M>)
    requires within { at ≤ length chunks.old.items }
    requires room { vec_len chunks.old < vec_capacity chunks.old }
    ensures { chunks.new.items ≡ insert chunks.old.items at chunk }
{
    chunks.push_reserved(chunk);
    chunks[at..].rotate_right(1);
}

/// Puts items into a list that has none. If memory runs out, they are handed back.
pub fn push_first<T: Drop, M: Mark>(
    chunks: &mut ChunkList<T, M>,
    first: T,
    second: Option<T>,
) -> Result<(), (T, Option<T>)>
    requires none { length chunks.old ≡ 0 }
    ensures items { OnOk result (flat chunks.new ≡ first ∷ option_to_list second) }
    ensures unchanged { OnErr result (flat chunks.new ≡ []) }
    ensures handed_back { IfErr result (λ back. (back.0 ≡ first) × (back.1 ≡ second)) }
{
    match room_for_first(&mut chunks.list, second.is_some()) {
        Ok(rest) => {
            put_first(&mut chunks.list, first, second, rest);
            Ok(())
        }
        Err(_) => Err((first, second)),
    }
}

// Makes room for a chunk, and a list for the rest of it with room for one item if there is a second
// one.
fn room_for_first<T: Drop, M: Mark>(
    chunks: &mut Vec<Chunk<T, M>>,
    second: bool,
) -> Result<Vec<T>, AllocError>
    requires none { length chunks.old.items ≡ 0 }
    ensures none { length chunks.new.items ≡ 0 }
    ensures spare { OnOk result (vec_len chunks.new < vec_capacity chunks.new) }
    ensures rest { IfOk result (λ rest. rest.items ≡ []) }
    ensures room { IfOk result (λ rest. second ≡ true → vec_len rest < vec_capacity rest) }
{
    chunks.reserve(1)?;
    let mut rest = Vec::new(*chunks.allocator());
    if second {
        rest.reserve(1)?;
    }
    Ok(rest)
}

// Puts the first chunk into a list that has room for it.
fn put_first<T: Drop, M: Mark>(
    chunks: &mut Vec<Chunk<T, M>>,
    first: T,
    second: Option<T>,
    rest: Vec<T>,
)
    requires none { length chunks.old.items ≡ 0 }
    requires spare { vec_len chunks.old < vec_capacity chunks.old }
    requires rest { rest.items ≡ [] }
    requires room { is_some second ≡ true → vec_len rest < vec_capacity rest }
    ensures items { flat chunks.new.items ≡ first ∷ option_to_list second }
    ensures chunks { AreChunks M.FULL M.of chunks.new.items }
{
    let chunk = first_chunk(first, second, rest);
    chunks.push_reserved(chunk);
}

// A chunk of one item or two, before which none stands.
fn first_chunk<T: Drop, M: Mark>(first: T, second: Option<T>, rest: Vec<T>) -> Chunk<T, M>
    requires rest { rest.items ≡ [] }
    requires room { is_some second ≡ true → vec_len rest < vec_capacity rest }
    ensures items { items_of result ≡ first ∷ option_to_list second }
    ensures mark { result.mark ≡ M.of 0 }
{
    let mut rest = rest;
    if let Some(second) = second {
        rest.push_reserved(second);
    }
    Chunk {
        first,
        rest,
        mark: M::front(),
    }
}

/// Puts what is given into a list that has none. If memory runs out, it is handed back.
pub fn fill<T: Drop, M: Mark>(
    chunks: &mut ChunkList<T, M>,
    first: Option<T>,
    second: Option<T>,
) -> Result<(), (Option<T>, Option<T>)>
    requires none { length chunks.old ≡ 0 }
    ensures items { OnOk result (flat chunks.new ≡ option_to_list first ++ option_to_list second) }
    ensures unchanged { OnErr result (flat chunks.new ≡ []) }
    ensures handed_back { IfErr result (λ back. (back.0 ≡ first) × (back.1 ≡ second)) }
    ensures succeeds { option_to_list first ++ option_to_list second ≡ [] → IsOk result }
{
    match (first, second) {
        (Some(first), second) => match push_first(chunks, first, second) {
            Ok(()) => Ok(()),
            Err((first, second)) => Err((Some(first), second)),
        },
        (None, Some(second)) => match push_first(chunks, second, None) {
            Ok(()) => Ok(()),
            Err((second, _)) => Err((None, Some(second))),
        },
        (None, None) => Ok(()),
    }
}
