//! What stands behind a place replaced by one item or none, and items put behind all others.
ghost use Rattle.std.specs.Prelude.{◌≡◌, ◌≤◌, ◌<◌, ◌+◌, ◌-◌, ◌++◌, ◌∷◌, [], Option, length, take, get_or, OnOk, OnErr, IsOk};
ghost use Rattle.std.specs.Option.{option_to_list};
ghost use Rattle.range_list.specs.Chunks.{items_of, flat};
ghost use Rattle.range_list.specs.Places.{place_in, IsPlace};

use crate::chunk::Chunk;
use crate::chunk_list::ChunkList;
use crate::mark::Mark;
use crate::overwriting::overwrite;
use crate::place::Place;
use crate::reading::{end_mark, item_at};
use crate::removing::cut_behind;
use std::alloc::AllocError;
use std::mem;

/// Replaces the items from a place on by one or by none. It asks for memory only if one is put and none
/// gives way.
pub fn replace_from<T: Drop, M: Mark>(
    chunks: &mut ChunkList<T, M>,
    at: Place,
    item: Option<T>,
) -> Result<(), AllocError>
    requires place { IsPlace chunks.old at }
    ensures items { OnOk result (flat chunks.new ≡
        take (place_in chunks.old at) (flat chunks.old) ++ option_to_list item) }
    ensures unchanged { OnErr result (flat chunks.new ≡ flat chunks.old) }
    ensures succeeds { place_in chunks.old at + length (option_to_list item) ≤
        length (flat chunks.old) → IsOk result }
{
    if item_at(chunks, at).is_some() {
        let (after, _replaced) = overwrite(chunks, at, item);
        truncate(chunks, after);
        return Ok(());
    }
    match item {
        Some(item) => push(chunks, item),
        None => Ok(()),
    }
}

/// Removes the items from a place on. In Rust a drop may panic, so the list is empty until what is left
/// of it is whole.
pub fn truncate<T: Drop, M: Mark>(chunks: &mut ChunkList<T, M>, at: Place)
    requires place { IsPlace chunks.old at }
    ensures { flat chunks.new ≡ take (place_in chunks.old at) (flat chunks.old) }
{
    let empty = ChunkList::new(chunks.allocator());
    let mut taken = mem::replace(chunks, empty);
    let len = cut_behind(&mut taken.list, at);
    taken.list.truncate(len);
    *chunks = taken;
}

/// Puts an item behind all others, in a chunk of its own only if the last one is full. If memory runs
/// out, the items are as they were.
pub fn push<T: Drop, M: Mark>(chunks: &mut ChunkList<T, M>, item: T) -> Result<(), AllocError>
    ensures items { OnOk result (flat chunks.new ≡ flat chunks.old ++ item ∷ []) }
    ensures unchanged { OnErr result (flat chunks.new ≡ flat chunks.old) }
    ensures fills { length chunks.old < length chunks.new → (d : Chunk T M) → 0 < length chunks.old →
        M.FULL ≤ length (items_of (get_or chunks.old (length chunks.old - 1) d)) }
{
    if chunks.is_empty() {
        return push_chunk(chunks, item);
    }
    let last = chunks.len() - 1;
    if chunks.list[last].len() < M::FULL {
        push_in(chunks, last, item)
    } else {
        push_chunk(chunks, item)
    }
}

// Puts an item behind those of the last chunk, which has room.
fn push_in<T: Drop, M: Mark>(
    chunks: &mut ChunkList<T, M>,
    last: usize,
    item: T,
) -> Result<(), AllocError>
    requires last { last + 1 ≡ length chunks.old }
    requires room { (d : Chunk T M) → length (items_of (get_or chunks.old last d)) < M.FULL }
    ensures items { OnOk result (flat chunks.new ≡ flat chunks.old ++ item ∷ []) }
    ensures unchanged { OnErr result (flat chunks.new ≡ flat chunks.old) }
    ensures len { length chunks.new ≡ length chunks.old }
{
    chunks.list[last].push(item)
}

// Puts an item behind all others, in a chunk of its own.
fn push_chunk<T: Drop, M: Mark>(chunks: &mut ChunkList<T, M>, item: T) -> Result<(), AllocError>
    ensures items { OnOk result (flat chunks.new ≡ flat chunks.old ++ item ∷ []) }
    ensures unchanged { OnErr result (flat chunks.new ≡ flat chunks.old) }
{
    let mark = end_mark(chunks);
    let rest = Vec::new(chunks.allocator());
    chunks.list.push(Chunk {
        first: item,
        rest,
        mark,
    })?;
    Ok(())
}
