//! Items replaced at their places, which takes no memory and moves nothing.
ghost use Rattle.std.specs.Prelude.{◌≡◌, ◌<◌, ◌≤◌, ◌+◌, ◌++◌, Option, length, take, drop, get_or, slice_set};
ghost use Rattle.std.specs.Option.{option_to_list};
ghost use Rattle.range_list.specs.Chunks.{flat};
ghost use Rattle.range_list.specs.Places.{place_in, IsPlace, IsItem, HasPlacesOf};

use crate::chunk_list::ChunkList;
use crate::key_of::SetKey;
use crate::mark::Mark;
use crate::place::Place;

/// Replaces the item at a place, if one is given. Returns the place after it, and the item
/// replaced.
pub fn overwrite<T: Drop, M: Mark>(
    chunks: &mut ChunkList<T, M>,
    at: Place,
    item: Option<T>,
) -> (Place, Option<T>)
    requires place { IsPlace chunks.old at }
    requires room { place_in chunks.old at + length (option_to_list item) ≤ length (flat chunks.old) }
    ensures items { flat chunks.new ≡ take (place_in chunks.old at) (flat chunks.old)
        ++ (option_to_list item ++
        drop (place_in chunks.old at + length (option_to_list item)) (flat chunks.old)) }
    ensures places { HasPlacesOf chunks.old chunks.new }
    ensures place { IsPlace chunks.new result.0 }
    ensures after { place_in chunks.new result.0 ≡ place_in chunks.old at + length (option_to_list item) }
{
    match item {
        Some(item) => {
            let at = item_place(chunks, at);
            let (after, replaced) = put(chunks, at, item);
            (after, Some(replaced))
        }
        None => (at, None),
    }
}

/// The place in the chunk that has the item there: the end of a chunk is the next one's start.
pub fn item_place<T, M: Mark>(chunks: &ChunkList<T, M>, at: Place) -> Place
    requires place { IsPlace chunks.now at }
    requires item { place_in chunks.now at < length (flat chunks.now) }
    ensures place { IsPlace chunks.now result }
    ensures item { IsItem chunks.now result }
    ensures same { place_in chunks.now result ≡ place_in chunks.now at }
{
    if at.index < chunks.list[at.chunk].len() {
        at
    } else {
        Place {
            chunk: at.chunk + 1,
            index: 0,
        }
    }
}

/// The place behind an item.
#[inline(always)]
pub fn behind_item<T, M: Mark>(chunks: &ChunkList<T, M>, at: Place) -> Place
    requires place { IsPlace chunks.now at }
    requires item { IsItem chunks.now at }
    ensures place { IsPlace chunks.now result }
    ensures after { place_in chunks.now result ≡ place_in chunks.now at + 1 }
{
    let _chunk = &chunks.list[at.chunk];
    Place {
        chunk: at.chunk,
        index: at.index + 1,
    }
}

// Replaces the item at a place. Returns the place after it, and the item replaced.
fn put<T: Drop, M: Mark>(chunks: &mut ChunkList<T, M>, at: Place, item: T) -> (Place, T)
    requires place { IsPlace chunks.old at }
    requires item { IsItem chunks.old at }
    ensures items { flat chunks.new ≡ slice_set (flat chunks.old) (place_in chunks.old at) item }
    ensures places { HasPlacesOf chunks.old chunks.new }
    ensures place { IsPlace chunks.new result.0 }
    ensures after { place_in chunks.new result.0 ≡ place_in chunks.old at + 1 }
{
    let (index, replaced) = chunks.list[at.chunk].put(at.index, item);
    let after = Place {
        chunk: at.chunk,
        index,
    };
    (after, replaced)
}

/// Gives the item at a place another key.
pub fn set_key<T: Drop, K: Drop, M: Mark, L: SetKey<T, K>>(
    chunks: &mut ChunkList<T, M>,
    at: Place,
    lens: &L,
    key: K,
)
    requires place { IsPlace chunks.old at }
    requires item { IsItem chunks.old at }
    ensures items { (d : T) → flat chunks.new ≡ slice_set (flat chunks.old) (place_in chunks.old at)
        (L.with_key (get_or (flat chunks.old) (place_in chunks.old at) d) key) }
    ensures places { HasPlacesOf chunks.old chunks.new }
{
    let _old = chunks.list[at.chunk].set_key(at.index, lens, key);
}
