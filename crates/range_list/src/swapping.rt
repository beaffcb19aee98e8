//! Two items exchanged, in one chunk or in two. All places stay valid.
ghost use Rattle.std.specs.Prelude.{◌≡◌, ◌≤◌, ◌<◌, length};
ghost use Rattle.std.specs.List.{swap};
ghost use Rattle.range_list.specs.Chunks.{flat};
ghost use Rattle.range_list.specs.Places.{place_in, IsPlace, IsItem, HasPlacesOf, IsExchanged};

use crate::chunk::Chunk;
use crate::chunk_list::ChunkList;
use crate::mark::Mark;
use crate::place::Place;

/// Exchanges an item and the one at a later place, or at the same.
pub fn swap_items<T: Drop, M: Mark>(chunks: &mut ChunkList<T, M>, a: Place, b: Place)
    requires a { IsPlace chunks.old a }
    requires a_item { IsItem chunks.old a }
    requires b { IsPlace chunks.old b }
    requires b_item { IsItem chunks.old b }
    requires ordered { place_in chunks.old a ≤ place_in chunks.old b }
    ensures items { flat chunks.new ≡ swap (flat chunks.old) (place_in chunks.old a) (place_in chunks.old b) }
    ensures places { HasPlacesOf chunks.old chunks.new }
{
    if a.chunk == b.chunk {
        swap_in(chunks, a, b.index);
    } else {
        swap_across(chunks, a, b);
    }
}

// Exchanges two items of one chunk.
fn swap_in<T: Drop, M: Mark>(chunks: &mut ChunkList<T, M>, a: Place, b: usize)
    requires a { IsPlace chunks.old a }
    requires b { IsItem chunks.old (record { chunk = a.chunk; index = b }) }
    requires ordered { a.index ≤ b }
    ensures items { flat chunks.new ≡ swap (flat chunks.old) (place_in chunks.old a)
        (place_in chunks.old (record { chunk = a.chunk; index = b })) }
    ensures places { HasPlacesOf chunks.old chunks.new }
{
    chunks.list[a.chunk].swap(a.index, b);
}

// Exchanges two items of different chunks.
fn swap_across<T: Drop, M: Mark>(chunks: &mut ChunkList<T, M>, a: Place, b: Place)
    requires a { IsPlace chunks.old a }
    requires a_item { IsItem chunks.old a }
    requires b { IsPlace chunks.old b }
    requires b_item { IsItem chunks.old b }
    requires ordered { a.chunk < b.chunk }
    ensures items { flat chunks.new ≡ swap (flat chunks.old) (place_in chunks.old a) (place_in chunks.old b) }
    ensures places { HasPlacesOf chunks.old chunks.new }
{
    exchange(&mut chunks.list, a, b);
}

// Exchanges the items in their chunks.
fn exchange<T: Drop, M: Mark>(chunks: &mut Vec<Chunk<T, M>>, a: Place, b: Place)
    requires a { IsPlace chunks.old.items a }
    requires a_item { IsItem chunks.old.items a }
    requires b { IsPlace chunks.old.items b }
    requires b_item { IsItem chunks.old.items b }
    requires ordered { a.chunk < b.chunk }
    ensures { IsExchanged chunks.old.items chunks.new.items a b }
{
    exchange_in(chunks.as_mut_slice(), a, b);
}

// Exchanges the items in their chunks, which are a slice: it is split between the two.
fn exchange_in<T: Drop, M: Mark>(chunks: &mut [Chunk<T, M>], a: Place, b: Place)
    requires a { IsPlace chunks.old a }
    requires a_item { IsItem chunks.old a }
    requires b { IsPlace chunks.old b }
    requires b_item { IsItem chunks.old b }
    requires ordered { a.chunk < b.chunk }
    ensures exchanged { IsExchanged chunks.old chunks.new a b }
    ensures len { length chunks.new ≡ length chunks.old }
{
    let (front, back) = chunks.split_at_mut(b.chunk);
    front[a.chunk].exchange(a.index, &mut back[0], b.index);
}
