//! Items and marks read at their places. A place at the end of a chunk is that of the next chunk's
//! first item, and each of these functions reads it so.
ghost use Rattle.std.specs.Prelude.{◌≡◌, ◌≤◌, ◌<◌, ◌+◌, ◌∷◌, None, Some, map, length, get_or, option_copied, IfSome, IfNone, MatchOption, HoldsAt};
ghost use Rattle.range_list.specs.Chunks.{items_of, flat};
ghost use Rattle.range_list.specs.Places.{place_in, IsPlace, IsItem};

use crate::chunk::Chunk;
use crate::chunk_list::ChunkList;
use crate::mark::Mark;
use crate::place::Place;

/// The item before a place, or `None` at the front.
#[inline]
pub fn item_before<T, M: Mark>(chunks: &ChunkList<T, M>, at: Place) -> Option<&T>
    requires place { IsPlace chunks.now at }
    ensures { option_copied result ≡ get_or (None ∷ map Some (flat chunks.now)) (place_in chunks.now at) None }
{
    if at.index > 0 {
        return Some(chunks.list[at.chunk].at(at.index - 1));
    }
    if at.chunk == 0 {
        return None;
    }
    Some(last(&chunks.list[at.chunk - 1]))
}

// The last item of a chunk.
#[inline(always)]
fn last<T, M: Mark>(chunk: &Chunk<T, M>) -> &T
    ensures { HoldsAt (λ y. result.now ≡ y) (items_of chunk.now) (length chunk.now.rest.items) }
{
    chunk.at(chunk.rest.len())
}

/// The mark of a place.
#[inline(always)]
pub fn mark_at<T, M: Mark>(chunks: &ChunkList<T, M>, at: Place) -> M
    requires place { IsPlace chunks.now at }
    ensures { result ≡ M.of (place_in chunks.now at) }
{
    let mark = chunks.list[at.chunk].mark;
    mark.behind(at.index)
}

/// The item at a place, or `None` at the end.
pub fn item_at<T, M: Mark>(chunks: &ChunkList<T, M>, at: Place) -> Option<&T>
    requires place { IsPlace chunks.now at }
    ensures { MatchOption result (length (flat chunks.now) ≤ place_in chunks.now at)
        (λ x. (place_in chunks.now at < length (flat chunks.now)) ×
        HoldsAt (λ y. x.now ≡ y) (flat chunks.now) (place_in chunks.now at)) }
{
    let at = settled(chunks, at)?;
    Some(chunks.list[at.chunk].at(at.index))
}

/// The place as that of an item, or `None` if it is the end: a chunk's end is the start of the next
/// one.
#[inline(always)]
pub fn settled<T, M: Mark>(chunks: &ChunkList<T, M>, at: Place) -> Option<Place>
    requires place { IsPlace chunks.now at }
    ensures end { IfNone result (length (flat chunks.now) ≤ place_in chunks.now at) }
    ensures place { IfSome result (IsPlace chunks.now) }
    ensures item { IfSome result (IsItem chunks.now) }
    ensures same { IfSome result (λ p. place_in chunks.now p ≡ place_in chunks.now at) }
{
    if at.index < chunks.list[at.chunk].len() {
        return Some(at);
    }
    if at.chunk + 1 < chunks.len() {
        return Some(Place {
            chunk: at.chunk + 1,
            index: 0,
        });
    }
    None
}

/// The place after all items.
pub fn end<T, M: Mark>(chunks: &ChunkList<T, M>) -> Place
    requires some { 0 < length chunks.now }
    ensures place { IsPlace chunks.now result }
    ensures end { place_in chunks.now result ≡ length (flat chunks.now) }
{
    let chunk = chunks.len() - 1;
    Place {
        chunk,
        index: chunks.list[chunk].len(),
    }
}

/// The mark of the place after all items.
#[inline]
pub fn end_mark<T, M: Mark>(chunks: &ChunkList<T, M>) -> M
    ensures { result ≡ M.of (length (flat chunks.now)) }
{
    if chunks.is_empty() {
        return M::front();
    }
    let at = chunks.len() - 1;
    let last = &chunks.list[at];
    last.mark.behind(last.len())
}

/// The place of the item before another place, which isn't the front.
pub fn place_before<T, M: Mark>(chunks: &ChunkList<T, M>, to: Place) -> Place
    requires place { IsPlace chunks.now to }
    requires some { 0 < place_in chunks.now to }
    ensures place { IsPlace chunks.now result }
    ensures item { IsItem chunks.now result }
    ensures before { place_in chunks.now result + 1 ≡ place_in chunks.now to }
{
    if to.index > 0 {
        return Place {
            chunk: to.chunk,
            index: to.index - 1,
        };
    }
    let chunk = to.chunk - 1;
    Place {
        chunk,
        index: chunks.list[chunk].len() - 1,
    }
}
