//! Chunks that have become small, joined with their neighbours: a set that shrinks gives chunks back.
//!
//! A removal takes no memory: the items of one chunk are moved where the list of the other has room for
//! them. Where neither has, their lists are at least half full, both together.
ghost use Rattle.std.specs.Prelude.{◌≡◌, ◌≤◌, ◌<◌, ◌+◌, ◌^◌, ℕ, true, false, length, get_or, vec_len, vec_capacity, OnOk};
ghost use Rattle.range_list.specs.Chunks.{items_of, flat};
ghost use Rattle.range_list.specs.Joins.{CanJoin, HaveFew};

use crate::chunk::Chunk;
use crate::chunk_list::ChunkList;
use crate::mark::Mark;
use std::alloc::AllocError;

/// Joins the small ones among the chunk at an index, the one before it and the two behind it with
/// their neighbours, where these have room.
pub fn join_around<T: Drop, M: Mark>(chunks: &mut ChunkList<T, M>, at: usize)
    ensures same { flat chunks.new ≡ flat chunks.old }
    ensures joins { (i : ℕ) → at ≤ i + 1 → i ≤ at + 1 → CanJoin M.FULL chunks.old i →
        length chunks.new < length chunks.old }
{
    join_small(chunks, at.saturating_add(1));
    join_small(chunks, at);
    join_small(chunks, at.saturating_sub(1));
}

/// Joins the chunk at an index and the one behind it, if both together have no more items than one may
/// have. It asks for memory where the list of the first has no room; if that fails, they stay apart.
pub fn join_where_they_fit<T: Drop, M: Mark>(chunks: &mut ChunkList<T, M>, at: usize)
    ensures { flat chunks.new ≡ flat chunks.old }
{
    if fit(chunks, at) && make_room(chunks, at).is_ok() {
        join_behind(chunks, at);
    }
}

// Whether there are a chunk at an index and one behind it, which both together have no more items than
// one may have.
fn fit<T, M: Mark>(chunks: &ChunkList<T, M>, at: usize) -> bool
    ensures within { result ≡ true → at + 1 < length chunks.now }
    ensures few { result ≡ true → (d : Chunk T M) → length (items_of (get_or chunks.now at d))
        + length (items_of (get_or chunks.now (at + 1) d)) ≤ M.FULL }
{
    let len = chunks.len();
    if at >= len || at + 1 >= len {
        return false;
    }
    chunks.list[at].len() + chunks.list[at + 1].len() <= M::FULL
}

// Makes room in the list of a chunk for the items of the one behind it.
fn make_room<T: Drop, M: Mark>(chunks: &mut ChunkList<T, M>, at: usize) -> Result<(), AllocError>
    requires within { at + 1 < length chunks.old }
    ensures same { flat chunks.new ≡ flat chunks.old }
    ensures count { length chunks.new ≡ length chunks.old }
    ensures long { (d : Chunk T M) → length (items_of (get_or chunks.new at d)) ≡
        length (items_of (get_or chunks.old at d)) }
    ensures next { (d : Chunk T M) → get_or chunks.new (at + 1) d ≡ get_or chunks.old (at + 1) d }
    ensures room { OnOk result ((d : Chunk T M) → vec_len (get_or chunks.new at d).rest
        + length (items_of (get_or chunks.new (at + 1) d)) ≤
        vec_capacity (get_or chunks.new at d).rest) }
{
    let len = chunks.list[at + 1].len();
    chunks.list[at].reserve(len)
}

// Joins the chunk at an index and the one behind it, if one of them is small and one has room.
fn join_small<T: Drop, M: Mark>(chunks: &mut ChunkList<T, M>, at: usize)
    ensures same { flat chunks.new ≡ flat chunks.old }
    ensures joins { CanJoin M.FULL chunks.old at → length chunks.new < length chunks.old }
    ensures count { length chunks.old < 2 ^ 64 }
    ensures at_most { length chunks.new ≤ length chunks.old }
    ensures kept { length chunks.new ≡ length chunks.old → chunks.new ≡ chunks.old }
{
    if !has_few(chunks, at) {
        return;
    }
    if has_room(&chunks.list[at], &chunks.list[at + 1]) {
        join_behind(chunks, at);
    } else if has_room(&chunks.list[at + 1], &chunks.list[at]) {
        join_before(chunks, at);
    }
}

// Whether there are a chunk at an index and one behind it, one of which is small, and both together
// have no more items than one may have.
fn has_few<T, M: Mark>(chunks: &ChunkList<T, M>, at: usize) -> bool
    ensures count { length chunks.now < 2 ^ 64 }
    ensures within { result ≡ true → at + 1 < length chunks.now }
    ensures few { result ≡ true → (d : Chunk T M) → length (items_of (get_or chunks.now at d))
        + length (items_of (get_or chunks.now (at + 1) d)) ≤ M.FULL }
    ensures many { result ≡ false → ¬ (HaveFew M.FULL chunks.now at) }
{
    let len = chunks.len();
    if at >= len || at + 1 >= len {
        return false;
    }
    let (this, next) = (chunks.list[at].len(), chunks.list[at + 1].len());
    let few = M::FULL / 4;
    (this < few || next < few) && this + next <= M::FULL
}

// Whether the list of a chunk has room for the items of another.
#[inline(always)]
fn has_room<T, M: Mark>(chunk: &Chunk<T, M>, other: &Chunk<T, M>) -> bool
    requires { length other.now.rest.items < M.FULL }
    ensures room { result ≡ true → vec_len chunk.now.rest + length (items_of other.now) ≤
        vec_capacity chunk.now.rest }
    ensures none { result ≡ false → vec_capacity chunk.now.rest <
        vec_len chunk.now.rest + length (items_of other.now) }
{
    other.len() <= chunk.rest.capacity() - chunk.rest.len()
}

// Moves the items of the chunk behind another into the list of that, which has room.
fn join_behind<T: Drop, M: Mark>(chunks: &mut ChunkList<T, M>, at: usize)
    requires within { at + 1 < length chunks.old }
    requires few { (d : Chunk T M) → length (items_of (get_or chunks.old at d))
        + length (items_of (get_or chunks.old (at + 1) d)) ≤ M.FULL }
    requires room { (d : Chunk T M) → vec_len (get_or chunks.old at d).rest
        + length (items_of (get_or chunks.old (at + 1) d)) ≤
        vec_capacity (get_or chunks.old at d).rest }
    ensures same { flat chunks.new ≡ flat chunks.old }
    ensures len { length chunks.new + 1 ≡ length chunks.old }
{
    let behind = chunks.list.remove(at + 1);
    chunks.list[at].append(behind);
}

// Moves the items of a chunk into the list of the one behind it, which has room.
fn join_before<T: Drop, M: Mark>(chunks: &mut ChunkList<T, M>, at: usize)
    requires within { at + 1 < length chunks.old }
    requires few { (d : Chunk T M) → length (items_of (get_or chunks.old at d))
        + length (items_of (get_or chunks.old (at + 1) d)) ≤ M.FULL }
    requires room { (d : Chunk T M) → vec_len (get_or chunks.old (at + 1) d).rest
        + length (items_of (get_or chunks.old at d)) ≤
        vec_capacity (get_or chunks.old (at + 1) d).rest }
    ensures same { flat chunks.new ≡ flat chunks.old }
    ensures len { length chunks.new + 1 ≡ length chunks.old }
{
    let before = chunks.list.remove(at);
    chunks.list[at].prepend(before);
}
