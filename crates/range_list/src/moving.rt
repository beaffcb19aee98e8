//! Items moved out of chunks, as a list of their keys, and from a list into chunks.
ghost use Rattle.std.specs.Prelude.{◌≡◌, ◌≤◌, ◌<◌, ◌+◌, ◌++◌, [], ℕ, map, length, vec_len, vec_capacity, IfOk};
ghost use Rattle.range_list.specs.Chunks.{items_of, flat, AreShort, KnowMarks};

use crate::chunk::Chunk;
use crate::key_of::IntoKey;
use crate::mark::Mark;
use std::alloc::{AllocError, Global};

/// Appends the keys of the items to a list that has room for them.
pub fn join_up<T: Drop, K: Drop, M: Mark, L: IntoKey<T, K>>(
    chunks: Vec<Chunk<T, M>>,
    list: Vec<K>,
    lens: &L,
) -> Vec<K>
    requires { vec_len list + length (flat chunks.items) ≤ vec_capacity list }
    ensures { result.items ≡ list.items ++ map L.key_of (flat chunks.items) }
{
    let mut joined = list;
    for chunk in chunks {
        joined = with_chunk(joined, chunk, lens);
    }
    joined
}

// The list with the keys of a chunk's items.
fn with_chunk<T: Drop, K: Drop, M: Mark, L: IntoKey<T, K>>(
    list: Vec<K>,
    chunk: Chunk<T, M>,
    _lens: &L,
) -> Vec<K>
    requires { vec_len list + length (items_of chunk) ≤ vec_capacity list }
    ensures items { result.items ≡ list.items ++ map L.key_of (items_of chunk) }
    ensures capacity { vec_capacity result ≡ vec_capacity list }
{
    let mut joined = list;
    let Chunk { first, rest, .. } = chunk;
    joined.push_reserved(L::into_key(first));
    for item in rest {
        joined.push_reserved(L::into_key(item));
    }
    joined
}

/// The items of a list in chunks, all of which are full but the last, behind items with this mark. It
/// goes from the end on, so that each item is moved once.
pub fn cut_up<T: Drop, M: Mark>(list: Vec<T>, mark: M) -> Result<Vec<Chunk<T, M>>, AllocError>
    ensures items { IfOk result (λ chunks. flat chunks.items ≡ list.items) }
    ensures short { IfOk result (λ chunks. AreShort M.FULL chunks.items) }
    ensures marks { IfOk result (λ chunks. (n : ℕ) → mark ≡ M.of n → KnowMarks M.of n chunks.items) }
{
    let mut unread = list;
    let mut chunks = Vec::with_capacity(*unread.allocator(), unread.len().div_ceil(M::FULL))?;
    while !unread.is_empty() {
        chunks.push(last_chunk(&mut unread, mark)?)?;
    }
    chunks.reverse();
    Ok(chunks)
}

// Takes the last items as a chunk, behind items with this mark. As many stay as some full chunks have.
fn last_chunk<T: Drop, M: Mark>(list: &mut Vec<T>, mark: M) -> Result<Chunk<T, M>, AllocError>
    requires { 0 < length list.old.items }
    ensures items { IfOk result (λ chunk. list.old.items ≡ list.new.items ++ items_of chunk) }
    ensures short { IfOk result (λ chunk. length chunk.rest.items < M.FULL) }
    ensures mark { IfOk result (λ chunk. chunk.mark ≡ M.moved mark (length list.new.items)) }
{
    let before = (list.len() - 1) / M::FULL * M::FULL;
    let rest = list.split_off(before + 1)?;
    Ok(Chunk {
        first: list.remove(before),
        rest,
        mark: mark.behind(before),
    })
}
