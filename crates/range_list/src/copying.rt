//! Chunks of copies: those of a list in chunks, and clones of a slice.
ghost use Rattle.std.specs.Prelude.{◌≡◌, ◌∷◌, length, IsOk, IfOk};
ghost use Rattle.std.specs.List.{AllZip};
ghost use Rattle.range_list.specs.Chunks.{items_of, flat};

use crate::chunk::Chunk;
use crate::chunk_list::ChunkList;
use crate::mark::Mark;
use range_collections::{Copier, EntryClone, EntryCopier};
use std::alloc::{AllocError, Global};

/// Copies of the items, in chunks as long as theirs.
pub fn copies<T: Drop, M: Mark, C: Copier<T>>(
    alloc: Global,
    chunks: &ChunkList<T, M>,
    copier: &C,
) -> Result<ChunkList<T, M>, AllocError>
    ensures copies { IfOk result (λ copied. AllZip C.alike (flat chunks.now) (flat copied)) }
    ensures succeeds { length chunks.now ≡ 0 → IsOk result }
{
    let all = chunks.list.as_slice();
    let mut copied = Vec::with_capacity(alloc, all.len())?;
    for chunk in all {
        copied.push_reserved(chunk_of_copies(
            alloc,
            &chunk.first,
            chunk.rest.as_slice(),
            chunk.mark,
            copier,
        )?);
    }
    Ok(ChunkList { list: copied })
}

/// Clones of the items of a slice, in full chunks and a last one.
pub fn clones_of<T: EntryClone + Drop, M: Mark>(
    alloc: Global,
    items: &[T],
) -> Result<ChunkList<T, M>, AllocError>
    ensures copies { IfOk result (λ copied. AllZip T.is_copy items.now (flat copied)) }
{
    let mut copied = Vec::with_capacity(alloc, items.len().div_ceil(M::FULL))?;
    let mut unread = items;
    let mut mark = M::front();
    while let Some((first, others)) = unread.split_first() {
        let (rest, behind) = others.split_at(others.len().min(M::FULL - 1));
        copied.push(chunk_of_copies(alloc, first, rest, mark, &EntryCopier)?)?;
        mark = mark.behind(rest.len() + 1);
        unread = behind;
    }
    Ok(ChunkList { list: copied })
}

// A chunk of copies of the first item and the rest.
fn chunk_of_copies<T: Drop, M: Mark, C: Copier<T>>(
    alloc: Global,
    first: &T,
    rest: &[T],
    mark: M,
    copier: &C,
) -> Result<Chunk<T, M>, AllocError>
    ensures copies { IfOk result (λ chunk. AllZip C.alike (first.now ∷ rest.now) (items_of chunk)) }
    ensures mark { IfOk result (λ chunk. chunk.mark ≡ mark) }
{
    let first = copier.copy(first)?;
    let mut list = Vec::with_capacity(alloc, rest.len())?;
    copier.append(&mut list, rest)?;
    Ok(Chunk {
        first,
        rest: list,
        mark,
    })
}
