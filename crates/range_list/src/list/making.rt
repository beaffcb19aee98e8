//! Lists made from lists and slices, and copies.
ghost use Rattle.std.specs.Prelude.{◌≡◌, ◌<◌, ◌+◌, [], IsOk, IfOk};
ghost use Rattle.std.specs.List.{AllZip};
ghost use Rattle.range_list.specs.Lists.{joined};

use crate::chunk_list::ChunkList;
use crate::copying::{clones_of, copies};
use crate::list::Chunks;
use crate::mark::Mark;
use crate::moving::cut_up;
use range_collections::{Copier, EntryClone, EntryCopier};
use std::alloc::{AllocError, Global};

impl<T: Drop, M: Mark> Chunks<T, M> {
    /// The list of these items, which are moved. If memory runs out, they are dropped.
    pub fn from_list(list: Vec<T>) -> Result<Self, AllocError>
        ensures { IfOk result (λ made. joined made ≡ list.items) }
    {
        let len = list.len();
        Ok(Chunks {
            chunks: ChunkList {
                list: cut_up(list, M::front())?,
            },
            len,
        })
    }
}

impl<T: Drop, M: Mark> Chunks<T, M> {
    /// A list of copies of the items. Of the empty list it takes no memory.
    pub fn copied<C: Copier<T>>(&self, copier: &C) -> Result<Self, AllocError>
        ensures copies { IfOk result (λ made. AllZip C.alike (joined self.now) (joined made)) }
        ensures succeeds { joined self.now ≡ [] → IsOk result }
    {
        Ok(Chunks {
            chunks: copies(self.chunks.allocator(), &self.chunks, copier)?,
            len: self.len,
        })
    }
}

impl<T: EntryClone + Drop, M: Mark> Chunks<T, M> {
    /// A list of clones of these items.
    pub fn from_clones(alloc: Global, items: &[T]) -> Result<Self, AllocError>
        ensures { IfOk result (λ made. AllZip T.is_copy items.now (joined made)) }
    {
        Ok(Chunks {
            chunks: clones_of(alloc, items)?,
            len: items.len(),
        })
    }

    /// A list of clones of the items. Of the empty list it takes no memory.
    pub fn cloned(&self) -> Result<Self, AllocError>
        ensures copies { IfOk result (λ made. AllZip T.is_copy (joined self.now) (joined made)) }
        ensures succeeds { joined self.now ≡ [] → IsOk result }
    {
        self.copied(&EntryCopier)
    }
}
