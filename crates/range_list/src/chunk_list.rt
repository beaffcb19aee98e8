//! The chunks of a list, with their marks: none has more items than a full one, and each has the mark of
//! the number of items before it.
//!
//! This holds before and after a function that takes a `ChunkList`. A function that takes the chunks as
//! a plain list runs in between, while marks are wrong.
ghost use Rattle.std.specs.Prelude.{◌≡◌, ◌<◌, ◌^◌, [], true, false, length};

use crate::chunk::Chunk;
use crate::mark::Mark;
use std::alloc::Global;
use std::marker::Model;

/// Chunks that follow one another. A clause reads it as the list of them.
pub struct ChunkList<T, M: Mark> {
    pub list: Vec<Chunk<T, M>>,
}

impl<T: Drop, M: Mark> Drop for ChunkList<T, M> {
    #[inline]
    fn drop(self) {
        let Self { list: _list } = self;
    }
}

impl<T, M: Mark> Model for ChunkList<T, M> {
    ghost use Rattle.std.specs.Prelude.{List};
    ghost use Rattle.range_list.specs.declared.chunk.Chunk.{Chunk};
    ghost use Rattle.range_list.specs.Chunks.{AreChunks};

    ghost Value = { List (Chunk T M) };

    ghost view = { λ chunks. chunks.list.items };

    ghost invariant = { λ chunks. AreChunks M.FULL M.of chunks.list.items };
}

impl<T, M: Mark> ChunkList<T, M> {
    /// No chunks. It takes no memory.
    #[inline(always)]
    pub fn new(alloc: Global) -> Self
        ensures { result ≡ [] }
    {
        ChunkList {
            list: Vec::new(alloc),
        }
    }

    /// The allocator of the list.
    #[inline(always)]
    pub fn allocator(&self) -> Global {
        *self.list.allocator()
    }

    /// The chunks.
    #[inline(always)]
    pub fn as_slice(&self) -> &[Chunk<T, M>]
        ensures { result.now ≡ self.now }
    {
        self.list.as_slice()
    }

    /// How many chunks there are.
    #[inline(always)]
    pub fn len(&self) -> usize
        ensures { result ≡ length self.now }
    {
        self.list.len()
    }

    /// Whether there are no chunks.
    #[inline(always)]
    pub fn is_empty(&self) -> bool
        ensures none { result ≡ true → length self.now ≡ 0 }
        ensures some { result ≡ false → 0 < length self.now }
        ensures few { length self.now < 2 ^ 64 }
    {
        self.list.is_empty()
    }

    /// The chunks, as a plain list.
    #[inline(always)]
    pub fn into_inner(self) -> Vec<Chunk<T, M>>
        ensures { result.items ≡ self }
    {
        let Self { list } = self;
        list
    }
}

impl<T: Drop, M: Mark> ChunkList<T, M> {
    /// Removes all chunks. It keeps the room for them.
    pub fn clear(&mut self)
        ensures { self.new ≡ [] }
    {
        self.list.clear();
    }
}
