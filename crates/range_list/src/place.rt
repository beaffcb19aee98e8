//! Places in a list in chunks: searches return them, and changes take them.

/// A position in a list: before the item at an index of a chunk, or at the chunk's end. The place
/// of a value, `Countable::place` in range_collections, is another thing: its rank, which is how
/// many values are below it.
#[derive(Clone, Copy)]
pub struct Place {
    pub chunk: usize,
    pub index: usize,
}

/// Before all items.
pub const FRONT: Place = Place { chunk: 0, index: 0 };
