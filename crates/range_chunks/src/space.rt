//! A set whose gaps are searched again and again: it remembers how long they are at most.
ghost use Rattle.std.specs.Prelude.{◌≡◌, ◌&&◌, ◌||◌, ◌∷◌, [], not, false, OnOk, OnErr};
ghost use Rattle.std.specs.Ordering.{is_le, is_lt};
ghost use Rattle.range_merge.specs.Boundaries.{member};
ghost use Rattle.range_merge.specs.Connective.{Means, union_table, difference_table};
ghost use Rattle.range_collections.specs.Insertion.{IsChangedByRange};
ghost use Rattle.range_collections.specs.Ranges.{range_items};

mod fitting;

use crate::gap_bound::{GapBound, forget};
use crate::set::ChunkedRangeSet;
use range_collections::{Countable, RangeSetRef};
use std::alloc::{AllocError, Global};
use std::marker::Model;
use std::ops::{Range, RangeFrom};

/// A space of values that are taken and freed range by range: the set of those that are taken, in
/// chunks, which also remembers how long the gaps between them are, so that `first_fit` passes over
/// those that are too short.
///
/// ```text
/// let mut taken = ChunkedSpace::new(alloc);
/// taken.insert(0..4096)?;
/// let at = taken.first_fit(0..65_536, 512);        // Some(4096)
/// ```
///
/// `as_set` lends the set, for all questions about it. A change does what it does to a
/// `ChunkedRangeSet`, and is proved by the same clauses.
pub struct ChunkedSpace<T: Countable + Copy> {
    taken: ChunkedRangeSet<T>,
    /// From the lowest on, which makes a search fast; each is true by itself.
    bounds: Vec<GapBound<T>>,
}

// By hand, as for the set.
impl<T: Countable + Copy> Drop for ChunkedSpace<T> {
    #[inline]
    fn drop(self) {
        let Self {
            taken: _taken,
            bounds: _bounds,
        } = self;
    }
}

impl<T: Countable + Copy> Model for ChunkedSpace<T> {
    ghost use Rattle.std.specs.Prelude.{List, All};
    ghost use Rattle.std.specs.Coded.{coded_list};
    ghost use Rattle.range_chunks.specs.Bounds.{IsBound};

    ghost Value = { List T };

    ghost coded = { coded_list T.code };

    ghost view = { λ space. space.taken };

    ghost invariant = { λ space.
        All (IsBound T.cmp T.value T.place T.count space.taken) space.bounds.items };
}

impl<T: Countable + Copy> ChunkedSpace<T> {
    /// The space where nothing is taken. It takes no memory.
    pub fn new(alloc: Global) -> Self
        ensures boundaries { result ≡ [] }
        ensures members { (x : T) → member T.cmp result x ≡ false }
    {
        ChunkedSpace {
            taken: ChunkedRangeSet::new(alloc),
            bounds: Vec::new(alloc),
        }
    }

    /// The space where the set's members are taken. It takes no memory.
    pub fn from_set(alloc: Global, taken: ChunkedRangeSet<T>) -> Self
        ensures { result ≡ taken }
    {
        ChunkedSpace {
            taken,
            bounds: Vec::new(alloc),
        }
    }

    /// The set of what is taken.
    #[inline]
    pub fn as_set(&self) -> &ChunkedRangeSet<T>
        ensures { result.now ≡ self.now }
    {
        &self.taken
    }

    /// The set of what is taken, which takes the place of the space.
    pub fn into_set(self) -> ChunkedRangeSet<T>
        ensures { result ≡ self }
    {
        let ChunkedSpace {
            taken,
            bounds: _bounds,
        } = self;
        taken
    }

    /// Takes the values of the range, as `ChunkedRangeSet::insert`.
    pub fn insert(&mut self, range: Range<T>) -> Result<(), AllocError>
        ensures changed { IsChangedByRange T.cmp union_table 0
            self.old (range_items T.cmp range.start range.end) self.new result }
        ensures members { OnOk result ((x : T) → member T.cmp self.new x ≡
            (member T.cmp self.old x || (is_le (T.cmp range.start x) && is_lt (T.cmp x range.end)))) }
    {
        self.taken.insert(range)
    }

    /// Frees the values of the range, as `ChunkedRangeSet::remove`. It looks at what is remembered of
    /// each 512 gaps or so, and forgets that around the range.
    pub fn remove(&mut self, range: Range<T>) -> Result<(), AllocError>
        ensures changed { IsChangedByRange T.cmp difference_table 0
            self.old (range_items T.cmp range.start range.end) self.new result }
        ensures members { OnOk result ((x : T) → member T.cmp self.new x ≡
            (member T.cmp self.old x && not (is_le (T.cmp range.start x) && is_lt (T.cmp x range.end)))) }
    {
        range.start.known();
        range.end.known();
        forget(&mut self.bounds, &range.start, &range.end);
        self.taken.remove(range)
    }

    /// Takes the values from the start on, as `ChunkedRangeSet::insert_from`.
    pub fn insert_from(&mut self, range: RangeFrom<T>) -> Result<(), AllocError>
        ensures changed { IsChangedByRange T.cmp union_table 0
            self.old (range.start ∷ []) self.new result }
        ensures members { OnOk result ((x : T) → member T.cmp self.new x ≡
            (member T.cmp self.old x || is_le (T.cmp range.start x))) }
    {
        self.taken.insert_from(range)
    }

    /// Frees the values from the start on, as `ChunkedRangeSet::remove_from`. It forgets all that is
    /// remembered of gaps.
    pub fn remove_from(&mut self, range: RangeFrom<T>) -> Result<(), AllocError>
        ensures changed { IsChangedByRange T.cmp difference_table 0
            self.old (range.start ∷ []) self.new result }
        ensures members { OnOk result ((x : T) → member T.cmp self.new x ≡
            (member T.cmp self.old x && not (is_le (T.cmp range.start x)))) }
    {
        self.bounds.clear();
        self.taken.remove_from(range)
    }

    /// Takes the members of `that`, as `ChunkedRangeSet::insert_all`.
    pub fn insert_all(&mut self, that: RangeSetRef<T>) -> Result<(), AllocError>
        ensures means { OnOk result (Means T.cmp union_table
            self.new self.old that.entry.boundaries.now) }
        ensures members { OnOk result ((x : T) → member T.cmp self.new x ≡
            (member T.cmp self.old x || member T.cmp that.entry.boundaries.now x)) }
        ensures unchanged { OnErr result (self.new ≡ self.old) }
    {
        self.taken.insert_all(that)
    }

    /// Frees the members of `that`, as `ChunkedRangeSet::remove_all`. It forgets all that is remembered
    /// of gaps, unless `that` is one range with an end.
    pub fn remove_all(&mut self, that: RangeSetRef<T>) -> Result<(), AllocError>
        ensures means { OnOk result (Means T.cmp difference_table
            self.new self.old that.entry.boundaries.now) }
        ensures members { OnOk result ((x : T) → member T.cmp self.new x ≡
            (member T.cmp self.old x && not (member T.cmp that.entry.boundaries.now x))) }
        ensures unchanged { OnErr result (self.new ≡ self.old) }
    {
        let boundaries = that.boundaries();
        if boundaries.len() == 2 {
            return self.remove(boundaries[0]..boundaries[1]);
        }
        self.bounds.clear();
        self.taken.remove_all(that)
    }

    /// Frees all values. It keeps the room for the list of chunks.
    pub fn clear(&mut self)
        ensures boundaries { self.new ≡ [] }
        ensures members { (x : T) → member T.cmp self.new x ≡ false }
    {
        self.bounds.clear();
        self.taken.clear();
    }
}
