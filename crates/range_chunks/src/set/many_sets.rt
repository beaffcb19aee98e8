//! The union and the intersection of many views, by halves: each is copied once, and then the sets of
//! one half take in those of the other.
ghost use Rattle.std.specs.Prelude.{◌≡◌, ◌↔◌, ◌<◌, Any, length, true, false, not, IfOk};
ghost use Rattle.range_merge.specs.Boundaries.{member};
ghost use Rattle.range_merge.specs.Connective.{Means, union_table, intersection_table};
ghost use Rattle.range_collections.specs.Intersections.{is_in_each};
ghost use Rattle.range_collections.specs.Unions.{is_in_one};
ghost use Rattle.range_collections.specs.Values.{IsEverything, Negates};

use crate::set::ChunkedRangeSet;
use range_collections::{
    DiffOp, EntryClone, IntersectionOp, MergeOperation, RangeSetEntry, RangeSetRef, UnionOp,
};
use std::alloc::{AllocError, Global};
use std::ops::Not;

impl<T: EntryClone + Drop> ChunkedRangeSet<T> {
    /// The union of many sets: the elements that are members of at least one.
    ///
    /// It copies each boundary once, and then goes over those of both halves as `union_with` does.
    pub fn union_all(alloc: Global, sets: &[RangeSetRef<T>]) -> Result<Self, AllocError>
        ensures { IfOk result (λ set. (x : T) → (member T.cmp set x ≡ true) ↔
            Any (λ part. member T.cmp part.boundaries.now x ≡ true) sets.now) }
    {
        if sets.is_empty() {
            return Ok(ChunkedRangeSet::new(alloc));
        }
        merged_all(alloc, sets, &UnionOp)
    }
}

impl<T: RangeSetEntry + EntryClone + Drop> ChunkedRangeSet<T> {
    /// The intersection of many sets: the elements that are members of each. Of no sets it has every
    /// value.
    ///
    /// It copies each boundary once, and then goes over those of both halves as `intersection_with`
    /// does.
    pub fn intersection_all(alloc: Global, sets: &[RangeSetRef<T>]) -> Result<Self, AllocError>
        ensures members { 0 < length sets.now → IfOk result (λ set. (x : T) →
            member T.cmp set x ≡ is_in_each T.cmp (λ set. set.boundaries.now) sets.now x) }
        ensures values { IfOk result (λ set. (x : T) → T.is_value x →
            member T.cmp set x ≡ is_in_each T.cmp (λ set. set.boundaries.now) sets.now x) }
    {
        if sets.is_empty() {
            return everything(alloc);
        }
        merged_all(alloc, sets, &IntersectionOp)
    }
}

// The set of every value.
fn everything<T: RangeSetEntry + Drop>(alloc: Global) -> Result<ChunkedRangeSet<T>, AllocError>
    ensures { IfOk result (λ set. IsEverything T.cmp T.is_value set) }
{
    let mut all = ChunkedRangeSet::new(alloc);
    all.insert_from(T::min_value(alloc)?..)?;
    Ok(all)
}

// The union or the intersection of the sets, of which there is one at least.
fn merged_all<T: EntryClone + Drop, O: MergeOperation>(
    alloc: Global,
    sets: &[RangeSetRef<T>],
    op: &O,
) -> Result<ChunkedRangeSet<T>, AllocError>
    requires some { 0 < length sets.now }
    requires off { O.connective op.now false false ≡ false }
    ensures union { O.connective op.now ≡ union_table → IfOk result (λ set. (x : T) →
        member T.cmp set x ≡ is_in_one T.cmp (λ set. set.boundaries.now) sets.now x) }
    ensures intersection { O.connective op.now ≡ intersection_table → IfOk result (λ set. (x : T) →
        member T.cmp set x ≡ is_in_each T.cmp (λ set. set.boundaries.now) sets.now x) }
{
    match sets.len() {
        1 => ChunkedRangeSet::from_view(alloc, sets[0]),
        len => {
            let (front, back) = sets.split_at(len / 2);
            let set = merged_all(alloc, front, op)?;
            let that = merged_all(alloc, back, op)?;
            merged(set, that, op)
        }
    }
}

// The operation's result on two sets.
fn merged<T: EntryClone + Drop, O: MergeOperation>(
    set: ChunkedRangeSet<T>,
    that: ChunkedRangeSet<T>,
    op: &O,
) -> Result<ChunkedRangeSet<T>, AllocError>
    requires off { O.connective op.now false false ≡ false }
    ensures { IfOk result (λ both. Means T.cmp (O.connective op.now) both set that) }
{
    let mut both = set;
    both.merge_set(that, op)?;
    Ok(both)
}

impl<T: RangeSetEntry + EntryClone + Drop> Not for ChunkedRangeSet<T> {
    type Output = Result<ChunkedRangeSet<T>, AllocError>;

    ghost not_gives = { λ a r. IfOk r (λ items. Negates T.cmp T.is_value items a) };

    /// The values that are no members. It puts clones of the boundaries.
    fn not(self) -> Result<ChunkedRangeSet<T>, AllocError>
        ensures { IfOk result (λ items. Negates T.cmp T.is_value items self) }
    {
        merged(everything(self.list.allocator())?, self, &DiffOp)
    }
}
