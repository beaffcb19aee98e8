//! Sets in chunks joined with others, and cut in two.
ghost use Rattle.std.specs.Prelude.{◌≡◌, ◌&&◌, ◌||◌, [], not, false, IfOk, OnOk, OnErr};
ghost use Rattle.std.specs.Ordering.{is_le};
ghost use Rattle.range_merge.specs.Boundaries.{member};
ghost use Rattle.range_merge.specs.Connective.{Means, union_table};

use crate::merging::{merge_into, merged_apart};
use crate::set::ChunkedRangeSet;
use range_collections::{EntryClone, IntersectionOp, MergeOperation, UnionOp};
use range_list::Itself;
use std::alloc::AllocError;

impl<T: EntryClone + Drop> ChunkedRangeSet<T> {
    // Changes this set to the operation's result with `that`.
    pub(crate) fn merge_set<O: MergeOperation>(
        &mut self,
        that: Self,
        op: &O,
    ) -> Result<(), AllocError>
        requires off { O.connective op.now false false ≡ false }
        ensures means { OnOk result (Means T.cmp (O.connective op.now) self.new self.old that) }
        ensures unchanged { OnErr result (self.new ≡ self.old) }
    {
        let ChunkedRangeSet { list } = that;
        match list.into_list(&Itself) {
            Ok(boundaries) => merge_into(&mut self.list, boundaries.as_slice(), op),
            Err((error, _)) => Err(error),
        }
    }

    /// Adds the members of `that`, which is empty then.
    ///
    /// It puts clones of the boundaries of `that`, and goes over this set's own as `union_with` does.
    /// If an allocation or a clone fails, both sets are as they were.
    ///
    /// ```text
    /// busy.append(&mut more)?      // busy has the members of both
    /// ```
    pub fn append(&mut self, that: &mut Self) -> Result<(), AllocError>
        ensures members { OnOk result ((x : T) → member T.cmp self.new x ≡
            (member T.cmp self.old x || member T.cmp that.old x)) }
        ensures emptied { OnOk result (that.new ≡ []) }
        ensures unchanged { OnErr result ((self.new ≡ self.old) × (that.new ≡ that.old)) }
    {
        self.merge_set(that.clone()?, &UnionOp)?;
        that.clear();
        Ok(())
    }

    /// Removes the members at and above `at`, and returns the set of them.
    ///
    /// It puts clones of the boundaries above `at`. If an allocation or a clone fails, this set is as it was.
    ///
    /// ```text
    /// let late = busy.split_off(&16)?;      // 16..18, of 9..11, 15..18
    /// ```
    pub fn split_off(&mut self, at: &T) -> Result<Self, AllocError>
        ensures above { IfOk result (λ above. (x : T) → member T.cmp above x ≡
            (member T.cmp self.old x && is_le (T.cmp at.now x))) }
        ensures below { OnOk result ((x : T) → member T.cmp self.new x ≡
            (member T.cmp self.old x && not (is_le (T.cmp at.now x)))) }
        ensures unchanged { OnErr result (self.new ≡ self.old) }
    {
        let above = self.members_from(at)?;
        self.remove_from(at.entry_clone()?..)?;
        Ok(above)
    }

    // The set of the members at and above an element.
    fn members_from(&self, at: &T) -> Result<Self, AllocError>
        ensures { IfOk result (λ above. (x : T) → member T.cmp above x ≡
            (member T.cmp self.now x && is_le (T.cmp at.now x))) }
    {
        let mut from = Vec::new(self.list.allocator());
        from.push(at.entry_clone()?)?;
        Ok(ChunkedRangeSet {
            list: merged_apart(&self.list, from.as_slice(), &IntersectionOp)?,
        })
    }
}
