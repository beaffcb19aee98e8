//! `&`, `|`, `^` and `-` on sets and references to them, and `!`, each into a new set.
//!
//! The form with two references does the work, and the others call it; what was owned is dropped,
//! also where memory is refused.
//!
//! `bitor_gives` and the like have both clauses, for a caller with a bound in place of a set.
ghost use Rattle.std.specs.Prelude.{◌<◌, ◌⊎◌, All, IfOk, length};
ghost use Rattle.range_merge.specs.Connective.{intersection_table, union_table, symmetric_difference_table, difference_table};
ghost use Rattle.range_collections.specs.Headline.{GivesTheResult, IsTheNegation};
ghost use Rattle.range_collections.specs.Operators.{GivesOperation};
ghost use Rattle.range_collections.specs.Values.{GivesNegation, GivesOwnNegation, BeginsAt};

use crate::comparisons::Comparisons;
use crate::lists::{begins_at_least, give_back_room};
use crate::range_set::RangeSet;
use crate::view::RangeSetRef;
use range_entry::{EntryClone, RangeSetEntry};
use range_merge::Connective;
use range_merge::laws::{changes_are_marked_truly, changes_mean_the_opposite};
use std::alloc::{AllocError, Global};
use std::default::MadeWith;
use std::ops::{BitAnd, BitOr, BitXor, Not, Sub};

impl<T: EntryClone + MadeWith<Global> + Drop, const N: usize> BitAnd<&RangeSet<T, N>>
    for &RangeSet<T, N> {
    type Output = Result<RangeSet<T, N>, AllocError>;

    ghost bitand_gives = { λ a b r.
        GivesOperation T.cmp T.is_copy T.is_infallible intersection_table N a.now b.now r
        × GivesTheResult T.cmp T.is_copy intersection_table a.now b.now r };

    /// The intersection, as `intersection` gives it. It fails only if an allocation or a copy does.
    fn bitand(self, that: &RangeSet<T, N>) -> Result<RangeSet<T, N>, AllocError>
        ensures headline { GivesTheResult T.cmp T.is_copy intersection_table
            self.now that.now result }
        ensures gives { GivesOperation T.cmp T.is_copy T.is_infallible intersection_table N
            self.now that.now result }
    {
        self.intersection(that.as_ref())
    }
}

impl<T: EntryClone + MadeWith<Global> + Drop, const N: usize> BitAnd<RangeSet<T, N>>
    for &RangeSet<T, N> {
    type Output = Result<RangeSet<T, N>, AllocError>;

    ghost bitand_gives = { λ a b r.
        GivesOperation T.cmp T.is_copy T.is_infallible intersection_table N a.now b r
        × GivesTheResult T.cmp T.is_copy intersection_table a.now b r };

    /// The intersection of a reference and a set, which is dropped even if it fails.
    fn bitand(self, that: RangeSet<T, N>) -> Result<RangeSet<T, N>, AllocError>
        ensures headline { GivesTheResult T.cmp T.is_copy intersection_table
            self.now that result }
        ensures gives { GivesOperation T.cmp T.is_copy T.is_infallible intersection_table N
            self.now that result }
    {
        self & &that
    }
}

impl<T: EntryClone + MadeWith<Global> + Drop, const N: usize> BitAnd<&RangeSet<T, N>>
    for RangeSet<T, N> {
    type Output = Result<RangeSet<T, N>, AllocError>;

    ghost bitand_gives = { λ a b r.
        GivesOperation T.cmp T.is_copy T.is_infallible intersection_table N a b.now r
        × GivesTheResult T.cmp T.is_copy intersection_table a b.now r };

    /// The intersection of a set, which is dropped even if it fails, and a reference.
    fn bitand(self, that: &RangeSet<T, N>) -> Result<RangeSet<T, N>, AllocError>
        ensures headline { GivesTheResult T.cmp T.is_copy intersection_table
            self that.now result }
        ensures gives { GivesOperation T.cmp T.is_copy T.is_infallible intersection_table N
            self that.now result }
    {
        &self & that
    }
}

impl<T: EntryClone + MadeWith<Global> + Drop, const N: usize> BitAnd for RangeSet<T, N> {
    type Output = Result<RangeSet<T, N>, AllocError>;

    ghost bitand_gives = { λ a b r.
        GivesOperation T.cmp T.is_copy T.is_infallible intersection_table N a b r
        × GivesTheResult T.cmp T.is_copy intersection_table a b r };

    /// The intersection of two sets, which are dropped even if it fails.
    fn bitand(self, that: RangeSet<T, N>) -> Result<RangeSet<T, N>, AllocError>
        ensures headline { GivesTheResult T.cmp T.is_copy intersection_table
            self that result }
        ensures gives { GivesOperation T.cmp T.is_copy T.is_infallible intersection_table N
            self that result }
    {
        &self & &that
    }
}

impl<T: EntryClone + MadeWith<Global> + Drop, const N: usize> BitOr<&RangeSet<T, N>>
    for &RangeSet<T, N> {
    type Output = Result<RangeSet<T, N>, AllocError>;

    ghost bitor_gives = { λ a b r.
        GivesOperation T.cmp T.is_copy T.is_infallible union_table N a.now b.now r
        × GivesTheResult T.cmp T.is_copy union_table a.now b.now r };

    /// The union, as `union` gives it. It fails only if an allocation or a copy does.
    fn bitor(self, that: &RangeSet<T, N>) -> Result<RangeSet<T, N>, AllocError>
        ensures headline { GivesTheResult T.cmp T.is_copy union_table
            self.now that.now result }
        ensures gives { GivesOperation T.cmp T.is_copy T.is_infallible union_table N
            self.now that.now result }
    {
        self.union(that.as_ref())
    }
}

impl<T: EntryClone + MadeWith<Global> + Drop, const N: usize> BitOr<RangeSet<T, N>>
    for &RangeSet<T, N> {
    type Output = Result<RangeSet<T, N>, AllocError>;

    ghost bitor_gives = { λ a b r.
        GivesOperation T.cmp T.is_copy T.is_infallible union_table N a.now b r
        × GivesTheResult T.cmp T.is_copy union_table a.now b r };

    /// The union of a reference and a set, which is dropped even if it fails.
    fn bitor(self, that: RangeSet<T, N>) -> Result<RangeSet<T, N>, AllocError>
        ensures headline { GivesTheResult T.cmp T.is_copy union_table
            self.now that result }
        ensures gives { GivesOperation T.cmp T.is_copy T.is_infallible union_table N
            self.now that result }
    {
        self | &that
    }
}

impl<T: EntryClone + MadeWith<Global> + Drop, const N: usize> BitOr<&RangeSet<T, N>>
    for RangeSet<T, N> {
    type Output = Result<RangeSet<T, N>, AllocError>;

    ghost bitor_gives = { λ a b r.
        GivesOperation T.cmp T.is_copy T.is_infallible union_table N a b.now r
        × GivesTheResult T.cmp T.is_copy union_table a b.now r };

    /// The union of a set, which is dropped even if it fails, and a reference.
    fn bitor(self, that: &RangeSet<T, N>) -> Result<RangeSet<T, N>, AllocError>
        ensures headline { GivesTheResult T.cmp T.is_copy union_table
            self that.now result }
        ensures gives { GivesOperation T.cmp T.is_copy T.is_infallible union_table N
            self that.now result }
    {
        &self | that
    }
}

impl<T: EntryClone + MadeWith<Global> + Drop, const N: usize> BitOr for RangeSet<T, N> {
    type Output = Result<RangeSet<T, N>, AllocError>;

    ghost bitor_gives = { λ a b r.
        GivesOperation T.cmp T.is_copy T.is_infallible union_table N a b r
        × GivesTheResult T.cmp T.is_copy union_table a b r };

    /// The union of two sets, which are dropped even if it fails.
    fn bitor(self, that: RangeSet<T, N>) -> Result<RangeSet<T, N>, AllocError>
        ensures headline { GivesTheResult T.cmp T.is_copy union_table
            self that result }
        ensures gives { GivesOperation T.cmp T.is_copy T.is_infallible union_table N
            self that result }
    {
        &self | &that
    }
}

impl<T: EntryClone + MadeWith<Global> + Drop, const N: usize> BitXor<&RangeSet<T, N>>
    for &RangeSet<T, N> {
    type Output = Result<RangeSet<T, N>, AllocError>;

    ghost bitxor_gives = { λ a b r.
        GivesOperation T.cmp T.is_copy T.is_infallible symmetric_difference_table N a.now b.now r
        × GivesTheResult T.cmp T.is_copy symmetric_difference_table a.now b.now r };

    /// The symmetric difference, as `symmetric_difference` gives it. It fails only if an allocation
    /// or a copy does.
    fn bitxor(self, that: &RangeSet<T, N>) -> Result<RangeSet<T, N>, AllocError>
        ensures headline { GivesTheResult T.cmp T.is_copy symmetric_difference_table
            self.now that.now result }
        ensures gives { GivesOperation T.cmp T.is_copy T.is_infallible symmetric_difference_table N
            self.now that.now result }
    {
        self.symmetric_difference(that.as_ref())
    }
}

impl<T: EntryClone + MadeWith<Global> + Drop, const N: usize> BitXor<RangeSet<T, N>>
    for &RangeSet<T, N> {
    type Output = Result<RangeSet<T, N>, AllocError>;

    ghost bitxor_gives = { λ a b r.
        GivesOperation T.cmp T.is_copy T.is_infallible symmetric_difference_table N a.now b r
        × GivesTheResult T.cmp T.is_copy symmetric_difference_table a.now b r };

    /// The symmetric difference of a reference and a set, which is dropped even if it fails.
    fn bitxor(self, that: RangeSet<T, N>) -> Result<RangeSet<T, N>, AllocError>
        ensures headline { GivesTheResult T.cmp T.is_copy symmetric_difference_table
            self.now that result }
        ensures gives { GivesOperation T.cmp T.is_copy T.is_infallible symmetric_difference_table N
            self.now that result }
    {
        self ^ &that
    }
}

impl<T: EntryClone + MadeWith<Global> + Drop, const N: usize> BitXor<&RangeSet<T, N>>
    for RangeSet<T, N> {
    type Output = Result<RangeSet<T, N>, AllocError>;

    ghost bitxor_gives = { λ a b r.
        GivesOperation T.cmp T.is_copy T.is_infallible symmetric_difference_table N a b.now r
        × GivesTheResult T.cmp T.is_copy symmetric_difference_table a b.now r };

    /// The symmetric difference of a set, which is dropped even if it fails, and a reference.
    fn bitxor(self, that: &RangeSet<T, N>) -> Result<RangeSet<T, N>, AllocError>
        ensures headline { GivesTheResult T.cmp T.is_copy symmetric_difference_table
            self that.now result }
        ensures gives { GivesOperation T.cmp T.is_copy T.is_infallible symmetric_difference_table N
            self that.now result }
    {
        &self ^ that
    }
}

impl<T: EntryClone + MadeWith<Global> + Drop, const N: usize> BitXor for RangeSet<T, N> {
    type Output = Result<RangeSet<T, N>, AllocError>;

    ghost bitxor_gives = { λ a b r.
        GivesOperation T.cmp T.is_copy T.is_infallible symmetric_difference_table N a b r
        × GivesTheResult T.cmp T.is_copy symmetric_difference_table a b r };

    /// The symmetric difference of two sets, which are dropped even if it fails.
    fn bitxor(self, that: RangeSet<T, N>) -> Result<RangeSet<T, N>, AllocError>
        ensures headline { GivesTheResult T.cmp T.is_copy symmetric_difference_table
            self that result }
        ensures gives { GivesOperation T.cmp T.is_copy T.is_infallible symmetric_difference_table N
            self that result }
    {
        &self ^ &that
    }
}

impl<T: EntryClone + MadeWith<Global> + Drop, const N: usize> Sub<&RangeSet<T, N>>
    for &RangeSet<T, N> {
    type Output = Result<RangeSet<T, N>, AllocError>;

    ghost sub_gives = { λ a b r.
        GivesOperation T.cmp T.is_copy T.is_infallible difference_table N a.now b.now r
        × GivesTheResult T.cmp T.is_copy difference_table a.now b.now r };

    /// The difference, as `difference` gives it. It fails only if an allocation or a copy does.
    fn sub(self, that: &RangeSet<T, N>) -> Result<RangeSet<T, N>, AllocError>
        ensures headline { GivesTheResult T.cmp T.is_copy difference_table
            self.now that.now result }
        ensures gives { GivesOperation T.cmp T.is_copy T.is_infallible difference_table N
            self.now that.now result }
    {
        self.difference(that.as_ref())
    }
}

impl<T: EntryClone + MadeWith<Global> + Drop, const N: usize> Sub<RangeSet<T, N>>
    for &RangeSet<T, N> {
    type Output = Result<RangeSet<T, N>, AllocError>;

    ghost sub_gives = { λ a b r.
        GivesOperation T.cmp T.is_copy T.is_infallible difference_table N a.now b r
        × GivesTheResult T.cmp T.is_copy difference_table a.now b r };

    /// The difference of a reference and a set, which is dropped even if it fails.
    fn sub(self, that: RangeSet<T, N>) -> Result<RangeSet<T, N>, AllocError>
        ensures headline { GivesTheResult T.cmp T.is_copy difference_table
            self.now that result }
        ensures gives { GivesOperation T.cmp T.is_copy T.is_infallible difference_table N
            self.now that result }
    {
        self - &that
    }
}

impl<T: EntryClone + MadeWith<Global> + Drop, const N: usize> Sub<&RangeSet<T, N>>
    for RangeSet<T, N> {
    type Output = Result<RangeSet<T, N>, AllocError>;

    ghost sub_gives = { λ a b r.
        GivesOperation T.cmp T.is_copy T.is_infallible difference_table N a b.now r
        × GivesTheResult T.cmp T.is_copy difference_table a b.now r };

    /// The difference of a set, which is dropped even if it fails, and a reference.
    fn sub(self, that: &RangeSet<T, N>) -> Result<RangeSet<T, N>, AllocError>
        ensures headline { GivesTheResult T.cmp T.is_copy difference_table
            self that.now result }
        ensures gives { GivesOperation T.cmp T.is_copy T.is_infallible difference_table N
            self that.now result }
    {
        &self - that
    }
}

impl<T: EntryClone + MadeWith<Global> + Drop, const N: usize> Sub for RangeSet<T, N> {
    type Output = Result<RangeSet<T, N>, AllocError>;

    ghost sub_gives = { λ a b r.
        GivesOperation T.cmp T.is_copy T.is_infallible difference_table N a b r
        × GivesTheResult T.cmp T.is_copy difference_table a b r };

    /// The difference of two sets, which are dropped even if it fails.
    fn sub(self, that: RangeSet<T, N>) -> Result<RangeSet<T, N>, AllocError>
        ensures headline { GivesTheResult T.cmp T.is_copy difference_table
            self that result }
        ensures gives { GivesOperation T.cmp T.is_copy T.is_infallible difference_table N
            self that result }
    {
        &self - &that
    }
}

impl<T: RangeSetEntry + MadeWith<Global> + Drop, const N: usize> Not for RangeSet<T, N> {
    type Output = Result<RangeSet<T, N>, AllocError>;

    ghost not_gives = { λ a r.
        GivesOwnNegation T.cmp T.is_value T.least
        (BeginsAt T.cmp T.least a ⊎ ((length a < N) × T.is_min_infallible)) a r
        × IfOk r (IsTheNegation T.cmp T.is_value a) };

    /// The complement. It removes a first boundary that is the least value, or else puts the least
    /// value before the others, which are the set's own. The clause says the members among values,
    /// and the list, item by item.
    fn not(self) -> Result<RangeSet<T, N>, AllocError>
        ensures headline { IfOk result (IsTheNegation T.cmp T.is_value self) }
        ensures gives { GivesOwnNegation T.cmp T.is_value T.least
            (BeginsAt T.cmp T.least self ⊎ ((length self < N) × T.is_min_infallible))
            self result }
    {
        let alloc = self.allocator();
        let mut list = self.into_inner();
        if begins_at_least(list.as_slice()) {
            let _least = list.remove(0);
            give_back_room(&mut list);
            return Ok(RangeSet::new_unchecked(list));
        }
        let least = T::min_value(alloc)?;
        // `capacity` is called for its clause that it is at least N, which the proof cites.
        let _inline = list.capacity();
        list.insert(0, least)?;
        Ok(RangeSet::new_unchecked(list))
    }
}

impl<T: RangeSetEntry + EntryClone + MadeWith<Global> + Drop, const N: usize> Not
    for &RangeSet<T, N> {
    type Output = Result<RangeSet<T, N>, AllocError>;

    ghost not_gives = { λ a r.
        GivesNegation T.cmp T.is_value T.is_copy T.least
        ((length a.now < N) × All T.is_infallible a.now × T.is_min_infallible) a.now r
        × IfOk r (IsTheNegation T.cmp T.is_value a.now) };

    /// The complement, as the connective "not left" of this set and the empty one. It copies the
    /// boundaries, and removes a first one that is the least value, or else puts the least value
    /// before the others. It makes at most twice the weight of the two lists in comparisons.
    fn not(self) -> Result<RangeSet<T, N>, AllocError>
        ensures headline { IfOk result (IsTheNegation T.cmp T.is_value self.now) }
        ensures gives { GivesNegation T.cmp T.is_value T.is_copy T.least
            ((length self.now < N) × All T.is_infallible self.now × T.is_min_infallible)
            self.now result }
    {
        changes_are_marked_truly::<T, Comparisons>();
        changes_mean_the_opposite::<T, Comparisons>();
        let not_left = Connective {
            neither: true,
            left: false,
            right: true,
            both: false,
        };
        self.as_ref().combine(
            self.allocator(),
            RangeSetRef::empty(),
            &not_left,
            &mut Comparisons::new(),
        )
    }
}
