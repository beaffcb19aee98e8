//! The members of a set one by one, and values in a row.
ghost use Rattle.std.specs.Prelude.{◌≡◌, ◌↔◌, ◌<◌, ◌≤◌, ℕ, ℤ, pos, negsuc, Bool, true, false, All, List, Some, length};
ghost use Rattle.std.specs.Int.{int_rem_euclid};
ghost use Rattle.std.specs.Ordering.{is_le};
ghost use Rattle.std.specs.declared.cmp.Ordering.TheVariants.{Less, Equal};
ghost use Rattle.range_merge.specs.Boundaries.{member};
ghost use Rattle.range_collections.specs.Covered.{members_below};
ghost use Rattle.range_collections.specs.Countable.{signed_place};
ghost use Rattle.range_collections.specs.Fits.{IsFit, IsFirstFit, IsMultiple};
ghost use Rattle.range_collections.specs.Members.{IsPrevious, members_of};

use crate::countable::Countable;

/// Two values that are both the greatest one up to an element that is a member, or that isn't, are
/// equal.
pub fn the_previous_value_is_pinned<T: Countable>()
    ensures pinned { (inside : Bool) (items : List T) (from previous other : T) →
        IsPrevious T.cmp T.is_value inside items from previous →
        IsPrevious T.cmp T.is_value inside items from other → T.cmp previous other ≡ Equal }
{}

/// The list of the members has members alone, as many as are counted.
pub fn the_members_are_listed<T: Countable>()
    ensures members { (items : List T) → All (λ x. member T.cmp items x ≡ true)
        (members_of T.cmp T.value items 0 T.count) }
    ensures count { (items : List T) → length (members_of T.cmp T.value items 0 T.count) ≡
        members_below T.cmp T.value items T.count }
{}

/// Values in a row start between the ends, and the first of them is a member, or none is.
pub fn values_in_a_row_lie_between_the_ends<T: Countable>()
    ensures { (inside : Bool) (items : List T) (start end count at : ℕ) →
        IsFit T.cmp T.value inside items start end count at → 0 < count →
        (start ≤ at) × (at < end) × (member T.cmp items (T.value at) ≡ inside) }
{}

/// The first gap with room for `count` values lies between the ends, and its start is no member.
pub fn what_fits_starts_in_a_gap<T: Countable>()
    ensures { (items : List T) (start end x : T) (count : ℕ) →
        IsFirstFit T.cmp T.place items start end count (Some x) →
        (is_le (T.cmp start x) ≡ true) × (T.cmp x end ≡ Less) × (member T.cmp items x ≡ false) }
{}

/// A number with a sign stands at the place of a multiple exactly if a division that rounds down
/// leaves nothing of it.
pub fn aligned_numbers_are_multiples()
    ensures from_0 { (half align a : ℕ) → 0 < align →
        IsMultiple half align (signed_place half (pos a)) ↔
        (int_rem_euclid (pos a) (pos align) ≡ pos 0) }
    ensures below_0 { (half align a : ℕ) → 0 < align → a < half →
        IsMultiple half align (signed_place half (negsuc a)) ↔
        (int_rem_euclid (negsuc a) (pos align) ≡ pos 0) }
{}
