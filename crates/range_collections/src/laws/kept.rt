//! What calls keep: the own one of two equal boundaries, a set in which an empty range is put, what
//! stands past a result.
ghost use Rattle.std.specs.Prelude.{◌≡◌, ◌≤◌, ℕ, false, List, Contains, Result, Ok, IsOk, slice_get};
ghost use Rattle.std.specs.Borrow.{Bor};
ghost use Rattle.std.specs.Ordering.{is_lt};
ghost use Rattle.std.specs.declared.alloc.AllocError.{AllocError};
ghost use Rattle.std.specs.declared.cmp.Ordering.TheVariants.{Equal};
ghost use Rattle.std.specs.declared.ops.Range.{Range as Ends};
ghost use Rattle.range_merge.specs.Boundaries.{IsAscending};
ghost use Rattle.range_merge.specs.Connective.{Table};
ghost use Rattle.range_collections.specs.Buffers.{WritesOperation};
ghost use Rattle.range_collections.specs.InPlace.{IsChangedByView, IsChangedByOwned};
ghost use Rattle.range_collections.specs.Insertion.{IsChangedByRange};
ghost use Rattle.range_collections.specs.Operators.{GivesOperation};
ghost use Rattle.range_collections.specs.Ranges.{range_items};
ghost use Rattle.range_collections.specs.Within.{GivesParts};

use range_entry::EntryClone;

/// Where a boundary of a result equals one of the left set, it is that one, or in a new set a copy
/// of it. So are the parts of a range with its ends.
pub fn the_left_boundary_stays<T: EntryClone>()
    ensures new_set { (f : Table) (room : ℕ) (a b items : List T) (x y : T) →
        IsAscending T.cmp a → IsAscending T.cmp b →
        GivesOperation T.cmp T.is_copy T.is_infallible f room a b (Ok items) →
        Contains a x → Contains items y → T.cmp x y ≡ Equal → T.is_copy x y }
    ensures by_view { (f : Table) (room : ℕ) (a b new : List T) (done : Unit {0}) (x y : T) →
        IsAscending T.cmp a →
        IsChangedByView T.cmp T.is_copy T.is_infallible f room a b new (Ok done) →
        Contains a x → Contains new y → T.cmp x y ≡ Equal → x ≡ y }
    ensures by_owned { (f : Table) (room : ℕ) (a b new : List T) (done : Unit {0}) (x y : T) →
        IsAscending T.cmp a → IsChangedByOwned T.cmp f room a b new (Ok done) →
        Contains a x → Contains new y → T.cmp x y ≡ Equal → x ≡ y }
    ensures by_range { (f : Table) (room : ℕ) (a b new : List T) (done : Unit {0}) (x y : T) →
        IsAscending T.cmp a → IsChangedByRange T.cmp f room a b new (Ok done) →
        Contains a x → Contains new y → T.cmp x y ≡ Equal → x ≡ y }
    ensures parts { (f : Table) (range : Ends (Bor T)) (items parts : List T) (x y : T) →
        GivesParts T.cmp f range items parts →
        Contains (range_items T.cmp range.start.now range.end.now) x → Contains parts y →
        T.cmp x y ≡ Equal → x ≡ y }
{}

/// A range whose start isn't below its end changes no set, and is never refused.
pub fn an_empty_range_changes_nothing<T: Ord>()
    ensures unchanged { (f : Table) (room : ℕ) (a new : List T) (start end : T)
        (r : Result (Unit {0}) AllocError) → is_lt (T.cmp start end) ≡ false →
        IsChangedByRange T.cmp f room a (range_items T.cmp start end) new r → new ≡ a }
    ensures succeeds { (f : Table) (room : ℕ) (a new : List T) (start end : T)
        (r : Result (Unit {0}) AllocError) → is_lt (T.cmp start end) ≡ false →
        IsChangedByRange T.cmp f room a (range_items T.cmp start end) new r → IsOk r }
{}

/// An operation that writes `n` boundaries into a slice leaves each item from place `n` on.
pub fn items_past_the_result_stay<T: Ord>()
    ensures { (f : Table) (a b old new : List T) (n i : ℕ) →
        WritesOperation T.cmp f a b old new (Ok n) → n ≤ i →
        slice_get new i ≡ slice_get old i }
{}
