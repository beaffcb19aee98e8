//! What calls return: what a refusal leaves, where there is none, and what pins a result.
ghost use Rattle.std.specs.Prelude.{◌≡◌, ◌≤◌, ◌+◌, ◌⊎◌, ℕ, ℤ, ◌<◌, not, true, List, All, Contains, Result, Ok, Err, IsOk, Some, None, length, take, filter, slice_get};
ghost use Rattle.std.specs.List.{flat_map};
ghost use Rattle.std.specs.Str.{IsUtf8};
ghost use Rattle.std.specs.Ordering.{is_eq};
ghost use Rattle.std.specs.declared.alloc.AllocError.{AllocError};
ghost use Rattle.serde_json.specs.Data.{Data};
ghost use Rattle.serde_json.specs.Find.{as_array};
ghost use Rattle.range_merge.specs.Boundaries.{member};
ghost use Rattle.range_merge.specs.Connective.{Table, Means};
ghost use Rattle.range_merge.specs.declared.merge_state.buffer.NoRoom.{NoRoom};
ghost use Rattle.range_collections.specs.Buffers.{WritesOperation};
ghost use Rattle.range_collections.specs.InPlace.{IsChangedByView, IsChangedByOwned};
ghost use Rattle.range_collections.specs.Insertion.{IsChangedByRange};
ghost use Rattle.range_collections.specs.Json.{IsReadingOf};
ghost use Rattle.range_collections.specs.ParseErrors.{BeginsRanges, IsLongestFront};
ghost use Rattle.range_collections.specs.Reading.{any_number, is_ranges};
ghost use Rattle.range_collections.specs.Unions.{GivesUnion, is_in_one};
ghost use Rattle.range_collections.specs.Values.{EqualsAreValues, GivesNegation, GivesOwnNegation};

use range_entry::{EntryClone, RangeSetEntry};

/// After a change in place an element is a member exactly if the connective says so of both sides.
pub fn a_change_gives_its_members<T: EntryClone>()
    ensures by_view { (f : Table) (room : ℕ) (a b new : List T) (done : Unit {0}) (x : T) →
        IsChangedByView T.cmp T.is_copy T.is_infallible f room a b new (Ok done) →
        member T.cmp new x ≡ f (member T.cmp a x) (member T.cmp b x) }
    ensures by_owned { (f : Table) (room : ℕ) (a b new : List T) (done : Unit {0}) (x : T) →
        IsChangedByOwned T.cmp f room a b new (Ok done) →
        member T.cmp new x ≡ f (member T.cmp a x) (member T.cmp b x) }
    ensures by_range { (f : Table) (room : ℕ) (a b new : List T) (done : Unit {0}) (x : T) →
        IsChangedByRange T.cmp f room a b new (Ok done) →
        member T.cmp new x ≡ f (member T.cmp a x) (member T.cmp b x) }
{}

/// A change in place that is refused leaves the set, and gives an owned right side back.
pub fn a_refused_change_changes_nothing<T: EntryClone>()
    ensures by_view { (f : Table) (room : ℕ) (a b new : List T) (error : AllocError) →
        IsChangedByView T.cmp T.is_copy T.is_infallible f room a b new (Err error) → new ≡ a }
    ensures by_owned { (f : Table) (room : ℕ) (a b new back : List T) (error : AllocError) →
        IsChangedByOwned T.cmp f room a b new (Err (error, back)) → (new ≡ a) × (back ≡ b) }
    ensures by_range { (f : Table) (room : ℕ) (a b new : List T) (error : AllocError) →
        IsChangedByRange T.cmp f room a b new (Err error) → new ≡ a }
{}

/// Where there is room for the boundaries, and no copy of one fails, no call is refused.
pub fn enough_room_is_infallible<T: EntryClone + RangeSetEntry>()
    ensures by_view { (f : Table) (room : ℕ) (a b new : List T) (r : Result (Unit {0}) AllocError) →
        length a + length b ≤ room → All T.is_infallible b →
        IsChangedByView T.cmp T.is_copy T.is_infallible f room a b new r → IsOk r }
    ensures by_owned { (f : Table) (room : ℕ) (a b new : List T)
        (r : Result (Unit {0}) (AllocError × List T)) → length a + length b ≤ room →
        IsChangedByOwned T.cmp f room a b new r → IsOk r }
    ensures by_range { (f : Table) (room : ℕ) (a b new items : List T)
        (r : Result (Unit {0}) AllocError) → Means T.cmp f items a b → length items ≤ length a →
        IsChangedByRange T.cmp f room a b new r → IsOk r }
    ensures union { (parts : List (List T)) (room : ℕ) (r : Result (List T) AllocError) →
        length (flat_map (λ part. part) parts) ≤ room →
        All T.is_infallible (flat_map (λ part. part) parts) →
        GivesUnion T.cmp T.is_copy T.is_infallible (λ part. part) room parts r → IsOk r }
    ensures negation { (least : T) (room : ℕ) (a : List T) (r : Result (List T) AllocError) →
        length a ≤ room →
        GivesNegation T.cmp T.is_value T.is_copy least (length a ≤ room) a r → IsOk r }
    ensures own_negation { (least : T) (room : ℕ) (a : List T) (r : Result (List T) AllocError) →
        length a ≤ room → GivesOwnNegation T.cmp T.is_value least (length a ≤ room) a r → IsOk r }
{}

/// What `!` gives has just the values that are no members. It has one boundary more than the set,
/// or one less, and of values it holds values alone.
pub fn a_negation_turns_one_boundary<T: EntryClone + RangeSetEntry>()
    ensures members { (least x : T) (room : ℕ) (a items : List T) → T.is_value x →
        GivesNegation T.cmp T.is_value T.is_copy least (length a ≤ room) a (Ok items) →
        member T.cmp items x ≡ not (member T.cmp a x) }
    ensures length { (least : T) (room : ℕ) (a items : List T) →
        GivesNegation T.cmp T.is_value T.is_copy least (length a ≤ room) a (Ok items) →
        (length items + 1 ≡ length a) ⊎ (length items ≡ length a + 1) }
    ensures values { (least : T) (room : ℕ) (a items : List T) →
        EqualsAreValues T.cmp T.is_value → All T.is_value a →
        GivesNegation T.cmp T.is_value T.is_copy least (length a ≤ room) a (Ok items) →
        All T.is_value items }
    ensures own_members { (least x : T) (room : ℕ) (a items : List T) → T.is_value x →
        GivesOwnNegation T.cmp T.is_value least (length a ≤ room) a (Ok items) →
        member T.cmp items x ≡ not (member T.cmp a x) }
    ensures own_length { (least : T) (room : ℕ) (a items : List T) →
        GivesOwnNegation T.cmp T.is_value least (length a ≤ room) a (Ok items) →
        (length items + 1 ≡ length a) ⊎ (length items ≡ length a + 1) }
    ensures own_values { (least : T) (room : ℕ) (a items : List T) →
        EqualsAreValues T.cmp T.is_value → All T.is_value a →
        GivesOwnNegation T.cmp T.is_value least (length a ≤ room) a (Ok items) → All T.is_value items }
{}

/// A union has just what is in some part, and each boundary of it is a copy of the first of the
/// parts' boundaries that equals it.
pub fn a_union_keeps_the_first_of_equal_boundaries<T: EntryClone>()
    ensures members { (room : ℕ) (parts : List (List T)) (items : List T) (x : T) →
        GivesUnion T.cmp T.is_copy T.is_infallible (λ part. part) room parts (Ok items) →
        member T.cmp items x ≡ is_in_one T.cmp (λ part. part) parts x }
    ensures first { (room : ℕ) (parts : List (List T)) (items : List T) (x y : T) →
        GivesUnion T.cmp T.is_copy T.is_infallible (λ part. part) room parts (Ok items) →
        Contains items y →
        slice_get (filter (λ z. is_eq (T.cmp y z)) (flat_map (λ part. part) parts)) 0 ≡ Some x →
        T.is_copy x y }
{}

/// An operation writes the same boundaries into each slice that has room for them, and a slice of
/// the length that an error has gives room.
pub fn what_is_written_is_pinned<T: Ord>()
    ensures length { (f : Table) (a b old new old2 new2 : List T) (n m : ℕ) →
        WritesOperation T.cmp f a b old new (Ok n) → WritesOperation T.cmp f a b old2 new2 (Ok m) →
        n ≡ m }
    ensures items { (f : Table) (a b old new old2 new2 : List T) (n m : ℕ) →
        WritesOperation T.cmp f a b old new (Ok n) → WritesOperation T.cmp f a b old2 new2 (Ok m) →
        take n new ≡ take m new2 }
    ensures members { (f : Table) (a b old new : List T) (n : ℕ) (x : T) →
        WritesOperation T.cmp f a b old new (Ok n) →
        member T.cmp (take n new) x ≡ f (member T.cmp a x) (member T.cmp b x) }
    ensures enough { (f : Table) (a b old new old2 new2 : List T) (refused : NoRoom)
        (r : Result ℕ NoRoom) → WritesOperation T.cmp f a b old new (Err refused) →
        refused.needed ≤ length old2 → WritesOperation T.cmp f a b old2 new2 r → IsOk r }
{}

/// A text has one longest front. A front with which some text of ranges begins is a text itself.
pub fn the_longest_front_is_pinned()
    ensures pinned { (text : List ℕ) (at other : ℕ) →
        IsLongestFront text at → IsLongestFront text other → at ≡ other }
    ensures begins { (front : List ℕ) → BeginsRanges front →
        IsUtf8 front × ((text : List ℕ) × (take (length front) text ≡ front)
        × IsUtf8 text × (is_ranges any_number text ≡ true)) }
{}

/// What is no array is never read.
pub fn only_arrays_are_read()
    ensures { (d : Data) (items : List ℤ) → as_array d ≡ None → ¬ (IsReadingOf d items) }
{}
