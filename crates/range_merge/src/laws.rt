//! Laws: functions that do nothing, and whose contracts are theorems on the words of the other
//! contracts.
ghost use Rattle.std.specs.Prelude.{◌≡◌, ℕ, ◌+◌, ◌-◌, ◌≤◌, Bool, true, false, List, ◌++◌, All, IsOk, Ok, Result, length, map};
ghost use Rattle.std.specs.declared.alloc.AllocError.{AllocError};
ghost use Rattle.smallvec.specs.SmallVec.{SmallVec};
ghost use Rattle.range_merge.specs.Building.{IsSound};
ghost use Rattle.range_merge.specs.Boundaries.{IsAscending};
ghost use Rattle.range_merge.specs.Changes.{IsMarkedTruly, Taken, changes, from_left, taken_items};
ghost use Rattle.range_merge.specs.Connective.{Table, Means, opposite, table_of, union_table, intersection_table, difference_table, symmetric_difference_table};
ghost use Rattle.range_merge.specs.Copies.{AreCopies, AreKeptThenCopies, IsAppended};
ghost use Rattle.range_merge.specs.Filling.{FitInline, GivesCopies};
ghost use Rattle.range_merge.specs.Owners.{Owner, IsOwners, owners};
ghost use Rattle.range_merge.specs.Runs.{digits, weight};

use crate::compare::{Compare, Copier};
use crate::in_place::borrowed::InPlaceMergeStateRef;
use crate::in_place::owned::InPlaceMergeState;
use crate::merge_state::{BoolOpMergeState, CountMergeState, MergeStateMut, SmallVecMergeState};
use std::alloc::Global;
use std::default::MadeWith;

/// The owners of two strictly sorted lists are pinned: they ascend, with both lists' items among
/// them, and no other list does so.
pub fn owners_are_pinned<K, C: Compare<K>>()
    ensures pinned { (a b : List K) →
        IsAscending C.order a → IsAscending C.order b → IsOwners C.order a b (owners C.order a b) }
    ensures unique { (a b : List K) (os : List (Owner K)) →
        IsOwners C.order a b os → os ≡ owners C.order a b }
{}

/// The binary digits of a number are no more than it, and the weight of two lists is no more than
/// their lengths together.
pub fn weight_is_at_most_the_lengths<K, C: Compare<K>>()
    ensures digits { (n : ℕ) → digits n ≤ n }
    ensures weight { (a b : List K) → weight C.order a b ≤ length a + length b }
{}

/// The items at which a connective changes mean that connective, where it is off while both sides
/// are.
pub fn changes_mean_the_connective<K, C: Compare<K>>()
    ensures means { (f : Table) (a b : List K) →
        f false false ≡ false → IsAscending C.order a → IsAscending C.order b →
        Means C.order f (taken_items (changes C.order f a b)) a b }
{}

/// The items at which a connective changes mean its opposite, where it is on while both sides are
/// off.
pub fn changes_mean_the_opposite<K, C: Compare<K>>()
    ensures means { (f : Table) (a b : List K) →
        f false false ≡ true → IsAscending C.order a → IsAscending C.order b →
        Means C.order (opposite f) (taken_items (changes C.order f a b)) a b }
{}

/// The four operations are the connectives of their rows: the results where neither side is on, the
/// left alone, the right alone, and both.
pub fn operations_are_connectives()
    ensures union { (a b : Bool) → union_table a b ≡ table_of false true true true a b }
    ensures intersection { (a b : Bool) →
        intersection_table a b ≡ table_of false false false true a b }
    ensures difference { (a b : Bool) → difference_table a b ≡ table_of false true false false a b }
    ensures symmetric_difference { (a b : Bool) →
        symmetric_difference_table a b ≡ table_of false true true false a b }
{}

/// Each change is marked by the list that it comes from: it is an item of the left list, or one of
/// the right list that equals none of the left's.
pub fn changes_are_marked_truly<K, C: Compare<K>>()
    ensures marks { (f : Table) (a b : List K) → IsAscending C.order a → IsAscending C.order b →
        All (IsMarkedTruly C.order a b) (changes C.order f a b) }
{}

/// A list that began with some items still begins with them, followed by copies of what was taken
/// since: it is no shorter.
pub fn copies_stand_after_what_was_there<K, P: Copier<K>>()
    ensures after { (r : List K) (ts : List (Taken K)) (items : List K) →
        AreKeptThenCopies P.alike (length r) (map from_left r ++ ts) items →
        IsAppended P.alike (taken_items ts) r items }
    ensures kept { (at_first : ℕ) (ts : List (Taken K)) (items : List K) →
        AreKeptThenCopies P.alike at_first ts items → at_first ≤ length items }
{}

/// A merge that fills a list gives copies of the changes, and is never refused where the items of
/// both lists fit and no copy fails.
pub fn a_merge_gives_copies_of_the_changes<K, C: Compare<K>, P: Copier<K>>()
    ensures copies { (f : Table) (room : ℕ) (a b : List K) (list : SmallVec K) →
        GivesCopies P.alike C.order f a b (FitInline P.is_infallible room a b) (Ok list) →
        AreCopies P.alike (changes C.order f a b) list.items }
    ensures succeeds { (f : Table) (room : ℕ) (a b : List K) (r : Result (SmallVec K) AllocError) →
        length a + length b ≤ room → All P.is_infallible a → All P.is_infallible b →
        GivesCopies P.alike C.order f a b (FitInline P.is_infallible room a b) r → IsOk r }
{}

/// A builder keeps no more than its list has, and there is room for what it keeps, may still put,
/// and hasn't read.
pub fn a_builder_has_room_for_what_is_put<K>()
    ensures kept { (kept start puts room : ℕ) (list : List K) →
        IsSound kept start puts list room → kept ≤ length list }
    ensures room { (kept start puts room : ℕ) (list : List K) →
        IsSound kept start puts list room → kept + puts + (length list - start) ≤ room }
{}

/// The items at which a connective changes are no more than both lists have together.
pub fn changes_are_at_most_the_lengths<K, C: Compare<K>>()
    ensures at_most { (f : Table) (a b : List K) →
        length (changes C.order f a b) ≤ length a + length b }
{}

/// The state that only tests is stopped by what it takes. Those that count, that fill a list, and
/// that change one in place are not.
pub fn the_test_alone_stops<
    K: MadeWith<Global> + Drop + 'static,
    P: Copier<K> + 'static,
    const N: usize,
>()
    ensures test { ⟦<BoolOpMergeState<'static, K> as MergeStateMut>⟧.can_stop ≡ true }
    ensures count { ⟦<CountMergeState<'static, K> as MergeStateMut>⟧.can_stop ≡ false }
    ensures list { ⟦<SmallVecMergeState<'static, K, P, N> as MergeStateMut>⟧.can_stop ≡ false }
    ensures in_place { ⟦<InPlaceMergeState<K, N> as MergeStateMut>⟧.can_stop ≡ false }
    ensures in_place_ref { ⟦<InPlaceMergeStateRef<'static, K, P, N> as MergeStateMut>⟧.can_stop
        ≡ false }
{}
