//! Laws of operations on sets: each has one result, which sides may be exchanged or grouped anew,
//! and what a subset and disjoint sets are.
ghost use Rattle.std.specs.Prelude.{◌≡◌, ◌↔◌, ◌⊎◌, ℕ, true, false, List, [], Ok, ◌∷◌, ◌++◌};
ghost use Rattle.range_merge.specs.Boundaries.{IsAscending, IsSameSet, member};
ghost use Rattle.range_merge.specs.Connective.{Table, Means, union_table, intersection_table, difference_table, symmetric_difference_table};
ghost use Rattle.range_collections.specs.Operators.{GivesOperation};
ghost use Rattle.range_collections.specs.Sets.{IsSubset, IsDisjoint, AreEqual};
ghost use Rattle.range_collections.specs.Unions.{IsUnionOf};

use range_entry::EntryClone;

/// Two strictly sorted lists have the same members exactly if they have one length and are equal
/// item by item.
pub fn same_members_are_equal_items<T: Ord>()
    ensures { (a b : List T) →
        IsAscending T.cmp a → IsAscending T.cmp b → IsSameSet T.cmp a b ↔ AreEqual T.cmp a b }
{}

/// The same connective of the same sets gives lists that are equal item by item.
pub fn results_are_pinned<T: Ord>()
    ensures { (f : Table) (a b a2 b2 r s : List T) → Means T.cmp f r a b → Means T.cmp f s a2 b2 →
        IsSameSet T.cmp a a2 → IsSameSet T.cmp b b2 → AreEqual T.cmp r s }
{}

/// Union, intersection and symmetric difference give the same with their sides exchanged.
pub fn operations_commute<T: Ord>()
    ensures union { (a b r s : List T) →
        Means T.cmp union_table r a b → Means T.cmp union_table s b a → AreEqual T.cmp r s }
    ensures intersection { (a b r s : List T) →
        Means T.cmp intersection_table r a b → Means T.cmp intersection_table s b a →
        AreEqual T.cmp r s }
    ensures symmetric_difference { (a b r s : List T) →
        Means T.cmp symmetric_difference_table r a b →
        Means T.cmp symmetric_difference_table s b a → AreEqual T.cmp r s }
{}

/// Union, intersection and symmetric difference of three sets give the same, whichever two come
/// first.
pub fn operations_associate<T: Ord>()
    ensures union { (a b c ab bc r s : List T) →
        Means T.cmp union_table ab a b → Means T.cmp union_table r ab c →
        Means T.cmp union_table bc b c → Means T.cmp union_table s a bc → AreEqual T.cmp r s }
    ensures intersection { (a b c ab bc r s : List T) →
        Means T.cmp intersection_table ab a b → Means T.cmp intersection_table r ab c →
        Means T.cmp intersection_table bc b c → Means T.cmp intersection_table s a bc →
        AreEqual T.cmp r s }
    ensures symmetric_difference { (a b c ab bc r s : List T) →
        Means T.cmp symmetric_difference_table ab a b →
        Means T.cmp symmetric_difference_table r ab c →
        Means T.cmp symmetric_difference_table bc b c →
        Means T.cmp symmetric_difference_table s a bc → AreEqual T.cmp r s }
{}

/// Subset is reflexive and transitive, and two strictly sorted lists that are subsets of each other
/// are equal item by item.
pub fn subset_is_an_order<T: Ord>()
    ensures reflexive { (a : List T) → IsSubset T.cmp a a }
    ensures transitive { (a b c : List T) →
        IsSubset T.cmp a b → IsSubset T.cmp b c → IsSubset T.cmp a c }
    ensures antisymmetric { (a b : List T) → IsAscending T.cmp a → IsAscending T.cmp b →
        IsSubset T.cmp a b → IsSubset T.cmp b a → AreEqual T.cmp a b }
{}

/// Two sets are disjoint exactly if the list of their intersection is empty.
pub fn disjoint_is_an_empty_intersection<T: Ord>()
    ensures { (a b r : List T) →
        Means T.cmp intersection_table r a b → IsDisjoint T.cmp a b ↔ (r ≡ []) }
{}

/// A set is a subset of another exactly if the list of their difference is empty.
pub fn subset_is_an_empty_difference<T: Ord>()
    ensures { (a b r : List T) →
        Means T.cmp difference_table r a b → IsSubset T.cmp a b ↔ (r ≡ []) }
{}

/// What an operation that found memory gives, by its members: those of one set or both, of both, of
/// the first alone, of just one of them.
pub fn operations_give_their_members<T: EntryClone>()
    ensures sorted { (f : Table) (room : ℕ) (a b items : List T) →
        GivesOperation T.cmp T.is_copy T.is_infallible f room a b (Ok items) →
        IsAscending T.cmp items }
    ensures union { (room : ℕ) (a b items : List T) (x : T) →
        GivesOperation T.cmp T.is_copy T.is_infallible union_table room a b (Ok items) →
        (member T.cmp items x ≡ true) ↔ ((member T.cmp a x ≡ true) ⊎ (member T.cmp b x ≡ true)) }
    ensures intersection { (room : ℕ) (a b items : List T) (x : T) →
        GivesOperation T.cmp T.is_copy T.is_infallible intersection_table room a b (Ok items) →
        (member T.cmp items x ≡ true) ↔ ((member T.cmp a x ≡ true) × (member T.cmp b x ≡ true)) }
    ensures difference { (room : ℕ) (a b items : List T) (x : T) →
        GivesOperation T.cmp T.is_copy T.is_infallible difference_table room a b (Ok items) →
        (member T.cmp items x ≡ true) ↔ ((member T.cmp a x ≡ true) × (member T.cmp b x ≡ false)) }
    ensures symmetric_difference { (room : ℕ) (a b items : List T) (x : T) →
        GivesOperation T.cmp T.is_copy T.is_infallible symmetric_difference_table
        room a b (Ok items) →
        (member T.cmp items x ≡ true) ↔
        (((member T.cmp a x ≡ true) × (member T.cmp b x ≡ false))
        ⊎ ((member T.cmp a x ≡ false) × (member T.cmp b x ≡ true))) }
{}

/// The union of many lists is pinned: two that have its members are equal item by item. That of two
/// lists is what the connective means, and the union of the unions of some and of others is that of
/// all.
pub fn unions_are_pinned<T: Ord>()
    ensures pinned { (parts : List (List T)) (r s : List T) →
        IsUnionOf T.cmp (λ part. part) parts r → IsUnionOf T.cmp (λ part. part) parts s →
        AreEqual T.cmp r s }
    ensures of_two { (a b r : List T) →
        IsUnionOf T.cmp (λ part. part) (a ∷ b ∷ []) r ↔ Means T.cmp union_table r a b }
    ensures of_all { (front back : List (List T)) (r s all : List T) →
        IsUnionOf T.cmp (λ part. part) front r → IsUnionOf T.cmp (λ part. part) back s →
        Means T.cmp union_table all r s → IsUnionOf T.cmp (λ part. part) (front ++ back) all }
{}
