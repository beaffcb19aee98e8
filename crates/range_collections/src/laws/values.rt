//! Laws of sets among all values of a type, where a connective may be on while both sides are off,
//! as the negation is.
ghost use Rattle.std.specs.Prelude.{◌≡◌, ◌↔◌, true, false, List, All};
ghost use Rattle.range_merge.specs.Boundaries.{IsAscending, IsSameSet};
ghost use Rattle.range_merge.specs.Connective.{Table, Means, table_of, union_table, intersection_table, difference_table};
ghost use Rattle.range_collections.specs.Sets.{AreEqual};
ghost use Rattle.range_collections.specs.Values.{Negates, MeansAmong, AreSameAmongValues, IsEverything};

use range_entry::RangeSetEntry;

/// Two strictly sorted lists of values that have the same members among values are equal item by
/// item.
pub fn same_members_among_values_are_equal_items<T: RangeSetEntry>()
    ensures { (a b : List T) →
        All T.is_value a → All T.is_value b → IsAscending T.cmp a → IsAscending T.cmp b →
        AreSameAmongValues T.cmp T.is_value a b → AreEqual T.cmp a b }
{}

/// A strictly sorted list of values that is negated twice is equal item by item to what it was,
/// also where the least value is a boundary.
pub fn negating_twice_gives_the_same<T: RangeSetEntry>()
    ensures { (a b c : List T) → All T.is_value a → All T.is_value c → IsAscending T.cmp a →
        Negates T.cmp T.is_value b a → Negates T.cmp T.is_value c b → AreEqual T.cmp a c }
{}

/// Of lists of values, the difference is the intersection with the negation.
pub fn difference_is_an_intersection_with_the_negation<T: RangeSetEntry>()
    ensures { (a b n r s : List T) → All T.is_value a → All T.is_value b → All T.is_value n →
        IsAscending T.cmp a → IsAscending T.cmp b → Negates T.cmp T.is_value n b →
        Means T.cmp difference_table r a b → Means T.cmp intersection_table s a n →
        AreEqual T.cmp r s }
{}

/// A connective that is off while both sides are speaks of every element.
pub fn off_connectives_speak_of_every_element<T: RangeSetEntry>()
    ensures { (f : Table) (r a b : List T) →
        f false false ≡ false → MeansAmong T.cmp T.is_value f r a b ↔ Means T.cmp f r a b }
{}

/// The same connective of the same sets gives lists that are equal item by item: where it is on
/// while both sides are off, those of them that are lists of values.
pub fn combined_sets_are_pinned<T: RangeSetEntry>()
    ensures { (f : Table) (a b a2 b2 r s : List T) →
        (f false false ≡ true → All T.is_value r × All T.is_value s) →
        MeansAmong T.cmp T.is_value f r a b → MeansAmong T.cmp T.is_value f s a2 b2 →
        IsSameSet T.cmp a a2 → IsSameSet T.cmp b b2 → AreEqual T.cmp r s }
{}

/// The negation is the connective "not left", whatever the right side.
pub fn negation_is_the_connective_not_left<T: RangeSetEntry>()
    ensures { (r a b : List T) →
        Negates T.cmp T.is_value r a ↔
        MeansAmong T.cmp T.is_value (table_of true false true false) r a b }
{}

/// The union of a set and what "not left" makes of it has every value.
pub fn a_set_and_what_is_not_in_it_are_everything<T: RangeSetEntry>()
    ensures { (a b n u : List T) →
        MeansAmong T.cmp T.is_value (table_of true false true false) n a b →
        Means T.cmp union_table u a n →
        IsEverything T.cmp T.is_value u }
{}
