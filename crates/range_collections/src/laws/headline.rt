//! The headline: what its words mean in those of the other clauses.
ghost use Rattle.std.specs.Prelude.{◌≡◌, ℕ, ◌+◌, ◌*◌, ◌≤◌, true, false, List, All, Result, Ok, Err};
ghost use Rattle.std.specs.declared.alloc.AllocError.{AllocError as TheAllocError};
ghost use Rattle.range_merge.specs.Connective.{Table, Means};
ghost use Rattle.range_merge.specs.Runs.{weight};
ghost use Rattle.range_collections.specs.Headline.{EveryElement, IsItself, IsTheResult, GivesTheResult, BecomesTheResult, BecomesTheOwnResult, CostsTwiceWeight, IsTheNegation};
ghost use Rattle.range_collections.specs.InPlace.{AreOwnElseOf};
ghost use Rattle.range_collections.specs.Sets.{AreEqual};
ghost use Rattle.range_collections.specs.Values.{MeansAmong};

use range_entry::{EntryClone, RangeSetEntry};

/// Every form of an operation that is off while both sides are gives one list, equal item by item:
/// a new one, and the left's in place, whoever owns the right side. After an error in place the
/// left is as it was, and so is an owned right side.
pub fn every_form_gives_one_list<T: EntryClone>()
    ensures borrowed { (f : Table) (a b items new : List T) → f false false ≡ false →
        GivesTheResult T.cmp T.is_copy f a b (Ok items) →
        BecomesTheResult T.cmp T.is_copy f a b new (Ok tt) → AreEqual T.cmp items new }
    ensures owned { (f : Table) (a b items new : List T) → f false false ≡ false →
        GivesTheResult T.cmp T.is_copy f a b (Ok items) →
        BecomesTheOwnResult T.cmp f a b new (Ok tt) → AreEqual T.cmp items new }
    ensures refused { (f : Table) (a b new : List T) (error : TheAllocError) →
        BecomesTheResult T.cmp T.is_copy f a b new (Err error) → new ≡ a }
    ensures refused_owned { (f : Table) (a b new back : List T) (error : TheAllocError) →
        BecomesTheOwnResult T.cmp f a b new (Err (error, back)) → (new ≡ a) × (back ≡ b) }
{}

/// A result of the headline means the connective, and of two equal boundaries it has the left's
/// own; what was counted is at most twice the weight; and two negations of one set are equal item
/// by item, if both are lists of values.
pub fn the_headline_is_what_the_clauses_say<T: RangeSetEntry + EntryClone>()
    ensures means { (f : Table) (a b items : List T) → f false false ≡ false →
        IsTheResult T.cmp EveryElement f a b T.is_copy T.is_copy items → Means T.cmp f items a b }
    ensures among { (f : Table) (a b items : List T) →
        IsTheResult T.cmp T.is_value f a b T.is_copy T.is_copy items →
        MeansAmong T.cmp T.is_value f items a b }
    ensures left_own_item { (f : Table) (a b items : List T) → f false false ≡ false →
        IsTheResult T.cmp EveryElement f a b IsItself IsItself items →
        AreOwnElseOf T.cmp a b items }
    ensures comparisons { (f : Table) (a b : List T) (r : Result (List T) TheAllocError)
        (before after : ℕ) →
        CostsTwiceWeight T.cmp a b before after (GivesTheResult T.cmp T.is_copy f a b r) →
        GivesTheResult T.cmp T.is_copy f a b r × (after ≤ before + 2 * weight T.cmp a b) }
    ensures negation { (a items other : List T) →
        All T.is_value items → All T.is_value other →
        IsTheNegation T.cmp T.is_value a items → IsTheNegation T.cmp T.is_value a other →
        AreEqual T.cmp items other }
{}
