//! Laws of maps. Each function has no parameters and does nothing: its contract is the law.
ghost use Rattle.std.specs.Prelude.{◌≡◌, ◌↔◌, true};
ghost use Rattle.std.specs.Option.{is_some};
ghost use Rattle.range_merge.specs.Boundaries.{member};
ghost use Rattle.range_map.specs.Steps.{value_at, Steps, IsCanonical, IsSameMap, AreEqualSteps};

/// Two maps give each key equal values exactly if their keys are equal one by one, and so are the
/// options from them on.
pub fn same_values_are_equal_steps<K: Ord, V: Eq>()
    ensures { (a b : Steps K V) → IsCanonical K.cmp V.eq a → IsCanonical K.cmp V.eq b →
        IsSameMap K.cmp V.eq a b ↔ AreEqualSteps K.cmp V.eq a b }
{}

/// If all values are equal, a map is the set of the keys with a value: its keys are the boundaries.
pub fn a_map_to_one_value_is_a_set<K: Ord, V: Eq>()
    ensures { (m : Steps K V) → ((v w : V) → V.eq v w ≡ true) → IsCanonical K.cmp V.eq m →
        (x : K) → is_some (value_at K.cmp m x) ≡ member K.cmp m.keys x }
{}
