//! The parts of a set: the two at an element are the shortest, gaps and ranges within two ends are
//! those of a difference and of an intersection.
ghost use Rattle.std.specs.Prelude.{◌≡◌, ◌≤◌, Bool, true, List, length, ◌↔◌, false, [], All};
ghost use Rattle.std.specs.Ordering.{is_le, is_lt};
ghost use Rattle.std.specs.declared.cmp.Ordering.TheVariants.{Less, Equal};
ghost use Rattle.std.specs.List.{AllZip, Any, AllAdjacentBelow};
ghost use Rattle.range_merge.specs.Boundaries.{IsAscending, member};
ghost use Rattle.range_merge.specs.Connective.{Means, intersection_table, difference_table};
ghost use Rattle.range_collections.specs.Split.{split_left, split_right, IsLeastBelow, IsLeastFrom};
ghost use Rattle.range_collections.specs.Extent.{HasAllWithin, IsNext};
ghost use Rattle.range_collections.specs.Ranges.{ranges_of, range_items, IsInRange, IsEqualRange, EndsBelow};

/// No strictly sorted list with a set's members below an element is shorter than the left part of
/// the set cut there, and none with its members from that element on is shorter than the right
/// part. What is called least has just their lengths.
pub fn parts_are_the_shortest<T: Ord>()
    ensures left { (items other : List T) (cut : T) →
        IsAscending T.cmp items → IsAscending T.cmp other →
        ((x : T) → T.cmp x cut ≡ Less → member T.cmp other x ≡ member T.cmp items x) →
        length (split_left T.cmp items cut) ≤ length other }
    ensures right { (items other : List T) (cut : T) →
        IsAscending T.cmp items → IsAscending T.cmp other →
        ((x : T) → is_le (T.cmp cut x) ≡ true → member T.cmp other x ≡ member T.cmp items x) →
        length (split_right T.cmp items cut) ≤ length other }
    ensures least_below { (items part : List T) (cut : T) →
        IsAscending T.cmp items → IsLeastBelow T.cmp cut part items →
        length part ≡ length (split_left T.cmp items cut) }
    ensures least_from { (items part : List T) (cut : T) →
        IsAscending T.cmp items → IsLeastFrom T.cmp cut part items →
        length part ≡ length (split_right T.cmp items cut) }
{}

/// The gaps of a set within two ends equal, in order and one by one, the ranges of the difference
/// of that range and the set, and its ranges within them those of the intersection.
pub fn gaps_are_the_ranges_of_the_difference<T: Ord>()
    ensures gaps { (start end : T) (items gaps list : List T) →
        Means T.cmp difference_table gaps (range_items T.cmp start end) items →
        Means T.cmp difference_table list (range_items T.cmp start end) items →
        AllZip (IsEqualRange T.cmp) (ranges_of gaps) (ranges_of list) }
    ensures within { (start end : T) (items parts list : List T) →
        Means T.cmp intersection_table parts (range_items T.cmp start end) items →
        Means T.cmp intersection_table list (range_items T.cmp start end) items →
        AllZip (IsEqualRange T.cmp) (ranges_of parts) (ranges_of list) }
{}

/// The gaps of a set within two ends have together just the elements between them that are no
/// members, and its ranges within them just those that are. Each gap has an element, and ends below
/// the start of the next. Where the start is not below the end there is no gap.
pub fn gaps_have_what_is_not_in_the_set<T: Ord>()
    ensures gaps { (start end x : T) (items gaps : List T) →
        Means T.cmp difference_table gaps (range_items T.cmp start end) items →
        Any (λ r. IsInRange T.cmp r x) (ranges_of gaps) ↔
        ((is_le (T.cmp start x) ≡ true) × (T.cmp x end ≡ Less) × (member T.cmp items x ≡ false)) }
    ensures within { (start end x : T) (items parts : List T) →
        Means T.cmp intersection_table parts (range_items T.cmp start end) items →
        Any (λ r. IsInRange T.cmp r x) (ranges_of parts) ↔
        ((is_le (T.cmp start x) ≡ true) × (T.cmp x end ≡ Less) × (member T.cmp items x ≡ true)) }
    ensures filled { (start end : T) (items gaps : List T) →
        Means T.cmp difference_table gaps (range_items T.cmp start end) items →
        All (λ r. (x : T) × IsInRange T.cmp r x) (ranges_of gaps) }
    ensures apart { (start end : T) (items gaps : List T) →
        Means T.cmp difference_table gaps (range_items T.cmp start end) items →
        AllAdjacentBelow (EndsBelow T.cmp) (ranges_of gaps) (length (ranges_of gaps)) }
    ensures nothing { (start end : T) (items gaps : List T) →
        Means T.cmp difference_table gaps (range_items T.cmp start end) items →
        is_lt (T.cmp start end) ≡ false → gaps ≡ [] }
{}

/// Every element of a range is a member exactly if the difference of the range and the set is
/// empty.
pub fn a_range_is_contained_where_nothing_is_left<T: Ord>()
    ensures { (start end : T) (items r : List T) →
        Means T.cmp difference_table r (range_items T.cmp start end) items →
        HasAllWithin T.cmp items start end ↔ (r ≡ []) }
{}

/// The next member from an element on is the only one, up to equal elements, and so is the next
/// element that is none: from there up to it everything is a member.
pub fn the_next_element_is_pinned<T: Ord>()
    ensures pinned { (inside : Bool) (items : List T) (from next other : T) →
        IsNext T.cmp inside items from next → IsNext T.cmp inside items from other →
        T.cmp next other ≡ Equal }
    ensures up_to_it { (items : List T) (from next : T) →
        IsNext T.cmp false items from next → HasAllWithin T.cmp items from next }
{}
