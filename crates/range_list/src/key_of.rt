//! Where items have keys, by which a list is searched: a boundary of a set is its own key, and a
//! step of a map has one.
ghost use Rattle.std.specs.Prelude.{◌≡◌, ◌^◌, ◌<◌, ◌≤◌, length, map, IfOk, IfErr, HoldsAt};
ghost use Rattle.std.specs.List.{AllWithin};
ghost use Rattle.std.specs.declared.cmp.Ordering.TheVariants.{Less, Equal, Greater};
ghost use Rattle.range_merge.specs.Boundaries.{IsAscending};
ghost use Rattle.range_merge.specs.Counting.{AddsAtMost};
ghost use Rattle.range_merge.specs.Runs.{digits};

use range_merge::Compare;

/// Where an item has its key.
///
/// No call takes `self`: the type alone says where the key is, as `Itself` does. A function takes a
/// value of it, its `lens`, only so that the type is inferred, and reads nothing of it.
pub trait KeyOf<T, K> {
    // The key of an item.
    ghost key_of: { T → K };

    /// The key of an item.
    fn key_of(item: &T) -> &K
        ensures { result.now ≡ key_of item.now };
}

/// How items are searched by key.
pub trait SearchBy<T, K>: KeyOf<T, K> {
    /// The index of the item whose key is equal to this one, or in an `Err` the index where it would go.
    fn search<C: Compare<K>>(items: &[T], key: &K, cmp: &mut C) -> Result<usize, usize>
        requires ascending { IsAscending C.order (map Self.key_of items.now) }
        requires made { C.count cmp.old < 2 ^ 127 }
        ensures found_within { IfOk result (λ i. i < length items.now) }
        ensures found { IfOk result (HoldsAt (λ y. C.order y key.now ≡ Equal) (map Self.key_of items.now)) }
        ensures missing_within { IfErr result (λ i. i ≤ length items.now) }
        ensures missing_before { IfErr result (λ i.
            AllWithin (λ y. C.order y key.now ≡ Less) (map Self.key_of items.now) 0 i) }
        ensures missing_from { IfErr result (λ i.
            AllWithin (λ y. C.order y key.now ≡ Greater) (map Self.key_of items.now) i (length items.now)) }
        ensures comparisons { AddsAtMost (C.count cmp.old) (C.count cmp.new) (digits (length items.now)) };
}

/// Where an item has a key that can be another.
pub trait SetKey<T, K> {
    // The item with another key.
    ghost with_key: { T → K → T };

    /// Gives an item another key. Returns the one that it had.
    fn set_key(item: &mut T, key: K) -> K
        ensures { item.new ≡ with_key item.old key };
}

/// Where an item has a key that can be taken out of it.
pub trait IntoKey<T, K>: KeyOf<T, K> {
    /// Takes the key out of an item.
    fn into_key(item: T) -> K
        ensures { result ≡ Self.key_of item };
}
