//! How many boundaries an operation's result has, counted without making it: each boundary of the
//! other set is searched for, and those of the list between two of them are counted by their places.
ghost use Rattle.std.specs.Prelude.{◌≡◌, ◌≤◌, ◌<◌, ◌+◌, ◌-◌, ◌^◌, ◌∷◌, List, not, cond, length, drop, All};
ghost use Rattle.std.specs.List.{AllWithin};
ghost use Rattle.std.specs.Ordering.{is_le};
ghost use Rattle.std.specs.declared.cmp.Ordering.TheVariants.{Less};
ghost use Rattle.range_merge.specs.Boundaries.{IsAscending, is_odd as odd};
ghost use Rattle.range_merge.specs.Changes.{changes};
ghost use Rattle.range_merge.specs.Connective.{differ};
ghost use Rattle.range_list.specs.Lists.{joined, place_at, IsPlaceAt};
ghost use Rattle.range_chunks.specs.Lengths.{remaining};

use range_collections::{Comparisons, MergeOperation, Unread};
use range_list::{Chunks, FRONT, Itself, Place};
use range_merge::laws::changes_are_at_most_the_lengths;

/// How many boundaries the operation's result has. It makes one search for each boundary of `that`,
/// and adds up the chunks between two of them.
pub fn count_merged<'a, T: Ord + 'a, U: Unread<'a, T>, O: MergeOperation>(
    list: &Chunks<T, bool>,
    that: U,
    op: &O,
) -> usize
    requires sorted { IsAscending T.cmp (joined list.now) }
    requires that_sorted { IsAscending T.cmp (U.unread that) }
    requires fits { length (joined list.now) + length (U.unread that) < 2 ^ 64 }
    ensures { result ≡ length (changes T.cmp (O.connective op.now) (joined list.now) (U.unread that)) }
{
    changes_are_at_most_the_lengths::<T, Comparisons>();
    let mut unread = that;
    let mut from = FRONT;
    let mut len = 0;
    let mut on = false;
    while let Some(at) = unread.take_first() {
        let (after, more) = count_to(list, from, at, on, op);
        from = after;
        len += more;
        on = !on;
    }
    len + count_between(list, from, list.end(), op.takes_a(on))
}

// How many there are from a place up to a boundary of the other set and with it, where that set
// stands as `on` says before it; and the place after it.
fn count_to<T: Ord, O: MergeOperation>(
    list: &Chunks<T, bool>,
    from: Place,
    at: &T,
    on: bool,
    op: &O,
) -> (Place, usize)
    requires sorted { IsAscending T.cmp (joined list.now) }
    requires from { IsPlaceAt list.now from }
    requires before { AllWithin (λ y. T.cmp y at.now ≡ Less) (joined list.now) 0 (place_at list.now from) }
    requires fits { length (joined list.now) + 1 < 2 ^ 64 }
    ensures place { IsPlaceAt list.now result.0 }
    ensures passed { (ys : List T) → IsAscending T.cmp (at.now ∷ ys) →
        All (λ y. AllWithin (λ z. T.cmp z y ≡ Less) (joined list.now) 0 (place_at list.now result.0)) ys }
    ensures counted { (ys : List T) → IsAscending T.cmp (at.now ∷ ys) →
        remaining T.cmp (O.connective op.now) (odd (place_at list.now from)) on
        (drop (place_at list.now from) (joined list.now)) (at.now ∷ ys)
        ≡ result.1 + remaining T.cmp (O.connective op.now) (odd (place_at list.now result.0)) (not on)
        (drop (place_at list.now result.0) (joined list.now)) ys }
{
    let found = list.find_from(from, &Itself, at, &mut Comparisons::new());
    match found {
        Ok(to) => {
            let taken = op.takes_both(list.mark_at(to), on);
            let before = count_between(list, from, to, op.takes_a(on));
            (list.place_after(to), before + one_if(taken))
        }
        Err(to) => {
            let taken = op.takes_b(list.mark_at(to));
            let before = count_between(list, from, to, op.takes_a(on));
            (to, before + one_if(taken))
        }
    }
}

// How many there are between two places, if they are taken.
fn count_between<T>(list: &Chunks<T, bool>, from: Place, to: Place, taken: bool) -> usize
    requires from { IsPlaceAt list.now from }
    requires to { IsPlaceAt list.now to }
    requires ordered { place_at list.now from ≤ place_at list.now to }
    ensures value { result ≡ cond taken (place_at list.now to - place_at list.now from) 0 }
    ensures few { result ≤ length (joined list.now) }
{
    if !taken {
        return 0;
    }
    // `len` is called for its clause that it is a `usize`, which the proof cites.
    let _len = list.len();
    list.len_between(from, to) as usize
}

// One, or none.
fn one_if(taken: bool) -> usize
    ensures { result ≡ cond taken 1 0 }
{
    if taken { 1 } else { 0 }
}
