//! How long the gaps of a set are at most, between two values.
ghost use Rattle.std.specs.Prelude.{◌≡◌, ◌↔◌, ◌<◌, ◌≤◌, ◌-◌, ◌^◌, [], IsTrue, cond, nat_lt, filter, length, slice_get, MatchOption, HoldsAt};
ghost use Rattle.std.specs.List.{AllWithin};
ghost use Rattle.range_chunks.specs.Bounds.{are_among, excludes, is_apart};

use range_collections::{Countable, Multiples};

/// Every gap that starts from `start` up to `end` has at most `most` values, and none has `count`
/// values from one of the multiples on. `end` is a member, so no such gap reaches past it. What holds
/// for multiples of a number holds for those of its multiples.
#[derive(Clone, Copy)]
pub struct GapBound<T> {
    pub start: T,
    pub end: T,
    pub most: u128,
    pub count: u128,
    pub multiples: Multiples,
}

impl<T: Countable> GapBound<T> {
    /// Whether the place is one of those of which the bound speaks.
    #[inline(always)]
    pub fn is_around(&self, place: u128) -> bool
        ensures { IsTrue result ↔ ((T.place self.now.start ≤ place) × (place < T.place self.now.end)) }
    {
        self.start.place() <= place && place < self.end.place()
    }

    /// Whether no gap between the values has `count` values from one of the multiples on.
    #[inline(always)]
    pub fn excludes(&self, count: u128, multiples: Multiples) -> bool
        ensures { result ≡ excludes count multiples self.now }
    {
        self.most < count || (self.count <= count && are_among(multiples, self.multiples))
    }

    /// Whether the values from one place on, up to another, which is out, lie outside.
    #[inline(always)]
    fn is_apart(&self, from: u128, to: u128) -> bool
        ensures { result ≡ is_apart T.place from to self.now }
    {
        self.end.place() < from || to <= self.start.place()
    }
}

// Whether the multiples are among other ones: those of their number, or of one that it divides by.
#[inline(always)]
fn are_among(multiples: Multiples, others: Multiples) -> bool
    ensures { result ≡ are_among multiples others }
{
    let alike = others.of == multiples.of || (others.of > 0 && multiples.of % others.of == 0);
    alike && others.zero == multiples.zero
}

/// Forgets the bounds that speak of a value in the range.
pub fn forget<T: Countable + Copy>(bounds: &mut Vec<GapBound<T>>, start: &T, end: &T)
    ensures { bounds.new.items ≡
        filter (is_apart T.place (T.place start.now) (T.place end.now)) bounds.old.items }
{
    let from = start.place();
    let to = end.place();
    bounds.retain(|bound| bound.is_apart(from, to));
}

/// Forgets all bounds if there are more than chunks: the set has shrunk, or moved away.
pub fn forget_wasted<T: Countable + Copy>(bounds: &mut Vec<GapBound<T>>, chunks: usize)
    ensures { bounds.new.items ≡ cond (nat_lt chunks (length bounds.old.items)) [] bounds.old.items }
{
    if bounds.len() > chunks {
        bounds.clear();
    }
}

/// The index of the first bound from another one on that ends above a place: those before speak of
/// lower places, where the bounds are sorted.
pub fn first_above<T: Countable>(bounds: &[GapBound<T>], from: usize, place: u128) -> usize
    ensures from { from ≤ result }
    ensures below { AllWithin (λ bound. T.place bound.end ≤ place) bounds.now from result }
    ensures above { result < length bounds.now → HoldsAt (λ bound. place < T.place bound.end) bounds.now result }
{
    let mut at = from;
    while at < bounds.len() && bounds[at].end.place() <= place {
        at += 1;
    }
    at
}

/// Where a walk from a place on shall stop that begins before the bound at an index, or within it.
pub fn stop_of<T: Countable>(bounds: &[GapBound<T>], at: usize, place: u128) -> u128
    ensures { MatchOption (slice_get bounds.now at) (result ≡ 2 ^ 128 - 1) (λ bound.
        result ≡ cond (nat_lt place (T.place bound.start)) (T.place bound.start) (T.place bound.end)) }
{
    match bounds.get(at) {
        Some(bound) if bound.start.place() > place => bound.start.place(),
        Some(bound) => bound.end.place(),
        None => u128::MAX,
    }
}
