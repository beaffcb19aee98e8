//! Where a stretch of values fits beside the members, or in them.
ghost use Rattle.std.specs.Prelude.{◌≡◌, ◌<◌, ◌≤◌, ◌+◌, ℕ, true, false, cond, Some, None, IfSome, IfNone};
ghost use Rattle.std.specs.Ordering.{is_le};
ghost use Rattle.range_merge.specs.Boundaries.{IsAscending, member};
ghost use Rattle.range_collections.specs.Fits.{Fits, IsFit, IsFirstFit, IsMultiple};
ghost use Rattle.range_list.specs.Lists.{joined};

use crate::set::ChunkedRangeSet;
use range_collections::questions::{first_aligned, first_alike, first_gap_of};
use range_collections::{Countable, FromPlace, Unsigned, ValueRange};
use range_list::Chunks;

impl<T: Unsigned> ChunkedRangeSet<T> {
    /// The least number from which `len` numbers lie in the range, none of them a member, or `None`
    /// if there is no such number. If `len` is 0, it is the start of the range, unless that is
    /// reversed. A range without an end goes up to the greatest number.
    ///
    /// It looks at each gap from the start up to the result, and takes no memory.
    pub fn first_fit_unchanged<R: ValueRange<T>>(&self, within: R, len: T) -> Option<T>
        ensures fits { IfSome result (Fits T.cmp T.place self.now
            (R.start within) (R.end within) len) }
        ensures free { IfSome result (λ at. (x : T) → T.place at ≤ T.place x →
            T.place x < T.place at + T.place len → member T.cmp self.now x ≡ false) }
        ensures least { IfSome result (λ x. (y : T) → Fits T.cmp T.place self.now
            (R.start within) (R.end within) len y → T.place x ≤ T.place y) }
        ensures none { IfNone result ((x : T) → ¬ (Fits T.cmp T.place self.now
            (R.start within) (R.end within) len x)) }
    {
        let range = within.ends();
        first_gap_of(&self.list, &range, len)
    }
}

impl<T: Ord> ChunkedRangeSet<T> {
    // How many chunks there are.
    pub(crate) fn chunks_len(&self) -> usize {
        self.list.chunks_len()
    }

    // The boundaries.
    pub(crate) fn boundaries(&self) -> &Chunks<T, bool>
        ensures items { joined result.now ≡ self.now }
        ensures sorted { IsAscending T.cmp (joined result.now) }
    {
        &self.list
    }
}

impl<T: Countable + Copy> ChunkedRangeSet<T> {
    /// The least value from which `count` values lie in the range, none of them a member, or `None`
    /// if there is none. If `count` is 0, it is the start of the range, unless that is reversed. A
    /// range without an end goes up to the greatest value.
    ///
    /// It looks at each gap from the start up to the result, and takes no memory.
    pub fn first_fit_count_unchanged<R: ValueRange<T>>(&self, within: R, count: u128) -> Option<T>
        ensures fits { IfSome result (λ at. IsFit T.cmp T.value false self.now
            (R.start within) (R.end within) count (T.place at)) }
        ensures least { IfSome result (λ at. (n : ℕ) → IsFit T.cmp T.value false
            self.now (R.start within) (R.end within) count n → T.place at ≤ n) }
        ensures none { IfNone result ((n : ℕ) → ¬ (IsFit T.cmp T.value false
            self.now (R.start within) (R.end within) count n)) }

        // Of a range with an end, it starts the first gap that is long enough.
        ensures first { (s e : T) → R.is_from_to within s e → 0 < count →
            IsFirstFit T.cmp T.place self.now s e count result }
        ensures nothing { (s e : T) → R.is_from_to within s e → count ≡ 0 →
            result ≡ cond (is_le (T.cmp s e)) (Some s) None }
    {
        let range = within.ends();
        first_alike(&self.list, &range, false, count)
    }

    /// The least value from which `count` members in a row lie in the range, or `None` if there is
    /// none. If `count` is 0, it is the start of the range, unless that is reversed. A range without
    /// an end goes up to the greatest value.
    ///
    /// It looks at each range from the start up to the result, and takes no memory.
    pub fn first_run<R: ValueRange<T>>(&self, within: R, count: u128) -> Option<T>
        ensures fits { IfSome result (λ at. IsFit T.cmp T.value true self.now
            (R.start within) (R.end within) count (T.place at)) }
        ensures least { IfSome result (λ at. (n : ℕ) → IsFit T.cmp T.value true
            self.now (R.start within) (R.end within) count n → T.place at ≤ n) }
        ensures none { IfNone result ((n : ℕ) → ¬ (IsFit T.cmp T.value true
            self.now (R.start within) (R.end within) count n)) }
    {
        let range = within.ends();
        first_alike(&self.list, &range, true, count)
    }
}

impl<T: FromPlace> ChunkedRangeSet<T> {
    /// The least multiple of `align` from which `count` values lie in the range, none of them a
    /// member. `None` if there is none, or if `align` is 0. The number of a `char` is its place. A
    /// range without an end goes up to the greatest value.
    ///
    /// It looks at each gap from the start up to the result, and takes no memory.
    pub fn first_fit_aligned<R: ValueRange<T>>(
        &self,
        within: R,
        count: u128,
        align: u128,
    ) -> Option<T>
        ensures fits { IfSome result (λ at. IsFit T.cmp T.value false self.now
            (R.start within) (R.end within) count (T.place at)) }
        ensures aligned { IfSome result (λ at. IsMultiple T.zero align (T.place at)) }
        ensures least { IfSome result (λ at. (n : ℕ) → IsMultiple T.zero align n →
            IsFit T.cmp T.value false self.now
            (R.start within) (R.end within) count n → T.place at ≤ n) }
        ensures none { 0 < align → IfNone result ((n : ℕ) → n < T.count → IsMultiple T.zero align n →
            ¬ (IsFit T.cmp T.value false self.now
            (R.start within) (R.end within) count n)) }
        ensures no_align { align ≡ 0 → result ≡ None }
    {
        let range = within.ends();
        first_aligned(&self.list, &range, count, align)
    }
}
