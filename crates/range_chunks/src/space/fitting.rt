//! The search for the first fit, which passes over gaps that are known to be too short.
ghost use Rattle.std.specs.Prelude.{◌≡◌, ◌<◌, ◌≤◌, ◌+◌, ℕ, false, cond, IsTrue, Some, None, IfSome, IfNone};
ghost use Rattle.std.specs.Ordering.{is_le};
ghost use Rattle.range_merge.specs.Boundaries.{member};
ghost use Rattle.range_collections.specs.Fits.{Fits, IsFit, IsFromTo, IsLeastFit, IsMultiple, IsOneOf, place_after};
ghost use Rattle.range_chunks.specs.Bounds.{IsBound, IsPast, IsStep};

use crate::gap_bound::{GapBound, first_above, forget_wasted, stop_of};
use crate::space::ChunkedSpace;
use range_collections::questions::{
    Fit, FitSearch, Until, first_aligned, first_alike, last_fit, parts_within, search_fit,
};
use range_collections::{
    Comparisons, Countable, FromPlace, Multiples, Unsigned, ValueEnds, ValueRange,
};

// How many gaps a bound is for at most.
const GAPS: usize = 512;

/// What a step of a search found.
#[derive(Drop)]
pub enum SearchStep<T> {
    /// It fits there.
    At(Fit<T>),
    /// It fits nowhere below.
    From(T),
    /// It fits nowhere.
    Nowhere,
}

impl<T: Unsigned> ChunkedSpace<T> {
    /// The least number from which `len` numbers lie in the range and are free, or `None` if there
    /// is no such number. If `len` is 0, it is the start of the range, unless that is reversed.
    ///
    /// What is taken stays as it is. It passes over some 512 gaps at a time where they are known
    /// to be too short, and reads the others once: what it learns of them stays until something
    /// is freed there. If there is no memory to remember it, only time is lost.
    pub fn first_fit<R: ValueRange<T>>(&mut self, within: R, len: T) -> Option<T>
        ensures unchanged { self.new ≡ self.old }
        ensures fits { IfSome result (Fits T.cmp T.place self.old (R.start within) (R.end within) len) }
        ensures free { IfSome result (λ at. (x : T) → T.place at ≤ T.place x →
            T.place x < T.place at + T.place len → member T.cmp self.old x ≡ false) }
        ensures least { IfSome result (λ x. (y : T) →
            Fits T.cmp T.place self.old (R.start within) (R.end within) len y → T.place x ≤ T.place y) }
        ensures none { IfNone result ((x : T) →
            ¬ (Fits T.cmp T.place self.old (R.start within) (R.end within) len x)) }
    {
        let range = within.ends();
        range.end.known();
        len.known();
        self.first_free(&range, len.place())
    }
}

impl<T: Countable + Copy> ChunkedSpace<T> {
    /// The least value from which `count` values lie in the range and are free, or `None` if there
    /// is none. If `count` is 0, it is the start of the range, unless that is reversed. Else it is
    /// as `first_fit`.
    pub fn first_fit_count<R: ValueRange<T>>(&mut self, within: R, count: u128) -> Option<T>
        ensures unchanged { self.new ≡ self.old }
        ensures fits { IfSome result (λ at. IsFit T.cmp T.value false self.old
            (R.start within) (R.end within) count (T.place at)) }
        ensures least { IfSome result (λ at. (n : ℕ) → IsFit T.cmp T.value false self.old
            (R.start within) (R.end within) count n → T.place at ≤ n) }
        ensures none { IfNone result ((n : ℕ) → ¬ (IsFit T.cmp T.value false self.old
            (R.start within) (R.end within) count n)) }
        ensures nothing { (s e : T) → R.is_from_to within s e → count ≡ 0 →
            result ≡ cond (is_le (T.cmp s e)) (Some s) None }
    {
        let range = within.ends();
        self.first_free(&range, count)
    }

    // The least value from which `count` values lie between the ends and are free.
    fn first_free(&mut self, ends: &ValueEnds<T>, count: u128) -> Option<T>
        requires closed { IsTrue ends.now.closed → T.place ends.now.end + 1 ≡ T.count }
        ensures unchanged { self.new ≡ self.old }
        ensures fits { IfSome result (λ at. IsFit T.cmp T.value false self.old
            (T.place ends.now.start) (place_after T.place ends.now) count (T.place at)) }
        ensures least { IfSome result (λ at. (n : ℕ) → IsFit T.cmp T.value false self.old
            (T.place ends.now.start) (place_after T.place ends.now) count n → T.place at ≤ n) }
        ensures none { IfNone result ((n : ℕ) → ¬ (IsFit T.cmp T.value false self.old
            (T.place ends.now.start) (place_after T.place ends.now) count n)) }
        ensures nothing { (s e : T) → IsFromTo ends.now s e → count ≡ 0 →
            result ≡ cond (is_le (T.cmp s e)) (Some s) None }
    {
        if count == 0 {
            return first_alike(self.taken.boundaries(), ends, false, 0);
        }
        let fit = self.first_fit_in(ends, count, Multiples::of_one())?;
        Some(fit.start)
    }

    // The first `count` values in a row between the ends that are free from one of the multiples on.
    fn first_fit_in(
        &mut self,
        ends: &ValueEnds<T>,
        count: u128,
        multiples: Multiples,
    ) -> Option<Fit<T>>
        requires closed { IsTrue ends.now.closed → T.place ends.now.end + 1 ≡ T.count }
        requires some { 0 < count }
        requires aligned { 0 < multiples.of }
        ensures unchanged { self.new ≡ self.old }
        ensures first { IfSome result (IsLeastFit T.cmp T.value T.place false self.old
            (T.place ends.now.start) (place_after T.place ends.now) count multiples) }
        ensures none { IfNone result ((n : ℕ) → IsOneOf multiples n → ¬ (IsFit T.cmp T.value false self.old
            (T.place ends.now.start) (place_after T.place ends.now) count n)) }
    {
        if let Some(fit) = self.first_fit_between(ends.start, ends.end, count, multiples) {
            return Some(fit);
        }
        if !ends.closed {
            return None;
        }
        let list = self.taken.boundaries();
        last_fit(list, &ends.start, &ends.end, false, count, multiples)
    }

    // The same from a value to below another.
    fn first_fit_between(
        &mut self,
        start: T,
        end: T,
        count: u128,
        multiples: Multiples,
    ) -> Option<Fit<T>>
        requires some { 0 < count }
        requires aligned { 0 < multiples.of }
        ensures unchanged { self.new ≡ self.old }
        ensures first { IfSome result
            (IsLeastFit T.cmp T.value T.place false self.old (T.place start) (T.place end) count multiples) }
        ensures none { IfNone result ((n : ℕ) → IsOneOf multiples n → ¬ (IsFit T.cmp T.value false self.old
            (T.place start) (T.place end) count n)) }
    {
        self.forget_wasted();
        let mut from = start;
        let mut at = 0;
        while from.place() < end.place() {
            at = first_above(self.bounds.as_slice(), at, from.place());
            match self.step(at, from, end, count, multiples) {
                SearchStep::At(fit) => return Some(fit),
                SearchStep::From(next) => from = next,
                SearchStep::Nowhere => return None,
            }
        }
        None
    }

    // Forgets all bounds where there are more than chunks: the set has shrunk, or moved away.
    fn forget_wasted(&mut self)
        ensures { self.new ≡ self.old }
    {
        forget_wasted(&mut self.bounds, self.taken.chunks_len());
    }

    // Looks from one value on, which lies before the bound at an index or in what it speaks of.
    fn step(
        &mut self,
        at: usize,
        from: T,
        end: T,
        count: u128,
        multiples: Multiples,
    ) -> SearchStep<T>
        requires some { 0 < count }
        requires aligned { 0 < multiples.of }
        ensures unchanged { self.new ≡ self.old }
        ensures step { IsStep T.cmp T.value T.place self.old from end count multiples result }
    {
        if let Some(past) = self.known_past(at, &from, count, multiples) {
            return SearchStep::From(past);
        }
        from.known();
        end.known();
        let until = Until {
            parts: GAPS,
            place: stop_of(self.bounds.as_slice(), at, from.place()),
        };
        let list = self.taken.boundaries();
        let gaps = parts_within(list, &from..&end, false, &mut Comparisons::new());
        match search_fit(gaps, count, multiples, Some(until)) {
            FitSearch::Found(fit) => SearchStep::At(fit),
            FitSearch::Stopped { end: next, most } => {
                let bound = GapBound {
                    start: from,
                    end: next,
                    most,
                    count,
                    multiples,
                };
                self.note(at, bound);
                SearchStep::From(next)
            }
            FitSearch::End => SearchStep::Nowhere,
        }
    }

    // The end of the bound at an index, if that speaks of the value and is too low.
    fn known_past(&self, at: usize, from: &T, count: u128, multiples: Multiples) -> Option<T>
        ensures { IfSome result (λ past. (end : T) →
            IsPast T.cmp T.value T.place self.now from.now end count multiples past) }
    {
        let bound = self.bounds.get(at)?;
        if bound.excludes(count, multiples) && bound.is_around(from.place()) {
            Some(bound.end)
        } else {
            None
        }
    }

    // Remembers what is known of the gaps between two values, if the second is a member.
    fn note(&mut self, at: usize, bound: GapBound<T>)
        requires ordered { T.place bound.start ≤ T.place bound.end }
        requires most { (n k : ℕ) → IsFit T.cmp T.value false self.old
            (T.place bound.start) (T.place bound.end) n k → n ≤ bound.most }
        requires aligned { (k : ℕ) → IsOneOf bound.multiples k → ¬ (IsFit T.cmp T.value false self.old
            (T.place bound.start) (T.place bound.end) bound.count k) }
        ensures { self.new ≡ self.old }
    {
        if self.taken.contains(&bound.end) {
            bound.end.known();
            self.put_bound(at, bound);
        }
    }

    // Puts a bound at an index, in the place of the one there if both start together. One that
    // starts within that is left out. If there is no memory for it, it is lost.
    fn put_bound(&mut self, at: usize, bound: GapBound<T>)
        requires { IsBound T.cmp T.value T.place T.count self.old bound }
        ensures { self.new ≡ self.old }
    {
        if at > self.bounds.len() {
            return;
        }
        let place = bound.start.place();
        match self.bounds.get(at) {
            Some(old) if old.start.place() == place => self.bounds[at] = bound,
            Some(old) if old.start.place() < place => {}
            _ => {
                let _inserted = self.bounds.insert(at, bound);
            }
        }
    }
}

impl<T: FromPlace> ChunkedSpace<T> {
    /// The least multiple of `align` from which `count` values lie in the range and are free. `None`
    /// if there is none, or if `align` is 0. The number of a `char` is its place. Else it is as
    /// `first_fit`, but of gaps that are long enough it remembers only for the last `align` that
    /// none has such a value.
    pub fn first_fit_aligned<R: ValueRange<T>>(
        &mut self,
        within: R,
        count: u128,
        align: u128,
    ) -> Option<T>
        ensures unchanged { self.new ≡ self.old }
        ensures fits { IfSome result (λ at. IsFit T.cmp T.value false self.old
            (R.start within) (R.end within) count (T.place at)) }
        ensures aligned { IfSome result (λ at. IsMultiple T.zero align (T.place at)) }
        ensures least { IfSome result (λ at. (n : ℕ) → IsMultiple T.zero align n → IsFit T.cmp T.value false
            self.old (R.start within) (R.end within) count n → T.place at ≤ n) }
        ensures none { 0 < align → IfNone result ((n : ℕ) → n < T.count → IsMultiple T.zero align n →
            ¬ (IsFit T.cmp T.value false self.old (R.start within) (R.end within) count n)) }
        ensures no_align { align ≡ 0 → result ≡ None }
    {
        let range = within.ends();
        self.first_aligned_free(&range, count, align)
    }

    // The same between ends.
    fn first_aligned_free(&mut self, ends: &ValueEnds<T>, count: u128, align: u128) -> Option<T>
        requires closed { IsTrue ends.now.closed → T.place ends.now.end + 1 ≡ T.count }
        ensures unchanged { self.new ≡ self.old }
        ensures fits { IfSome result (λ at. IsFit T.cmp T.value false self.old
            (T.place ends.now.start) (place_after T.place ends.now) count (T.place at)) }
        ensures aligned { IfSome result (λ at. IsMultiple T.zero align (T.place at)) }
        ensures least { IfSome result (λ at. (n : ℕ) → IsMultiple T.zero align n →
            IsFit T.cmp T.value false self.old
            (T.place ends.now.start) (place_after T.place ends.now) count n → T.place at ≤ n) }
        ensures none { 0 < align → IfNone result ((n : ℕ) → n < T.count → IsMultiple T.zero align n →
            ¬ (IsFit T.cmp T.value false self.old
            (T.place ends.now.start) (place_after T.place ends.now) count n)) }
        ensures no_align { align ≡ 0 → result ≡ None }
    {
        if align == 0 {
            return None;
        }
        if count == 0 {
            return first_aligned(self.taken.boundaries(), ends, 0, align);
        }
        T::from_place(self.first_aligned_place(ends, count, align)?)
    }

    // The place of that value.
    fn first_aligned_place(&mut self, ends: &ValueEnds<T>, count: u128, align: u128) -> Option<u128>
        requires closed { IsTrue ends.now.closed → T.place ends.now.end + 1 ≡ T.count }
        requires some { 0 < count }
        requires aligned { 0 < align }
        ensures unchanged { self.new ≡ self.old }
        ensures fits { IfSome result (IsFit T.cmp T.value false self.old
            (T.place ends.now.start) (place_after T.place ends.now) count) }
        ensures below { IfSome result (λ at. at < T.count) }
        ensures aligned { IfSome result (λ at. IsMultiple T.zero align at) }
        ensures least { IfSome result (λ at. (n : ℕ) → IsMultiple T.zero align n → IsFit T.cmp T.value false
            self.old (T.place ends.now.start) (place_after T.place ends.now) count n → at ≤ n) }
        ensures none { IfNone result ((n : ℕ) → n < T.count → IsMultiple T.zero align n →
            ¬ (IsFit T.cmp T.value false self.old
            (T.place ends.now.start) (place_after T.place ends.now) count n)) }
    {
        ends.end.known();
        let fit = self.first_fit_in(ends, count, Multiples::among::<T>(align))?;
        Some(fit.place)
    }
}
