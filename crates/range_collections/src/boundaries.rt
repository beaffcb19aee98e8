//! The boundaries of a set, wherever they lie, as a question reads them: in a slice, or in chunks.
ghost use Rattle.std.specs.Prelude.{◌≡◌, ◌≤◌, ◌<◌, ◌+◌, ◌-◌, ◌^◌, ◌∷◌, ℕ, List, None, Some, true, length, map, get_or, slice_get, take, drop, option_copied, MatchResult};
ghost use Rattle.std.specs.List.{AllWithin};
ghost use Rattle.std.specs.Ordering.{is_le};
ghost use Rattle.std.specs.declared.cmp.Ordering.TheVariants.{Less, Greater};
ghost use Rattle.range_merge.specs.Boundaries.{IsAscending, is_odd};
ghost use Rattle.range_merge.specs.Counting.{AddsAtMost};
ghost use Rattle.range_collections.specs.Splicing.{Finds};

mod slice;
mod unread;

use crate::comparisons::Comparisons;
pub use slice::cut_at;
pub use unread::Unread;

/// Boundaries by reference. A position is before a boundary, or at the end, and its index is the
/// number of boundaries before it.
pub trait Boundaries<'a, T: Ord + 'a>: Copy {
    /// A position in the list.
    type Position: Copy;

    /// The boundaries between two positions.
    type Unread: Unread<'a, T>;

    // The boundaries.
    ghost items: { Self → List T };

    // It is a position in this list.
    ghost is_position: { Self → Self.Position → Type 0 };

    ghost index: { Self → Self.Position → ℕ };

    // How many comparisons a search makes at most, told by the number of boundaries.
    ghost cost: { Self → ℕ };

    // The same, told by what the list is made of.
    ghost sharp_cost: { Self → ℕ };

    /// The position after the boundaries at or below an element.
    fn up_to(&self, value: &T, count: &mut Comparisons) -> Self::Position
        requires sorted { IsAscending T.cmp (items self.now) }
        requires made { count.old < 2 ^ 126 }
        ensures position { is_position self.now result }
        ensures within { index self.now result ≤ length (items self.now) }
        ensures before { AllWithin (λ y. is_le (T.cmp y value.now) ≡ true)
            (items self.now) 0 (index self.now result) }
        ensures from { AllWithin (λ y. T.cmp y value.now ≡ Greater)
            (items self.now) (index self.now result) (length (items self.now)) }
        ensures cheap { cost self.now < 2 ^ 65 }
        ensures comparisons { AddsAtMost count.old count.new (cost self.now) }
        ensures sharp { AddsAtMost count.old count.new (sharp_cost self.now) };

    /// The position after the boundaries below an element.
    fn below(&self, value: &T, count: &mut Comparisons) -> Self::Position
        requires sorted { IsAscending T.cmp (items self.now) }
        requires made { count.old < 2 ^ 126 }
        ensures position { is_position self.now result }
        ensures within { index self.now result ≤ length (items self.now) }
        ensures before { AllWithin (λ y. T.cmp y value.now ≡ Less)
            (items self.now) 0 (index self.now result) }
        ensures from { AllWithin (λ y. is_le (T.cmp value.now y) ≡ true)
            (items self.now) (index self.now result) (length (items self.now)) }
        ensures cheap { cost self.now < 2 ^ 65 }
        ensures comparisons { AddsAtMost count.old count.new (cost self.now) }
        ensures sharp { AddsAtMost count.old count.new (sharp_cost self.now) };

    /// The position of the boundary equal to an element, or in an `Err` the one where it would go.
    fn find(&self, value: &T, count: &mut Comparisons) -> Result<Self::Position, Self::Position>
        requires sorted { IsAscending T.cmp (items self.now) }
        requires made { count.old < 2 ^ 126 }
        ensures positions { MatchResult result (is_position self.now) (is_position self.now) }
        ensures found { Finds T.cmp (items self.now) value.now (index self.now) result }
        ensures cheap { cost self.now < 2 ^ 65 }
        ensures comparisons { AddsAtMost count.old count.new (cost self.now) };

    /// `find` for an element above all boundaries before a position.
    fn find_from(
        &self,
        from: Self::Position,
        value: &T,
        count: &mut Comparisons,
    ) -> Result<Self::Position, Self::Position>
        requires position { is_position self.now from }
        requires before { AllWithin (λ y. T.cmp y value.now ≡ Less)
            (items self.now) 0 (index self.now from) }
        requires sorted { IsAscending T.cmp (items self.now) }
        requires made { count.old < 2 ^ 125 }
        ensures positions { MatchResult result (is_position self.now) (is_position self.now) }
        ensures found { Finds T.cmp (items self.now) value.now (index self.now) result }
        ensures comparisons { AddsAtMost count.old count.new (cost self.now) };

    /// The position before all boundaries.
    fn front(&self) -> Self::Position
        ensures position { is_position self.now result }
        ensures index { index self.now result ≡ 0 };

    /// Whether the index of a position is odd.
    fn is_odd(&self, at: Self::Position) -> bool
        requires { is_position self.now at }
        ensures { result ≡ is_odd (index self.now at) };

    /// The boundary at a position, or `None` at the end.
    fn item_at(&self, at: Self::Position) -> Option<&'a T>
        requires { is_position self.now at }
        ensures { option_copied result ≡ slice_get (items self.now) (index self.now at) };

    /// The boundary before a position, or `None` at the front.
    fn item_before(&self, at: Self::Position) -> Option<&'a T>
        requires { is_position self.now at }
        ensures within { index self.now at ≤ length (items self.now) }
        ensures item { option_copied result ≡
            get_or (None ∷ map Some (items self.now)) (index self.now at) None };

    /// The position before the boundary before another one.
    fn position_before(&self, at: Self::Position) -> Self::Position
        requires position { is_position self.now at }
        requires item { 0 < index self.now at }
        ensures position { is_position self.now result }
        ensures before { index self.now result + 1 ≡ index self.now at };

    /// The position after the boundary at another one.
    fn position_after(&self, at: Self::Position) -> Self::Position
        requires position { is_position self.now at }
        requires item { index self.now at < length (items self.now) }
        ensures position { is_position self.now result }
        ensures after { index self.now result ≡ index self.now at + 1 };

    /// The boundaries between two positions.
    fn between(&self, from: Self::Position, to: Self::Position) -> Self::Unread
        requires from { is_position self.now from }
        requires to { is_position self.now to }
        requires ordered { index self.now from ≤ index self.now to }
        ensures { Self.Unread.unread result ≡ take (index self.now to - index self.now from)
            (drop (index self.now from) (items self.now)) };
}
