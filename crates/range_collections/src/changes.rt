//! Changes of boundaries, each once for every list of them. The calls of a set pass its own list.
ghost use Rattle.std.specs.Prelude.{◌≡◌, ◌≤◌, ◌<◌, ◌+◌, ◌*◌, ◌^◌, ◌⊎◌, ◌∷◌, ◌++◌, [], ℕ, List, None, length, OnOk, OnErr, IsOk, IfSome, MatchOption};
ghost use Rattle.std.specs.Option.{option_to_list};
ghost use Rattle.std.specs.declared.cmp.Ordering.TheVariants.{Less};
ghost use Rattle.range_merge.specs.Boundaries.{IsAscending, is_odd as odd};
ghost use Rattle.range_merge.specs.Counting.{AddsAtMost};
ghost use Rattle.range_collections.specs.Splicing.{IsCut, spliced};

mod cutting;
mod setting;
mod small_vec;
mod taking;

use crate::comparisons::Comparisons;
pub(crate) use cutting::cut;
pub use cutting::{cut_around, cut_at};
pub use setting::{set_between, set_range};
use std::alloc::AllocError;
pub use taking::{take_first_range, take_last_range};

/// A list of boundaries that is changed in place. A position is before a boundary, or at the end,
/// and its index is the number of boundaries before it. It is one until the next change.
pub trait Splice<T: Ord> {
    /// A position in the list.
    type Position: Copy;

    // The boundaries.
    ghost items: { Self → List T };

    // It is a position in this list.
    ghost is_position: { Self → Self.Position → Type 0 };

    ghost index: { Self → Self.Position → ℕ };

    // How many comparisons a search makes at most.
    ghost cost: { Self → ℕ };

    // So many boundaries never take memory.
    ghost room: { ℕ };

    /// Where the list is cut around the start and around the end of a range.
    fn cuts(
        &self,
        start: T,
        end: T,
        inside: bool,
        count: &mut Comparisons,
    ) -> ((Self::Position, Option<T>), (Self::Position, Option<T>))
        requires less { T.cmp start end ≡ Less }
        requires sorted { IsAscending T.cmp (items self.now) }
        requires made { count.old < 2 ^ 65 }
        ensures from { is_position self.now result.0.0 }
        ensures to { is_position self.now result.1.0 }
        ensures start { IsCut T.cmp inside (items self.now) start
            (index self.now result.0.0) result.0.1 }
        ensures end { IsCut T.cmp inside (items self.now) end
            (index self.now result.1.0) result.1.1 }
        ensures comparisons { AddsAtMost count.old count.new (2 * cost self.now) };

    /// Replaces the boundaries between two positions by the start and the end, where they are given. It
    /// asks for memory only if the list grows beyond its room. If that fails, the list is as it was.
    fn splice(
        &mut self,
        from: Self::Position,
        to: Self::Position,
        start: Option<T>,
        end: Option<T>,
    ) -> Result<(), AllocError>
        requires from { is_position self.old from }
        requires to { is_position self.old to }
        requires ordered { index self.old from ≤ index self.old to }
        requires parity { odd (index self.old from + length (option_to_list start)) ≡
            odd (index self.old to + length (option_to_list end)) }
        ensures items { OnOk result (items self.new ≡
            spliced (items self.old) (index self.old from) (index self.old to) start end) }
        ensures unchanged { OnErr result (items self.new ≡ items self.old) }
        ensures succeeds { (length (spliced (items self.old) (index self.old from)
            (index self.old to) start end) ≤ length (items self.old))
            ⊎ (length (spliced (items self.old) (index self.old from)
            (index self.old to) start end) ≤ room) → IsOk result };

    /// Whether the last range has no end: the number of boundaries is odd.
    fn is_endless(&self) -> bool
        ensures { result ≡ odd (length (items self.now)) };

    /// Takes the first two boundaries out, or the only one.
    fn take_first_two(&mut self) -> Option<(T, Option<T>)>
        ensures items { MatchOption result ((items self.old ≡ []) × (items self.new ≡ []))
            (λ two. items self.old ≡ two.0 ∷ (option_to_list two.1 ++ items self.new)) }
        ensures only { IfSome result (λ two. two.1 ≡ None → items self.new ≡ []) };

    /// Takes the last boundary out.
    fn take_last(&mut self) -> Option<T>
        ensures { MatchOption result ((items self.old ≡ []) × (items self.new ≡ []))
            (λ item. items self.old ≡ items self.new ++ item ∷ []) };
}
