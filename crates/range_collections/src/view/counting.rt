//! How many values are members of a view: the lengths of its ranges, added up.
ghost use Rattle.std.specs.Prelude.{◌≡◌, ◌<◌, IfSome};
ghost use Rattle.range_collections.specs.Covered.{covered_of};

use crate::countable::Countable;
use crate::questions::covered;
use crate::view::RangeSetRef;

impl<'a, T: Countable> RangeSetRef<'a, T> {
    /// The cardinality: how many values are members, or `None` if the set has no end. A set with an
    /// end has fewer members than there are values.
    ///
    /// It looks at each boundary once and takes no memory.
    pub fn covered(&self) -> Option<u128>
        ensures fits { IfSome result (λ n. n < T.count) }
        ensures value { result ≡ covered_of T.cmp T.value T.count self.now.boundaries.now }
    {
        covered(self.boundaries)
    }
}
