//! Ranges without an end against a view.
ghost use Rattle.std.specs.Prelude.{◌↔◌, IsTrue};
ghost use Rattle.range_merge.specs.Boundaries.{IsAscending};
ghost use Rattle.range_collections.specs.Endless.{HasAllFrom, HasMemberFrom};

use crate::view::RangeSetRef;
use std::ops::RangeFrom;

impl<'a, T: Ord> RangeSetRef<'a, T> {
    /// Whether every element from the start of the range on is a member.
    #[inline]
    pub fn contains_range_from(&self, range: RangeFrom<T>) -> bool
    where
        T: Drop,
        ensures { IsTrue result ↔ HasAllFrom T.cmp self.now.boundaries.now range.start }
    {
        has_all_from(self.boundaries, &range.start)
    }

    /// Whether some member lies at the start of the range or above it.
    #[inline]
    pub fn intersects_range_from(&self, range: RangeFrom<T>) -> bool
    where
        T: Drop,
        ensures { IsTrue result ↔ HasMemberFrom T.cmp self.now.boundaries.now range.start }
    {
        has_member_from(self.boundaries, &range.start)
    }
}

// Whether every element from `start` on is a member, of a list of boundaries.
fn has_all_from<T: Ord>(items: &[T], start: &T) -> bool
    requires { IsAscending T.cmp items.now }
    ensures { IsTrue result ↔ HasAllFrom T.cmp items.now start.now }
{
    RangeSetRef::new_unchecked(items).next_gap(start).is_none()
}

// Whether some element from `start` on is a member, of a list of boundaries.
fn has_member_from<T: Ord>(items: &[T], start: &T) -> bool
    requires { IsAscending T.cmp items.now }
    ensures { IsTrue result ↔ HasMemberFrom T.cmp items.now start.now }
{
    RangeSetRef::new_unchecked(items)
        .next_member(start)
        .is_some()
}
