//! One range set in a list of boundaries: the list is cut around the start and around the end, and
//! what lies between the cuts gives way to those of the two that are put.
ghost use Rattle.std.specs.Prelude.{◌≡◌, ◌+◌, ◌*◌, ◌<◌, ◌^◌, IsOk, OnOk};
ghost use Rattle.std.specs.declared.cmp.Ordering.TheVariants.{Less};
ghost use Rattle.range_merge.specs.Boundaries.{IsAscending};
ghost use Rattle.range_merge.specs.Counting.{AddsAtMost};
ghost use Rattle.range_collections.specs.Insertion.{IsChangedByRange};
ghost use Rattle.range_collections.specs.Ranges.{range_items};
ghost use Rattle.range_collections.specs.Splicing.{IsSet, IsSettled, range_table};

use crate::changes::Splice;
use crate::comparisons::Comparisons;
use crate::range_set_range::has_elements;
use std::alloc::AllocError;
use std::ops::Range;

/// Leaves the boundaries of the same members, but that the elements of the range are members if
/// `inside` is true, and else no members. It asks for memory only if the list grows beyond its
/// room, and before it changes anything.
pub fn set_range<T: Ord + Drop, L: Splice<T>>(
    list: &mut L,
    range: Range<T>,
    inside: bool,
    count: &mut Comparisons,
) -> Result<(), AllocError>
    requires sorted { IsAscending T.cmp (L.items list.old) }
    requires made { count.old < 2 ^ 64 }
    ensures sorted { IsAscending T.cmp (L.items list.new) }
    ensures changed { IsChangedByRange T.cmp (range_table inside) L.room (L.items list.old)
        (range_items T.cmp range.start range.end) (L.items list.new) result }
    ensures comparisons { AddsAtMost count.old count.new (2 * L.cost list.old + 1) }
{
    let Range { start, end } = range;
    if !has_elements(&start, &end, count) {
        return Ok(());
    }
    set_between(list, start, end, inside, count)
}

/// The same as `set_range`, for a start that is below the end.
#[inline]
pub fn set_between<T: Ord + Drop, L: Splice<T>>(
    list: &mut L,
    start: T,
    end: T,
    inside: bool,
    count: &mut Comparisons,
) -> Result<(), AllocError>
    requires less { T.cmp start end ≡ Less }
    requires sorted { IsAscending T.cmp (L.items list.old) }
    requires made { count.old < 2 ^ 65 }
    ensures sorted { IsAscending T.cmp (L.items list.new) }
    ensures changed { IsChangedByRange T.cmp (range_table inside) L.room (L.items list.old)
        (range_items T.cmp start end) (L.items list.new) result }
    ensures set { OnOk result (IsSet T.cmp inside (L.items list.old) start end
        (L.items list.new)) }
    ensures settled { IsSettled T.cmp inside (L.items list.old) start end → IsOk result }
    ensures comparisons { AddsAtMost count.old count.new (2 * L.cost list.old) }
{
    let ((from, start), (to, end)) = list.cuts(start, end, inside, count);
    list.splice(from, to, start, end)
}
