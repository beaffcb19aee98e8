//! A range without an end set in a list of boundaries in chunks: the list is cut around the start,
//! and what lies behind the cut gives way to the start, if that is put.
ghost use Rattle.std.specs.Prelude.{◌≡◌, ◌<◌, ◌+◌, ◌^◌, ◌∷◌, [], length, IsOk};
ghost use Rattle.range_merge.specs.Boundaries.{IsAscending};
ghost use Rattle.range_merge.specs.Counting.{AddsAtMost};
ghost use Rattle.range_merge.specs.Runs.{digits};
ghost use Rattle.range_collections.specs.Insertion.{IsChangedByRange};
ghost use Rattle.range_collections.specs.Splicing.{range_table};
ghost use Rattle.range_list.specs.Lists.{joined};
ghost use Rattle.range_chunks.specs.Several.{IsSettledFrom};

use range_collections::Comparisons;
use range_collections::changes::cut_at;
use range_list::Chunks;
use std::alloc::AllocError;

/// Leaves the boundaries of the same members, but that the elements from the start on are members
/// where `inside` is true, and else no members. It asks for memory only where the list grows, and
/// before it changes.
pub fn set_from<T: Ord + Drop>(
    list: &mut Chunks<T, bool>,
    start: T,
    inside: bool,
    count: &mut Comparisons,
) -> Result<(), AllocError>
    requires sorted { IsAscending T.cmp (joined list.old) }
    requires made { count.old < 2 ^ 64 }
    ensures sorted { IsAscending T.cmp (joined list.new) }
    ensures changed { IsChangedByRange T.cmp (range_table inside) 0 (joined list.old)
        (start ∷ []) (joined list.new) result }
    ensures settled { IsSettledFrom T.cmp inside (joined list.old) start → IsOk result }
    ensures comparisons { AddsAtMost count.old count.new
        (digits (length (joined list.old)) + digits 512) }
{
    let (at, start) = cut_at(&*list, start, inside, count);
    list.replace_from(at, start)
}
