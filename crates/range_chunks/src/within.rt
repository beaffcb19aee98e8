//! The parts of a range that are in a set in chunks, and those that the set leaves out.
ghost use Rattle.std.specs.Prelude.{◌≡◌, ◌<◌, ◌+◌, ◌*◌, ◌^◌, false, length, IfOk};
ghost use Rattle.std.specs.Iterator.{YieldsFirstBy, item_count};
ghost use Rattle.range_merge.specs.Boundaries.{IsAscending, is_odd};
ghost use Rattle.range_merge.specs.Counting.{AddsAtMost};
ghost use Rattle.range_merge.specs.Runs.{digits};
ghost use Rattle.range_collections.specs.Ranges.{ranges_of};
ghost use Rattle.range_collections.specs.Within.{GivesParts, borrowed_items, with_end, within_table};
ghost use Rattle.range_list.specs.Lists.{joined};

use range_collections::Comparisons;
use range_collections::questions::{self, Within, take_first};
use range_list::{Chunks, Items};
use std::alloc::{AllocError, Global};
use std::iter::FusedIterator;
use std::marker::Model;
use std::ops::Range;

/// The parts of a range that a set leaves out, from the lowest on. A clause reads it as the list of
/// the boundaries that are still unread.
pub type Gaps<'a, T> = RangesWithin<'a, T>;

/// The parts of a range that are in a set, from the lowest on. A clause reads it as the list of the
/// boundaries that are still unread, of which there is an even number.
#[derive(Drop)]
pub struct RangesWithin<'a, T> {
    unread: Within<'a, T, Items<'a, T, bool>>,
}

impl<'a, T> Model for RangesWithin<'a, T> {
    ghost use Rattle.std.specs.Prelude.{◌≡◌, List, false, length};
    ghost use Rattle.range_merge.specs.Boundaries.{is_odd};
    ghost use Rattle.range_collections.specs.Within.{borrowed_items};

    ghost Value = { List T };

    ghost view = { λ it. borrowed_items it.unread.first it.unread.between it.unread.last };

    ghost invariant = { λ it. is_odd (length
        (borrowed_items it.unread.first it.unread.between it.unread.last)) ≡ false };
}

impl<'a, T> RangesWithin<'a, T> {
    // The ranges of these boundaries, of which there has to be an even number.
    #[inline(always)]
    fn new(unread: Within<'a, T, Items<'a, T, bool>>) -> Self
        requires { is_odd (length (borrowed_items unread.first unread.between unread.last)) ≡ false }
        ensures { result ≡
            borrowed_items unread.entry.first unread.entry.between unread.entry.last }
    {
        RangesWithin { unread }
    }
}

impl<'a, T> Iterator for RangesWithin<'a, T> {
    type Item = Range<&'a T>;

    ghost next_gives = { YieldsFirstBy with_end ranges_of };

    ghost remaining = { item_count ranges_of };

    #[inline]
    fn next(&mut self) -> Option<Range<&'a T>> {
        let start = take_first(&mut self.unread)?;
        let end = take_first(&mut self.unread)?;
        Some(Range { start, end })
    }
}

impl<'a, T> FusedIterator for RangesWithin<'a, T> {}

/// The parts of `within` whose elements are members where `inside` is true, or else no members.
pub fn parts_within<'a, T: Ord>(
    list: &'a Chunks<T, bool>,
    within: Range<&'a T>,
    inside: bool,
    count: &mut Comparisons,
) -> RangesWithin<'a, T>
    requires sorted { IsAscending T.cmp (joined list.now) }
    requires made { count.old < 2 ^ 64 }
    ensures gives { GivesParts T.cmp (within_table inside) within.entry (joined list.now) result }
    ensures comparisons { AddsAtMost count.old count.new
        (2 * (digits (length list.now) + digits 512) + 1) }
{
    RangesWithin::new(questions::parts_within(list, within, inside, count))
}

/// The boundaries of the parts, in full chunks and a last one.
pub fn copies_of(
    alloc: Global,
    parts: RangesWithin<'_, u64>,
) -> Result<Chunks<u64, bool>, AllocError>
    ensures { IfOk result (λ list. joined list ≡ parts.entry) }
{
    let mut list = Chunks::new(alloc);
    let mut unread = parts.unread;
    while let Some(boundary) = take_first(&mut unread) {
        list.push(*boundary)?;
    }
    Ok(list)
}
