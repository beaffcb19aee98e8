//! A range set among the boundaries of a tracker: it is first measured, and refused if it would
//! leave too many of them.
ghost use Rattle.std.specs.Prelude.{◌≡◌, ◌+◌, ◌-◌, ◌≤◌, ◌<◌, ◌^◌, [], ◌∷◌, false, length, take, OnErr, OnOk, IfErr, IfOk};
ghost use Rattle.std.specs.Option.{option_to_list};
ghost use Rattle.std.specs.Ordering.{nat_cmp};
ghost use Rattle.std.specs.declared.cmp.Ordering.TheVariants.{Less};
ghost use Rattle.range_merge.specs.Boundaries.{IsAscending, is_odd as odd};
ghost use Rattle.range_collections.specs.Splicing.{spliced};
ghost use Rattle.range_list.specs.Lists.{joined, place_at, IsPlaceAt};
ghost use Rattle.range_chunked_tracker.specs.Tracking.{IsTracking, IsSetWithin};

use range_chunks::boundaries::{Splice, cut_at};
use range_collections::Comparisons;
use range_list::{Chunks, FRONT, Itself, Place};
use range_tracker::{TrackError, within_limit};
use std::ops::Range;

/// Sets the range among the first `len` boundaries, and returns how many there are then. Where that
/// is none, the list keeps some range, so that the next one needs no memory.
pub fn set_within(
    list: &mut Chunks<u64, bool>,
    range: Range<u64>,
    inside: bool,
    len: usize,
    limit: usize,
) -> Result<usize, TrackError>
    requires tracking { IsTracking (joined list.old) len limit }
    ensures set { IsSetWithin inside limit (take len (joined list.old)) range
        (joined list.new) result }
    ensures unchanged { OnErr result (joined list.new ≡ joined list.old) }
    ensures sorted { IsAscending nat_cmp (joined list.new) }
{
    if range.start >= range.end {
        Ok(len)
    } else if len == 0 {
        set_first(list, range, inside, limit)
    } else {
        set_between(list, range, inside, len, limit)
    }
}

// The same where nothing is there, and the start is below the end.
fn set_first(
    list: &mut Chunks<u64, bool>,
    range: Range<u64>,
    inside: bool,
    limit: usize,
) -> Result<usize, TrackError>
    requires sorted { IsAscending nat_cmp (joined list.old) }
    requires room { 2 ≤ length (joined list.old) }
    requires less { nat_cmp range.start range.end ≡ Less }
    ensures set { IsSetWithin inside limit [] range (joined list.new) result }
    ensures unchanged { OnErr result (joined list.new ≡ joined list.old) }
    ensures sorted { IsAscending nat_cmp (joined list.new) }
{
    if !inside {
        return Ok(0);
    }
    within_limit(2, limit)?;
    keep_range(list, range);
    Ok(2)
}

// The same where something is there, and the start is below the end.
fn set_between(
    list: &mut Chunks<u64, bool>,
    range: Range<u64>,
    inside: bool,
    len: usize,
    limit: usize,
) -> Result<usize, TrackError>
    requires sorted { IsAscending nat_cmp (joined list.old) }
    requires room { 2 ≤ length (joined list.old) }
    requires ended { odd (length (joined list.old)) ≡ false }
    requires len { len ≡ length (joined list.old) }
    requires fits { len ≤ 2 ^ 64 - 3 }
    requires less { nat_cmp range.start range.end ≡ Less }
    ensures set { IsSetWithin inside limit (joined list.old) range
        (joined list.new) result }
    ensures unchanged { OnErr result (joined list.new ≡ joined list.old) }
    ensures sorted { IsAscending nat_cmp (joined list.new) }
{
    let count = &mut Comparisons::new();
    let (from, start) = cut_at(&*list, range.start, inside, count);
    let (to, end) = cut_at(&*list, range.end, inside, count);
    let boundaries = len_spliced(list, len, from, to, start, end);
    within_limit(boundaries, limit)?;
    if boundaries == 0 {
        keep_range(list, range);
    } else {
        Splice::splice(list, from, to, start, end)?;
    }
    Ok(boundaries)
}

// How many boundaries there are once those between two places are replaced.
fn len_spliced(
    list: &Chunks<u64, bool>,
    len: usize,
    from: Place,
    to: Place,
    start: Option<u64>,
    end: Option<u64>,
) -> usize
    requires from { IsPlaceAt list.now from }
    requires to { IsPlaceAt list.now to }
    requires ordered { place_at list.now from ≤ place_at list.now to }
    requires len { len ≡ length (joined list.now) }
    requires room { len ≤ 2 ^ 64 - 3 }
    ensures { result ≡ length (spliced (joined list.now) (place_at list.now from)
        (place_at list.now to) start end) }
{
    len - list.len_between(from, to) as usize + count(start) + count(end)
}

// One, if there is an item.
fn count(item: Option<u64>) -> usize
    ensures { result ≡ length (option_to_list item) }
{
    match item {
        Some(_) => 1,
        None => 0,
    }
}

/// Leaves the boundaries of the range alone. There are two at least, so it takes no memory.
pub fn keep_range(list: &mut Chunks<u64, bool>, range: Range<u64>)
    requires room { 2 ≤ length (joined list.old) }
    ensures items { joined list.new ≡ range.start ∷ range.end ∷ [] }
{
    let second = list.place_after(FRONT);
    list.set_key(FRONT, &Itself, range.start);
    list.set_key(second, &Itself, range.end);
    list.truncate(list.place_after(second));
}
