//! Several ranges set in a list of boundaries: all of them, or none if memory runs out.
//!
//! Only a range that makes the list longer takes memory. Such ranges are put first. If memory runs out,
//! they are taken out again, which takes none. The others come last, and take none either.
ghost use Rattle.std.specs.Prelude.{◌≡◌, ◌≤◌, ◌+◌, ◌*◌, ◌<◌, ◌∷◌, ◌++◌, ◌/◌, ◌⊎◌, [], true, false, not, All, List, get_or, length, reverse, OnOk, OnErr, IfSome, IfNone, HoldsAt};
ghost use Rattle.std.specs.declared.cmp.Ordering.TheVariants.{Less};
ghost use Rattle.range_merge.specs.Boundaries.{IsAscending, is_odd as odd, member};
ghost use Rattle.range_merge.specs.Connective.{Means};
ghost use Rattle.range_collections.specs.Splicing.{IsSettled, range_table, spliced};
ghost use Rattle.range_list.specs.Lists.{joined, place_at, IsPlaceAt};
ghost use Rattle.range_chunks.specs.Several.{IsGap, IsSettledFrom, AreKeptAbove, AreSettled, IsPutBetween, IsPutAt, ArePutIn};

use crate::to_the_end::set_from;
use range_collections::changes::set_between;
use range_collections::{Comparisons, Splice};
use range_list::{Chunks, Itself, Place};
use std::alloc::AllocError;

/// Leaves the boundaries of the same members, but that the members of `that` are members where `inside`
/// is true, and else no members. If memory runs out, the list is as it was.
pub fn set_all<T: Ord + Copy>(
    list: &mut Chunks<T, bool>,
    that: &[T],
    inside: bool,
) -> Result<(), AllocError>
    requires sorted { IsAscending T.cmp (joined list.old) }
    requires that_sorted { IsAscending T.cmp that.now }
    ensures sorted { IsAscending T.cmp (joined list.new) }
    ensures means { OnOk result (Means T.cmp (range_table inside) (joined list.new)
        (joined list.old) that.now) }
    ensures unchanged { OnErr result (joined list.new ≡ joined list.old) }
{
    if that.len() == 2 {
        return set_between(list, that[0], that[1], inside, &mut Comparisons::new());
    }
    let (ranges, open) = that.split_at(that.len() / 2 * 2);
    match open.first() {
        Some(start) => set_with_open(list, ranges, *start, inside),
        None => set_ranges(list, ranges, inside),
    }
}

// The same for ranges with an end and one without.
fn set_with_open<T: Ord + Copy>(
    list: &mut Chunks<T, bool>,
    ranges: &[T],
    start: T,
    inside: bool,
) -> Result<(), AllocError>
    requires sorted { IsAscending T.cmp (joined list.old) }
    requires ranges_sorted { IsAscending T.cmp ranges.now }
    requires even { odd (length ranges.now) ≡ false }
    requires below { All (λ y. T.cmp y start ≡ Less) ranges.now }
    ensures sorted { IsAscending T.cmp (joined list.new) }
    ensures means { OnOk result (Means T.cmp (range_table inside) (joined list.new)
        (joined list.old) (ranges.now ++ start ∷ [])) }
    ensures unchanged { OnErr result (joined list.new ≡ joined list.old) }
{
    if is_longer_from(list, &start, inside) {
        return set_behind_open(list, ranges, start, inside);
    }
    set_ranges(list, ranges, inside)?;
    set_from(list, start, inside, &mut Comparisons::new())
}

// The same where the range without an end makes the list longer: it is put first.
fn set_behind_open<T: Ord + Copy>(
    list: &mut Chunks<T, bool>,
    ranges: &[T],
    start: T,
    inside: bool,
) -> Result<(), AllocError>
    requires sorted { IsAscending T.cmp (joined list.old) }
    requires ranges_sorted { IsAscending T.cmp ranges.now }
    requires even { odd (length ranges.now) ≡ false }
    requires below { All (λ y. T.cmp y start ≡ Less) ranges.now }
    requires all_below { All (λ y. T.cmp y start ≡ Less) (joined list.old) }
    requires longer { odd (length (joined list.old)) ≡ not inside }
    ensures sorted { IsAscending T.cmp (joined list.new) }
    ensures means { OnOk result (Means T.cmp (range_table inside) (joined list.new)
        (joined list.old) (ranges.now ++ start ∷ [])) }
    ensures unchanged { OnErr result (joined list.new ≡ joined list.old) }
{
    list.push(start)?;
    if let Err(error) = set_ranges(list, ranges, inside) {
        list.truncate(list.place_before(list.end()));
        return Err(error);
    }
    Ok(())
}

// Whether the range from the start on makes the list longer.
fn is_longer_from<T: Ord>(list: &Chunks<T, bool>, start: &T, inside: bool) -> bool
    requires sorted { IsAscending T.cmp (joined list.now) }
    ensures all_below { result ≡ true → All (λ y. T.cmp y start.now ≡ Less) (joined list.now) }
    ensures longer { result ≡ true → odd (length (joined list.now)) ≡ not inside }
    ensures settled { result ≡ false → IsSettledFrom T.cmp inside (joined list.now) start.now }
{
    let at = list.place_below(&Itself, start, &mut Comparisons::new());
    !list.is_before(at, list.end()) && list.mark_at(at) != inside
}

// The same as `set_all` for ranges with an end.
fn set_ranges<T: Ord + Copy>(
    list: &mut Chunks<T, bool>,
    that: &[T],
    inside: bool,
) -> Result<(), AllocError>
    requires sorted { IsAscending T.cmp (joined list.old) }
    requires that_sorted { IsAscending T.cmp that.now }
    requires even { odd (length that.now) ≡ false }
    ensures sorted { IsAscending T.cmp (joined list.new) }
    ensures means { OnOk result (Means T.cmp (range_table inside) (joined list.new)
        (joined list.old) that.now) }
    ensures kept { OnOk result (AreKeptAbove T.cmp that.now (joined list.old) (joined list.new)) }
    ensures unchanged { OnErr result (joined list.new ≡ joined list.old) }
{
    let mut put = Vec::new(list.allocator());
    if let Err(error) = put_longer(list, that, inside, &mut put) {
        take_out(list, that, put);
        return Err(error);
    }
    settle(list, that, inside);
    Ok(())
}

// Puts the ranges that make the list longer, and notes their indices, also if memory runs out.
fn put_longer<T: Ord + Copy>(
    list: &mut Chunks<T, bool>,
    that: &[T],
    inside: bool,
    put: &mut Vec<usize>,
) -> Result<(), AllocError>
    requires sorted { IsAscending T.cmp (joined list.old) }
    requires that_sorted { IsAscending T.cmp that.now }
    requires none { put.old.items ≡ [] }
    ensures sorted { IsAscending T.cmp (joined list.new) }
    ensures put { ArePutIn T.cmp that.now (joined list.old) (reverse put.new.items)
        (joined list.new) }
    ensures outside { (x : T) → member T.cmp that.now x ≡ false →
        member T.cmp (joined list.new) x ≡ member T.cmp (joined list.old) x }
    ensures kept { AreKeptAbove T.cmp that.now (joined list.old) (joined list.new) }
    ensures settled { OnOk result (AreSettled T.cmp inside (joined list.new) that.now
        (length that.now / 2)) }
{
    for i in 0..that.len() / 2 {
        put_if_longer(list, that, 2 * i, inside, put)?;
    }
    Ok(())
}

// Puts the range at an index if that makes the list longer, and then notes the index.
fn put_if_longer<T: Ord + Copy>(
    list: &mut Chunks<T, bool>,
    that: &[T],
    at: usize,
    inside: bool,
    put: &mut Vec<usize>,
) -> Result<(), AllocError>
    requires sorted { IsAscending T.cmp (joined list.old) }
    requires that_sorted { IsAscending T.cmp that.now }
    requires within { at + 1 < length that.now }
    ensures put { ((joined list.new ≡ joined list.old) × (put.new.items ≡ put.old.items))
        ⊎ (((d : T) → IsPutBetween T.cmp inside (joined list.old) (get_or that.now at d)
        (get_or that.now (at + 1) d) (joined list.new))
        × (put.new.items ≡ put.old.items ++ at ∷ [])) }
    ensures settled { OnOk result ((d : T) → IsSettled T.cmp inside (joined list.new)
        (get_or that.now at d) (get_or that.now (at + 1) d)) }
{
    let (start, end) = (that[at], that[at + 1]);
    let Some(place) = gap_for(list, &start, &end, inside) else {
        return Ok(());
    };
    put.reserve(1)?;
    Splice::splice(list, place, place, Some(start), Some(end))?;
    put.push_reserved(at);
    Ok(())
}

// The place where a range goes if it makes the list longer.
fn gap_for<T: Ord>(list: &Chunks<T, bool>, start: &T, end: &T, inside: bool) -> Option<Place>
    requires sorted { IsAscending T.cmp (joined list.now) }
    requires less { T.cmp start.now end.now ≡ Less }
    ensures place { IfSome result (IsPlaceAt list.now) }
    ensures gap { IfSome result (λ p. IsGap T.cmp inside (joined list.now) start.now end.now
        (place_at list.now p)) }
    ensures settled { IfNone result (IsSettled T.cmp inside (joined list.now) start.now end.now) }
{
    let Err(at) = list.find(&Itself, start, &mut Comparisons::new()) else {
        return None;
    };
    if list.mark_at(at) == inside {
        return None;
    }
    match list.item_at(at) {
        Some(next) if next.cmp(end).is_le() => None,
        _ => Some(at),
    }
}

// Takes the ranges out again that were put at some indices, the last one first.
fn take_out<T: Ord + Drop>(list: &mut Chunks<T, bool>, that: &[T], put: Vec<usize>)
    requires sorted { IsAscending T.cmp (joined list.old) }
    requires put { (before : List T) × ArePutIn T.cmp that.now before (reverse put.items)
        (joined list.old) }
    ensures { (before : List T) → ArePutIn T.cmp that.now before (reverse put.items)
        (joined list.old) → joined list.new ≡ before }
{
    let mut put = put;
    while let Some(at) = put.pop() {
        take_out_at(list, that, at);
    }
}

// Takes the range out again that was put at an index.
fn take_out_at<T: Ord + Drop>(list: &mut Chunks<T, bool>, that: &[T], at: usize)
    requires sorted { IsAscending T.cmp (joined list.old) }
    requires put { (items : List T) × IsPutAt T.cmp that.now at items (joined list.old) }
    ensures { (items : List T) → IsPutAt T.cmp that.now at items (joined list.old) →
        joined list.new ≡ items }
{
    let from = list.place_below(&Itself, &that[at], &mut Comparisons::new());
    let to = list.place_after(list.place_after(from));
    let _taken = Splice::splice(list, from, to, None, None);
}

// Sets ranges that make the list no longer, which takes no memory.
fn settle<T: Ord + Copy>(list: &mut Chunks<T, bool>, that: &[T], inside: bool)
    requires sorted { IsAscending T.cmp (joined list.old) }
    requires that_sorted { IsAscending T.cmp that.now }
    requires even { odd (length that.now) ≡ false }
    requires settled { AreSettled T.cmp inside (joined list.old) that.now (length that.now / 2) }
    ensures means { Means T.cmp (range_table inside) (joined list.new) (joined list.old) that.now }
    ensures kept { AreKeptAbove T.cmp that.now (joined list.old) (joined list.new) }
{
    for i in 0..that.len() / 2 {
        let (start, end) = (that[2 * i], that[2 * i + 1]);
        let _set = set_between(list, start, end, inside, &mut Comparisons::new());
    }
}
