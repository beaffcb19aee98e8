//! A calendar of busy times, in minutes.
ghost use Rattle.std.specs.Prelude.{◌≡◌, ◌↔◌, ◌&&◌, ◌||◌, ◌≤◌, ◌<◌, ℕ, true, false, not, Any, IsTrue, IfOk, OnOk, OnErr};
ghost use Rattle.std.specs.Ordering.{nat_cmp, is_le, is_lt};
ghost use Rattle.range_collections.specs.Boundaries.{member};

use range_collections::{RangeSet, RangeSetRef};
use std::alloc::{AllocError, Global};
use std::ops::Range;

/// Minutes. Up to four ranges lie in the value itself.
pub type Minutes = RangeSet<u32, 8>;

/// A calendar in which no minute is busy.
pub fn new_calendar(alloc: Global) -> Minutes
    ensures { (minute : ℕ) → member nat_cmp result minute ≡ false }
{
    Minutes::empty(alloc)
}

/// Books a slot: its minutes are busy from now on. If memory runs out, the calendar is as it was.
pub fn book(busy: &mut Minutes, slot: Range<u32>) -> Result<(), AllocError>
    ensures members { OnOk result ((minute : ℕ) →
        member nat_cmp busy.new minute ≡ (member nat_cmp busy.old minute
        || (is_le (nat_cmp slot.start minute) && is_lt (nat_cmp minute slot.end)))) }
    ensures unchanged { OnErr result (busy.new ≡ busy.old) }
{
    busy.insert(slot)
}

/// Cancels a slot: none of its minutes is busy from now on. If memory runs out, the calendar is as
/// it was.
pub fn cancel(busy: &mut Minutes, slot: Range<u32>) -> Result<(), AllocError>
    ensures members { OnOk result ((minute : ℕ) →
        member nat_cmp busy.new minute ≡ (member nat_cmp busy.old minute
        && not (is_le (nat_cmp slot.start minute) && is_lt (nat_cmp minute slot.end)))) }
    ensures unchanged { OnErr result (busy.new ≡ busy.old) }
{
    busy.remove(slot)
}

/// The minutes at which someone is busy.
pub fn someone_busy(alloc: Global, calendars: &[RangeSetRef<u32>]) -> Result<Minutes, AllocError>
    ensures members { IfOk result (λ busy. (minute : ℕ) →
        (member nat_cmp busy minute ≡ true) ↔
        Any (λ calendar. member nat_cmp calendar.boundaries.now minute ≡ true) calendars.now) }
{
    Minutes::union_all(alloc, calendars)
}

/// Adds the minutes at which someone else is busy. If memory runs out, the calendar is as it was.
pub fn add_busy(busy: &mut Minutes, more: &Minutes) -> Result<(), AllocError>
    ensures members { OnOk result ((minute : ℕ) →
        member nat_cmp busy.new minute ≡
        (member nat_cmp busy.old minute || member nat_cmp more.now minute)) }
    ensures unchanged { OnErr result (busy.new ≡ busy.old) }
{
    busy.union_with(more.as_ref())
}

/// Whether no minute of the slot is busy.
pub fn is_free(busy: &Minutes, slot: Range<u32>) -> bool
    ensures { IsTrue result ↔ ((minute : ℕ) →
        slot.start ≤ minute → minute < slot.end → member nat_cmp busy.now minute ≡ false) }
{
    !busy.intersects_range(slot)
}

/// The minutes of the day that are not busy.
pub fn free_slots(alloc: Global, busy: &Minutes, day: Range<u32>) -> Result<Minutes, AllocError>
    ensures members { IfOk result (λ free. (minute : ℕ) → member nat_cmp free minute ≡
        ((is_le (nat_cmp day.start minute) && is_lt (nat_cmp minute day.end))
        && not (member nat_cmp busy.now minute))) }
{
    Minutes::from_range(alloc, day)?.difference(busy.as_ref())
}

/// The minutes at which one of two people is busy, or both.
pub fn either_busy(anna: &Minutes, ben: &Minutes) -> Result<Minutes, AllocError>
    ensures members { IfOk result (λ busy. (minute : ℕ) → member nat_cmp busy minute ≡
        (member nat_cmp anna.now minute || member nat_cmp ben.now minute)) }
{
    anna.union(ben.as_ref())
}

/// The minutes of the day at which both are free.
pub fn everyone_free(
    alloc: Global,
    anna: &Minutes,
    ben: &Minutes,
    day: Range<u32>,
) -> Result<Minutes, AllocError>
    ensures members { IfOk result (λ free. (minute : ℕ) → member nat_cmp free minute ≡
        ((is_le (nat_cmp day.start minute) && is_lt (nat_cmp minute day.end))
        && not (member nat_cmp anna.now minute || member nat_cmp ben.now minute))) }
{
    let busy = either_busy(anna, ben)?;
    free_slots(alloc, &busy, day)
}
