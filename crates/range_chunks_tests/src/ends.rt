//! Members found from above, and whole ranges taken out at either end, beside a `RangeSet`.
use crate::making::{ROWS, flat_set};
use range_chunks::ChunkedRangeSet;
use range_collections::RangeSet2;
use std::alloc::AllocError;

// Whether both find the same at or below each number below a limit.
fn find_alike(set: &ChunkedRangeSet<u64>, flat: &RangeSet2<u64>, limit: u64) -> bool {
    for number in 0..limit {
        if set.prev_member(&number) != flat.prev_member(&number)
            || set.prev_gap(&number) != flat.prev_gap(&number)
        {
            return false;
        }
    }
    true
}

#[test]
fn members_below_are_found_as_in_one_list(rt: HostRuntime) -> Result<(), AllocError> {
    for row in ROWS {
        let flat = flat_set(rt.alloc(), row)?;
        let set = ChunkedRangeSet::from_view(rt.alloc(), flat.as_ref())?;
        let limit = row.0.saturating_mul(20).saturating_add(50);
        assert!(rt; find_alike(&set, &flat, limit), "{row:?}");
    }
    Ok(())
}

// Whether the same ranges come out of the set as the list has, one in `each` from the front and the
// others from the back, and no other.
fn pop_alike(set: &mut ChunkedRangeSet<u64>, flat: &RangeSet2<u64>, each: u64) -> bool {
    let mut ranges = flat.iter();
    for pop in 0..10_000u64 {
        let (popped, want) = if pop % each.max(1) == 0 {
            (set.pop_first(), ranges.next())
        } else {
            (set.pop_last(), ranges.next_back())
        };
        match (popped, want) {
            (None, None) => return set.is_empty(),
            (Some(range), Some(want)) if range.as_ref() == want => {}
            _ => return false,
        }
    }
    false
}

#[test]
fn ranges_are_taken_out_at_both_ends(rt: HostRuntime) -> Result<(), AllocError> {
    for row in ROWS {
        for each in [1, 2, 1_000_000] {
            let flat = flat_set(rt.alloc(), row)?;
            let mut set = ChunkedRangeSet::from_view(rt.alloc(), flat.as_ref())?;
            assert!(rt; pop_alike(&mut set, &flat, each), "{row:?} {each}");
        }
    }
    Ok(())
}
