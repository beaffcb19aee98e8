//! Made-up commands of a tracker, against a bitmap of 256 offsets.
use crate::tracker::{misses, too_many};
use range_tests_kit::generator::Generator;
use range_tests_kit::lists::are_ranges_between;
use range_tracker::Tracker;
use std::alloc::{AllocError, Global};
use std::ops::Range;

/// Which of the numbers below 256 are there.
type Bitmap = [bool; 256];

/// Those that are there with the range put in or taken out.
fn changed(there: &Bitmap, range: &Range<u64>, put: bool) -> Bitmap {
    let mut left = *there;
    for (n, bit) in left.iter_mut().enumerate() {
        if range.start <= n as u64 && (n as u64) < range.end {
            *bit = put;
        }
    }
    left
}

/// Whether the bit is another one than that before it. There is none before the first, and none
/// after the last.
fn changes_at(bits: &Bitmap, n: usize) -> bool {
    let before = n.checked_sub(1).and_then(|at| bits.get(at));
    before.unwrap_or(&false) != bits.get(n).unwrap_or(&false)
}

/// The numbers at which the bits change.
fn changes_of(alloc: Global, bits: &Bitmap) -> Result<Vec<u64>, AllocError> {
    let mut changes = Vec::new(alloc);
    for n in 0..=256usize {
        if changes_at(bits, n) {
            changes.push(n as u64)?;
        }
    }
    Ok(changes)
}

/// Whether the tracker has the offsets of the bitmap.
fn has_all(alloc: Global, tracker: &Tracker, there: &Bitmap) -> bool {
    match changes_of(alloc, there) {
        Ok(want) => are_ranges_between(tracker.ranges(), want.as_slice()),
        Err(_) => false,
    }
}

/// Whether the tracker returns which offsets below the length aren't in the bitmap.
fn misses_others(alloc: Global, tracker: &Tracker, there: &Bitmap, len: u64) -> bool {
    let others = changed(&there.map(|bit| !bit), &(len..256), false);
    match changes_of(alloc, &others) {
        Ok(want) => misses(tracker, len, want.as_slice()),
        Err(_) => false,
    }
}

/// Whether each of the range is there.
fn are_there(there: &Bitmap, range: &Range<u64>) -> bool {
    (range.start..range.end).all(|n| there.get(n as usize).is_some_and(|bit| *bit))
}

/// Puts the range in or takes it out, of both, and says whether that was refused, if it was where
/// it should be.
fn turn(
    alloc: Global,
    tracker: &mut Tracker,
    there: &mut Bitmap,
    range: Range<u64>,
    put: bool,
) -> Option<bool> {
    let left = changed(there, &range, put);
    let boundaries = changes_of(alloc, &left).ok()?.len();
    let want = if boundaries > 24 {
        too_many(boundaries)
    } else {
        Ok(())
    };
    let reply = if put {
        tracker.record(range)
    } else {
        tracker.forget(range)
    };
    if reply != want {
        return None;
    }
    if want.is_ok() {
        *there = left;
    }
    Some(want.is_err())
}

#[test]
fn made_up_commands_against_a_bitmap(rt: HostRuntime) {
    let alloc = rt.alloc();
    let mut made = Generator::new();
    let mut tracker = Tracker::new(alloc, 24);
    let mut there = [false; 256];
    let mut refused = 0u64;
    for number in 0..2_000u64 {
        let (range, put, asked) = (made.range(), made.below(2) == 0, made.range());
        match turn(alloc, &mut tracker, &mut there, range, put) {
            Some(true) => refused = refused.saturating_add(1),
            Some(false) => {}
            None => assert!(rt; false, "turn {number}"),
        }
        assert!(rt; has_all(alloc, &tracker, &there), "turn {number}");
        let len = made.below(257);
        assert!(rt;
            misses_others(alloc, &tracker, &there, len),
            "turn {number}"
        );
        assert!(rt;
            are_there(&there, &asked) == tracker.has(asked),
            "turn {number}"
        );
    }
    assert!(rt; 100 < refused && refused < 1_900, "{refused} were refused");
}
