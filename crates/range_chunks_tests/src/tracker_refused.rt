//! Out of memory where a tracker in chunks does a command or lists what is missing: each request is
//! refused in turn, and the tracker has the offsets that it had.
use crate::refused::is_refused_or_right;
use range_chunked_tracker::ChunkedTracker;
use range_tests_kit::starving::{Answer, Call, Starved};
use range_tests_kit::ways::refused_if;
use range_tracker::{Command, TrackError};
use std::alloc::{AllocError, Global};

#[derive(Clone, Copy, Debug)]
enum Asked {
    Add,
    Forget,
    Missing,
}

// How many ranges of 10 a tracker has, one in each 20, the limit, what is done with the range from
// the one number to the other, and whether it takes memory.
#[derive(Clone, Copy, Debug)]
struct Row {
    ranges: u64,
    limit: usize,
    asked: Asked,
    start: u64,
    end: u64,
    takes: bool,
}

// The first range finds room; so does one where nothing was left. The boundaries of 32 ranges fill
// their list. What is refused for the limit asks for nothing.
#[rattlefmt::skip]
const ROWS: [Row; 12] = [
    Row { ranges: 0, limit: 10, asked: Asked::Add, start: 5, end: 10, takes: false },
    Row { ranges: 0, limit: 10, asked: Asked::Forget, start: 5, end: 10, takes: false },
    Row { ranges: 32, limit: 100, asked: Asked::Add, start: 12, end: 15, takes: true },
    Row { ranges: 32, limit: 100, asked: Asked::Add, start: 635, end: 637, takes: true },
    Row { ranges: 32, limit: 100, asked: Asked::Forget, start: 202, end: 205, takes: true },
    Row { ranges: 32, limit: 64, asked: Asked::Add, start: 12, end: 15, takes: false },
    Row { ranges: 32, limit: 64, asked: Asked::Forget, start: 202, end: 205, takes: false },
    Row { ranges: 32, limit: 100, asked: Asked::Add, start: 5, end: 500, takes: false },
    Row { ranges: 32, limit: 100, asked: Asked::Forget, start: 0, end: 640, takes: false },
    Row { ranges: 40, limit: 100, asked: Asked::Forget, start: 15, end: 700, takes: false },
    Row { ranges: 20, limit: 100, asked: Asked::Missing, start: 0, end: 300, takes: true },
    Row { ranges: 20, limit: 100, asked: Asked::Missing, start: 0, end: 5, takes: false },
];

#[derive(Drop)]
struct Attempt {
    alloc: Global,
    row: Row,
}

// The tracker of as many ranges as the row says.
fn spread(alloc: Global, row: Row) -> Option<ChunkedTracker> {
    let mut tracker = ChunkedTracker::new(alloc, row.limit.min(10_000)).ok()?;
    for k in 0..row.ranges {
        let start = k.saturating_mul(20);
        tracker.record(start..start.saturating_add(10)).ok()?;
    }
    Some(tracker)
}

// Whether the offset is in the ranges that a tracker begins with.
fn was_there(row: Row, offset: u64) -> bool {
    offset < row.ranges.saturating_mul(20) && offset % 20 < 10
}

// Whether the offset is there once the command is done.
fn is_there(row: Row, offset: u64) -> bool {
    match row.asked {
        Asked::Add if row.start <= offset && offset < row.end => true,
        Asked::Forget if row.start <= offset && offset < row.end => false,
        _ => was_there(row, offset),
    }
}

// Whether the tracker has the offsets that it began with, and no other.
fn has_before(tracker: &ChunkedTracker, row: Row) -> bool {
    for offset in 0..900u64 {
        if tracker.has(offset..offset.saturating_add(1)) != was_there(row, offset) {
            return false;
        }
    }
    true
}

// Whether it has those of the command, and no other.
fn has_after(tracker: &ChunkedTracker, row: Row) -> bool {
    for offset in 0..900u64 {
        if tracker.has(offset..offset.saturating_add(1)) != is_there(row, offset) {
            return false;
        }
    }
    true
}

// Whether the set that is missing below the row's end has the offsets that aren't there.
fn lists_missing(tracker: &ChunkedTracker, row: Row) -> Result<bool, AllocError> {
    let missing = tracker.missing(row.end)?;
    for offset in 0..900u64 {
        let want = offset < row.end && !was_there(row, offset);
        if missing.contains(&offset) != want {
            return Ok(false);
        }
    }
    Ok(true)
}

// Does what the row asks, and says whether the answer is right.
fn done(tracker: &mut ChunkedTracker, row: Row) -> Result<bool, TrackError> {
    match row.asked {
        Asked::Add => tracker.apply(&Command::Add(row.start..row.end))?,
        Asked::Forget => tracker.apply(&Command::Forget(row.start..row.end))?,
        Asked::Missing => return Ok(lists_missing(tracker, row)?),
    }
    Ok(has_after(tracker, row))
}

impl Call for Attempt {
    type Given = ChunkedTracker;

    fn given(&self) -> Option<ChunkedTracker> {
        spread(self.alloc, self.row)
    }

    fn answer(&self, mut tracker: ChunkedTracker) -> Answer {
        let made = done(&mut tracker, self.row);
        match made {
            Ok(right) => Answer::right_if(right),
            // More boundaries than the limit: without a request, and always.
            Err(TrackError::TooMany { boundaries }) => Answer::right_if(
                boundaries > self.row.limit && has_before(&tracker, self.row),
            ),
            Err(TrackError::OutOfMemory) => refused_if(has_before(&tracker, self.row)),
        }
    }
}

#[test]
fn commands_are_refused_where_the_list_grows(rt: HostRuntime) -> Result<(), AllocError> {
    let alloc = rt.alloc();
    for row in ROWS {
        let mut starved = Starved::new(alloc)?;
        let attempt = Attempt { alloc, row };
        let agrees = if row.takes {
            is_refused_or_right(&mut starved, &attempt)
        } else {
            starved.needs_none(&attempt)
        };
        assert!(rt; agrees, "{row:?}");
    }
    Ok(())
}
