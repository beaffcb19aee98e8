//! Ranges put into a set in chunks, and taken out of it, row by row.
use range_chunks::ChunkedRangeSet;
use range_collections::RangeSetRange;
use std::alloc::{AllocError, Global};

// Boundaries, where a range begins and where it ends, and the boundaries with the range put in and
// with it taken out.
#[derive(Clone, Copy, Debug)]
struct Row<'a> {
    items: &'a [i64],
    start: i64,
    end: i64,
    inserted: &'a [i64],
    removed: &'a [i64],
}

const LEAST: i64 = i64::MIN;

const MOST: i64 = i64::MAX;

// Ranges beside those of the set, within and across them, at the ends of the type, and of nothing.
#[rattlefmt::skip]
const ROWS: [Row; 20] = [
    Row { items: &[], start: 5, end: 10, inserted: &[5, 10], removed: &[] },
    Row { items: &[], start: 10, end: 5, inserted: &[], removed: &[] },
    Row { items: &[], start: LEAST, end: MOST, inserted: &[LEAST, MOST], removed: &[] },
    Row { items: &[0, 10], start: 10, end: 20, inserted: &[0, 20], removed: &[0, 10] },
    Row { items: &[10, 20], start: 0, end: 10, inserted: &[0, 20], removed: &[10, 20] },
    Row {
        items: &[0, 10, 20, 30], start: 10, end: 20, inserted: &[0, 30], removed: &[0, 10, 20, 30],
    },
    Row { items: &[0, 10], start: 20, end: 30, inserted: &[0, 10, 20, 30], removed: &[0, 10] },
    Row { items: &[20, 30], start: 0, end: 10, inserted: &[0, 10, 20, 30], removed: &[20, 30] },
    Row { items: &[0, 100], start: 20, end: 30, inserted: &[0, 100], removed: &[0, 20, 30, 100] },
    Row {
        items: &[0, 10, 20, 30], start: 20, end: 30, inserted: &[0, 10, 20, 30], removed: &[0, 10],
    },
    Row {
        items: &[0, 10, 20, 30], start: 0, end: 10, inserted: &[0, 10, 20, 30], removed: &[20, 30],
    },
    Row { items: &[0, 10], start: 0, end: 10, inserted: &[0, 10], removed: &[] },
    Row { items: &[0, 10], start: 0, end: 5, inserted: &[0, 10], removed: &[5, 10] },
    Row { items: &[0, 10], start: 5, end: 10, inserted: &[0, 10], removed: &[0, 5] },
    Row { items: &[10, 20], start: 5, end: 15, inserted: &[5, 20], removed: &[15, 20] },
    Row { items: &[10, 20], start: 15, end: 25, inserted: &[10, 25], removed: &[10, 15] },
    Row {
        items: &[0, 10, 20, 30], start: 5, end: 25, inserted: &[0, 30], removed: &[0, 5, 25, 30],
    },
    Row { items: &[0, 10, 20, 30], start: -5, end: 40, inserted: &[-5, 40], removed: &[] },
    Row { items: &[0, 10], start: 5, end: 5, inserted: &[0, 10], removed: &[0, 10] },
    Row {
        items: &[LEAST, MOST], start: 0, end: MOST, inserted: &[LEAST, MOST], removed: &[LEAST, 0],
    },
];

// The set of these boundaries.
pub(crate) fn set_of(alloc: Global, items: &[i64]) -> Result<ChunkedRangeSet<i64>, AllocError> {
    let mut set = ChunkedRangeSet::new(alloc);
    for ends in items.chunks(2) {
        match ends {
            [start, end] => set.insert(*start..*end)?,
            [start] => set.insert_from(*start..)?,
            _ => {}
        }
    }
    Ok(set)
}

// Whether the set has these boundaries, each start as a member and no end.
pub(crate) fn has(set: &ChunkedRangeSet<i64>, want: &[i64]) -> bool {
    let mut at = 0usize;
    for range in set.iter() {
        let next = at.saturating_add(2).min(want.len());
        let right = match (range, want.get(at..next)) {
            (RangeSetRange::Range(range), Some([start, end])) => {
                range.start == start && range.end == end && !set.contains(end)
            }
            (RangeSetRange::RangeFrom(range), Some([start])) => range.start == start,
            _ => false,
        };
        if !right {
            return false;
        }
        at = next;
    }
    at == want.len()
        && set.is_empty() == want.is_empty()
        && want.first().is_none_or(|start| set.contains(start))
}

#[test]
fn ranges_are_put_in_and_taken_out(rt: HostRuntime) -> Result<(), AllocError> {
    for row in &ROWS {
        let mut set = set_of(rt.alloc(), row.items)?;
        set.insert(row.start..row.end)?;
        assert!(rt; has(&set, row.inserted), "{row:?}");
        let mut set = set_of(rt.alloc(), row.items)?;
        set.remove(row.start..row.end)?;
        assert!(rt; has(&set, row.removed), "{row:?}");
    }
    Ok(())
}

#[test]
fn changes_say_whether_they_did_something(rt: HostRuntime) -> Result<(), AllocError> {
    for row in &ROWS {
        let mut set = set_of(rt.alloc(), row.items)?;
        let added = set.insert_changed(row.start..row.end)?;
        assert!(rt; added == (row.inserted != row.items), "{row:?}");
        assert!(rt; has(&set, row.inserted), "{row:?}");
        let mut set = set_of(rt.alloc(), row.items)?;
        let taken = set.remove_changed(row.start..row.end)?;
        assert!(rt; taken == (row.removed != row.items), "{row:?}");
        assert!(rt; has(&set, row.removed), "{row:?}");
    }
    Ok(())
}

// Boundaries, a start, and the boundaries with all from the start on put in and taken out.
#[derive(Clone, Copy, Debug)]
struct ToTheEnd<'a> {
    items: &'a [i64],
    start: i64,
    inserted: &'a [i64],
    removed: &'a [i64],
}

#[rattlefmt::skip]
const TO_THE_END: [ToTheEnd; 12] = [
    ToTheEnd { items: &[], start: 5, inserted: &[5], removed: &[] },
    ToTheEnd { items: &[0, 10], start: 5, inserted: &[0], removed: &[0, 5] },
    ToTheEnd { items: &[0, 10], start: 0, inserted: &[0], removed: &[] },
    ToTheEnd { items: &[0, 10], start: 10, inserted: &[0], removed: &[0, 10] },
    ToTheEnd { items: &[0, 10], start: 20, inserted: &[0, 10, 20], removed: &[0, 10] },
    ToTheEnd { items: &[0, 10, 20, 30], start: 10, inserted: &[0], removed: &[0, 10] },
    ToTheEnd { items: &[0, 10, 20, 30], start: 15, inserted: &[0, 10, 15], removed: &[0, 10] },
    ToTheEnd {
        items: &[0, 10, 20, 30], start: 25, inserted: &[0, 10, 20], removed: &[0, 10, 20, 25],
    },
    ToTheEnd { items: &[0, 10, 20], start: 30, inserted: &[0, 10, 20], removed: &[0, 10, 20, 30] },
    ToTheEnd { items: &[0, 10, 20], start: 20, inserted: &[0, 10, 20], removed: &[0, 10] },
    ToTheEnd { items: &[0, 10, 20], start: -5, inserted: &[-5], removed: &[] },
    ToTheEnd { items: &[LEAST], start: MOST, inserted: &[LEAST], removed: &[LEAST, MOST] },
];

#[test]
fn all_from_a_start_on_is_put_in_and_taken_out(rt: HostRuntime) -> Result<(), AllocError> {
    for row in &TO_THE_END {
        let mut set = set_of(rt.alloc(), row.items)?;
        set.insert_from(row.start..)?;
        assert!(rt; has(&set, row.inserted), "{row:?}");
        let mut set = set_of(rt.alloc(), row.items)?;
        set.remove_from(row.start..)?;
        assert!(rt; has(&set, row.removed), "{row:?}");
    }
    Ok(())
}

#[test]
fn the_lines_of_the_page_do_what_they_say(rt: HostRuntime) -> Result<(), AllocError> {
    let mut pieces = ChunkedRangeSet::new(rt.alloc());
    pieces.insert(40..50)?;
    pieces.insert(10..20)?;
    pieces.remove(12..15)?;
    assert!(rt; pieces.contains(&16));
    assert!(rt; !pieces.contains_range(15..45));
    assert!(rt; pieces.next_gap(&15) == Some(&20));
    assert!(rt; has(&pieces, &[10, 12, 15, 20, 40, 50]));
    Ok(())
}

// A set, a range, whether all of its elements are members, and whether some are; then the least
// member and the least element that is none from its start on.
#[derive(Clone, Copy, Debug)]
struct Question<'a> {
    items: &'a [i64],
    start: i64,
    end: i64,
    all: bool,
    some: bool,
    member: Option<i64>,
    gap: Option<i64>,
}

#[rattlefmt::skip]
const QUESTIONS: [Question; 10] = [
    Question { items: &[], start: 0, end: 5, all: false, some: false, member: None, gap: Some(0) },
    Question { items: &[], start: 5, end: 0, all: true, some: false, member: None, gap: Some(5) },
    Question {
        items: &[10, 20], start: 10, end: 20, all: true, some: true, member: Some(10),
        gap: Some(20),
    },
    Question {
        items: &[10, 20], start: 5, end: 10, all: false, some: false, member: Some(10),
        gap: Some(5),
    },
    Question {
        items: &[10, 20], start: 5, end: 11, all: false, some: true, member: Some(10), gap: Some(5),
    },
    Question {
        items: &[10, 20], start: 20, end: 25, all: false, some: false, member: None, gap: Some(20),
    },
    Question {
        items: &[10, 20], start: 19, end: 21, all: false, some: true, member: Some(19),
        gap: Some(20),
    },
    Question {
        items: &[10, 20, 30, 40], start: 20, end: 30, all: false, some: false, member: Some(30),
        gap: Some(20),
    },
    Question {
        items: &[10, 20, 30, 40], start: 15, end: 35, all: false, some: true, member: Some(15),
        gap: Some(20),
    },
    Question {
        items: &[10, 20, 30, 40], start: 35, end: 35, all: true, some: false, member: Some(35),
        gap: Some(40),
    },
];

#[test]
fn questions_are_answered(rt: HostRuntime) -> Result<(), AllocError> {
    for row in &QUESTIONS {
        let set = set_of(rt.alloc(), row.items)?;
        let (start, end) = (row.start, row.end);
        assert!(rt; set.contains_range(start..end) == row.all, "{row:?}");
        assert!(rt; set.intersects_range(start..end) == row.some, "{row:?}");
        assert!(rt; set.next_member(&start).copied() == row.member, "{row:?}");
        assert!(rt; set.next_gap(&start).copied() == row.gap, "{row:?}");
    }
    Ok(())
}
