//! Sets made of values, texts and many sets, joined, cut in two, negated, and ranges kept by a filter.
use crate::rows::{has, set_of};
use range_chunks::{ChunkedRangeSet, RangeFilter};
use range_collections::{ParseError, RangeSetRange, RangeSetRef};
use std::alloc::{AllocError, Global};

#[test]
fn values_come_in_any_order(rt: HostRuntime) -> Result<(), AllocError> {
    let set = ChunkedRangeSet::from_values(rt.alloc(), &[7i64, 3, i64::MAX, 4, 3])?;
    assert!(rt; has(&set, &[3, 5, 7, 8, i64::MAX]));
    Ok(())
}

// The set that a text writes.
fn read(alloc: Global, text: &str) -> Result<ChunkedRangeSet<i64>, ParseError> {
    ChunkedRangeSet::parse(alloc, text)
}

#[test]
fn texts_are_read(rt: HostRuntime) -> Result<(), ParseError> {
    let set = read(rt.alloc(), "20.., 0..10 , 9..12, 4..4")?;
    assert!(rt; has(&set, &[0, 12, 20]));
    let blank = read(rt.alloc(), "  ")?;
    assert!(rt; blank.is_empty());
    let bad = read(rt.alloc(), "0..10, x").err();
    assert!(rt; matches!(bad, Some(ParseError::Malformed { at: 7, .. })));
    Ok(())
}

#[test]
fn sets_are_appended_and_cut(rt: HostRuntime) -> Result<(), AllocError> {
    let mut busy = set_of(rt.alloc(), &[9, 11])?;
    let mut more = set_of(rt.alloc(), &[10, 12, 15, 18])?;
    busy.append(&mut more)?;
    assert!(rt; has(&busy, &[9, 12, 15, 18]) && more.is_empty());
    let late = busy.split_off(&16)?;
    assert!(rt; has(&busy, &[9, 12, 15, 16]) && has(&late, &[16, 18]));
    Ok(())
}

// The views of three sets, or fewer.
fn views<'a>(alloc: Global, lists: &[&'a [i64]]) -> Result<Vec<RangeSetRef<'a, i64>>, AllocError> {
    let mut views = Vec::new(alloc);
    for list in lists {
        views.push(RangeSetRef::new(*list).unwrap_or_default())?;
    }
    Ok(views)
}

#[test]
fn many_sets_are_joined_and_cut(rt: HostRuntime) -> Result<(), AllocError> {
    let alloc = rt.alloc();
    let three = views(alloc, &[&[0, 10], &[5, 15, 20], &[8, 30]])?;
    let union = ChunkedRangeSet::union_all(alloc, three.as_slice())?;
    assert!(rt; has(&union, &[0]));
    let common = ChunkedRangeSet::intersection_all(alloc, three.as_slice())?;
    assert!(rt; has(&common, &[8, 10]));
    let none = ChunkedRangeSet::<i64>::union_all(alloc, &[])?;
    assert!(rt; none.is_empty());
    let all = ChunkedRangeSet::<i64>::intersection_all(alloc, &[])?;
    assert!(rt; all.is_all());
    Ok(())
}

#[test]
fn a_set_is_negated(rt: HostRuntime) -> Result<(), AllocError> {
    let rest = (!set_of(rt.alloc(), &[i64::MIN, 0, 5, 9])?)?;
    assert!(rt; has(&rest, &[0, 5, 9]));
    let all = (!ChunkedRangeSet::<i64>::new(rt.alloc()))?;
    assert!(rt; all.is_all());
    Ok(())
}

// Keeps the ranges that start at 10 or above.
struct Late;

impl RangeFilter<i64> for Late {
    ghost use Rattle.range_collections.specs.Ranges.{range_start};
    ghost use Rattle.std.specs.Prelude.{int_le, pos};

    ghost is_kept = { λ _ range. int_le (pos 10) (range_start range) };

    fn keeps(&self, range: RangeSetRange<&i64>) -> bool {
        match range {
            RangeSetRange::Range(range) => *range.start >= 10,
            RangeSetRange::RangeFrom(range) => *range.start >= 10,
        }
    }
}

#[test]
fn ranges_are_kept_by_a_filter(rt: HostRuntime) -> Result<(), AllocError> {
    let mut set = set_of(rt.alloc(), &[0, 5, 10, 20, 30])?;
    set.retain(&Late);
    assert!(rt; has(&set, &[10, 20, 30]));
    let mut early = set_of(rt.alloc(), &[0])?;
    early.retain(&Late);
    assert!(rt; early.is_empty());
    Ok(())
}
