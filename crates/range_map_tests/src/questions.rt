//! Questions to maps, row by row.
use range_collections::RangeSetRange;
use range_map::RangeMap;
use std::alloc::{AllocError, Global};
use std::ops::Range;

// Whether the entries are these, from the lowest on and from the highest down.
#[test]
fn entries_come_from_both_ends(rt: HostRuntime) -> Result<(), AllocError> {
    let mut map = RangeMap::new(rt.alloc());
    map.insert(2..5u64, 'a')?;
    map.insert(7..9, 'b')?;
    map.insert(9..12, 'a')?;
    let text = format!(in rt.alloc(); "{map:?}")?;
    assert!(rt; text.as_str() == "RangeMap{2..5: 'a', 7..9: 'b', 9..12: 'a'}");
    map.insert_from(11.., 'c')?;
    let text = format!(in rt.alloc(); "{map:?}")?;
    assert!(rt; text.as_str() == "RangeMap{2..5: 'a', 7..9: 'b', 9..11: 'a', 11..: 'c'}");
    let mut entries = map.iter();
    let last = entries.next_back();
    assert!(rt; last.is_some());
    let copy = map.clone()?;
    assert!(rt; copy == map);
    map.clear();
    assert!(rt; copy != map);
    assert!(rt; map.is_empty());
    Ok(())
}

// Whether there is a range, and it is this one.
fn is(found: Option<Range<&u64>>, range: Range<u64>) -> bool {
    match found {
        Some(found) => *found.start == range.start && *found.end == range.end,
        None => false,
    }
}

#[test]
fn gaps_come_from_both_ends(rt: HostRuntime) -> Result<(), AllocError> {
    let mut map = RangeMap::new(rt.alloc());
    map.insert(2..5u64, 'a')?;
    map.insert(7..9, 'b')?;
    map.insert(9..12, 'a')?;
    let mut gaps = map.gaps(&0..&20);
    let first = gaps.next();
    let last = gaps.next_back();
    let middle = gaps.next();
    assert!(rt; is(first, 0..2));
    assert!(rt; is(last, 12..20));
    assert!(rt; is(middle, 5..7));
    assert!(rt; gaps.next_back().is_none());
    assert!(rt; map.gaps(&7..&12).next().is_none());
    assert!(rt; map.gaps(&6..&6).next().is_none());
    let mut over = map.overlapping(&4..&9);
    let last = over.next_back();
    let first = over.next();
    assert!(rt; last.is_some_and(|(_, value)| *value == 'b'));
    assert!(rt; first.is_some_and(|(_, value)| *value == 'a'));
    assert!(rt; over.next().is_none());
    assert!(rt; map.overlapping(&5..&7).next().is_none());
    assert!(rt; map.is_free_from(12..));
    assert!(rt; !map.is_free_from(11..));
    assert!(rt; map.insert_free_from(11.., 'c').is_err());
    assert!(rt; map.insert_free_from(12.., 'c').is_ok());
    let text = format!(in rt.alloc(); "{map:?}")?;
    assert!(rt; text.as_str() == "RangeMap{2..5: 'a', 7..9: 'b', 9..12: 'a', 12..: 'c'}");
    Ok(())
}

// Whether there is a range, and it has these ends.
fn has_ends(found: Option<RangeSetRange<&u64>>, start: u64, end: Option<u64>) -> bool {
    match found {
        Some(RangeSetRange::Range(range)) => *range.start == start && end == Some(*range.end),
        Some(RangeSetRange::RangeFrom(range)) => *range.start == start && end.is_none(),
        None => false,
    }
}

#[test]
fn keys_and_values_are_those_of_the_entries(rt: HostRuntime) -> Result<(), AllocError> {
    let mut map = RangeMap::new(rt.alloc());
    assert!(rt; map.first().is_none());
    assert!(rt; map.last().is_none());
    assert!(rt; map.span().is_none());
    assert!(rt; map.keys().next().is_none());
    assert!(rt; map.values().next_back().is_none());
    map.insert(2..5u64, 'a')?;
    map.insert(7..9, 'b')?;
    map.insert(9..12, 'a')?;
    assert!(rt; has_ends(map.span(), 2, Some(12)));
    assert!(rt;
        map.first().is_some_and(|(range, value)| has_ends(Some(range), 2, Some(5)) && *value == 'a')
    );
    assert!(rt;
        map.last().is_some_and(|(range, value)| has_ends(Some(range), 9, Some(12)) && *value == 'a')
    );
    let mut keys = map.keys();
    assert!(rt; has_ends(keys.next_back(), 9, Some(12)));
    assert!(rt; has_ends(keys.next(), 2, Some(5)));
    assert!(rt; has_ends(keys.next(), 7, Some(9)));
    assert!(rt; keys.next().is_none());
    let mut values = map.values();
    assert!(rt; values.next().is_some_and(|value| *value == 'a'));
    assert!(rt; values.next().is_some_and(|value| *value == 'b'));
    assert!(rt; values.next_back().is_some_and(|value| *value == 'a'));
    assert!(rt; values.next_back().is_none());
    map.insert_from(11.., 'c')?;
    assert!(rt; has_ends(map.span(), 2, None));
    assert!(rt; has_ends(map.keys().next_back(), 11, None));
    Ok(())
}
