//! Which ranges are equal.
use range_collections::RangeSetRange;

// Whether clones of the range, and of the range of references to its ends, are equal to it.
fn is_cloned(range: &RangeSetRange<u8>) -> bool {
    match (range.clone(), range.as_ref().cloned()) {
        (Ok(copied), Ok(again)) => copied == *range && again == *range,
        _ => false,
    }
}

#[test]
fn ranges_are_equal_by_their_ends(rt: HostRuntime) {
    let (range, open) = (RangeSetRange::from(3u8..7), RangeSetRange::from(3u8..));
    let right = [
        range == RangeSetRange::from(3..7),
        range != RangeSetRange::from(4..7),
        range != RangeSetRange::from(3..8),
        range != open,
        open != range,
        open == RangeSetRange::from(3..),
        open != RangeSetRange::from(0..),
        range.as_ref() == RangeSetRange::from(&3..&7),
        open.as_ref() == RangeSetRange::from(&3..),
        is_cloned(&range),
        is_cloned(&open),
    ];
    assert_eq!(rt; right, [true; 11]);
}
