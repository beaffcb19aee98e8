//! How many values are members of a set that is changed, or that there is no end.
use range_collections::RangeSet2;
use std::alloc::{AllocError, Global};

// Whether a set counts its members before and after it grows and shrinks.
fn counts_as_it_changes(alloc: Global) -> Result<bool, AllocError> {
    let mut set = RangeSet2::<u8>::from_range(alloc, 10..20)?;
    let at_first = set.covered();
    set.insert(15..31)?;
    let grown = set.covered();
    set.remove(10..31)?;
    Ok(at_first == Some(10) && grown == Some(21) && set.covered() == Some(0))
}

#[test]
fn a_set_counts_as_its_view(rt: HostRuntime) {
    assert!(rt; counts_as_it_changes(rt.alloc()) == Ok(true));
    assert!(rt; matches!(RangeSet2::<u8>::all(rt.alloc()), Ok(set) if set.covered().is_none()));
}
