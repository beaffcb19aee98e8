//! The Debug text of a map: its ranges with their values, as `RangeMap{0..10: 'a', 20..: 'b'}`.
use crate::iter::Iter;
use crate::map::RangeMap;
use range_collections::RangeSetRange;
use std::fmt;

impl<K: Ord + fmt::Debug, V: Eq + fmt::Debug> fmt::Debug for RangeMap<K, V> {
    fn fmt<W: fmt::Write>(&self, f: &mut fmt::Formatter<W>) -> fmt::Result {
        f.write_str("RangeMap{")?;
        write_entries(self.iter(), f)?;
        f.write_str("}")
    }
}

// The ranges with their values, with a comma and a space between them.
fn write_entries<K: fmt::Debug, V: fmt::Debug, W: fmt::Write>(
    mut entries: Iter<'_, K, V>,
    f: &mut fmt::Formatter<W>,
) -> fmt::Result {
    if let Some((range, value)) = entries.next() {
        write_entry(range, value, f)?;
    }
    for (range, value) in entries {
        f.write_str(", ")?;
        write_entry(range, value, f)?;
    }
    Ok(())
}

// A range with its value.
fn write_entry<K: fmt::Debug, V: fmt::Debug, W: fmt::Write>(
    range: RangeSetRange<&K>,
    value: &V,
    f: &mut fmt::Formatter<W>,
) -> fmt::Result {
    match range {
        RangeSetRange::Range(range) => write!(f, "{:?}..{:?}: {value:?}", range.start, range.end),
        RangeSetRange::RangeFrom(range) => write!(f, "{:?}..: {value:?}", range.start),
    }
}
