//! Which values of a map stay: the traits that a caller of `retain` or `retain_ranges` implements.
ghost use Rattle.std.specs.Prelude.{◌≡◌, Bool};
ghost use Rattle.range_collections.specs.Ranges.{range_now};
ghost use Rattle.range_collections.specs.declared.range_set_range.RangeSetRange.{RangeSetRange};

use range_collections::RangeSetRange;

/// Which values `retain` keeps.
pub trait MapFilter<V> {
    // Whether this value stays.
    ghost is_kept: { Self → V → Bool };

    /// Whether this value stays.
    fn keeps(&self, value: &V) -> bool
        ensures { result ≡ is_kept self.now value.now };
}

/// Which ranges with their values `retain_ranges` keeps.
pub trait RangeFilter<K, V> {
    // Whether this range stays with its value.
    ghost is_kept: { Self → RangeSetRange K × V → Bool };

    /// Whether this range stays with its value.
    fn keeps(&self, range: RangeSetRange<&K>, value: &V) -> bool
        ensures { result ≡ is_kept self.now (range_now range.entry, value.now) };
}

/// Keeps each range whose value another filter keeps.
#[derive(Drop)]
pub struct ByValue<'a, F>(pub &'a F);

impl<K, V, F: MapFilter<V>> RangeFilter<K, V> for ByValue<'_, F> {
    ghost is_kept = { λ filter entry. F.is_kept filter.0.now entry.1 };

    #[inline(always)]
    fn keeps(&self, _range: RangeSetRange<&K>, value: &V) -> bool {
        self.0.keeps(value)
    }
}
