//! Maps whose keys lie in many chunks, beside a list of options that is changed alike.
use range_collections::{Comparisons, RangeSetRange};
use range_map::{MapFilter, RangeMap};
use range_tests_kit::generator::Generator;
use std::alloc::{AllocError, Global};
use std::ops::Range;

// Below this number lie the keys.
const LIMIT: u64 = 20_000;

// How many ranges are put in one after the other.
const CHANGES: u64 = 4_000;

// No options.
fn nothing(alloc: Global) -> Result<Vec<Option<u64>>, AllocError> {
    let mut options = Vec::new(alloc);
    for _ in 0..LIMIT {
        options.push(None)?;
    }
    Ok(options)
}

// Gives the numbers from the start up to the end an option.
fn set(options: &mut Vec<Option<u64>>, start: u64, end: u64, value: Option<u64>) {
    for key in start..end.min(LIMIT) {
        if let Some(option) = options.get_mut(key as usize) {
            *option = value;
        }
    }
}

// Gives the numbers of a range with its value that value.
fn set_entry(options: &mut Vec<Option<u64>>, range: RangeSetRange<&u64>, value: u64) {
    match range {
        RangeSetRange::Range(range) => set(options, *range.start, *range.end, Some(value)),
        RangeSetRange::RangeFrom(range) => set(options, *range.start, LIMIT, Some(value)),
    }
}

// How often a value begins, or follows another one.
fn ranges_len(options: &[Option<u64>]) -> usize {
    let mut len = 0usize;
    let mut before = None;
    for option in options {
        if option.is_some() && *option != before {
            len = len.saturating_add(1);
        }
        before = *option;
    }
    len
}

// Whether the map has these options, by key and by its ranges from both ends.
fn has(
    alloc: Global,
    map: &RangeMap<u64, u64>,
    options: &[Option<u64>],
) -> Result<bool, AllocError> {
    let mut key = 0u64;
    for option in options {
        if map.get(&key).copied() != *option {
            return Ok(false);
        }
        key = key.saturating_add(1);
    }
    let mut forward = nothing(alloc)?;
    for (range, value) in map {
        set_entry(&mut forward, range, *value);
    }
    let mut backward = nothing(alloc)?;
    for (range, value) in map.iter().rev() {
        set_entry(&mut backward, range, *value);
    }
    Ok(
        forward.as_slice() == options
            && backward.as_slice() == options
            && map.len() == ranges_len(options),
    )
}

// The map after made-up changes, mostly of short ranges, and the options.
fn made_up(
    alloc: Global,
    generator: &mut Generator,
    longest: u64,
) -> Result<(RangeMap<u64, u64>, Vec<Option<u64>>), AllocError> {
    let mut map = RangeMap::new(alloc);
    let mut options = nothing(alloc)?;
    for _ in 0..CHANGES {
        let start = generator.below(LIMIT);
        let end = start
            .saturating_add(generator.below(longest.max(1)))
            .min(LIMIT);
        let value = generator.below(4);
        if value == 0 {
            map.remove(start..end)?;
            set(&mut options, start, end, None);
        } else {
            map.insert(start..end, value)?;
            set(&mut options, start, end, Some(value));
        }
    }
    Ok((map, options))
}

#[test]
fn many_changes_change_both_alike(rt: HostRuntime) -> Result<(), AllocError> {
    let alloc = rt.alloc();
    let mut generator = Generator::new();
    for longest in [8, 40, 2_000] {
        let (map, options) = made_up(alloc, &mut generator, longest)?;
        assert!(rt; has(alloc, &map, options.as_slice())?, "{longest}");
    }
    Ok(())
}

// Keeps the values other than one.
struct Others(u64);

impl MapFilter<u64> for Others {
    ghost use Rattle.std.specs.Prelude.{not, ◌==◌};

    ghost is_kept = { λ others value. not (value == others.0) };

    fn keeps(&self, value: &u64) -> bool {
        *value != self.0
    }
}

#[test]
fn many_values_are_retained(rt: HostRuntime) -> Result<(), AllocError> {
    let alloc = rt.alloc();
    let (mut map, options) = made_up(alloc, &mut Generator::new(), 12)?;
    map.retain(&Others(2));
    let mut kept = Vec::new(alloc);
    for option in &options {
        kept.push(option.filter(|value| *value != 2))?;
    }
    assert!(rt; has(alloc, &map, kept.as_slice())?);
    Ok(())
}

#[test]
fn a_map_in_many_chunks_is_cloned_and_put_together(rt: HostRuntime) -> Result<(), AllocError> {
    let alloc = rt.alloc();
    let mut generator = Generator::new();
    let (map, options) = made_up(alloc, &mut generator, 12)?;
    let (others, other_options) = made_up(alloc, &mut generator, 12)?;
    assert!(rt; map.clone()? == map && others != map);
    let both = map.union_with_left(alloc, &others)?;
    let mut either = Vec::new(alloc);
    for (option, other) in options.iter().zip(&other_options) {
        either.push(option.or(*other))?;
    }
    assert!(rt; has(alloc, &both, either.as_slice())?);
    Ok(())
}

#[test]
fn a_search_among_many_chunks_is_short(rt: HostRuntime) -> Result<(), AllocError> {
    let alloc = rt.alloc();
    let mut map = RangeMap::new(alloc);
    for k in 0..4_000u64 {
        let start = k.saturating_mul(20);
        map.insert(start..start.saturating_add(10), k)?;
    }
    // 8,000 keys lie in at least 63 chunks: at most 13 binary digits and 7 comparisons more.
    for k in 0..4_000u64 {
        let mut count = Comparisons::new();
        let key = k.saturating_mul(20).saturating_add(9);
        assert!(rt;
            map.get_counted(&key, &mut count).copied() == Some(k),
            "{k}"
        );
        assert!(rt; count.made() <= 20, "{k}");
    }
    Ok(())
}

// The range at a place.
fn range_at(place: u64) -> Range<u64> {
    let start = place.saturating_mul(20);
    start..start.saturating_add(10)
}

// A map of many ranges, which are put in in scrambled order.
fn scrambled(alloc: Global, ranges: u64) -> Result<RangeMap<u64, u64>, AllocError> {
    let mut map = RangeMap::new(alloc);
    for k in 0..ranges {
        let place = k.saturating_mul(7_919) % ranges;
        map.insert(range_at(place), place % 7)?;
    }
    Ok(map)
}

// The ranges of a map with their values, in order.
fn saved(alloc: Global, map: &RangeMap<u64, u64>) -> Result<Vec<(Range<u64>, u64)>, AllocError> {
    let mut saved = Vec::new(alloc);
    for (range, value) in map.iter() {
        if let RangeSetRange::Range(range) = range {
            saved.push((*range.start..*range.end, *value))?;
        }
    }
    Ok(saved)
}

#[test]
fn a_map_of_a_million_ranges_is_asked_saved_and_read(rt: HostRuntime) -> Result<(), AllocError> {
    let alloc = rt.alloc();
    let map = scrambled(alloc, 1_000_000)?;
    assert!(rt; map.len() == 1_000_000);
    let saved = saved(alloc, &map)?;
    let mut place = 0u64;
    for (range, value) in &saved {
        assert!(rt; *range == range_at(place) && *value == place % 7, "{place}");
        assert!(rt;
            map.get(&range.start) == Some(value) && map.get(&range.end).is_none(),
            "{place}"
        );
        place = place.saturating_add(1);
    }
    assert!(rt; place == 1_000_000);
    let mut read = RangeMap::from_ranges(alloc, saved)?;
    assert!(rt; read == map);
    read.remove(0..10)?;
    assert!(rt; read != map);
    Ok(())
}
