//! Made-up changes: a map has the values of an array of options that is changed alike.
use range_collections::RangeSetRange;
use range_map::{InsertError, RangeMap};
use range_tests_kit::generator::Generator;
use std::alloc::{AllocError, Global};
use std::ops::Range;

// Below this number lie the keys.
pub(crate) const LIMIT: u64 = 64;

// How many keys there are.
pub(crate) const KEYS: usize = 64;

// How many changes a sequence has.
const CHANGES: u64 = 24;

// Gives the numbers of the range an option.
pub(crate) fn set(options: &mut [Option<u64>; KEYS], range: &Range<u64>, value: Option<u64>) {
    for key in 0..LIMIT {
        if range.start <= key && key < range.end {
            options[key as usize] = value;
        }
    }
}

// How often a value begins, or follows another one.
fn ranges_len(options: &[Option<u64>; KEYS]) -> usize {
    let mut len = 0usize;
    let mut before = None;
    for option in options {
        if option.is_some() && *option != before {
            len = len.saturating_add(1);
        }
        before = *option;
    }
    len
}

// Whether the map has these options.
fn has(map: &RangeMap<u64, u64>, options: &[Option<u64>; KEYS]) -> bool {
    for key in 0..LIMIT {
        if map.get(&key).copied() != options[key as usize] {
            return false;
        }
    }
    map.len() == ranges_len(options)
}

// The next range: mostly a short one, now and then a long, an empty or a reversed one.
pub(crate) fn next_range(generator: &mut Generator) -> Range<u64> {
    let start = generator.below(LIMIT);
    let longest = if generator.below(16) == 0 { LIMIT } else { 12 };
    let end = start.saturating_add(generator.below(longest)).min(LIMIT);
    match generator.below(16) {
        0 => end..start,
        _ => start..end,
    }
}

// Whether the entries of the map are the array's, from the lowest on and from the highest down.
fn lists(map: &RangeMap<u64, u64>, options: &[Option<u64>; KEYS]) -> bool {
    let mut forward = [None; KEYS];
    let mut len = 0usize;
    for (range, value) in map {
        set(&mut forward, &range_of(range), Some(*value));
        len = len.saturating_add(1);
    }
    let mut backward = [None; KEYS];
    for (range, value) in map.iter().rev() {
        set(&mut backward, &range_of(range), Some(*value));
    }
    forward == *options && backward == *options && len == map.len()
}

// The range of the keys, up to the limit if it has no end.
fn range_of(range: RangeSetRange<&u64>) -> Range<u64> {
    match range {
        RangeSetRange::Range(range) => *range.start..*range.end,
        RangeSetRange::RangeFrom(range) => *range.start..LIMIT,
    }
}

// Whether no key of the range has a value.
fn is_free(options: &[Option<u64>; KEYS], range: &Range<u64>) -> bool {
    for key in 0..LIMIT {
        if range.start <= key && key < range.end && options[key as usize].is_some() {
            return false;
        }
    }
    true
}

// Whether the stretch around each key goes from the last change of the options up to the next.
fn has_stretches(map: &RangeMap<u64, u64>, options: &[Option<u64>; KEYS]) -> bool {
    for key in 0..LIMIT {
        let mut start = 0;
        for below in 0..key {
            if options[below as usize] != options[key as usize] {
                start = below.saturating_add(1);
            }
        }
        let mut end = LIMIT;
        for above in (key..LIMIT).rev() {
            if options[above as usize] != options[key as usize] {
                end = above;
            }
        }
        let stretch = map.range_at(&key);
        if stretch.value.copied() != options[key as usize]
            || stretch.start.copied().unwrap_or(0) != start
            || stretch.end.copied().unwrap_or(LIMIT) != end
        {
            return false;
        }
    }
    true
}

// Whether the map has the array's options after each change.
fn follow(alloc: Global, generator: &mut Generator) -> Result<bool, AllocError> {
    let mut map = RangeMap::new(alloc);
    let mut options = [None; KEYS];
    for _ in 0..CHANGES {
        let range = next_range(generator);
        let value = generator.below(4);
        if value == 0 {
            set(&mut options, &range, None);
            map.remove(range)?;
        } else {
            set(&mut options, &range, Some(value));
            map.insert(range, value)?;
        }
        if !has(&map, &options) || !lists(&map, &options) || !has_stretches(&map, &options) {
            return Ok(false);
        }
    }
    Ok(true)
}

// Whether a range is put in exactly if the array is free there.
fn book(alloc: Global, generator: &mut Generator) -> Result<bool, AllocError> {
    let mut map = RangeMap::new(alloc);
    let mut options = [None; KEYS];
    for _ in 0..CHANGES {
        let range = next_range(generator);
        let value = generator.below(3);
        let free = is_free(&options, &range);
        if map.is_free(range.start..range.end) != free {
            return Ok(false);
        }
        if free {
            set(&mut options, &range, Some(value));
        }
        match map.insert_free(range, value) {
            Ok(()) if free => {}
            Err(InsertError::NotFree(back)) if !free && back == value => {}
            _ => return Ok(false),
        }
        if !has(&map, &options) {
            return Ok(false);
        }
    }
    Ok(true)
}

#[test]
fn sequences_change_both_alike(rt: HostRuntime) -> Result<(), AllocError> {
    let mut generator = Generator::new();
    for sequence in 0..10_000u64 {
        let alike = follow(rt.alloc(), &mut generator)?;
        assert!(rt; alike, "{sequence}");
    }
    Ok(())
}

#[test]
fn sequences_are_booked_alike(rt: HostRuntime) -> Result<(), AllocError> {
    let mut generator = Generator::new();
    for sequence in 0..10_000u64 {
        let alike = book(rt.alloc(), &mut generator)?;
        assert!(rt; alike, "{sequence}");
    }
    Ok(())
}
