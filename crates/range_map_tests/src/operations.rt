//! Made-up maps: operations on them have the values of arrays of options that are treated alike.
ghost use Rattle.std.specs.Bool.{beq};
ghost use Rattle.std.specs.Option.{is_some};
ghost use Rattle.std.specs.Prelude.{◌%◌, cond, nat_eq, not, Some, None};
ghost use Rattle.range_collections.specs.Ranges.{range_start};
ghost use Rattle.range_map.specs.Units.{unit_if};

use crate::depths::has_depths;
use crate::made_up::{KEYS, LIMIT, next_range, set};
use range_collections::{Comparisons, RangeSet2, RangeSetRange};
use range_map::{MapFilter, MapOperation, MapUpdate, RangeFilter, RangeMap};
use range_tests_kit::generator::Generator;
use std::alloc::{AllocError, Global};
use std::ops::Range;

type Map = RangeMap<u64, u64>;

type Options = [Option<u64>; KEYS];

// Whether exactly one side has a value.
struct OneAlone;

impl MapOperation<u64, u64> for OneAlone {
    type Output = ();

    ghost gives = { λ _ p q. unit_if (not (beq (is_some p) (is_some q))) };

    fn apply(&self, left: Option<&u64>, right: Option<&u64>) -> Result<Option<()>, AllocError> {
        if left.is_some() == right.is_some() {
            Ok(None)
        } else {
            Ok(Some(()))
        }
    }
}

// A value where there is none, and none where there is one.
struct Turn;

impl MapUpdate<u64> for Turn {
    ghost gives = { λ _ p. cond (is_some p) None (Some 7) };

    fn apply(&self, option: Option<&u64>) -> Result<Option<u64>, AllocError> {
        match option {
            Some(_) => Ok(None),
            None => Ok(Some(7)),
        }
    }
}

// A map after some changes, and its options.
fn made_up(alloc: Global, generator: &mut Generator) -> Result<(Map, Options), AllocError> {
    let mut map = RangeMap::new(alloc);
    let mut options = [None; KEYS];
    for _ in 0..generator.below(12) {
        let range = next_range(generator);
        let value = generator.below(4);
        if value == 0 {
            set(&mut options, &range, None);
            map.remove(range)?;
        } else {
            set(&mut options, &range, Some(value));
            map.insert(range, value)?;
        }
    }
    Ok((map, options))
}

// Whether the map has these options.
fn has(map: &Map, options: &Options) -> bool {
    for key in 0..LIMIT {
        if map.get(&key).copied() != options[key as usize] {
            return false;
        }
    }
    true
}

// What the arrays have, by the call.
fn expected(call: Call, a: &Options, b: &Options) -> Options {
    let mut made = [None; KEYS];
    for i in 0..KEYS {
        made[i] = match call {
            Call::UnionLeft => a[i].or(b[i]),
            Call::UnionRight => b[i].or(a[i]),
            Call::Restrict => b[i].and(a[i]),
            Call::Without => match b[i] {
                Some(_) => None,
                None => a[i],
            },
        };
    }
    made
}

#[derive(Clone, Copy, Debug)]
enum Call {
    UnionLeft,
    UnionRight,
    Restrict,
    Without,
}

const CALLS: [Call; 4] = [
    Call::UnionLeft,
    Call::UnionRight,
    Call::Restrict,
    Call::Without,
];

// What the maps answer.
fn answer(alloc: Global, call: Call, a: &Map, b: &Map) -> Result<Map, AllocError> {
    match call {
        Call::UnionLeft => a.union_with_left(alloc, b),
        Call::UnionRight => a.union_with_right(alloc, b),
        Call::Restrict => {
            let set: RangeSet2<u64> = b.domain(alloc)?;
            a.restrict(alloc, set.as_ref())
        }
        Call::Without => {
            let set: RangeSet2<u64> = b.domain(alloc)?;
            a.without(alloc, set.as_ref())
        }
    }
}

// What a map has that is changed in place, where the other calls make a new one.
fn changed(alloc: Global, call: Call, a: &Map, b: &Map) -> Result<Map, AllocError> {
    let mut map = a.clone()?;
    match call {
        Call::UnionLeft => map.insert_where_free(b)?,
        Call::UnionRight => map.insert_all(b)?,
        Call::Restrict => {
            let set: RangeSet2<u64> = b.domain(alloc)?;
            map.retain_all(set.as_ref())?;
        }
        Call::Without => {
            let set: RangeSet2<u64> = b.domain(alloc)?;
            map.remove_all(set.as_ref())?;
        }
    }
    Ok(map)
}

#[test]
fn made_up_maps_are_put_together(rt: HostRuntime) -> Result<(), AllocError> {
    let mut generator = Generator::new();
    for sequence in 0..10_000u64 {
        let (a, a_options) = made_up(rt.alloc(), &mut generator)?;
        let (b, b_options) = made_up(rt.alloc(), &mut generator)?;
        for call in CALLS {
            let map = answer(rt.alloc(), call, &a, &b)?;
            let alike = has(&map, &expected(call, &a_options, &b_options));
            assert!(rt; alike, "{sequence} {call:?}");
            let changed = changed(rt.alloc(), call, &a, &b)?;
            assert!(rt; changed == map, "{sequence} {call:?} in place");
        }
    }
    Ok(())
}

// Whether each key is a member exactly if it has a value, or this one.
fn are_members(alloc: Global, map: &Map, options: &Options) -> Result<bool, AllocError> {
    let set: RangeSet2<u64> = map.domain(alloc)?;
    let ones: RangeSet2<u64> = map.where_equal(alloc, &1)?;
    for key in 0..LIMIT {
        let option = options[key as usize];
        if set.contains(&key) != option.is_some() || ones.contains(&key) != (option == Some(1)) {
            return Ok(false);
        }
    }
    Ok(true)
}

// Whether each key is there exactly if one of the options has a value alone.
fn are_alone(map: &RangeMap<u64, ()>, a: &Options, b: &Options) -> bool {
    for key in 0..LIMIT {
        let alone = a[key as usize].is_some() != b[key as usize].is_some();
        if map.contains_key(&key) != alone {
            return false;
        }
    }
    true
}

#[test]
fn made_up_maps_are_asked(rt: HostRuntime) -> Result<(), AllocError> {
    let mut generator = Generator::new();
    for sequence in 0..10_000u64 {
        let (a, a_options) = made_up(rt.alloc(), &mut generator)?;
        let (b, b_options) = made_up(rt.alloc(), &mut generator)?;
        let members = are_members(rt.alloc(), &a, &a_options)?;
        assert!(rt; members, "{sequence}");
        let alone = a.combine(rt.alloc(), &b, &OneAlone, &mut Comparisons::new())?;
        assert!(rt; are_alone(&alone, &a_options, &b_options), "{sequence}");
        let copy = a.clone()?;
        assert!(rt;
            copy == a && (a == b) == (a_options == b_options),
            "{sequence}"
        );
    }
    Ok(())
}

#[test]
fn made_up_ranges_are_counted_and_inserted(rt: HostRuntime) -> Result<(), AllocError> {
    let mut generator = Generator::new();
    for sequence in 0..10_000u64 {
        let mut ranges = Vec::new(rt.alloc());
        let mut pairs = Vec::new(rt.alloc());
        let mut options = [None; KEYS];
        for _ in 0..generator.below(12) {
            let range = next_range(&mut generator);
            let value = generator.below(3);
            set(&mut options, &range, Some(value));
            ranges.push(range.start..range.end)?;
            pairs.push((range, value))?;
        }
        let depth = RangeMap::depth(rt.alloc(), ranges.as_slice())?;
        assert!(rt; has_depths(&depth, ranges.as_slice()), "{sequence}");
        let map = RangeMap::from_ranges(rt.alloc(), pairs)?;
        assert!(rt; has(&map, &options), "{sequence}");
    }
    Ok(())
}

// Turns the options of the range.
fn turn_options(options: &mut Options, range: &Range<u64>) {
    for key in 0..LIMIT {
        if range.start <= key && key < range.end {
            options[key as usize] = match options[key as usize] {
                Some(_) => None,
                None => Some(7),
            };
        }
    }
}

#[test]
fn made_up_maps_are_updated(rt: HostRuntime) -> Result<(), AllocError> {
    let mut generator = Generator::new();
    for sequence in 0..10_000u64 {
        let (mut map, mut options) = made_up(rt.alloc(), &mut generator)?;
        for _ in 0..4 {
            let range = next_range(&mut generator);
            if generator.below(4) == 0 {
                turn_options(&mut options, &(range.start..LIMIT));
                map.update_from(range.start.., &Turn)?;
            } else {
                turn_options(&mut options, &range);
                map.update(range, &Turn)?;
            }
        }
        assert!(rt; has(&map, &options), "{sequence}");
    }
    Ok(())
}

// Whether a value is the last one of those that are made up.
struct Threes;

impl MapFilter<u64> for Threes {
    ghost is_kept = { λ _ v. nat_eq v 3 };

    fn keeps(&self, value: &u64) -> bool {
        *value == 3
    }
}

// Takes all other options out.
fn keep_threes(options: &mut Options) {
    for key in 0..LIMIT {
        if options[key as usize] != Some(3) {
            options[key as usize] = None;
        }
    }
}

#[test]
fn made_up_maps_keep_what_is_retained(rt: HostRuntime) -> Result<(), AllocError> {
    let mut generator = Generator::new();
    for sequence in 0..10_000u64 {
        let (mut map, mut options) = made_up(rt.alloc(), &mut generator)?;
        keep_threes(&mut options);
        map.retain(&Threes);
        assert!(rt; has(&map, &options), "{sequence}");
    }
    Ok(())
}

// Whether a range starts at an even number.
struct EvenStarts;

impl RangeFilter<u64, u64> for EvenStarts {
    ghost is_kept = { λ _ e. nat_eq (range_start e.0 % 2) 0 };

    fn keeps(&self, range: RangeSetRange<&u64>, _value: &u64) -> bool {
        match range {
            RangeSetRange::Range(range) => *range.start % 2 == 0,
            RangeSetRange::RangeFrom(range) => *range.start % 2 == 0,
        }
    }
}

// Takes the options out that are alike from an odd number on.
fn keep_even_starts(options: &mut Options) {
    let mut before = None;
    let mut is_even = true;
    for key in 0..LIMIT {
        let option = options[key as usize];
        if option != before {
            is_even = key % 2 == 0;
            before = option;
        }
        if !is_even {
            options[key as usize] = None;
        }
    }
}

#[test]
fn made_up_maps_keep_the_ranges_that_are_retained(rt: HostRuntime) -> Result<(), AllocError> {
    let mut generator = Generator::new();
    for sequence in 0..10_000u64 {
        let (mut map, mut options) = made_up(rt.alloc(), &mut generator)?;
        keep_even_starts(&mut options);
        map.retain_ranges(&EvenStarts);
        assert!(rt; has(&map, &options), "{sequence}");
    }
    Ok(())
}

// The value 3 in the place of each.
struct Three;

impl MapUpdate<u64> for Three {
    ghost gives = { λ _ p. Some 3 };

    fn apply(&self, _option: Option<&u64>) -> Result<Option<u64>, AllocError> {
        Ok(Some(3))
    }
}

// Gives the options around a key that are alike its own another one, if they are values. Returns
// whether they are.
fn set_around(options: &mut Options, key: u64, option: Option<u64>) -> bool {
    let mut range = 0..LIMIT;
    let mut before = options[0];
    let mut is_some = false;
    for other in 0..LIMIT {
        let next = options[other as usize];
        if other <= key {
            is_some = next.is_some();
        }
        if next != before && other <= key {
            range.start = other;
        }
        if next != before && other > key {
            range.end = range.end.min(other);
        }
        before = next;
    }
    if is_some {
        set(options, &range, option);
    }
    is_some
}

#[test]
fn made_up_maps_are_modified(rt: HostRuntime) -> Result<(), AllocError> {
    let mut generator = Generator::new();
    for sequence in 0..10_000u64 {
        let (mut map, mut options) = made_up(rt.alloc(), &mut generator)?;
        for _ in 0..4 {
            let key = generator.below(LIMIT);
            let found = if generator.below(4) == 0 {
                set_around(&mut options, key, None) == map.modify(&key, &Turn)?
            } else {
                set_around(&mut options, key, Some(3)) == map.modify(&key, &Three)?
            };
            assert!(rt; found, "{sequence}");
        }
        assert!(rt; has(&map, &options), "{sequence}");
    }
    Ok(())
}
