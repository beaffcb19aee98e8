//! The everyday calls on made-up sets: what they answer is what asking for each value of a small
//! type finds.
use range_collections::{Countable, RangeSetRef, RangesWithin};
use range_tests_kit::generator::Generator;
use range_tests_kit::lists::is_range;
use range_tests_kit::membership::all_u8;
use std::alloc::{AllocError, Global};
use std::test::Fail;

// Of how many values one is a boundary.
const ONE_IN: [u64; 4] = [2, 8, 40, 100];

// How many lists are made up for each of these, and how many calls with a range for each list.
const LISTS: u64 = 60;

const DRAWS: u64 = 20;

// All values of `i8`.
fn all_i8(alloc: Global) -> Result<Vec<i8>, AllocError> {
    let mut values = Vec::new(alloc);
    for value in i8::MIN..=i8::MAX {
        values.push(value)?;
    }
    Ok(values)
}

// Each of the values, and whether an odd number of the boundaries is at or below it.
fn ask_each<T: Ord + Copy>(
    alloc: Global,
    values: &[T],
    items: &[T],
) -> Result<Vec<(T, bool)>, AllocError> {
    let (mut asked, mut is_member, mut above) = (Vec::new(alloc), false, items.iter());
    let mut next = above.next();
    for value in values {
        if next == Some(value) {
            is_member = !is_member;
            next = above.next();
        }
        asked.push((*value, is_member))?;
    }
    Ok(asked)
}

// Whether the ranges that the iterator gives have these boundaries.
fn are_ranges<T: Ord>(ranges: RangesWithin<T>, want: &[T]) -> bool {
    let mut rest = want.iter();
    for range in ranges {
        if rest.next() != Some(range.start) || rest.next() != Some(range.end) {
            return false;
        }
    }
    rest.next().is_none()
}

// The boundaries of the longest stretches of these values that are members, or that are none; the
// last one ends where `end` is, if there is one.
fn stretches<T: Copy>(
    alloc: Global,
    asked: &[(T, bool)],
    end: Option<T>,
    members: bool,
) -> Result<Vec<T>, AllocError> {
    let (mut items, mut on) = (Vec::new(alloc), false);
    for (value, is_member) in asked {
        if (*is_member == members) != on {
            items.push(*value)?;
            on = !on;
        }
    }
    if let (true, Some(end)) = (on, end) {
        items.push(end)?;
    }
    Ok(items)
}

// How many of the values are members, or nothing where the last one is.
fn counted<T>(asked: &[(T, bool)]) -> Option<u128> {
    let (mut count, mut was_member) = (0u128, false);
    for (_, is_member) in asked {
        count = count.saturating_add(u128::from(*is_member));
        was_member = *is_member;
    }
    (!was_member).then_some(count)
}

// Whether each value is held by the stretch of members around it.
fn are_held<T: Ord + Copy>(asked: &[(T, bool)], set: RangeSetRef<T>, members: &[T]) -> bool {
    let (mut at, mut on) = (0usize, false);
    for (value, is_member) in asked {
        if on && !is_member {
            at = at.saturating_add(2);
        }
        on = *is_member;
        let end = if on {
            at.saturating_add(2).min(members.len())
        } else {
            at
        };
        if !matches!(members.get(at..end), Some(around) if is_range(set.range_at(value), around)) {
            return false;
        }
    }
    true
}

// Whether the view counts its members, and holds each value, as asking for each finds.
fn has_members<T: Countable + Copy + Drop>(
    alloc: Global,
    asked: &[(T, bool)],
    set: RangeSetRef<T>,
) -> Result<bool, AllocError> {
    let members = stretches(alloc, asked, None, true)?;
    Ok(set.covered() == counted(asked) && are_held(asked, set, members.as_slice()))
}

// Whether the gaps and the ranges from one value to another are the stretches of those between, and
// the whole is in the set where there is no gap.
fn are_parted<'a, T: Ord + Copy + Drop>(
    alloc: Global,
    between: &[(T, bool)],
    set: RangeSetRef<'a, T>,
    low: &'a T,
    high: &'a T,
) -> Result<bool, AllocError> {
    let off = stretches(alloc, between, Some(*high), false)?;
    let on = stretches(alloc, between, Some(*high), true)?;
    Ok(
        are_ranges(set.gaps(low..high), off.as_slice())
            && are_ranges(set.ranges_within(low..high), on.as_slice())
            && set.contains_range(*low..*high) == off.is_empty(),
    )
}

// Whether the view of these boundaries answers so, also with made-up ends, of which the first may
// be the higher one.
fn is_right<T: Countable + Copy + Drop>(
    alloc: Global,
    values: &[T],
    items: &[T],
    draws: &mut Generator,
) -> Result<bool, AllocError> {
    let asked = ask_each(alloc, values, items)?;
    let set = RangeSetRef::new(items).unwrap_or_default();
    let mut is_right = has_members(alloc, asked.as_slice(), set)?;
    for _ in 0..DRAWS {
        let (i, j) = (draws.below(256) as usize, draws.below(256) as usize);
        if let (Some(low), Some(high)) = (values.get(i), values.get(j)) {
            let between = asked.as_slice().get(i..j).unwrap_or_default();
            is_right &= are_parted(alloc, between, set, low, high)?;
        }
    }
    Ok(is_right)
}

// The first made-up list of some of the values that answers otherwise.
fn wrong<T: Countable + Copy + Drop>(
    alloc: Global,
    values: &[T],
    one_in: u64,
) -> Result<Option<Vec<T>>, AllocError> {
    let mut draws = Generator::new();
    for _ in 0..LISTS {
        let items = draws.some_of(alloc, values, one_in.max(1))?;
        if !is_right(alloc, values, items.as_slice(), &mut draws)? {
            return Ok(Some(items));
        }
    }
    Ok(None)
}

#[test]
fn made_up_sets_answer_value_by_value(rt: HostRuntime) -> Result<(), Fail> {
    let alloc = rt.alloc();
    let (bytes, signed) = (all_u8(alloc)?, all_i8(alloc)?);
    for one_in in ONE_IN {
        assert_eq!(rt; wrong(alloc, bytes.as_slice(), one_in)?, None);
        assert_eq!(rt; wrong(alloc, signed.as_slice(), one_in)?, None);
    }
    Ok(())
}

// Whether one of the values is a member.
fn has_member(asked: &[(u8, bool)]) -> bool {
    for (_, is_member) in asked {
        if *is_member {
            return true;
        }
    }
    false
}

// The first value of the range from which on `len` are no members, found by trying each.
fn tried(asked: &[(u8, bool)], start: usize, end: usize, len: usize) -> Option<u8> {
    for x in start..=end.checked_sub(len)? {
        if !has_member(asked.get(x..x.checked_add(len)?)?) {
            return Some(asked.get(x)?.0);
        }
    }
    None
}

// Whether made-up stretches are placed among the boundaries as trying each value does.
fn are_fitted(items: &[u8], asked: &[(u8, bool)], draws: &mut Generator) -> bool {
    let set = RangeSetRef::new(items).unwrap_or_default();
    for _ in 0..DRAWS {
        let (start, end, len) = (draws.below(256), draws.below(256), draws.below(24));
        let found = set.first_fit(start as u8..end as u8, len as u8);
        if found != tried(asked, start as usize, end as usize, len as usize) {
            return false;
        }
    }
    true
}

#[test]
fn made_up_stretches_are_placed_as_trying_each_value_does(rt: HostRuntime) -> Result<(), Fail> {
    let (values, mut draws) = (all_u8(rt.alloc())?, Generator::new());
    for one_in in ONE_IN {
        for _ in 0..LISTS {
            let items = draws.some_of(rt.alloc(), values.as_slice(), one_in.max(1))?;
            let asked = ask_each(rt.alloc(), values.as_slice(), items.as_slice())?;
            assert!(rt;
                are_fitted(items.as_slice(), asked.as_slice(), &mut draws),
                "{items:?}"
            );
        }
    }
    Ok(())
}
