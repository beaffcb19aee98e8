//! Each caller that the pages quote, with memory at hand.
use range_collections::{RangeSet, RangeSetRef};
use range_examples::{
    CharacterClass, Minutes, Releases, Version, add_busy, book, cancel, comes_twice, either,
    free_run, free_slots, give_back, has, has_all, has_fault, is_free, is_usable, lowest_free,
    missing_between, negation, new_calendar, next_missing, print_open_hours, someone_busy,
    still_missing, take_lowest, take_run, usable,
};
use range_tests_kit::lists::own;
use std::alloc::{AllocError, Global};

/// Whether a set was made, with these boundaries.
fn gives<T: Ord + Drop>(made: Result<RangeSet<T, 8>, AllocError>, want: &[T]) -> bool {
    match made {
        Ok(made) => made.boundaries() == want,
        Err(_) => false,
    }
}

#[test]
fn a_download_knows_what_is_missing_and_what_comes_twice(rt: HostRuntime) {
    let alloc = rt.alloc();
    let come = own(alloc, &[0, 100, 200, 300]);
    assert!(rt; come.is_some());
    if let Some(come) = come {
        let missing = still_missing(alloc, &come, 1000);
        assert!(rt; gives(missing, &[100, 200, 300, 1000]));
        assert!(rt; comes_twice(&come, 90..110));
        assert!(rt; !comes_twice(&come, 100..200));
        assert_eq!(rt; next_missing(&come, 0), Some(100));
        assert_eq!(rt; next_missing(&come, 150), Some(150));
    }
}

fn release(major: u16, minor: u16) -> Version {
    Version { major, minor }
}

/// The releases from 1.2 to below 1.10, and those of 2.
fn faulty(alloc: Global) -> Option<Releases> {
    let mut faulty = Releases::empty(alloc);
    has_fault(&mut faulty, release(2, 0)..release(3, 0)).ok()?;
    has_fault(&mut faulty, release(1, 2)..release(1, 10)).ok()?;
    Some(faulty)
}

/// The releases from 1.0 on.
fn shipped(alloc: Global) -> Option<Releases> {
    Releases::from_range_from(alloc, release(1, 0)..).ok()
}

/// The releases that may be used.
fn good(alloc: Global) -> Option<Releases> {
    let shipped = shipped(alloc)?;
    let faulty = faulty(alloc)?;
    usable(&shipped, &faulty).ok()
}

/// Whether a release is in the set of those that may be used.
fn is_good(alloc: Global, version: &Version) -> Option<bool> {
    Some(good(alloc)?.contains(version))
}

/// Whether a release may be used, without that set.
fn is_fit(alloc: Global, version: &Version) -> Option<bool> {
    let shipped = shipped(alloc)?;
    let faulty = faulty(alloc)?;
    Some(is_usable(&shipped, &faulty, version))
}

fn both_say(alloc: Global, version: Version, may: bool) -> bool {
    is_good(alloc, &version) == Some(may) && is_fit(alloc, &version) == Some(may)
}

#[test]
fn releases_with_a_fault_are_not_usable(rt: HostRuntime) {
    let alloc = rt.alloc();
    assert!(rt; both_say(alloc, release(0, 9), false));
    assert!(rt; both_say(alloc, release(1, 0), true));
    assert!(rt; both_say(alloc, release(1, 9), false));
    assert!(rt; both_say(alloc, release(1, 10), true));
    assert!(rt; both_say(alloc, release(2, 700), false));
    assert!(rt; both_say(alloc, release(3, 0), true));
}

/// The minutes of two busy times, which overlap.
fn busy(alloc: Global) -> Option<Minutes> {
    let mut busy = own(alloc, &[540, 600])?;
    let more = own(alloc, &[570, 660])?;
    add_busy(&mut busy, &more).ok()?;
    Some(busy)
}

#[test]
fn a_calendar_unites_busy_times_and_finds_free_slots(rt: HostRuntime) {
    let alloc = rt.alloc();
    let busy = busy(alloc);
    assert!(rt; busy.is_some());
    if let Some(busy) = busy {
        assert_eq!(rt; busy.boundaries(), [540, 660].as_slice());
        assert!(rt; is_free(&busy, 660..720));
        assert!(rt; !is_free(&busy, 650..720));
        let free = free_slots(alloc, &busy, 480..1080);
        assert!(rt; gives(free, &[480, 540, 660, 1080]));
    }
}

/// A calendar with two slots booked and half of the second cancelled.
fn booked(alloc: Global) -> Option<Minutes> {
    let mut busy = new_calendar(alloc);
    book(&mut busy, 540..600).ok()?;
    book(&mut busy, 660..720).ok()?;
    cancel(&mut busy, 690..720).ok()?;
    Some(busy)
}

#[test]
fn a_calendar_takes_bookings_and_cancels_them(rt: HostRuntime) {
    let alloc = rt.alloc();
    let busy = booked(alloc);
    assert!(rt; busy.is_some());
    if let Some(busy) = busy {
        assert_eq!(rt; busy.boundaries(), [540, 600, 660, 690].as_slice());
        let both = someone_busy(alloc, &[busy.as_ref(), RangeSetRef::empty()]);
        assert!(rt; gives(both, &[540, 600, 660, 690]));
    }
}

/// Digits and letters.
fn word(alloc: Global) -> Option<CharacterClass> {
    let digits = own(alloc, &['0', ':'])?;
    let letters = own(alloc, &['a', '{'])?;
    either(&digits, &letters).ok()
}

/// Whether the character is in the class and not in its negation, or the other way round.
fn is_told(class: &CharacterClass, c: char, within: bool) -> bool {
    match negation(class) {
        Ok(others) => has(class, c) == within && has(&others, c) != within,
        Err(_) => false,
    }
}

#[test]
fn a_class_has_the_characters_of_its_ranges_and_its_negation_the_others(rt: HostRuntime) {
    let word = word(rt.alloc());
    assert!(rt; word.is_some());
    if let Some(word) = word {
        for (c, within) in [('7', true), ('q', true), ('Q', false), ('é', false)] {
            assert!(rt; is_told(&word, c, within), "{c:?}");
        }
    }
}

#[test]
fn an_allocator_takes_the_lowest_address_and_takes_addresses_back(rt: HostRuntime) {
    let free = own(rt.alloc(), &[4, 6]);
    assert!(rt; free.is_some());
    if let Some(mut free) = free {
        assert_eq!(rt; take_lowest(&mut free), Ok(Some(4)));
        assert_eq!(rt; take_lowest(&mut free), Ok(Some(5)));
        assert_eq!(rt; take_lowest(&mut free), Ok(None));
        assert_eq!(rt; give_back(&mut free, 5..7), Ok(()));
        assert_eq!(rt; lowest_free(&free), Some(5));
    }
}

#[test]
fn an_allocator_takes_addresses_that_lie_together(rt: HostRuntime) {
    let taken = own(rt.alloc(), &[0, 16, 24, 32]);
    assert!(rt; taken.is_some());
    if let Some(mut taken) = taken {
        assert_eq!(rt; free_run(&taken, 0..64, 8), Some(16));
        assert_eq!(rt; take_run(&mut taken, 0..64, 8), Ok(Some(16)));
        assert_eq!(rt; take_run(&mut taken, 0..64, 8), Ok(Some(32)));
        assert_eq!(rt; take_run(&mut taken, 0..64, 25), Ok(None));
        assert_eq!(rt; taken.boundaries(), [0, 40].as_slice());
    }
}

#[test]
fn gaps_between_numbers_are_found(rt: HostRuntime) {
    let alloc = rt.alloc();
    let there = own(alloc, &[-5, 0, 3, 5]);
    assert!(rt; there.is_some());
    if let Some(there) = there {
        let missing = missing_between(alloc, &there, -10..10);
        assert!(rt; gives(missing, &[-10, -5, 0, 3, 5, 10]));
        assert_eq!(rt; has_all(alloc, &there, -4..0), Ok(true));
        assert_eq!(rt; has_all(alloc, &there, -4..1), Ok(false));
    }
}

/// Whether seven in the evening is among the opening hours, where they can be printed as this text.
fn evening(alloc: Global, text: &str) -> Option<bool> {
    let mut out = Vec::new(alloc);
    let evening = print_open_hours(alloc, &mut out).ok()?;
    if out.as_slice() == text.as_bytes() {
        Some(evening)
    } else {
        None
    }
}

#[test]
fn the_opening_hours_are_printed(rt: HostRuntime) {
    let text = "open at RangeSet{9..13, 15..20}\nfrom 9..13\nfrom 15..20\n";
    assert_eq!(rt; evening(rt.alloc(), text), Some(true));
}
