//! What a struct that holds a set or a range can derive, and a set that is copied in place.
use range_collections::{RangeSet2, RangeSetRange};
use std::alloc::{AllocError, Global};
use std::test::Fail;

// Rooms that are taken, and when the first is.
#[derive(Clone, Drop, PartialEq, Eq)]
struct Bookings {
    house: u32,
    rooms: RangeSet2<u32>,
    first: RangeSetRange<u32>,
}

// Two houses.
#[derive(Clone, Drop, PartialEq, Eq)]
enum Houses {
    One(Bookings),
    Two(Bookings, Bookings),
}

// Bookings of two ranges of rooms.
fn booked(alloc: Global, house: u32) -> Result<Bookings, AllocError> {
    let mut rooms = RangeSet2::from_range(alloc, 1..9)?;
    rooms.insert(12..20)?;
    Ok(Bookings {
        house,
        rooms,
        first: RangeSetRange::from(1..9),
    })
}

// Whether the clone of the bookings is equal to them, and stays as it is where another room is
// taken.
fn are_cloned(mut one: Bookings) -> Result<bool, AllocError> {
    let copied = one.clone()?;
    let is_equal = copied == one;
    one.rooms.insert(30..31)?;
    Ok(
        is_equal
            && copied != one
            && copied.rooms.boundaries() == [1, 9, 12, 20].as_slice()
            && copied.first == RangeSetRange::from(1..9),
    )
}

// Whether the clone of two houses is equal to them, and not to one of them.
fn houses_are_cloned(houses: Houses, one: Houses) -> Result<bool, AllocError> {
    let copied = houses.clone()?;
    Ok(copied == houses && copied != one)
}

#[test]
fn a_struct_that_holds_a_set_is_cloned(rt: HostRuntime) -> Result<(), Fail> {
    let alloc = rt.alloc();
    assert!(rt; are_cloned(booked(alloc, 1)?)?);
    let two = Houses::Two(booked(alloc, 1)?, booked(alloc, 2)?);
    assert!(rt; houses_are_cloned(two, Houses::One(booked(alloc, 1)?))?);
    Ok(())
}

// Whether a set that is copied over another is equal to it.
fn is_copied_in_place(alloc: Global) -> Result<bool, AllocError> {
    let one = RangeSet2::<u8>::from_range(alloc, 1..9)?;
    let mut other = RangeSet2::<u8>::empty(alloc);
    other.clone_from(&one)?;
    Ok(other == one)
}

#[test]
fn a_set_is_copied_in_place(rt: HostRuntime) {
    assert!(rt; is_copied_in_place(rt.alloc()) == Ok(true));
}
