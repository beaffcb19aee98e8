//! The members of a set one by one.
use range_collections::{FromPlace, RangeSetRef};

#[test]
fn no_character_is_a_surrogate(rt: HostRuntime) {
    assert!(rt; char::from_place(0xD7FF) == Some('\u{D7FF}'));
    assert!(rt; char::from_place(0xD800) == Some('\u{E000}'));
}

#[test]
fn every_value_is_a_member_of_the_whole(rt: HostRuntime) {
    let whole = RangeSetRef::new(&[0_u128]).unwrap_or_default();
    let mut members = whole.members();
    assert!(rt; members.next() == Some(0) && members.next_back() == Some(u128::MAX));
    assert!(rt; members.next() == Some(1) && members.next_back() == Some(u128::MAX - 1));
    let bytes = RangeSetRef::new(&[0_u8]).unwrap_or_default();
    let mut members = bytes.members();
    assert!(rt; members.next() == Some(0) && members.next_back() == Some(255));
}
