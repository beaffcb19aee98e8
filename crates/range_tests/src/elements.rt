//! The element types: each implementation called through its bound, and that these calls find
//! memory where there is some.
use range_collections::{Copier, EntryCopier};
use range_entry::{
    EntryClone, NonZeroU8, NonZeroU16, NonZeroU32, NonZeroU64, NonZeroU128, NonZeroUsize,
    RangeSetEntry,
};
use range_tests_kit::comparers::Copies;
use range_tests_kit::elements::{from_end, letters_are, with_letter};
use range_tests_kit::lists::numbers;
use std::alloc::{AllocError, Global};
use std::num;
use std::test::Fail;

// Whether there is a least value, and it is this one.
fn has_least<T: RangeSetEntry + Drop>(alloc: Global, least: &T) -> bool {
    matches!(T::min_value(alloc), Ok(value) if value == *least)
}

// Whether the element is cloned, in both forms, and the clones equal it.
fn is_cloned<T: EntryClone + Drop>(item: &T) -> bool {
    match (item.entry_clone(), EntryCopier.copy(item)) {
        (Ok(copied), Ok(again)) => copied == *item && again == *item,
        _ => false,
    }
}

// Whether `least` is the least value of its type, `other` isn't, and both are cloned.
fn are<T: RangeSetEntry + EntryClone + Drop>(alloc: Global, least: &T, other: &T) -> bool {
    least.known();
    has_least(alloc, least)
        && least.is_min_value()
        && !other.is_min_value()
        && least < other
        && is_cloned(least)
        && is_cloned(other)
}

// The same of two elements that may not be there.
fn both<T: RangeSetEntry + EntryClone + Drop>(
    alloc: Global,
    least: Option<T>,
    other: Option<T>,
) -> bool {
    matches!((&least, &other), (Some(least), Some(other)) if are(alloc, least, other))
}

#[test]
fn whole_numbers_begin_with_their_least(rt: HostRuntime) {
    let alloc = rt.alloc();
    let begin = [
        are(alloc, &0u8, &255),
        are(alloc, &0u16, &65_535),
        are(alloc, &0u32, &1),
        are(alloc, &0u64, &1),
        are(alloc, &0u128, &1),
        are(alloc, &0usize, &1),
        are(alloc, &-128i8, &127),
        are(alloc, &-32_768i16, &0),
        are(alloc, &-2_147_483_648i32, &0),
        are(alloc, &-9_223_372_036_854_775_808i64, &0),
        are(alloc, &i128::MIN, &0),
        are(alloc, &isize::MIN, &0),
    ];
    assert_eq!(rt; begin, [true; 12]);
}

#[test]
fn characters_begin_with_the_least(rt: HostRuntime) {
    for c in ['\u{1}', 'a', '\u{D7FF}', '\u{E000}', '\u{10FFFF}'] {
        assert!(rt; are(rt.alloc(), &'\0', &c), "{c:?}");
    }
}

// Whether this number is there, or none.
fn is_number(found: Option<NonZeroU8>, want: Option<u8>) -> bool {
    match found {
        Some(number) => want == Some(number.get()),
        None => want.is_none(),
    }
}

#[test]
fn numbers_other_than_0_begin_with_1(rt: HostRuntime) {
    let alloc = rt.alloc();
    let begin = [
        both(alloc, NonZeroU8::new(1), NonZeroU8::new(255)),
        both(alloc, NonZeroU16::new(1), NonZeroU16::new(2)),
        both(alloc, NonZeroU32::new(1), NonZeroU32::new(2)),
        both(alloc, NonZeroU64::new(1), NonZeroU64::new(2)),
        both(alloc, NonZeroU128::new(1), NonZeroU128::new(2)),
        both(alloc, NonZeroUsize::new(1), NonZeroUsize::new(2)),
        is_number(NonZeroU8::new(0), None),
        is_number(NonZeroU8::new(7), Some(7)),
    ];
    assert_eq!(rt; begin, [true; 8]);
}

#[test]
fn those_of_the_library_begin_with_1(rt: HostRuntime) {
    let alloc = rt.alloc();
    let begin = [
        are(alloc, &num::NonZeroU8::MIN, &num::NonZeroU8::MAX),
        are(alloc, &num::NonZeroU16::MIN, &num::NonZeroU16::MAX),
        are(alloc, &num::NonZeroU32::MIN, &num::NonZeroU32::MAX),
        are(alloc, &num::NonZeroU64::MIN, &num::NonZeroU64::MAX),
        are(alloc, &num::NonZeroU128::MIN, &num::NonZeroU128::MAX),
        are(alloc, &num::NonZeroUsize::MIN, &num::NonZeroUsize::MAX),
    ];
    assert_eq!(rt; begin, [true; 6]);
}

// Whether the texts and lists without an item are the least ones.
fn owned_begin_empty(alloc: Global) -> Result<bool, AllocError> {
    let (text, list) = (String::from_str(alloc, "ab")?, [1u8, 2].to_vec(alloc)?);
    Ok(are(alloc, &String::new(alloc), &text) && are(alloc, &Vec::new(alloc), &list))
}

#[test]
fn options_texts_and_lists_begin_with_the_empty_one(rt: HostRuntime) {
    let (alloc, none) = (rt.alloc(), [].as_slice());
    let begin = [
        are(alloc, &None, &Some(3u8)),
        are(alloc, &"", &"ab"),
        are(alloc, &none, &[1u8, 2].as_slice()),
        owned_begin_empty(alloc) == Ok(true),
    ];
    assert_eq!(rt; begin, [true; 4]);
}

// Whether the items are appended after the front of a list, which stays: by the copier, or else by
// the type's own call.
fn appends_by<T: EntryClone + Drop, C: Copier<T>>(
    alloc: Global,
    copier: Option<&C>,
    front: &T,
    items: &[T],
) -> Result<bool, AllocError> {
    let mut list = Vec::new(alloc);
    list.push(front.entry_clone()?)?;
    match copier {
        Some(copier) => copier.append(&mut list, items)?,
        None => T::append_clones(&mut list, items)?,
    }
    Ok(list.as_slice().split_first() == Some((front, items)))
}

// Whether both do.
fn append<T: EntryClone + Drop>(alloc: Global, front: &T, items: &[T]) -> bool {
    appends_by(alloc, Some(&EntryCopier), front, items) == Ok(true)
        && appends_by(alloc, None::<&EntryCopier>, front, items) == Ok(true)
}

// Whether texts are, and lists of bytes.
fn owned_append(alloc: Global) -> Result<bool, AllocError> {
    let texts = [
        String::from_str(alloc, "ab")?,
        String::new(alloc),
        String::from_str(alloc, "c")?,
    ];
    let front = String::from_str(alloc, "front")?;
    let lists = [[1u8, 2].to_vec(alloc)?, Vec::new(alloc)];
    Ok(append(alloc, &front, &texts) && append(alloc, &[3].to_vec(alloc)?, &lists))
}

#[test]
fn copies_in_bulk_are_all_items_in_order(rt: HostRuntime) -> Result<(), Fail> {
    let alloc = rt.alloc();
    let many = numbers(alloc, 0, 1000)?;
    let back = [from_end(5), from_end(9), from_end(5)];
    let are_copied = [
        append(alloc, &-7i64, many.as_slice()),
        append(alloc, &-7i64, &[]),
        append(alloc, &9u8, &[3, 1, 2, 3]),
        append(alloc, &None, &[Some(3u8), None, Some(1)]),
        append(alloc, &from_end(7), &back),
        appends_by(alloc, Some(&Copies), &5, &[7, 6]) == Ok(true),
        owned_append(alloc) == Ok(true),
    ];
    assert_eq!(rt; are_copied, [true; 7]);
    Ok(())
}

// Whether copies of elements that differ by their letters alone have the letters of the originals.
fn letters_stay(alloc: Global) -> Result<bool, AllocError> {
    let mut list = Vec::new(alloc);
    list.push(with_letter(1, b'a'))?;
    EntryClone::append_clones(&mut list, &[with_letter(1, b'b'), with_letter(1, b'c')])?;
    Ok(letters_are(list.as_slice(), &[(1, b'a'), (1, b'b'), (1, b'c')]))
}

#[test]
fn copies_in_bulk_are_those_of_the_items(rt: HostRuntime) {
    assert!(rt; letters_stay(rt.alloc()) == Ok(true));
}
