//! The texts of ranges, runs and errors.
use range_collections::{Expected, JsonError, ParseError, RangeSetRange, Run};
use range_tests_kit::lists::prints;
use std::alloc::{AllocError, Global};
use std::error::Error;
use std::fmt::Display;

// Whether the value has this text.
fn reads<T: Display>(alloc: Global, value: &T, want: &str) -> bool {
    match format!(in alloc; "{value}") {
        Ok(text) => text.as_str() == want,
        Err(_) => false,
    }
}

#[test]
fn ranges_of_characters_are_printed_with_quotes(rt: HostRuntime) {
    let alloc = rt.alloc();
    assert!(rt; prints(alloc, &RangeSetRange::from('a'..'{'), "'a'..'{'"));
    assert!(rt; prints(alloc, &RangeSetRange::from('\t'..), "'\\t'.."));
}

#[test]
fn ranges_and_runs_are_printed(rt: HostRuntime) {
    let alloc = rt.alloc();
    let right = [
        prints(alloc, &RangeSetRange::from(2u8..5), "2..5"),
        prints(alloc, &RangeSetRange::from(2u8..), "2.."),
        prints(alloc, &Run::Left(3), "Left(3)"),
        prints(alloc, &Run::Right(1), "Right(1)"),
        prints(alloc, &Run::Both, "Both"),
    ];
    assert_eq!(rt; right, [true; 5]);
}

// Whether the error has this text.
fn says<E: Error + Drop>(alloc: Global, error: E, want: &str) -> bool {
    reads(alloc, &error, want)
}

// Whether that something was expected at a byte does.
fn expects(alloc: Global, at: usize, expected: Expected, want: &str) -> bool {
    says(alloc, ParseError::Malformed { at, expected }, want)
}

#[test]
fn errors_say_why(rt: HostRuntime) {
    let alloc = rt.alloc();
    let item = JsonError::NotInteger { index: 12 };
    let right = [
        says(alloc, JsonError::NotArray, "the value is no array"),
        says(alloc, item, "item 12 is no whole number of 64 bits"),
        says(alloc, JsonError::OutOfMemory, "memory ran out"),
        expects(
            alloc,
            0,
            Expected::Number,
            "a number was expected at byte 0",
        ),
        expects(alloc, 3, Expected::Dot, "a dot was expected at byte 3"),
        expects(
            alloc,
            12,
            Expected::Comma,
            "a comma or the end was expected at byte 12",
        ),
        says(
            alloc,
            ParseError::OutOfRange,
            "a number is past those of its type",
        ),
        says(alloc, ParseError::OutOfMemory, "memory ran out"),
    ];
    assert_eq!(rt; right, [true; 8]);
}

#[test]
fn a_refused_allocation_is_an_error_of_each_call(rt: HostRuntime) {
    assert!(rt; ParseError::from(AllocError) == ParseError::OutOfMemory);
    assert!(rt; JsonError::from(AllocError) == JsonError::OutOfMemory);
}
