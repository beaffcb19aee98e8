//! What answers the lines that ask something of a tracker, and which limit the arguments ask for.
use range_chunked_tracker::ChunkedTracker;
use range_track_answers::{Status, limit_asked, serve};
use std::alloc::{AllocError, Global};

/// An input, and the text that answers it if four boundaries are the most.
#[derive(Clone, Copy)]
struct Answered<'a> {
    input: &'a str,
    text: &'a str,
}

#[rattlefmt::skip]
const INPUTS: [Answered; 9] = [
    Answered {
        input: "+ 0 10\n+ 20 30\n+ 40 50\n+ 10 20\nranges\n- 5 6\nranges\n- 10 12\n? 0 5\n? 4 7\n? 7 7\nmissing 40\nmissing 0\n",
        text: "ok\nok\ntoo many 6\nok\n0..30\nok\n0..5, 6..30\ntoo many 6\ntrue\nfalse\ntrue\n5,6,30,40\n-\n",
    },
    Answered { input: "", text: "" },
    Answered { input: "ranges", text: "-\n" },
    Answered { input: "ranges\n", text: "-\n" },
    Answered { input: "ranges\n\n", text: "-\nbad line\n" },
    Answered { input: "+ 5 5\n+ 9 3\n- 9 3\nranges\nmissing 3", text: "ok\nok\nok\n-\n0,3\n" },
    Answered {
        input: "+ 0 18446744073709551615\n? 18446744073709551614 18446744073709551615\nmissing 18446744073709551615\n",
        text: "ok\ntrue\n-\n",
    },
    Answered { input: "+ 00000000000000000000 00000000000000000007\nranges\n", text: "ok\n0..7\n" },
    Answered {
        input: "+ 0 2\n- 0 1\n? 0 1\n? 1 2\n? 3 2\nmissing 2\n- 0 9\nranges\n",
        text: "ok\nok\nfalse\ntrue\ntrue\n0,1\nok\n-\n",
    },
];

/// Whether the input is answered by this text.
fn is_answered(alloc: Global, input: &[u8], text: &str) -> bool {
    let Ok(mut tracker) = ChunkedTracker::new(alloc, 4) else {
        return false;
    };
    let mut out = Vec::new(alloc);
    match serve(&mut tracker, input, &mut out) {
        Ok(()) => out.as_slice() == text.as_bytes(),
        Err(_) => false,
    }
}

#[test]
fn inputs_are_answered_line_by_line(rt: HostRuntime) {
    for Answered { input, text } in INPUTS {
        assert!(rt;
            is_answered(rt.alloc(), input.as_bytes(), text),
            "{input:?}"
        );
    }
}

/// Lines that ask nothing.
const BAD: [&str; 30] = [
    "",
    " ",
    "+",
    "+ 1",
    "+ 1 ",
    "+ 1 2 3",
    "+ 1 2 ",
    "+  1 2",
    "+ 1  2",
    " + 1 2",
    "+1 2",
    "+ 1\t2",
    "+ 1,2",
    "+ -1 2",
    "+ +1 2",
    "+ 1 x",
    "+ 1 2\r",
    "++ 1 2",
    "add 1 2",
    "+ 18446744073709551616 1",
    "+ 1 18446744073709551616",
    "+ 000000000000000000001 2",
    "? 1",
    "missing",
    "missing ",
    "missing x",
    "missing 1 2",
    "ranges 1",
    "ranges ",
    "RANGES",
];

/// Whether the line is a bad one, which changes nothing.
fn is_bad(alloc: Global, line: &str) -> bool {
    match format!(in alloc; "+ 3 4\n{line}\nranges\n") {
        Ok(input) => is_answered(alloc, input.as_bytes(), "ok\nbad line\n3..4\n"),
        Err(_) => false,
    }
}

#[test]
fn bad_lines_change_nothing(rt: HostRuntime) {
    for line in BAD {
        assert!(rt; is_bad(rt.alloc(), line), "{line:?}");
    }
}

#[test]
fn bytes_that_are_no_text_are_a_bad_line(rt: HostRuntime) {
    let input = b"+ 1 2\xff\n\xc3\n+ 1 2\n";
    assert!(rt; is_answered(rt.alloc(), input, "bad line\nbad line\nok\n"));
}

/// A line with `blanks` blanks between two commands, and two lines more.
fn long_line(alloc: Global, blanks: usize) -> Result<String, AllocError> {
    let mut input = String::from_str(alloc, "+ 1 2")?;
    for _ in 0..blanks {
        input.push(' ')?;
    }
    input.push_str("+ 1 2\nranges\n+ 1 2")?;
    Ok(input)
}

/// Whether a line with `blanks` blanks is a bad one, up to its end.
fn is_too_long(alloc: Global, blanks: usize) -> bool {
    match long_line(alloc, blanks) {
        Ok(input) => is_answered(alloc, input.as_bytes(), "bad line\n-\nok\n"),
        Err(_) => false,
    }
}

#[test]
fn long_lines_are_bad_lines_up_to_their_end(rt: HostRuntime) {
    for blanks in [58usize, 59, 60, 61, 10_000] {
        assert!(rt; is_too_long(rt.alloc(), blanks), "{blanks} blanks");
    }
}

/// A word, and the limit that it asks for.
#[derive(Clone, Copy)]
struct Limit<'a> {
    word: &'a str,
    limit: Option<usize>,
}

#[rattlefmt::skip]
const LIMITS: [Limit; 14] = [
    Limit { word: "", limit: None },
    Limit { word: "0", limit: Some(0) },
    Limit { word: "4", limit: Some(4) },
    Limit { word: "007", limit: Some(7) },
    Limit { word: "18446744073709551613", limit: Some(usize::MAX - 2) },
    Limit { word: "18446744073709551614", limit: None },
    Limit { word: "18446744073709551615", limit: None },
    Limit { word: "18446744073709551616", limit: None },
    Limit { word: "000000000000000000001", limit: None },
    Limit { word: "-1", limit: None },
    Limit { word: "+1", limit: None },
    Limit { word: "1.0", limit: None },
    Limit { word: "x", limit: None },
    Limit { word: "1x", limit: None },
];

/// The limit that the word asks for if it is there `times` times, if there is memory for the words.
fn limit_of(alloc: Global, word: &str, times: usize) -> Result<Option<usize>, AllocError> {
    let mut words = Vec::new(alloc);
    for _ in 0..times {
        words.push(String::from_str(alloc, word)?)?;
    }
    Ok(limit_asked(words.as_slice()))
}

#[test]
fn limits_are_read_from_the_arguments(rt: HostRuntime) {
    let alloc = rt.alloc();
    for Limit { word, limit } in LIMITS {
        assert_eq!(rt; limit_of(alloc, word, 1), Ok(limit), "{word:?}");
    }
    assert_eq!(rt; limit_of(alloc, "", 0), Ok(Some(1_000_000)));
    assert_eq!(rt; limit_of(alloc, "4", 2), Ok(None));
    assert_eq!(rt; limit_of(alloc, "4", 3), Ok(None));
}

#[test]
fn codes_are_as_documented(rt: HostRuntime) {
    assert_eq!(rt; Status::Ended.code(), 0);
    assert_eq!(rt; Status::NoMemory.code(), 1);
    assert_eq!(rt; Status::BadLimit.code(), 2);
    assert_eq!(rt; Status::Failed.code(), 5);
}
