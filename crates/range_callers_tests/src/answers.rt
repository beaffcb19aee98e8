//! What answers the words of the calculator, whatever the output takes.
use crate::sink::Sink;
use range_calc_answers::{Status, answer, out_of_memory};
use range_tests_kit::words::{ANSWERED, BAD, Row, TEXTS, UNREAD, UNSORTED, UNSORTED_AND_LONG};
use std::alloc::{AllocError, Global};
use std::io::{self, ErrorKind};

/// A call that writes one line.
#[derive(Clone, Copy)]
enum Call<'a> {
    /// The answer to these words.
    Words(&'a [String]),
    /// The line that says that memory ran out.
    NoMemory,
}

/// What the call answers.
fn run(alloc: Global, call: Call<'_>, out: &mut Sink) -> io::Result<Status> {
    match call {
        Call::Words(words) => answer(alloc, words, out),
        Call::NoMemory => out_of_memory(out),
    }
}

/// The status that goes with a line.
fn status_of(line: &str) -> Status {
    match line {
        "out of memory" => Status::NoMemory,
        "bad words" => Status::BadWords,
        "not strictly sorted" => Status::NotSorted,
        "bad json" => Status::BadJson,
        _ => Status::Answered,
    }
}

/// Whether an output with so much room has the whole line, with a newline.
fn writes(alloc: Global, call: Call<'_>, line: &str, at_once: usize, room: usize) -> bool {
    let mut out = Sink::taking(alloc, at_once, room);
    match run(alloc, call, &mut out) {
        Ok(status) => {
            status == status_of(line) && out.taken.split_last() == Some((&b'\n', line.as_bytes()))
        }
        Err(_) => false,
    }
}

/// The kind of the error of an output with so little room, if that has a front of the line.
fn failure(
    alloc: Global,
    call: Call<'_>,
    line: &str,
    at_once: usize,
    room: usize,
) -> Option<ErrorKind> {
    let mut out = Sink::taking(alloc, at_once, room);
    match run(alloc, call, &mut out) {
        Err(error) if line.as_bytes().starts_with(out.taken.as_slice()) => Some(error.kind()),
        _ => None,
    }
}

/// Whether each output that takes `at_once` bytes at once has the line, or as much of it as it has
/// room for.
fn is_answered_by(alloc: Global, call: Call<'_>, line: &str, at_once: usize) -> bool {
    for room in 0..=line.len() {
        if failure(alloc, call, line, at_once, room) != Some(ErrorKind::BrokenPipe) {
            return false;
        }
    }
    let length = line.len().saturating_add(1);
    writes(alloc, call, line, at_once, length)
        && writes(alloc, call, line, at_once, length.saturating_add(1))
        && writes(alloc, call, line, at_once, usize::MAX)
}

/// Whether each output has the line: one that takes one byte at once, all of them, or none.
fn is_answered(alloc: Global, call: Call<'_>, line: &str) -> bool {
    is_answered_by(alloc, call, line, 1)
        && is_answered_by(alloc, call, line, usize::MAX)
        && failure(alloc, call, "", 0, usize::MAX) == Some(ErrorKind::WriteZero)
}

/// What a row gives.
#[derive(Clone, Copy)]
enum Given {
    /// Words, cut at each blank.
    Command,
    /// A text of `json`.
    Text,
}

/// The words of a row.
fn words_of(alloc: Global, given: Given, row: &str) -> Result<Vec<String>, AllocError> {
    let mut words = Vec::new(alloc);
    match given {
        Given::Command => {
            for word in row.split(' ') {
                words.push(String::from_str(alloc, word)?)?;
            }
        }
        Given::Text => {
            words.push(String::from_str(alloc, "json")?)?;
            words.push(String::from_str(alloc, row)?)?;
        }
    }
    Ok(words)
}

/// Whether the row is answered by this line.
fn is_right(alloc: Global, given: Given, row: &str, line: &str) -> bool {
    match words_of(alloc, given, row) {
        Ok(words) => is_answered(alloc, Call::Words(words.as_slice()), line),
        Err(_) => false,
    }
}

/// The first row that isn't answered by its line.
fn wrong(alloc: Global, given: Given, rows: &[Row]) -> Option<&'static str> {
    for row in rows {
        if !is_right(alloc, given, row.given, row.line) {
            return Some(row.given);
        }
    }
    None
}

#[test]
fn commands_have_their_lines(rt: HostRuntime) {
    assert_eq!(rt; wrong(rt.alloc(), Given::Command, &ANSWERED), None);
    assert_eq!(rt; wrong(rt.alloc(), Given::Command, &UNSORTED), None);
    assert_eq!(rt; wrong(rt.alloc(), Given::Command, &UNSORTED_AND_LONG), None);
}

#[test]
fn what_is_no_command_is_bad_words(rt: HostRuntime) {
    assert_eq!(rt; wrong(rt.alloc(), Given::Command, &BAD), None);
    assert!(rt; is_answered(rt.alloc(), Call::Words(&[]), "bad words"));
}

#[test]
fn texts_of_json_have_their_lines(rt: HostRuntime) {
    assert_eq!(rt; wrong(rt.alloc(), Given::Text, &TEXTS), None);
    assert_eq!(rt; wrong(rt.alloc(), Given::Text, &UNREAD), None);
    assert!(rt; is_right(rt.alloc(), Given::Text, "", "bad json"));
}

/// Whether a text of `depth` opening brackets, and as many closing ones, is bad JSON.
fn is_too_deep(alloc: Global, depth: usize) -> bool {
    match ("[".repeat(alloc, depth), "]".repeat(alloc, depth)) {
        (Ok(mut text), Ok(end)) => {
            text.push_str(end.as_str()).is_ok()
                && is_right(alloc, Given::Text, text.as_str(), "bad json")
        }
        _ => false,
    }
}

#[test]
fn a_text_as_deep_as_is_read_is_bad_json(rt: HostRuntime) {
    for depth in [2, 127, 128] {
        assert!(rt; is_too_deep(rt.alloc(), depth), "depth {depth}");
    }
}

#[test]
fn a_failed_allocation_has_its_line(rt: HostRuntime) {
    assert!(rt; is_answered(rt.alloc(), Call::NoMemory, "out of memory"));
}

#[test]
fn codes_are_as_documented(rt: HostRuntime) {
    assert_eq!(rt; Status::Answered.code(), 0);
    assert_eq!(rt; Status::NoMemory.code(), 1);
    assert_eq!(rt; Status::BadWords.code(), 2);
    assert_eq!(rt; Status::NotSorted.code(), 3);
    assert_eq!(rt; Status::BadJson.code(), 4);
}
