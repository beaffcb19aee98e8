//! Inputs that give little at once, and fail; outputs that take little at once, and fail.
use crate::sink::Sink;
use range_chunked_tracker::ChunkedTracker;
use range_track_answers::{Status, serve};
use std::alloc::Global;
use std::io::{self, ErrorKind, Read, Write};

/// An input that gives `at_once` bytes at once, and at its end an error if it fails.
#[derive(Drop)]
struct Source<'a> {
    unread: &'a [u8],
    at_once: usize,
    fails: bool,
}

impl Read for Source<'_> {
    fn read(&mut self, buf: &mut [u8]) -> io::Result<usize> {
        let n = buf.len().min(self.at_once).min(self.unread.len());
        if n == 0 && self.fails {
            return Err(io::Error::from(ErrorKind::ConnectionReset));
        }
        let (given, unread) = self.unread.split_at(n);
        buf[..n].copy_from_slice(given);
        self.unread = unread;
        Ok(n)
    }
}

/// Commands of each kind, of which the last has no newline.
const INPUT: &[u8] = b"+ 0 10\n- 4 5\nmissing 12\n? 0 10\nranges\nx\nranges";

/// What answers them where two boundaries are the most.
const TEXT: &[u8] = b"ok\ntoo many 4\n10,12\ntrue\n0..10\nbad line\n0..10\n";

/// The kind of the error that ends the answers, if one does.
fn failure<R: Read + Drop>(alloc: Global, input: R, out: &mut Sink) -> Option<ErrorKind> {
    let Ok(mut tracker) = ChunkedTracker::new(alloc, 2) else {
        return Some(ErrorKind::OutOfMemory);
    };
    match serve(&mut tracker, input, out) {
        Ok(()) => None,
        Err(error) => Some(error.kind()),
    }
}

/// How many newlines there are.
fn newlines(bytes: &[u8]) -> usize {
    bytes.iter().filter(|byte| **byte == b'\n').count()
}

/// Whether `lines` lines are written, and they are the first ones.
fn is_front(out: &Sink, lines: usize) -> bool {
    let taken = out.taken.as_slice();
    newlines(taken) == lines && TEXT.starts_with(taken)
}

/// Whether `at_once` bytes at once, given and taken, are enough, and each line is flushed.
fn is_enough(alloc: Global, at_once: usize) -> bool {
    let source = Source {
        unread: INPUT,
        at_once,
        fails: false,
    };
    let mut out = Sink::flushed(alloc, newlines(TEXT));
    out.at_once = at_once;
    failure(alloc, source, &mut out).is_none() && out.taken.as_slice() == TEXT && out.flushes == 0
}

#[test]
fn one_byte_at_once_is_enough(rt: HostRuntime) {
    for at_once in [1, 2, 3, usize::MAX] {
        assert!(rt; is_enough(rt.alloc(), at_once), "{at_once} at once");
    }
}

/// Whether the error of an input that fails after these bytes is passed on, and the lines before it
/// are answered.
fn fails_after(alloc: Global, unread: &[u8]) -> bool {
    let source = Source {
        unread,
        at_once: 5,
        fails: true,
    };
    let lines = newlines(unread);
    let mut out = Sink::flushed(alloc, lines);
    failure(alloc, source, &mut out) == Some(ErrorKind::ConnectionReset)
        && out.flushes == 0
        && is_front(&out, lines)
}

#[test]
fn an_input_that_fails_passes_its_error_on(rt: HostRuntime) {
    for length in 0..=INPUT.len() {
        assert!(rt; fails_after(rt.alloc(), &INPUT[..length]), "{length} bytes");
    }
}

/// The kind of the error of an output that takes no more than these bytes, if it takes them.
fn failure_of(alloc: Global, at_once: usize, taken: &[u8]) -> Option<ErrorKind> {
    let mut out = Sink::taking(alloc, at_once, taken.len());
    let failure = failure(alloc, INPUT, &mut out);
    if out.taken.as_slice() == taken {
        failure
    } else {
        None
    }
}

#[test]
fn an_output_that_fails_passes_its_error_on(rt: HostRuntime) {
    for room in 0..TEXT.len() {
        let failure = failure_of(rt.alloc(), usize::MAX, &TEXT[..room]);
        assert_eq!(rt; failure, Some(ErrorKind::BrokenPipe), "room for {room}");
    }
}

#[test]
fn an_output_that_takes_nothing_is_an_error(rt: HostRuntime) {
    let mut out = Sink::taking(rt.alloc(), 0, usize::MAX);
    assert_eq!(rt;
        failure(rt.alloc(), INPUT, &mut out),
        Some(ErrorKind::WriteZero)
    );
    assert!(rt; out.taken.is_empty());
}

/// Whether the error of an output that can be flushed so often is passed on, and one line more is
/// written.
fn is_flushed(alloc: Global, flushes: usize) -> bool {
    let mut out = Sink::flushed(alloc, flushes);
    failure(alloc, INPUT, &mut out) == Some(ErrorKind::TimedOut)
        && is_front(&out, flushes.saturating_add(1))
}

#[test]
fn a_flush_that_fails_passes_its_error_on(rt: HostRuntime) {
    for flushes in 0..newlines(TEXT) {
        assert!(rt; is_flushed(rt.alloc(), flushes), "{flushes} flushes");
    }
}

/// An output whose error is of this kind.
#[derive(Drop)]
struct Broken(ErrorKind);

impl Write for Broken {
    fn write(&mut self, _buf: &[u8]) -> io::Result<usize> {
        Err(io::Error::from(self.0))
    }

    fn flush(&mut self) -> io::Result<()> {
        Ok(())
    }
}

/// Whether the status is written to an output that takes everything.
fn is_told(alloc: Global, status: Status) -> bool {
    let mut out = Vec::new(alloc);
    status.write_line(&mut out, b"line\n") == status && out.as_slice() == b"line\n".as_slice()
}

#[test]
fn a_status_that_is_not_told_is_a_failure(rt: HostRuntime) {
    for status in [Status::BadLimit, Status::NoMemory] {
        for kind in [ErrorKind::OutOfMemory, ErrorKind::BrokenPipe] {
            assert_eq!(rt;
                status.write_line(&mut Broken(kind), b"line\n"),
                Status::Failed
            );
        }
        assert!(rt; is_told(rt.alloc(), status), "{status:?}");
    }
}
