//! Answers the lines of an input, one after another.
ghost use Rattle.std.specs.Prelude.{List, map, OnOk, IfSome, ◌≡◌, Some};
ghost use Rattle.std.specs.Io.KnownBytes.{Appends};
ghost use Rattle.range_tracker.specs.Tracked.{recorded};
ghost use Rattle.range_track_answers.specs.Answers.{Answer, AreAnswers, answers_text, IsAnswered};
ghost use Rattle.range_track_answers.specs.Lines.{IsLine, lines_of};
ghost use Rattle.range_track_answers.specs.Requests.{request_of};

use crate::line::{Ending, read_line};
use crate::request::Request;
use crate::writing::{write_gaps, write_ranges, write_reply, write_truth};
use arrayvec::ArrayVec;
use range_chunked_tracker::ChunkedTracker;
use std::io::{self, ErrorKind, Read, Write};

/// Answers each line of the input before it reads the next, until the input ends.
///
/// An error is one of the reader or of the writer, and nothing is said then of what was written.
pub fn serve<R: Read + Drop, W: Write>(
    tracker: &mut ChunkedTracker,
    reader: R,
    out: &mut W,
) -> io::Result<()>
    // What was written are the answers of the input's lines, in order.
    ensures answers { OnOk result (IfSome (R.remaining reader) (λ text. (answers : List Answer) ×
        AreAnswers tracker.old.limit (recorded tracker.old) (map request_of (lines_of text)) answers ×
        Appends (W.contents out.old) (W.contents out.new) (answers_text answers))) }
{
    let mut bytes = reader.bytes();
    let mut line = ArrayVec::new();
    for _ in 0..u64::MAX {
        match read_line(&mut bytes, &mut line)? {
            Ending::Newline => answer(tracker, line.as_slice(), out)?,
            Ending::Input => return answer_last(tracker, line.as_slice(), out),
        }
    }
    Err(io::Error::from(ErrorKind::Other))
}

/// Answers what comes after the last newline, if that isn't empty.
fn answer_last<W: Write>(tracker: &mut ChunkedTracker, line: &[u8], out: &mut W) -> io::Result<()>
    requires { IsLine line.now }
    ensures { OnOk result ((answers : List Answer) × AreAnswers tracker.old.limit
        (recorded tracker.old) (map request_of (lines_of line.now)) answers ×
        Appends (W.contents out.old) (W.contents out.new) (answers_text answers)) }
{
    if line.is_empty() {
        Ok(())
    } else {
        answer(tracker, line, out)
    }
}

/// Answers the line with one line, and flushes it.
pub fn answer<W: Write>(tracker: &mut ChunkedTracker, line: &[u8], out: &mut W) -> io::Result<()>
    ensures answered { OnOk result (IsAnswered tracker.old.limit (recorded tracker.old)
        (recorded tracker.new) (request_of line.now) (W.contents out.old) (W.contents out.new)) }
    ensures limit { tracker.new.limit ≡ tracker.old.limit }
{
    write_answer(tracker, line, out)?;
    out.flush()
}

/// Writes the answer to the line.
fn write_answer<W: Write>(tracker: &mut ChunkedTracker, line: &[u8], out: &mut W) -> io::Result<()>
    ensures answered { OnOk result (IsAnswered tracker.old.limit (recorded tracker.old)
        (recorded tracker.new) (request_of line.now) (W.contents out.old) (W.contents out.new)) }
    ensures limit { tracker.new.limit ≡ tracker.old.limit }
{
    match Request::of(line) {
        Some(Request::Do(command)) => write_reply(out, tracker.apply(&command)),
        Some(Request::Has(range)) => write_truth(out, tracker.has(range)),
        Some(Request::Missing(len)) => write_missing(out, tracker, len),
        Some(Request::Ranges) => write_ranges(out, tracker.ranges()),
        None => out.write_all(b"bad line\n"),
    }
}

/// Writes the offsets below the length that aren't there, which takes no memory.
fn write_missing<W: Write>(out: &mut W, tracker: &ChunkedTracker, len: u64) -> io::Result<()>
    ensures { OnOk result (IsAnswered tracker.now.limit (recorded tracker.now)
        (recorded tracker.now) (Some (Request.Missing len))
        (W.contents out.old) (W.contents out.new)) }
{
    write_gaps(out, tracker.gaps(&0..&len))
}
