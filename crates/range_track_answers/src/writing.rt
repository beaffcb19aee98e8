//! The lines that the program writes, each with its newline.
ghost use Rattle.std.specs.Prelude.{[], ◌∷◌, ◌++◌, OnOk, decimal};
ghost use Rattle.std.specs.Io.KnownBytes.{Appends};
ghost use Rattle.range_collections.specs.Ranges.{range_now};
ghost use Rattle.range_collections.specs.Text.{range_text};
ghost use Rattle.range_track_answers.specs.Answers.{reply_text, truth_text, list_text, ranges_line};

use range_chunks::{Gaps, Iter};
use range_collections::RangeSetRange;
use range_tracker::TrackError;
use std::io::{self, Write};

/// The reply to a command.
pub fn write_reply<W: Write>(out: &mut W, reply: Result<(), TrackError>) -> io::Result<()>
    ensures { OnOk result (Appends (W.contents out.old) (W.contents out.new)
        (reply_text reply ++ 10 ∷ [])) }
{
    match reply {
        Ok(()) => out.write_all(b"ok\n"),
        Err(TrackError::TooMany { boundaries }) => write!(out, "too many {boundaries}\n"),
        Err(TrackError::OutOfMemory) => out.write_all(b"out of memory\n"),
    }
}

/// `true` or `false`.
pub fn write_truth<W: Write>(out: &mut W, truth: bool) -> io::Result<()>
    ensures { OnOk result (Appends (W.contents out.old) (W.contents out.new)
        (truth_text truth ++ 10 ∷ [])) }
{
    if truth {
        out.write_all(b"true\n")
    } else {
        out.write_all(b"false\n")
    }
}

/// The ends of the gaps as one word.
pub fn write_gaps<W: Write>(out: &mut W, mut gaps: Gaps<'_, u64>) -> io::Result<()>
    ensures { OnOk result (Appends (W.contents out.old) (W.contents out.new)
        (list_text gaps.entry ++ 10 ∷ [])) }
{
    let Some(first) = gaps.next() else {
        return out.write_all(b"-\n");
    };
    write!(out, "{},{}", first.start, first.end)?;
    for gap in gaps {
        write!(out, ",{},{}", gap.start, gap.end)?;
    }
    out.write_all(b"\n")
}

/// The ranges of a list of boundaries.
pub fn write_ranges<W: Write>(out: &mut W, mut ranges: Iter<'_, u64>) -> io::Result<()>
    ensures { OnOk result (Appends (W.contents out.old) (W.contents out.new)
        (ranges_line ranges.entry ++ 10 ∷ [])) }
{
    let Some(first) = ranges.next() else {
        return out.write_all(b"-\n");
    };
    write_range(out, &first)?;
    for range in ranges {
        out.write_all(b", ")?;
        write_range(out, &range)?;
    }
    out.write_all(b"\n")
}

/// One range.
fn write_range<W: Write>(out: &mut W, range: &RangeSetRange<&u64>) -> io::Result<()>
    ensures { OnOk result (Appends (W.contents out.old) (W.contents out.new)
        (range_text decimal (range_now range.now))) }
{
    match range {
        RangeSetRange::Range(range) => write!(out, "{}..{}", range.start, range.end),
        RangeSetRange::RangeFrom(range) => write!(out, "{}..", range.start),
    }
}
