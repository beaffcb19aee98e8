//! A tracker of offsets: what answers its commands, and what is there then.
use range_tests_kit::lists::{are_ranges_between, prints};
use range_tracker::{Command, TrackError, Tracker};
use std::alloc::Global;
use std::ops::Range;

pub(crate) type Reply = Result<(), TrackError>;

/// The refusal of a command that would leave this many boundaries.
pub(crate) fn too_many(boundaries: usize) -> Reply {
    Err(TrackError::TooMany { boundaries })
}

const TWO: Reply = Err(TrackError::TooMany { boundaries: 2 });

const FOUR: Reply = Err(TrackError::TooMany { boundaries: 4 });

const SIX: Reply = Err(TrackError::TooMany { boundaries: 6 });

/// Whether these are the offsets that are missing below the length.
pub(crate) fn misses(tracker: &Tracker, len: u64, want: &[u64]) -> bool {
    match tracker.missing(len) {
        Ok(missing) => missing.boundaries() == want,
        Err(_) => false,
    }
}

/// A limit, commands with their replies, and the boundaries of the ranges that are there then.
struct Row<'a> {
    limit: usize,
    commands: [Command; 6],
    replies: [Reply; 6],
    ranges: &'a [u64],
}

const ROWS: [Row; 4] = [
    Row {
        limit: 4,
        commands: [
            Command::Add(0..10),
            Command::Add(20..30),
            Command::Add(40..50),
            Command::Add(10..20),
            Command::Forget(5..6),
            Command::Forget(10..12),
        ],
        replies: [Ok(()), Ok(()), SIX, Ok(()), Ok(()), SIX],
        ranges: &[0, 5, 6, 30],
    },
    Row {
        limit: 0,
        commands: [
            Command::Add(5..5),
            Command::Add(9..3),
            Command::Add(0..1),
            Command::Forget(0..1),
            Command::Add(7..8),
            Command::Forget(8..7),
        ],
        replies: [Ok(()), Ok(()), TWO, Ok(()), TWO, Ok(())],
        ranges: &[],
    },
    Row {
        limit: 2,
        commands: [
            Command::Add(0..10),
            Command::Add(5..20),
            Command::Forget(4..5),
            Command::Forget(20..30),
            Command::Forget(0..2),
            Command::Add(20..u64::MAX),
        ],
        replies: [Ok(()), Ok(()), FOUR, Ok(()), Ok(()), Ok(())],
        ranges: &[2, u64::MAX],
    },
    Row {
        limit: 4,
        commands: [
            Command::Add(0..u64::MAX),
            Command::Forget(4..5),
            Command::Forget(7..8),
            Command::Forget(5..8),
            Command::Add(4..6),
            Command::Forget(0..u64::MAX),
        ],
        replies: [Ok(()), Ok(()), SIX, Ok(()), Ok(()), Ok(())],
        ranges: &[],
    },
];

/// Whether a run of the row's commands has its replies, and leaves its ranges.
fn is_run(alloc: Global, row: &Row) -> bool {
    let mut tracker = Tracker::new(alloc, row.limit.min(100));
    let mut replies = [Err(TrackError::OutOfMemory); 6];
    tracker.run(&row.commands, &mut replies);
    replies == row.replies && are_ranges_between(tracker.ranges(), row.ranges)
}

#[test]
fn commands_are_answered_in_turn(rt: HostRuntime) {
    for row in &ROWS {
        assert!(rt; is_run(rt.alloc(), row), "{:?}", row.commands);
    }
}

/// A call of a tracker.
#[derive(Debug)]
enum Call {
    Record(Range<u64>),
    Forget(Range<u64>),
    Run(&'static [Command; 5]),
    Has(Range<u64>),
    Ranges,
    Missing(u64),
}

/// What answers a call.
enum Answer {
    Reply(Reply),
    Replies(&'static [Reply; 5]),
    Truth(bool),
    Boundaries(&'static [u64]),
}

/// A call, and what answers it.
struct Asked {
    call: Call,
    answer: Answer,
}

/// A limit, and calls of a tracker without ranges, one after the other.
struct Calls<'a> {
    limit: usize,
    calls: &'a [Asked],
}

#[rattlefmt::skip]
const CALLS: [Calls; 7] = [
    Calls { limit: 4, calls: &[
        Asked { call: Call::Record(0..10), answer: Answer::Reply(Ok(())) },
        Asked { call: Call::Record(20..30), answer: Answer::Reply(Ok(())) },
        Asked { call: Call::Record(40..50), answer: Answer::Reply(SIX) },
        Asked { call: Call::Record(10..20), answer: Answer::Reply(Ok(())) },
        Asked { call: Call::Ranges, answer: Answer::Boundaries(&[0, 30]) },
        Asked { call: Call::Forget(5..6), answer: Answer::Reply(Ok(())) },
        Asked { call: Call::Ranges, answer: Answer::Boundaries(&[0, 5, 6, 30]) },
        Asked { call: Call::Forget(10..12), answer: Answer::Reply(SIX) },
        Asked { call: Call::Has(0..5), answer: Answer::Truth(true) },
        Asked { call: Call::Has(4..7), answer: Answer::Truth(false) },
        Asked { call: Call::Has(7..7), answer: Answer::Truth(true) },
        Asked { call: Call::Missing(40), answer: Answer::Boundaries(&[5, 6, 30, 40]) },
        Asked { call: Call::Missing(0), answer: Answer::Boundaries(&[]) },
    ] },
    Calls { limit: 0, calls: &[
        Asked { call: Call::Record(5..5), answer: Answer::Reply(Ok(())) },
        Asked { call: Call::Record(9..3), answer: Answer::Reply(Ok(())) },
        Asked { call: Call::Record(0..1), answer: Answer::Reply(TWO) },
        Asked { call: Call::Forget(0..1), answer: Answer::Reply(Ok(())) },
    ] },
    Calls { limit: 2, calls: &[
        Asked { call: Call::Record(0..10), answer: Answer::Reply(Ok(())) },
        Asked { call: Call::Record(5..20), answer: Answer::Reply(Ok(())) },
        Asked { call: Call::Ranges, answer: Answer::Boundaries(&[0, 20]) },
    ] },
    Calls { limit: 4, calls: &[
        Asked {
            call: Call::Run(&[
                Command::Add(0..10),
                Command::Add(20..30),
                Command::Add(40..50),
                Command::Add(10..20),
                Command::Forget(5..6),
            ]),
            answer: Answer::Replies(&[Ok(()), Ok(()), SIX, Ok(()), Ok(())]),
        },
        Asked { call: Call::Ranges, answer: Answer::Boundaries(&[0, 5, 6, 30]) },
    ] },
    Calls { limit: 2, calls: &[
        Asked { call: Call::Record(0..10), answer: Answer::Reply(Ok(())) },
        Asked { call: Call::Forget(4..5), answer: Answer::Reply(FOUR) },
        Asked { call: Call::Missing(10), answer: Answer::Boundaries(&[]) },
    ] },
    Calls { limit: 4, calls: &[
        Asked { call: Call::Record(0..u64::MAX), answer: Answer::Reply(Ok(())) },
        Asked { call: Call::Has(u64::MAX - 1..u64::MAX), answer: Answer::Truth(true) },
        Asked { call: Call::Missing(u64::MAX), answer: Answer::Boundaries(&[]) },
    ] },
    Calls { limit: 2, calls: &[
        Asked { call: Call::Record(0..20), answer: Answer::Reply(Ok(())) },
        Asked { call: Call::Missing(25), answer: Answer::Boundaries(&[20, 25]) },
        Asked { call: Call::Forget(0..5), answer: Answer::Reply(Ok(())) },
        Asked { call: Call::Has(4..6), answer: Answer::Truth(false) },
        Asked { call: Call::Missing(25), answer: Answer::Boundaries(&[0, 5, 20, 25]) },
    ] },
];

/// Whether the tracker answers so.
fn answers(tracker: &mut Tracker, call: &Call, answer: &Answer) -> bool {
    match (call, answer) {
        (Call::Record(range), Answer::Reply(want)) => {
            tracker.record(range.start..range.end) == *want
        }
        (Call::Forget(range), Answer::Reply(want)) => {
            tracker.forget(range.start..range.end) == *want
        }
        (Call::Run(commands), Answer::Replies(want)) => {
            let mut replies = [Err(TrackError::OutOfMemory); 5];
            tracker.run(*commands, &mut replies);
            replies == **want
        }
        (Call::Has(range), Answer::Truth(want)) => tracker.has(range.start..range.end) == *want,
        (Call::Ranges, Answer::Boundaries(want)) => are_ranges_between(tracker.ranges(), want),
        (Call::Missing(len), Answer::Boundaries(want)) => misses(tracker, *len, want),
        _ => false,
    }
}

/// The first call of the row that is answered otherwise.
fn wrong_call<'a>(alloc: Global, row: &'a Calls) -> Option<&'a Call> {
    let mut tracker = Tracker::new(alloc, row.limit.min(100));
    for asked in row.calls {
        if !answers(&mut tracker, &asked.call, &asked.answer) {
            return Some(&asked.call);
        }
    }
    None
}

#[test]
fn calls_are_answered_one_by_one(rt: HostRuntime) {
    for row in &CALLS {
        let wrong = wrong_call(rt.alloc(), row);
        assert!(rt; wrong.is_none(), "{wrong:?} if {} are the most", row.limit);
    }
}

#[test]
fn refusals_are_printed(rt: HostRuntime) {
    let alloc = rt.alloc();
    let refusal = TrackError::TooMany { boundaries: 6 };
    assert!(rt; prints(alloc, &refusal, "TooMany { boundaries: 6 }"));
    assert!(rt; prints(alloc, &Command::Add(0..10), "Add(0..10)"));
}
