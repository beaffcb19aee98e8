//! Out of memory in a tracker: a refused command changes nothing, and one that is too many stays
//! so.
use range_tests_kit::lists::are_ranges_between;
use range_tests_kit::starving::{Answer, Call, Starved};
use range_tests_kit::ways::refused_if;
use range_tracker::{Command, TrackError, Tracker};
use std::alloc::{AllocError, Global};

type Reply = Result<(), TrackError>;

const NOTHING: Reply = Err(TrackError::OutOfMemory);

const FOUR: Reply = Err(TrackError::TooMany { boundaries: 4 });

const EIGHT: Reply = Err(TrackError::TooMany { boundaries: 8 });

// The boundaries of a tracker with two ranges, and the tracker.
const BEGUN: &[u64] = &[0, 10, 20, 30];

fn begun(alloc: Global, limit: usize) -> Option<Tracker> {
    let mut tracker = Tracker::new(alloc, limit.min(100));
    tracker.record(0..10).ok()?;
    tracker.record(20..30).ok()?;
    Some(tracker)
}

// The replies to commands, and the boundaries after them.
struct Outcome<const N: usize> {
    replies: [Reply; N],
    ranges: &'static [u64],
}

impl<const N: usize> Outcome<N> {
    // Whether it is what a tracker replied, and has then.
    fn is(&self, replies: &[Reply; N], tracker: &Tracker) -> bool {
        self.replies == *replies && are_ranges_between(tracker.ranges(), self.ranges)
    }
}

// A limit, commands for a tracker with two ranges, and what they come to with ample memory, and
// where memory is refused.
struct Row {
    limit: usize,
    commands: [Command; 3],
    ample: Outcome<3>,
    refused: Outcome<3>,
}

const ROWS: [Row; 3] = [
    Row {
        limit: 100,
        commands: [
            Command::Add(40..50),
            Command::Add(5..5),
            Command::Forget(60..70),
        ],
        ample: Outcome {
            replies: [Ok(()); 3],
            ranges: &[0, 10, 20, 30, 40, 50],
        },
        refused: Outcome {
            replies: [NOTHING, Ok(()), Ok(())],
            ranges: BEGUN,
        },
    },
    Row {
        limit: 100,
        commands: [
            Command::Forget(4..5),
            Command::Add(5..5),
            Command::Forget(60..70),
        ],
        ample: Outcome {
            replies: [Ok(()); 3],
            ranges: &[0, 4, 5, 10, 20, 30],
        },
        refused: Outcome {
            replies: [NOTHING, Ok(()), Ok(())],
            ranges: BEGUN,
        },
    },
    // Too many after the first command alone.
    Row {
        limit: 6,
        commands: [
            Command::Add(40..50),
            Command::Forget(25..26),
            Command::Add(10..20),
        ],
        ample: Outcome {
            replies: [Ok(()), EIGHT, Ok(())],
            ranges: &[0, 30, 40, 50],
        },
        refused: Outcome {
            replies: [NOTHING, NOTHING, Ok(())],
            ranges: &[0, 30],
        },
    },
];

// A call of a tracker with two ranges: commands, and `record`, `forget` and `missing`.
#[derive(Drop)]
enum OfTracker<'a> {
    Run(&'a Row),
    Record,
    Forget,
    Missing,
}

#[derive(Drop)]
struct Attempt<'a> {
    alloc: Global,
    call: OfTracker<'a>,
}

impl<'a> Call for Attempt<'a> {
    type Given = Tracker;

    fn given(&self) -> Option<Tracker> {
        match self.call {
            OfTracker::Run(row) => begun(self.alloc, row.limit),
            OfTracker::Missing => begun(self.alloc, 4),
            _ => begun(self.alloc, 100),
        }
    }

    fn answer(&self, mut tracker: Tracker) -> Answer {
        match self.call {
            OfTracker::Run(row) => run(row, tracker),
            OfTracker::Record => {
                let reply = tracker.record(40..50);
                replied(&tracker, reply, &[0, 10, 20, 30, 40, 50])
            }
            OfTracker::Forget => {
                let reply = tracker.forget(4..5);
                replied(&tracker, reply, &[0, 4, 5, 10, 20, 30])
            }
            OfTracker::Missing => missing(&tracker, 60, &[10, 20, 30, 60]),
        }
    }
}

fn run(row: &Row, mut tracker: Tracker) -> Answer {
    let mut replies = [Ok(()); 3];
    tracker.run(&row.commands, &mut replies);
    if row.ample.is(&replies, &tracker) {
        Answer::Right
    } else {
        refused_if(row.refused.is(&replies, &tracker))
    }
}

// What a reply says where the list grows.
fn replied(tracker: &Tracker, reply: Reply, want: &[u64]) -> Answer {
    match reply {
        Ok(()) => Answer::right_if(are_ranges_between(tracker.ranges(), want)),
        Err(error) => refused_if(
            error == TrackError::OutOfMemory && are_ranges_between(tracker.ranges(), BEGUN),
        ),
    }
}

// What is missing, which is refused where it has no room.
fn missing(tracker: &Tracker, len: u64, want: &[u64]) -> Answer {
    match tracker.missing(len) {
        Ok(missing) => Answer::right_if(missing.boundaries() == want),
        Err(_) => Answer::Refused,
    }
}

#[test]
fn a_run_goes_on_after_each_refusal(rt: HostRuntime) -> Result<(), AllocError> {
    let alloc = rt.alloc();
    let mut starved = Starved::new(alloc)?;
    for row in &ROWS {
        let call = OfTracker::Run(row);
        assert!(rt;
            starved.refuses(&Attempt { alloc, call }),
            "{:?}",
            row.commands
        );
    }
    Ok(())
}

#[test]
fn record_forget_and_missing_are_refused(rt: HostRuntime) -> Result<(), AllocError> {
    let alloc = rt.alloc();
    let mut starved = Starved::new(alloc)?;
    for call in [OfTracker::Record, OfTracker::Forget, OfTracker::Missing] {
        assert!(rt; starved.refuses(&Attempt { alloc, call }));
    }
    Ok(())
}

// A limit, commands for a tracker without ranges, and what they come to where each request is
// refused.
struct Bare {
    limit: usize,
    commands: [Command; 5],
    want: Outcome<5>,
}

const BARE: [Bare; 3] = [
    // Ranges in the set itself.
    Bare {
        limit: 4,
        commands: [
            Command::Add(0..10),
            Command::Add(5..20),
            Command::Forget(0..30),
            Command::Add(7..8),
            Command::Forget(7..8),
        ],
        want: Outcome {
            replies: [Ok(()); 5],
            ranges: &[],
        },
    },
    // Too many.
    Bare {
        limit: 2,
        commands: [
            Command::Add(0..10),
            Command::Add(20..30),
            Command::Forget(4..5),
            Command::Add(10..20),
            Command::Forget(4..5),
        ],
        want: Outcome {
            replies: [Ok(()), FOUR, FOUR, Ok(()), FOUR],
            ranges: &[0, 20],
        },
    },
    // Those that need some are refused in place.
    Bare {
        limit: 4,
        commands: [
            Command::Add(0..10),
            Command::Add(20..30),
            Command::Add(40..50),
            Command::Add(10..20),
            Command::Forget(5..6),
        ],
        want: Outcome {
            replies: [Ok(()), NOTHING, NOTHING, Ok(()), NOTHING],
            ranges: &[0, 20],
        },
    },
];

// What a tracker answers that has no range at first: commands, or else what is missing.
#[derive(Drop)]
struct BareAttempt<'a> {
    alloc: Global,
    row: Option<&'a Bare>,
}

impl<'a> Call for BareAttempt<'a> {
    type Given = ();

    fn given(&self) -> Option<()> {
        Some(())
    }

    fn answer(&self, _given: ()) -> Answer {
        let Some(row) = self.row else {
            return missing(&Tracker::new(self.alloc, 4), 7, &[0, 7]);
        };
        let mut tracker = Tracker::new(self.alloc, row.limit.min(100));
        let mut replies = [Ok(()); 5];
        tracker.run(&row.commands, &mut replies);
        Answer::right_if(row.want.is(&replies, &tracker))
    }
}

#[test]
fn what_needs_no_memory_is_answered_without(rt: HostRuntime) -> Result<(), AllocError> {
    let alloc = rt.alloc();
    let mut starved = Starved::new(alloc)?;
    for row in [Some(&BARE[0]), Some(&BARE[1]), Some(&BARE[2]), None] {
        assert!(rt; starved.needs_none(&BareAttempt { alloc, row }));
    }
    Ok(())
}
