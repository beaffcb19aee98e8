//! Commands of a tracker in chunks: it answers each as `Tracker` does, and has the same offsets then.
ghost use Rattle.std.specs.Prelude.{◌<◌, ◌≤◌, ◌-◌, ◌^◌};

use range_chunked_tracker::ChunkedTracker;
use range_tests_kit::generator::Generator;
use range_tracker::{Command, TrackError, Tracker};
use std::alloc::{AllocError, Global};

// Below which number the ends of a sequence's ranges lie, the most boundaries, how many commands
// there are, and how often all ranges are compared.
#[derive(Clone, Copy)]
struct Shape {
    below: u64,
    limit: usize,
    commands: u64,
    every: u64,
}

// Short sequences, of which some leave nothing.
const SHORT: Shape = Shape {
    below: 24,
    limit: 6,
    commands: 24,
    every: 1,
};

// A long one, which fills chunks up to the limit, and empties some.
const LONG: Shape = Shape {
    below: 65_536,
    limit: 3_000,
    commands: 20_000,
    every: 500,
};

// The next command: mostly of a short range, now and then of a long, an empty or a reversed one.
fn next_command(generator: &mut Generator, below: u64) -> Command
    requires { 0 < below }
{
    let start = generator.below(below);
    let longest = match generator.below(200) {
        0 => below,
        _ => 12,
    };
    let end = start.saturating_add(generator.below(longest)).min(below);
    let range = match generator.below(16) {
        0 => end..start,
        _ => start..end,
    };
    match generator.below(3) {
        0 => Command::Forget(range),
        _ => Command::Add(range),
    }
}

// Whether both have the same ranges, and as many offsets.
fn have_alike(chunked: &ChunkedTracker, flat: &Tracker) -> bool {
    let mut those = flat.ranges();
    for range in chunked.ranges() {
        if those.next() != Some(range) {
            return false;
        }
    }
    those.next().is_none() && chunked.covered() == flat.covered()
}

// Whether both miss the same below a length, as a set and as gaps.
fn miss_alike(chunked: &ChunkedTracker, flat: &Tracker, len: u64) -> Result<bool, AllocError> {
    let (made, want) = (chunked.missing(len)?, flat.missing(len)?);
    let mut those = want.iter();
    for range in made.iter() {
        if those.next() != Some(range) {
            return Ok(false);
        }
    }
    let mut gaps = flat.gaps(&0..&len);
    for gap in chunked.gaps(&0..&len) {
        if gaps.next() != Some(gap) {
            return Ok(false);
        }
    }
    Ok(those.next().is_none() && gaps.next().is_none())
}

// Does the command.
fn reply(tracker: &mut Tracker, command: &Command) -> Result<(), TrackError> {
    match command {
        Command::Add(range) => tracker.record(range.start..range.end),
        Command::Forget(range) => tracker.forget(range.start..range.end),
    }
}

// Whether both answer each command alike, of which some are refused.
fn follow(alloc: Global, generator: &mut Generator, shape: Shape) -> Result<bool, AllocError> {
    let limit = shape.limit.min(10_000);
    let (mut chunked, mut flat) = (
        ChunkedTracker::new(alloc, limit)?,
        Tracker::new(alloc, limit),
    );
    for step in 0..shape.commands {
        let command = next_command(generator, shape.below.max(1));
        if chunked.apply(&command) != reply(&mut flat, &command) {
            return Ok(false);
        }
        let asked = generator.below(shape.below.max(1));
        if chunked.has(asked..asked.saturating_add(2)) != flat.has(asked..asked.saturating_add(2)) {
            return Ok(false);
        }
        if step % shape.every.max(1) == 0
            && !(have_alike(&chunked, &flat) && miss_alike(&chunked, &flat, asked)?)
        {
            return Ok(false);
        }
    }
    Ok(have_alike(&chunked, &flat))
}

#[test]
fn short_sequences_are_answered_alike(rt: HostRuntime) -> Result<(), AllocError> {
    let mut generator = Generator::new();
    for sequence in 0..2_000u64 {
        let alike = follow(rt.alloc(), &mut generator, SHORT)?;
        assert!(rt; alike, "{sequence}");
    }
    Ok(())
}

#[test]
fn a_long_sequence_is_answered_alike(rt: HostRuntime) -> Result<(), AllocError> {
    let mut generator = Generator::new();
    let alike = follow(rt.alloc(), &mut generator, LONG)?;
    assert!(rt; alike);
    Ok(())
}

// A limit, commands for a tracker without offsets, their replies, and how many offsets are there
// then.
struct Row {
    limit: usize,
    commands: [Command; 5],
    replies: [Result<(), TrackError>; 5],
    covered: u128,
}

const TWO: Result<(), TrackError> = Err(TrackError::TooMany { boundaries: 2 });

const FOUR: Result<(), TrackError> = Err(TrackError::TooMany { boundaries: 4 });

const SIX: Result<(), TrackError> = Err(TrackError::TooMany { boundaries: 6 });

const ROWS: [Row; 4] = [
    Row {
        limit: 4,
        commands: [
            Command::Add(0..10),
            Command::Add(20..30),
            Command::Add(40..50),
            Command::Add(10..20),
            Command::Forget(5..6),
        ],
        replies: [Ok(()), Ok(()), SIX, Ok(()), Ok(())],
        covered: 29,
    },
    // No room for one range.
    Row {
        limit: 1,
        commands: [
            Command::Forget(0..9),
            Command::Add(9..3),
            Command::Add(0..1),
            Command::Forget(0..1),
            Command::Add(0..u64::MAX),
        ],
        replies: [Ok(()), Ok(()), TWO, Ok(()), TWO],
        covered: 0,
    },
    // All is forgotten, and something recorded again.
    Row {
        limit: 2,
        commands: [
            Command::Add(5..20),
            Command::Forget(6..7),
            Command::Forget(0..30),
            Command::Add(1..2),
            Command::Forget(4..5),
        ],
        replies: [Ok(()), FOUR, Ok(()), Ok(()), Ok(())],
        covered: 1,
    },
    Row {
        limit: 4,
        commands: [
            Command::Add(0..u64::MAX),
            Command::Forget(4..5),
            Command::Forget(7..8),
            Command::Forget(5..8),
            Command::Forget(0..u64::MAX),
        ],
        replies: [Ok(()), Ok(()), SIX, Ok(()), Ok(())],
        covered: 0,
    },
];

// Whether a run of the row's commands has its replies, and leaves as many offsets.
fn is_run(alloc: Global, row: &Row) -> Result<bool, AllocError> {
    let mut tracker = ChunkedTracker::new(alloc, row.limit.min(10_000))?;
    let mut replies = [Err(TrackError::OutOfMemory); 5];
    tracker.run(&row.commands, &mut replies);
    Ok(replies == row.replies && tracker.covered() == Some(row.covered))
}

#[test]
fn commands_are_answered_in_turn(rt: HostRuntime) -> Result<(), AllocError> {
    for row in &ROWS {
        let right = is_run(rt.alloc(), row)?;
        assert!(rt; right, "{:?}", row.commands);
    }
    Ok(())
}
