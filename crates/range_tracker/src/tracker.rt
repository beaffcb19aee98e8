//! A tracker of offsets: the strictly sorted list of their boundaries, which never has more of them
//! than a limit.
//!
//! A command is first measured, without memory, and refused if it would leave too many boundaries.
//! Then it changes the list in place.
ghost use Rattle.std.specs.Prelude.{◌≡◌, ◌≢◌, ◌↔◌, ◌-◌, ◌^◌, ◌<◌, ◌≤◌, ◌&&◌, ℕ, true, false, not, nat_lt, [], ◌∷◌, length, IsTrue, IsSome, IsOk, IfOk, OnOk, OnErr, Err};
ghost use Rattle.std.specs.Ordering.{nat_cmp};
ghost use Rattle.range_merge.specs.Boundaries.{IsAscending, is_odd};
ghost use Rattle.range_collections.specs.Covered.{covered_of};
ghost use Rattle.range_merge.specs.Connective.{Means, difference_table};
ghost use Rattle.range_collections.specs.Ranges.{range_items};
ghost use Rattle.range_tracker.specs.Offsets.{IsListOf, HasBoundaries, is_within};
ghost use Rattle.range_tracker.specs.Commands.{MayAnswer, AreReplies, after_command, after_replies};
ghost use Rattle.range_tracker.specs.Tracked.{recorded};

use crate::track_error::{TrackError, within_limit};
use range_collections::laws::changes_mean_the_connective;
use range_collections::{
    Comparisons, DiffOp, Gaps, Iter, MergeOperation, RangeSet2, RangeSetRef, UnionOp,
};
use std::alloc::{AllocError, Global};
use std::marker::Model;
use std::ops::Range;

/// A change of the offsets that a tracker has.
#[derive(Debug, PartialEq, Eq, Drop)]
pub enum Command {
    /// The offsets of the range are there.
    Add(Range<u64>),
    /// The offsets of the range aren't there.
    Forget(Range<u64>),
}

/// Which offsets are there. A clause reads it as the strictly sorted list of their boundaries and
/// the limit.
///
/// An offset is there where an odd number of boundaries is at or below it. The list never has more
/// boundaries than the limit.
#[derive(Drop)]
pub struct Tracker {
    alloc: Global,
    set: RangeSet2<u64>,
    limit: usize,
}

impl Model for Tracker {
    ghost use Rattle.range_tracker.specs.Tracked.{Tracked, IsWithinLimit};

    ghost Value = { Tracked };

    ghost view = { λ tracker. record { boundaries = tracker.set; limit = tracker.limit } };

    ghost invariant = { λ tracker. IsWithinLimit tracker.set tracker.limit };
}

impl Tracker {
    /// A tracker without offsets that will have at most `limit` boundaries, which are twice as many
    /// as ranges. It takes no memory.
    pub fn new(alloc: Global, limit: usize) -> Tracker
        requires { limit ≤ usize.MAX - 2 }
        ensures boundaries { result.boundaries ≡ [] }
        ensures limit { result.limit ≡ limit }
    {
        Tracker {
            alloc,
            set: RangeSet2::empty(alloc),
            limit,
        }
    }

    /// The offsets of the range are there from now on. An empty or reversed range changes nothing.
    ///
    /// It returns `TooMany` exactly if the list would have more boundaries than the limit, which is
    /// known before memory is asked for. If the list doesn't grow, or if nothing was there, it
    /// isn't `OutOfMemory`. An error leaves the tracker as it was.
    pub fn record(&mut self, range: Range<u64>) -> Result<(), TrackError>
        ensures answer { MayAnswer self.old.limit (recorded self.old) (Command.Add range) result }
        ensures ok { OnOk result ((n : ℕ) →
            recorded self.new n ≡ after_command (Command.Add range) (recorded self.old) n) }
        ensures unchanged { OnErr result (self.new ≡ self.old) }
        ensures limit { self.new.limit ≡ self.old.limit }
    {
        self.admit(&range, &UnionOp)?;
        self.set.insert(range)?;
        Ok(())
    }

    /// The offsets of the range aren't there from now on. An empty or reversed range changes
    /// nothing.
    ///
    /// It returns `TooMany` exactly if the list would have more boundaries than the limit, which is
    /// known before memory is asked for. If the list doesn't grow, or if nothing was there, it
    /// isn't `OutOfMemory`. An error leaves the tracker as it was.
    pub fn forget(&mut self, range: Range<u64>) -> Result<(), TrackError>
        ensures answer { MayAnswer self.old.limit (recorded self.old)
            (Command.Forget range) result }
        ensures ok { OnOk result ((n : ℕ) →
            recorded self.new n ≡ after_command (Command.Forget range) (recorded self.old) n) }
        ensures unchanged { OnErr result (self.new ≡ self.old) }
        ensures limit { self.new.limit ≡ self.old.limit }
    {
        self.admit(&range, &DiffOp)?;
        self.set.remove(range)?;
        Ok(())
    }

    /// Does each command in turn, goes on after an error, and puts each reply at its command's
    /// index.
    pub fn run(&mut self, commands: &[Command], replies: &mut [Result<(), TrackError>])
        requires { length commands.now ≡ length replies.old }
        ensures replies { AreReplies self.old.limit (recorded self.old) commands.now replies.new }
        ensures offsets { (n : ℕ) →
            recorded self.new n ≡ after_replies commands.now replies.new (recorded self.old) n }
        ensures limit { self.new.limit ≡ self.old.limit }
    {
        for (i, command) in commands.iter().enumerate() {
            replies[i] = self.apply(command);
        }
    }

    /// Whether every offset of the range is there. It is so for an empty or reversed range.
    pub fn has(&self, range: Range<u64>) -> bool
        ensures { IsTrue result ↔ ((n : ℕ) →
            is_within range n ≡ true → recorded self.now n ≡ true) }
    {
        self.set.contains_range(range)
    }

    /// The offsets below `len` that aren't there. It fails only if memory runs out, and never if
    /// nothing is there.
    pub fn missing(&self, len: u64) -> Result<RangeSet2<u64>, AllocError>
        ensures missing { IfOk result (λ set.
            IsListOf set (λ n. nat_lt n len && not (recorded self.now n))) }
        ensures succeeds { HasBoundaries (recorded self.now) 0 → IsOk result }
    {
        let ends = [0, len];
        offsets_between(&ends).difference(self.alloc, self.set.as_ref())
    }

    /// The ranges of the offsets that are there, from the lowest on, each with its end.
    pub fn ranges(&self) -> Iter<'_, u64>
        ensures boundaries { result ≡ self.now.boundaries }
        ensures sorted { IsAscending nat_cmp self.now.boundaries }
        ensures ended { is_odd (length self.now.boundaries) ≡ false }
    {
        self.set.iter()
    }

    /// How many offsets are there. `None` would stand for a set without an end, which no command
    /// makes.
    pub fn covered(&self) -> Option<u128>
        ensures value { result ≡ covered_of nat_cmp (λ n. n) (2 ^ 64) self.now.boundaries }
        ensures ended { IsSome result }
    {
        self.set.covered()
    }

    /// The parts of a range that aren't there, from the lowest on: none is empty, and each ends
    /// below the start of the next. It takes no memory.
    pub fn gaps<'a>(&'a self, within: Range<&'a u64>) -> Gaps<'a, u64>
        ensures { Means nat_cmp difference_table result
            (range_items nat_cmp within.entry.start.now within.entry.end.now) self.now.boundaries }
    {
        self.set.gaps(within)
    }

    // Takes one command.
    fn apply(&mut self, command: &Command) -> Result<(), TrackError>
        ensures answer { MayAnswer self.old.limit (recorded self.old) command.now result }
        ensures ok { OnOk result ((n : ℕ) →
            recorded self.new n ≡ after_command command.now (recorded self.old) n) }
        ensures unchanged { OnErr result (self.new ≡ self.old) }
        ensures limit { self.new.limit ≡ self.old.limit }
    {
        match command {
            Command::Add(range) => self.record(range.start..range.end),
            Command::Forget(range) => self.forget(range.start..range.end),
        }
    }

    // Refuses where the operation with the range would leave more boundaries than the limit. It
    // takes no memory.
    fn admit<O: MergeOperation>(&self, range: &Range<u64>, op: &O) -> Result<(), TrackError>
        requires { O.connective op.now false false ≡ false }
        ensures too_many { (n : ℕ) → (result ≡ Err (TrackError.TooMany n)) ↔
            (HasBoundaries (λ x. O.connective op.now (recorded self.now x)
            (is_within range.now x)) n × (self.now.limit < n)) }
        ensures no_memory { result ≢ Err TrackError.OutOfMemory }
    {
        changes_mean_the_connective::<u64, Comparisons>();
        let ends = [range.start, range.end];
        let count = &mut Comparisons::new();
        let boundaries = self.set.merge_len(offsets_between(&ends), op, count);
        within_limit(boundaries, self.limit)
    }
}

// The offsets from the first number up to the second, which is out: none where the first isn't
// below the second.
fn offsets_between(ends: &[u64; 2]) -> RangeSetRef<'_, u64>
    ensures { (start end : ℕ) →
        ends.now ≡ start ∷ end ∷ [] → result.boundaries.now ≡ range_items nat_cmp start end }
{
    RangeSetRef::new(ends).unwrap_or(RangeSetRef::empty())
}
