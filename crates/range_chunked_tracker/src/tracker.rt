//! A tracker of offsets for large files: the boundaries of what is there lie in chunks, so a
//! command moves those of one.
ghost use Rattle.std.specs.Prelude.{◌≡◌, ◌↔◌, ◌-◌, ◌^◌, ◌≤◌, ◌&&◌, ℕ, true, false, not, nat_lt, [], length, IsTrue, IsSome, IfOk, OnOk, OnErr};
ghost use Rattle.std.specs.Ordering.{nat_cmp};
ghost use Rattle.range_merge.specs.Boundaries.{IsAscending, is_odd};
ghost use Rattle.range_merge.specs.Connective.{Means, difference_table};
ghost use Rattle.range_collections.specs.Covered.{covered_of};
ghost use Rattle.range_collections.specs.Ranges.{range_items};
ghost use Rattle.range_tracker.specs.Offsets.{IsListOf, is_within};
ghost use Rattle.range_tracker.specs.Commands.{MayAnswer, AreReplies, after_command, after_replies};
ghost use Rattle.range_tracker.specs.Tracked.{recorded};
ghost use Rattle.range_list.specs.Lists.{joined};

use crate::tracking::set_within;
use range_chunks::boundaries::{count_members, has_all, parts_within};
use range_chunks::{ChunkedRangeSet, Gaps, Iter};
use range_collections::Comparisons;
use range_list::Chunks;
use range_tracker::{Command, TrackError};
use std::alloc::{AllocError, Global};
use std::marker::Model;
use std::ops::Range;

/// Which offsets are there, of a file with many gaps. It answers as `Tracker` does, which is for
/// some 10,000 ranges.
///
/// ```text
/// let mut file = ChunkedTracker::new(alloc, 1_000_000)?;
/// file.record(40..50)?;
/// file.record(10..20)?;
/// file.has(12..15)                     // true
/// for gap in file.gaps(&0..&60) { .. } // 0..10, 20..40, 50..60
/// ```
///
/// It makes as many comparisons as a `ChunkedRangeSet` does. A clause reads it as the strictly
/// sorted list of the boundaries of what is there, and the limit.
#[derive(Drop)]
pub struct ChunkedTracker {
    /// The boundaries, or while nothing is there those of some range: so the next one finds room.
    list: Chunks<u64, bool>,
    /// No boundaries: what is read while nothing is there.
    nothing: Chunks<u64, bool>,
    /// How many boundaries are there.
    len: usize,
    limit: usize,
}

impl Model for ChunkedTracker {
    ghost use Rattle.std.specs.Prelude.{◌≡◌, [], take};
    ghost use Rattle.range_tracker.specs.Tracked.{Tracked};
    ghost use Rattle.range_list.specs.Lists.{joined};
    ghost use Rattle.range_chunked_tracker.specs.Tracking.{IsTracking};

    ghost Value = { Tracked };

    ghost view = { λ tracker. record {
      boundaries = take tracker.len (joined tracker.list);
      limit = tracker.limit;
    } };

    ghost invariant = { λ tracker. IsTracking (joined tracker.list) tracker.len tracker.limit
        × (joined tracker.nothing ≡ []) };
}

impl ChunkedTracker {
    /// A tracker without offsets that will have at most `limit` boundaries, which are twice as many
    /// as ranges. It asks for the memory of one range.
    pub fn new(alloc: Global, limit: usize) -> Result<ChunkedTracker, AllocError>
        requires { limit ≤ usize.MAX - 2 }
        ensures boundaries { IfOk result (λ tracker. tracker.boundaries ≡ []) }
        ensures limit { IfOk result (λ tracker. tracker.limit ≡ limit) }
    {
        let mut list = Chunks::new(alloc);
        list.push(0)?;
        list.push(1)?;
        Ok(ChunkedTracker {
            list,
            nothing: Chunks::new(alloc),
            len: 0,
            limit,
        })
    }

    /// The offsets of the range are there from now on. An empty or reversed range changes nothing.
    ///
    /// It returns `TooMany` exactly if the list would have more boundaries than the limit, which is
    /// known before memory is asked for. If the list doesn't grow, or if nothing was there, it
    /// isn't `OutOfMemory`. An error leaves the tracker as it was.
    pub fn record(&mut self, range: Range<u64>) -> Result<(), TrackError>
        ensures answer { MayAnswer self.old.limit (recorded self.old) (Command.Add range) result }
        ensures ok { OnOk result ((n : ℕ) →
            recorded self.new n ≡ after_command (Command.Add range) (recorded self.old) n) }
        ensures unchanged { OnErr result (self.new ≡ self.old) }
        ensures limit { self.new.limit ≡ self.old.limit }
    {
        self.len = set_within(&mut self.list, range, true, self.len, self.limit)?;
        Ok(())
    }

    /// The offsets of the range aren't there from now on. An empty or reversed range changes
    /// nothing. Else it is as `record`.
    pub fn forget(&mut self, range: Range<u64>) -> Result<(), TrackError>
        ensures answer { MayAnswer self.old.limit (recorded self.old)
            (Command.Forget range) result }
        ensures ok { OnOk result ((n : ℕ) →
            recorded self.new n ≡ after_command (Command.Forget range) (recorded self.old) n) }
        ensures unchanged { OnErr result (self.new ≡ self.old) }
        ensures limit { self.new.limit ≡ self.old.limit }
    {
        self.len = set_within(&mut self.list, range, false, self.len, self.limit)?;
        Ok(())
    }

    /// Does the command.
    pub fn apply(&mut self, command: &Command) -> Result<(), TrackError>
        ensures answer { MayAnswer self.old.limit (recorded self.old) command.now result }
        ensures ok { OnOk result ((n : ℕ) →
            recorded self.new n ≡ after_command command.now (recorded self.old) n) }
        ensures unchanged { OnErr result (self.new ≡ self.old) }
        ensures limit { self.new.limit ≡ self.old.limit }
    {
        match command {
            Command::Add(range) => self.record(range.start..range.end),
            Command::Forget(range) => self.forget(range.start..range.end),
        }
    }

    /// Does each command in turn, goes on after an error, and puts each reply at its command's
    /// index.
    pub fn run(&mut self, commands: &[Command], replies: &mut [Result<(), TrackError>])
        requires { length commands.now ≡ length replies.old }
        ensures replies { AreReplies self.old.limit (recorded self.old) commands.now replies.new }
        ensures offsets { (n : ℕ) →
            recorded self.new n ≡ after_replies commands.now replies.new (recorded self.old) n }
        ensures limit { self.new.limit ≡ self.old.limit }
    {
        for (i, command) in commands.iter().enumerate() {
            replies[i] = self.apply(command);
        }
    }

    /// Whether every offset of the range is there. It is so for an empty or reversed range.
    pub fn has(&self, range: Range<u64>) -> bool
        ensures { IsTrue result ↔ ((n : ℕ) →
            is_within range n ≡ true → recorded self.now n ≡ true) }
    {
        let Range { start, end } = range;
        has_all(self.there(), &start, &end, &mut Comparisons::new())
    }

    /// The offsets below `len` that aren't there. It fails only if memory runs out. `gaps` takes
    /// none.
    pub fn missing(&self, len: u64) -> Result<ChunkedRangeSet<u64>, AllocError>
        ensures missing { IfOk result (λ set.
            IsListOf set (λ n. nat_lt n len && not (recorded self.now n))) }
    {
        let gaps = self.gaps(&0..&len);
        ChunkedRangeSet::from_parts(self.list.allocator(), gaps)
    }

    /// The ranges of the offsets that are there, from the lowest on, each with its end.
    pub fn ranges(&self) -> Iter<'_, u64>
        ensures boundaries { result ≡ self.now.boundaries }
        ensures sorted { IsAscending nat_cmp self.now.boundaries }
        ensures ended { is_odd (length self.now.boundaries) ≡ false }
    {
        Iter::new(self.there())
    }

    /// How many offsets are there. `None` would stand for a set without an end, which no command
    /// makes.
    pub fn covered(&self) -> Option<u128>
        ensures value { result ≡ covered_of nat_cmp (λ n. n) (2 ^ 64) self.now.boundaries }
        ensures ended { IsSome result }
    {
        count_members(self.there())
    }

    /// The parts of a range that aren't there, from the lowest on: none is empty, and each ends
    /// below the start of the next. It takes no memory.
    pub fn gaps<'a>(&'a self, within: Range<&'a u64>) -> Gaps<'a, u64>
        ensures { Means nat_cmp difference_table result
            (range_items nat_cmp within.entry.start.now within.entry.end.now) self.now.boundaries }
    {
        parts_within(self.there(), within, false, &mut Comparisons::new())
    }

    // The boundaries of what is there.
    #[inline(always)]
    fn there(&self) -> &Chunks<u64, bool>
        ensures boundaries { joined result.now ≡ self.now.boundaries }
        ensures sorted { IsAscending nat_cmp self.now.boundaries }
        ensures ended { is_odd (length self.now.boundaries) ≡ false }
    {
        if self.len == 0 {
            &self.nothing
        } else {
            &self.list
        }
    }
}
