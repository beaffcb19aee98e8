//! For how many rounds a merge takes whole runs between two reads of short ones.
ghost use Rattle.std.specs.Prelude.{◌≡◌, ◌<◌, ◌≤◌, false, length};

use crate::fast::short_runs::ReadSoFar;
use crate::merge_state::MergeState;

// A read is worth its call from this number of items of each list on.
const READ_FROM: usize = 24;

// A read that took fewer items of each list met a long run soon: at its first look, or its second.
const SOON: usize = 5;

// This number of these in a row is no chance: among random items, too, some runs are long.
const IN_A_ROW: u32 = 3;

// A read costs at most this number of comparisons more than its runs allow, and each round leaves
// one.
const PAID: u32 = 6;

// The number of rounds where runs are mostly long.
const FOR_LONG_RUNS: u32 = 512;

// Rounds that each took this number of items of the left list met long runs, or many equal pairs.
const LONG: usize = 48;

/// How many rounds come before the next read.
#[derive(Drop)]
pub(crate) struct Rounds {
    // How many reads in a row met a long run soon.
    soon: u32,
    // How many items of the left list were unread after the last read, if there was one.
    unread: usize,
}

impl Rounds {
    /// As few as may be.
    #[inline(always)]
    pub(crate) fn new() -> Self {
        Rounds { soon: 0, unread: 0 }
    }

    /// How many come next: many if runs are better taken whole.
    #[inline(always)]
    pub(crate) fn count(&self) -> u32
        ensures { 6 ≤ result }
    {
        if self.soon < IN_A_ROW {
            PAID
        } else {
            FOR_LONG_RUNS
        }
    }

    /// Whether the rounds since the last read took so much that the next ones are better than a
    /// read, where `unread` items of the left list are left.
    #[inline(always)]
    pub(crate) fn were_long(&mut self, unread: usize) -> bool {
        let took = self.unread.saturating_sub(unread);
        self.unread = unread;
        took / LONG >= self.count() as usize
    }

    /// Learns how far a read came.
    #[inline(always)]
    pub(crate) fn learn(&mut self, at: ReadSoFar) {
        self.soon = if at.i.max(at.j) < SOON {
            self.soon.saturating_add(1)
        } else {
            0
        };
        self.unread = self.unread.saturating_sub(at.i);
    }
}

/// Whether a list has too few unread items for a read to be worth its call.
#[inline(always)]
pub(crate) fn are_few<S: MergeState>(state: &S) -> bool
    ensures some { result ≡ false → 0 < length (S.left state.now) }
{
    state.a_len() < READ_FROM || state.b_len() < READ_FROM
}
