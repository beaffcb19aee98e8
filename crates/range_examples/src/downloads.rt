//! A file that comes in chunks: the set of the byte offsets that have come.
ghost use Rattle.std.specs.Prelude.{◌≡◌, ◌↔◌, ◌&&◌, ◌<◌, ◌≤◌, ◌^◌, ℕ, true, false, not, IsTrue, IfOk, IfSome, IfNone};
ghost use Rattle.std.specs.Ordering.{nat_cmp, is_lt};
ghost use Rattle.range_collections.specs.Intersects.{HasMemberWithin};
ghost use Rattle.range_collections.specs.Boundaries.{member};

use range_collections::RangeSet;
use std::alloc::{AllocError, Global};
use std::ops::Range;

/// Byte offsets. Up to four ranges lie in the value itself.
pub type Offsets = RangeSet<u64, 8>;

/// The offsets of a file of `length` bytes that have not come.
pub fn still_missing(alloc: Global, come: &Offsets, length: u64) -> Result<Offsets, AllocError>
    ensures members { IfOk result (λ missing. (at : ℕ) → at < 2 ^ 64 →
        member nat_cmp missing at ≡
        (is_lt (nat_cmp at length) && not (member nat_cmp come.now at))) }
{
    Offsets::from_range_until(alloc, ..length)?.difference(come.as_ref())
}

/// Whether some byte of the chunk has come before.
pub fn comes_twice(come: &Offsets, chunk: Range<u64>) -> bool
    ensures { IsTrue result ↔ HasMemberWithin nat_cmp come.now chunk.start chunk.end }
{
    come.intersects_range(chunk)
}

/// The next offset, from the given one on, that has not come. `None` where all have come up to the
/// greatest number of 64 bits.
pub fn next_missing(come: &Offsets, from: u64) -> Option<u64>
    ensures missing { IfSome result (λ at. member nat_cmp come.now at ≡ false) }
    ensures least { IfSome result (λ at. (other : ℕ) →
        from ≤ other → other < at → member nat_cmp come.now other ≡ true) }
    ensures none { IfNone result ((other : ℕ) →
        from ≤ other → member nat_cmp come.now other ≡ true) }
{
    come.next_gap(&from).copied()
}
