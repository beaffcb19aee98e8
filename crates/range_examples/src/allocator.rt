//! Addresses to give out: one at a time, kept as the set of the free ones, or many that lie
//! together, kept as the set of those that are taken.
ghost use Rattle.std.specs.Prelude.{◌≡◌, ◌+◌, ◌-◌, ◌^◌, ◌<◌, ◌≤◌, ℕ, true, false, IfOk, IfSome, IfNone, OnOk, OnErr};
ghost use Rattle.std.specs.Ordering.{nat_cmp};
ghost use Rattle.range_collections.specs.Ranges.{range_items};
ghost use Rattle.range_collections.specs.Boundaries.{member};
ghost use Rattle.range_collections.specs.Connective.{Means, union_table, difference_table};
ghost use Rattle.range_collections.specs.Fits.{Fits};

use range_collections::RangeSet;
use std::alloc::AllocError;
use std::ops::Range;

/// Addresses. Up to four ranges lie in the value itself.
pub type Addresses = RangeSet<u64, 8>;

/// The lowest free address. It takes no memory.
pub fn lowest_free(free: &Addresses) -> Option<u64>
    ensures free { IfSome result (λ at. member nat_cmp free.now at ≡ true) }
    ensures lowest { IfSome result (λ at. (lower : ℕ) →
        lower < at → member nat_cmp free.now lower ≡ false) }
    ensures none { IfNone result ((at : ℕ) → member nat_cmp free.now at ≡ false) }
{
    free.next_member(&0).copied()
}

/// Takes the lowest free address, if there is one. The greatest number of 64 bits is never given
/// out. If memory runs out, nothing is taken.
pub fn take_lowest(free: &mut Addresses) -> Result<Option<u64>, AllocError>
    ensures was_free { IfOk result (λ taken.
        IfSome taken (λ at. member nat_cmp free.old at ≡ true)) }
    ensures lowest { IfOk result (λ taken. IfSome taken (λ at.
        (lower : ℕ) → lower < at → member nat_cmp free.old lower ≡ false)) }
    ensures means { IfOk result (λ taken. IfSome taken (λ at.
        Means nat_cmp difference_table free.new free.old (range_items nat_cmp at (at + 1)))) }
    ensures none { IfOk result (λ taken.
        IfNone taken ((at : ℕ) → at < 2 ^ 64 - 1 → member nat_cmp free.old at ≡ false)) }
    ensures kept { IfOk result (λ taken. IfNone taken (free.new ≡ free.old)) }
    ensures unchanged { OnErr result (free.new ≡ free.old) }
{
    match lowest_free(free) {
        Some(lowest) if lowest < u64::MAX => {
            free.remove(lowest..lowest + 1)?;
            Ok(Some(lowest))
        }
        _ => Ok(None),
    }
}

/// Gives the addresses of the range back. If memory runs out, the free addresses are as they were.
pub fn give_back(free: &mut Addresses, given: Range<u64>) -> Result<(), AllocError>
    ensures means { OnOk result
        (Means nat_cmp union_table free.new free.old (range_items nat_cmp given.start given.end)) }
    ensures unchanged { OnErr result (free.new ≡ free.old) }
{
    free.insert(given)
}

/// The lowest place within the bounds where `len` addresses are free.
pub fn free_run(taken: &Addresses, within: Range<u64>, len: u64) -> Option<u64>
    ensures free { IfSome result (λ first. (at : ℕ) →
        first ≤ at → at < first + len → member nat_cmp taken.now at ≡ false) }
{
    taken.first_fit(within, len)
}

/// Takes `len` addresses that lie together, at the lowest place within the bounds where all of them
/// are free, and returns the first. If there is no such place, or memory runs out, nothing is
/// taken.
pub fn take_run(
    taken: &mut Addresses,
    within: Range<u64>,
    len: u64,
) -> Result<Option<u64>, AllocError>
    ensures fits { IfOk result (λ run.
        IfSome run (Fits nat_cmp (λ n. n) taken.old within.start within.end len)) }
    ensures lowest { IfOk result (λ run. IfSome run (λ at.
        (other : ℕ) → Fits nat_cmp (λ n. n) taken.old within.start within.end len other →
        at ≤ other)) }
    ensures means { IfOk result (λ run. IfSome run (λ at.
        Means nat_cmp union_table taken.new taken.old (range_items nat_cmp at (at + len)))) }
    ensures none { IfOk result (λ run. IfNone run ((at : ℕ) →
        ¬ (Fits nat_cmp (λ n. n) taken.old within.start within.end len at))) }
    ensures kept { IfOk result (λ run. IfNone run (taken.new ≡ taken.old)) }
    ensures unchanged { OnErr result (taken.new ≡ taken.old) }
{
    match taken.first_fit(within, len) {
        Some(first) => {
            taken.insert(first..first + len)?;
            Ok(Some(first))
        }
        None => Ok(None),
    }
}
