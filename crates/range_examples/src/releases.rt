//! Which releases of a program have a fault.
ghost use Rattle.std.specs.Prelude.{◌≡◌, ◌&&◌, ◌||◌, ⊤, not, OnOk, OnErr, IfOk};
ghost use Rattle.std.specs.Ordering.{is_le, is_lt};
ghost use Rattle.std.proofs.Common.{rules};
ghost use Rattle.std.specs.Cmp.Rules.{comparing};
ghost use Rattle.range_entry.specs.Copies.{same-equal};
ghost use Rattle.range_collections.specs.Boundaries.{member};

use range_collections::{EntryClone, RangeSet};
use std::alloc::AllocError;
use std::ops::Range;

/// A release, as 1.10: ordered by the first number, then by the second.
#[derive(Clone, Copy, Default, PartialEq, Eq, PartialOrd, Ord)]
pub struct Version {
    pub major: u16,
    pub minor: u16,
}

impl EntryClone for Version {
    ghost is_infallible = { λ _. ⊤ };

    ghost is_copy = { λ x y. y ≡ x };

    fn entry_clone(&self) -> Result<Version, AllocError> {
        Ok(*self)
    }

    ghost copy_is_equal = { same-equal Self.cmp (Prim.search (comparing, rules)) };
}

/// Releases. Up to four ranges lie in the value itself.
pub type Releases = RangeSet<Version, 8>;

/// Notes that the releases of a range have the fault.
pub fn has_fault(faulty: &mut Releases, found: Range<Version>) -> Result<(), AllocError>
    ensures members { OnOk result ((version : Version) →
        member ⟦<Version as Ord>⟧.cmp faulty.new version ≡
        (member ⟦<Version as Ord>⟧.cmp faulty.old version
        || (is_le (⟦<Version as Ord>⟧.cmp found.start version)
        && is_lt (⟦<Version as Ord>⟧.cmp version found.end)))) }
    ensures unchanged { OnErr result (faulty.new ≡ faulty.old) }
{
    faulty.insert(found)
}

/// The releases that one may use: those that we ship and that don't have the fault.
pub fn usable(shipped: &Releases, faulty: &Releases) -> Result<Releases, AllocError>
    ensures members { IfOk result (λ good. (version : Version) →
        member ⟦<Version as Ord>⟧.cmp good version ≡
        (member ⟦<Version as Ord>⟧.cmp shipped.now version
        && not (member ⟦<Version as Ord>⟧.cmp faulty.now version))) }
{
    shipped - faulty
}

/// Whether a release may be used.
pub fn is_usable(shipped: &Releases, faulty: &Releases, version: &Version) -> bool
    ensures { result ≡ (member ⟦<Version as Ord>⟧.cmp shipped.now version.now
        && not (member ⟦<Version as Ord>⟧.cmp faulty.now version.now)) }
{
    shipped.contains(version) && !faulty.contains(version)
}
