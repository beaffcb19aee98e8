//! A number with a flag, ordered by the number alone, whose clone is refused where the flag is set.
ghost use Rattle.std.specs.Prelude.{◌≡◌, ◌^◌, ◌-◌, ⊤, false, negsuc, FitsSigned};
ghost use Rattle.std.specs.Int.{w64};
ghost use Rattle.std.proofs.Common.{rules};
ghost use Rattle.std.specs.Cmp.{partial_order_from_own_ties};
ghost use Rattle.std.specs.Cmp.Rules.{comparing};
ghost use Rattle.std.specs.Ordering.{int_cmp, int_eq, on, as_partial_cmp};
ghost use Rattle.range_entry.specs.Copies.{same-equal};

use range_entry::{EntryClone, RangeSetEntry};
use range_merge::Copier;
use std::alloc::{AllocError, Global};
use std::cmp::Ordering;

#[derive(Clone, Copy, Default)]
pub struct Flagged {
    pub number: i64,
    flag: bool,
}

/// The number, with its flag set or not.
pub fn with_flag(number: i64, flag: bool) -> Flagged {
    Flagged { number, flag }
}

impl PartialEq for Flagged {
    ghost eq = { on (λ item. item.number) int_eq };

    ghost laws = { Prim.search (comparing, rules) };

    fn eq(&self, other: &Flagged) -> bool {
        self.number == other.number
    }
}

impl Eq for Flagged {
    ghost laws = { Prim.search (comparing, rules) };
}

impl Ord for Flagged {
    ghost cmp = { on (λ item. item.number) int_cmp };

    ghost total = { Prim.search (comparing, rules) };

    ghost matches_partial_cmp = { Prim.search (comparing, rules) };

    ghost matches_eq = { Prim.search (comparing, rules) };

    fn cmp(&self, other: &Flagged) -> Ordering {
        self.number.cmp(&other.number)
    }
}

impl PartialOrd for Flagged {
    ghost partial_cmp = { as_partial_cmp (on (λ item. item.number) int_cmp) };

    ghost laws = { partial_order_from_own_ties (Prim.search (comparing, rules)) (Prim.search (comparing, rules)) };

    fn partial_cmp(&self, other: &Flagged) -> Option<Ordering> {
        Some(self.cmp(other))
    }
}

impl RangeSetEntry for Flagged {
    ghost is_value = { λ x. FitsSigned w64 x.number };

    ghost least = { record { number = negsuc (2 ^ 63 - 1); flag = false } };

    ghost is_min_infallible = { ⊤ };

    fn min_value(_alloc: Global) -> Result<Flagged, AllocError> {
        Ok(Flagged {
            number: i64::MIN,
            flag: false,
        })
    }

    fn is_min_value(&self) -> bool {
        self.number == i64::MIN
    }

    fn known(&self) {
        let _number = self.number;
    }

    ghost least_is_value = { Prim.search rules };

    ghost least_is_least = { Prim.search (comparing, rules) };
}

impl EntryClone for Flagged {
    ghost is_infallible = { λ item. item.flag ≡ false };

    ghost is_copy = { λ x y. y ≡ x };

    fn entry_clone(&self) -> Result<Flagged, AllocError> {
        if self.flag {
            Err(AllocError)
        } else {
            Ok(*self)
        }
    }

    ghost copy_is_equal = { same-equal Self.cmp (Prim.search (comparing, rules)) };
}

/// Copies such numbers, and refuses where the flag is set.
pub struct FlaggedCopier;

impl Copier<Flagged> for FlaggedCopier {
    ghost alike = { λ x y. x ≡ y };

    ghost is_infallible = { λ item. item.flag ≡ false };

    fn copy(&self, item: &Flagged) -> Result<Flagged, AllocError> {
        if item.flag {
            Err(AllocError)
        } else {
            Ok(*item)
        }
    }
}
