//! A number that adds one to a tally whenever it is compared.
ghost use Rattle.std.specs.Prelude.{◌≡◌, ◌^◌, ◌-◌, ⊤, Ok, None, negsuc, FitsSigned};
ghost use Rattle.std.specs.Int.{w64};
ghost use Rattle.std.proofs.Common.{rules};
ghost use Rattle.std.specs.Cmp.{partial_order_from_own_ties};
ghost use Rattle.std.specs.Cmp.Rules.{comparing};
ghost use Rattle.std.specs.Ordering.{int_cmp, int_eq, on, as_partial_cmp};
ghost use Rattle.range_entry.specs.Copies.{same-equal};
ghost use Rattle.range_collections.specs.Countable.{signed_place, signed_value, signed_place-fits, signed_value-fits, signed_place-value, signed_place-order};

use range_collections::{Countable, FromPlace};
use range_entry::{EntryClone, RangeSetEntry};
use std::alloc::{AllocError, Global};
use std::cell::Cell;
use std::cmp::Ordering;

/// The order looks at the number alone. A blank has no tally, and adds to that of the other number.
#[derive(Clone, Copy, Default)]
pub struct Tallied<'t> {
    number: i64,
    tally: Option<&'t Cell<u128>>,
}

/// The number, with the tally to add to.
pub fn with_tally<'t>(number: i64, tally: &'t Cell<u128>) -> Tallied<'t> {
    Tallied {
        number,
        tally: Some(tally),
    }
}

/// The numbers, with the tally.
pub fn all_tallied<'t>(
    alloc: Global,
    numbers: &[i64],
    tally: &'t Cell<u128>,
) -> Result<Vec<Tallied<'t>>, AllocError> {
    let mut items = Vec::new(alloc);
    for number in numbers {
        items.push(with_tally(*number, tally))?;
    }
    Ok(items)
}

impl<'t> Tallied<'t> {
    // Adds one to the tally of one of the two.
    fn count(&self, other: &Self) {
        if let Some(tally) = self.tally.or(other.tally) {
            tally.set(tally.get().saturating_add(1));
        }
    }
}

impl<'t> PartialEq for Tallied<'t> {
    ghost eq = { on (λ item. item.number) int_eq };

    ghost laws = { Prim.search (comparing, rules) };

    fn eq(&self, other: &Self) -> bool {
        self.count(other);
        self.number == other.number
    }
}

impl<'t> Eq for Tallied<'t> {
    ghost laws = { Prim.search (comparing, rules) };
}

impl<'t> Ord for Tallied<'t> {
    ghost cmp = { on (λ item. item.number) int_cmp };

    ghost total = { Prim.search (comparing, rules) };

    ghost matches_partial_cmp = { Prim.search (comparing, rules) };

    ghost matches_eq = { Prim.search (comparing, rules) };

    fn cmp(&self, other: &Self) -> Ordering {
        self.count(other);
        self.number.cmp(&other.number)
    }
}

impl<'t> PartialOrd for Tallied<'t> {
    ghost partial_cmp = { as_partial_cmp (on (λ item. item.number) int_cmp) };

    ghost laws = { partial_order_from_own_ties (Prim.search (comparing, rules)) (Prim.search (comparing, rules)) };

    fn partial_cmp(&self, other: &Self) -> Option<Ordering> {
        self.count(other);
        Some(self.number.cmp(&other.number))
    }
}

impl<'t> EntryClone for Tallied<'t> {
    ghost is_infallible = { λ _. ⊤ };

    ghost is_copy = { λ x y. y ≡ x };

    fn entry_clone(&self) -> Result<Self, AllocError> {
        Ok(*self)
    }

    ghost copy_is_equal = { same-equal Self.cmp (Prim.search (comparing, rules)) };
}

impl<'t> RangeSetEntry for Tallied<'t> {
    ghost is_value = { λ x. FitsSigned w64 x.number };

    ghost least = { record { number = negsuc (2 ^ 63 - 1); tally = None } };

    ghost is_min_infallible = { ⊤ };

    fn min_value(_alloc: Global) -> Result<Self, AllocError> {
        Ok(Tallied {
            number: i64::MIN,
            tally: None,
        })
    }

    fn is_min_value(&self) -> bool {
        self.number == i64::MIN
    }

    fn known(&self) {
        let _number = self.number;
    }

    ghost least_is_value = { Prim.search rules };

    ghost least_is_least = { Prim.search (comparing, rules) };
}

impl<'t> Countable for Tallied<'t> {
    ghost count = { 2 ^ 64 };

    ghost value = { λ n. record { number = signed_value (2 ^ 63) n; tally = None } };

    ghost place = { λ x. signed_place (2 ^ 63) x.number };

    fn place(&self) -> u128 {
        self.number.place()
    }

    ghost count_fits = { Prim.search rules };

    ghost place_fits = { λ x h. signed_place-fits (2 ^ 63) x.number h.sfits };

    ghost value_is_value = { λ n h. record { sfits = signed_value-fits (2 ^ 63) n h } };

    ghost place_of_value = { signed_place-value (2 ^ 63) };

    ghost in_order = { λ x y h k. signed_place-order (2 ^ 63) x.number y.number h.sfits k.sfits };
}

impl<'t> FromPlace for Tallied<'t> {
    ghost zero = { 2 ^ 63 };

    fn zero() -> u128
        ensures { result ≡ 2 ^ 63 }
    {
        1 << 63
    }

    fn from_place(place: u128) -> Option<Self> {
        let number = i64::from_place(place)?;
        Some(Tallied {
            number,
            tally: None,
        })
    }

    fn greatest() -> Self {
        Tallied {
            number: i64::MAX,
            tally: None,
        }
    }
}
