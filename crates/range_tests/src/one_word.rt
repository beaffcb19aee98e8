//! A number of one word that adds one to a tally whenever it is compared, and is copied as plain
//! data. Lists of it are read and searched by what serves numbers, without a branch.
ghost use Rattle.std.specs.Prelude.{◌≡◌, ◌^◌, ◌-◌, ⊤, None, negsuc, unwrap_or, option_map, FitsSigned};
ghost use Rattle.std.specs.Int.{w64};
ghost use Rattle.std.proofs.Common.{rules, true};
ghost use Rattle.std.specs.Cmp.{partial_order_from_own_ties};
ghost use Rattle.std.specs.Cmp.Rules.{comparing};
ghost use Rattle.std.specs.Ordering.{int_cmp, int_eq, on, as_partial_cmp};
ghost use Rattle.range_entry.specs.Copies.{same-equal};

use range_entry::{EntryClone, RangeSetEntry};
use std::alloc::{AllocError, Global};
use std::cell::Cell;
use std::cmp::Ordering;

/// What an element refers to.
#[derive(Drop)]
pub(crate) struct Counted<'t> {
    number: i64,
    tally: &'t Cell<u128>,
}

/// A number, with the tally to add to. The least number is a blank, which has no tally and adds to
/// that of the other number.
#[derive(Clone, Copy, Default)]
pub(crate) struct OneWord<'n, 't> {
    at: Option<&'n Counted<'t>>,
}

/// The numbers of all lists, with the tally.
pub(crate) fn all_counted<'t>(
    alloc: Global,
    lists: &[&[i64]],
    tally: &'t Cell<u128>,
) -> Result<Vec<Counted<'t>>, AllocError> {
    let mut items = Vec::new(alloc);
    for list in lists {
        for number in *list {
            items.push(Counted {
                number: *number,
                tally,
            })?;
        }
    }
    Ok(items)
}

/// An element for each of the numbers.
pub(crate) fn all_of_one_word<'n, 't>(
    alloc: Global,
    numbers: &'n [Counted<'t>],
) -> Result<Vec<OneWord<'n, 't>>, AllocError> {
    let mut items = Vec::new(alloc);
    for number in numbers {
        items.push(OneWord { at: Some(number) })?;
    }
    Ok(items)
}

impl<'n, 't> OneWord<'n, 't> {
    fn number(&self) -> i64
        ensures { result ≡ unwrap_or (option_map (λ it. it.now.number) self.now.at) (negsuc (2 ^ 63 - 1)) }
    {
        match self.at {
            Some(it) => it.number,
            None => i64::MIN,
        }
    }

    // Adds one to the tally of one of the two.
    fn count(&self, other: &Self) {
        if let Some(it) = self.at.or(other.at) {
            it.tally.set(it.tally.get().saturating_add(1));
        }
    }
}

impl<'n, 't> PartialEq for OneWord<'n, 't> {
    ghost eq = { on (λ item. unwrap_or (option_map (λ it. it.now.number) item.at) (negsuc (2 ^ 63 - 1))) int_eq };

    ghost laws = { Prim.search (comparing, rules) };

    fn eq(&self, other: &Self) -> bool {
        self.count(other);
        self.number() == other.number()
    }
}

impl<'n, 't> Eq for OneWord<'n, 't> {
    ghost laws = { Prim.search (comparing, rules) };
}

impl<'n, 't> Ord for OneWord<'n, 't> {
    ghost cmp = { on (λ item. unwrap_or (option_map (λ it. it.now.number) item.at) (negsuc (2 ^ 63 - 1))) int_cmp };

    ghost total = { Prim.search (comparing, rules) };

    ghost matches_partial_cmp = { Prim.search (comparing, rules) };

    ghost matches_eq = { Prim.search (comparing, rules) };

    fn cmp(&self, other: &Self) -> Ordering {
        self.count(other);
        self.number().cmp(&other.number())
    }
}

impl<'n, 't> PartialOrd for OneWord<'n, 't> {
    ghost partial_cmp = { as_partial_cmp (on (λ item. unwrap_or (option_map (λ it. it.now.number) item.at) (negsuc (2 ^ 63 - 1))) int_cmp) };

    ghost laws = { partial_order_from_own_ties (Prim.search (comparing, rules)) (Prim.search (comparing, rules)) };

    fn partial_cmp(&self, other: &Self) -> Option<Ordering> {
        self.count(other);
        Some(self.number().cmp(&other.number()))
    }
}

impl<'n, 't> EntryClone for OneWord<'n, 't> {
    ghost is_infallible = { λ _. ⊤ };

    ghost is_copy = { λ x y. y ≡ x };

    fn entry_clone(&self) -> Result<Self, AllocError> {
        Ok(*self)
    }

    fn is_plain() -> bool
        ensures { result ≡ true }
    {
        true
    }

    ghost copy_is_equal = { same-equal Self.cmp (Prim.search (comparing, rules)) };
}

impl<'n, 't> RangeSetEntry for OneWord<'n, 't> {
    ghost is_value = { λ x. FitsSigned w64 (unwrap_or (option_map (λ it. it.now.number) x.at) (negsuc (2 ^ 63 - 1))) };

    ghost least = { record { at = None } };

    ghost is_min_infallible = { ⊤ };

    fn min_value(_alloc: Global) -> Result<Self, AllocError> {
        Ok(OneWord { at: None })
    }

    fn is_min_value(&self) -> bool {
        self.number() == i64::MIN
    }

    fn known(&self) {
        let _number = self.number();
    }

    ghost least_is_value = { Prim.search rules };

    ghost least_is_least = { Prim.search (comparing, rules) };
}
