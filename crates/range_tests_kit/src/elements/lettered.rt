//! A number and a letter, ordered by the number alone, so that equal elements can differ.
ghost use Rattle.std.specs.Prelude.{◌≡◌, Ok};
ghost use Rattle.std.proofs.Common.{rules};
ghost use Rattle.std.specs.Cmp.{partial_order_from_own_ties};
ghost use Rattle.std.specs.Cmp.Rules.{comparing};
ghost use Rattle.std.specs.Ordering.{int_cmp, int_eq, on, as_partial_cmp};
ghost use Rattle.range_entry.specs.Copies.{same-equal};

use range_entry::EntryClone;
use std::alloc::AllocError;
use std::cmp::Ordering;

#[derive(Clone, Copy, Default)]
pub struct Lettered {
    pub number: i64,
    pub letter: u8,
}

/// The number with the letter.
pub fn with_letter(number: i64, letter: u8) -> Lettered {
    Lettered { number, letter }
}

/// Whether the items are these numbers with these letters.
pub fn letters_are(items: &[Lettered], want: &[(i64, u8)]) -> bool {
    items.len() == want.len()
        && items.iter().zip(want).all(|(item, (number, letter))| {
            item.number == *number && item.letter == *letter
        })
}

impl PartialEq for Lettered {
    ghost eq = { on (λ item. item.number) int_eq };

    ghost laws = { Prim.search (comparing, rules) };

    fn eq(&self, other: &Lettered) -> bool {
        self.number == other.number
    }
}

impl Eq for Lettered {
    ghost laws = { Prim.search (comparing, rules) };
}

impl Ord for Lettered {
    ghost cmp = { on (λ item. item.number) int_cmp };

    ghost total = { Prim.search (comparing, rules) };

    ghost matches_partial_cmp = { Prim.search (comparing, rules) };

    ghost matches_eq = { Prim.search (comparing, rules) };

    fn cmp(&self, other: &Lettered) -> Ordering {
        self.number.cmp(&other.number)
    }
}

impl PartialOrd for Lettered {
    ghost partial_cmp = { as_partial_cmp (on (λ item. item.number) int_cmp) };

    ghost laws = { partial_order_from_own_ties (Prim.search (comparing, rules)) (Prim.search (comparing, rules)) };

    fn partial_cmp(&self, other: &Lettered) -> Option<Ordering> {
        Some(self.cmp(other))
    }
}

impl EntryClone for Lettered {
    ghost is_infallible = { λ _. Unit {0} };

    ghost is_copy = { λ x y. y ≡ x };

    fn entry_clone(&self) -> Result<Lettered, AllocError> {
        Ok(*self)
    }

    ghost copy_is_equal = { same-equal Self.cmp (Prim.search (comparing, rules)) };
}
