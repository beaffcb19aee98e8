//! Texts, ordered by their bytes. The empty text is the least value.
ghost use Rattle.std.specs.Prelude.{◌≡◌, [], ⊤, true, IfOk, IsOk, string_bytes};
ghost use Rattle.std.specs.Cmp.Lexicographic.{slice_cmp};
ghost use Rattle.std.specs.Ordering.{nat_cmp};
ghost use Rattle.std.specs.String.{string_cmp};
ghost use Rattle.std.specs.declared.cmp.Ordering.TheVariants.{Equal};
ghost use Rattle.std.proofs.Common.{ap};
ghost use Rattle.range_entry.specs.Copies.{same_text-equal};
ghost use Rattle.range_entry.specs.Leasts.{empty_text, empty_reference, empty_list-lowest};

use crate::entry_clone::EntryClone;
use crate::lists::is_empty_list;
use crate::range_set_entry::RangeSetEntry;
use std::alloc::{AllocError, Global};

impl RangeSetEntry for String {
    ghost is_value = { λ _. ⊤ };

    ghost least = { empty_text };

    ghost is_min_infallible = { ⊥ };

    fn min_value(alloc: Global) -> Result<String, AllocError> {
        Ok(String::new(alloc))
    }

    fn is_min_value(&self) -> bool {
        is_empty_list(self.as_bytes())
    }

    fn known(&self) {}

    ghost least_is_value = { tt };

    ghost least_is_least = { λ x _. empty_list-lowest nat_cmp (string_bytes x) };
}

impl EntryClone for String {
    ghost is_infallible = { λ _. ⊥ };

    ghost is_copy = { λ x y. string_bytes y ≡ string_bytes x };

    /// The same text, or an error if memory runs out.
    #[tactic(auto, using(crate::proofs::ItemOrder::equal_texts))]
    fn entry_clone(&self) -> Result<String, AllocError>
        ensures same { IfOk result (λ copied. string_cmp self.now copied ≡ Equal) }
        ensures copy { IfOk result (λ copied. string_bytes copied ≡ string_bytes self.now) }
    {
        self.clone()
    }

    ghost copy_is_equal = { λ x y. same_text-equal (string_bytes x) (string_bytes y) };
}

impl RangeSetEntry for &str {
    ghost is_value = { λ _. ⊤ };

    ghost least = { empty_reference };

    ghost is_min_infallible = { ⊤ };

    fn min_value(_alloc: Global) -> Result<Self, AllocError> {
        Ok("")
    }

    fn is_min_value(&self) -> bool {
        is_empty_list(self.as_bytes())
    }

    fn known(&self) {}

    ghost least_is_value = { tt };

    ghost least_is_least = { λ x _. empty_list-lowest nat_cmp x.now };
}

impl EntryClone for &str {
    ghost is_infallible = { λ _. ⊤ };

    ghost is_copy = { λ x y. y ≡ x };

    /// The same reference.
    #[tactic(auto, using(crate::proofs::ItemOrder::equal_texts))]
    #[inline(always)]
    fn entry_clone(&self) -> Result<Self, AllocError>
        ensures same { IfOk result (λ copied. slice_cmp nat_cmp self.now.now copied.now ≡ Equal) }
        ensures copy { IfOk result (λ copied. copied ≡ self.now) }
        ensures succeeds { IsOk result }
        ensures same_reference { result ≡ Ok self.now }
    {
        Ok(*self)
    }

    #[inline(always)]
    fn all_infallible() -> bool
        ensures { result ≡ true }
    {
        true
    }

    ghost copy_is_equal = { λ x y e. same_text-equal x.now y.now (ap (λ z. z.now) e) };
}
