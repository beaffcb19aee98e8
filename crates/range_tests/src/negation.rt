//! What is not in a set, and back, at types that are neither numbers nor characters.
use range_collections::RangeSet2;
use range_entry::{EntryClone, NonZeroU8, RangeSetEntry};
use range_tests_kit::elements::{Only, from_end};
use range_tests_kit::lists::{gives, own};
use std::alloc::Global;
use std::default::MadeWith;

// Whether the set's clone is equal to it, in both forms.
fn is_cloned<T: EntryClone + MadeWith<Global> + Drop>(set: &RangeSet2<T>) -> bool {
    match set.clone() {
        Ok(copied) => copied == *set && copied.eq_ref(set.as_ref()),
        Err(_) => false,
    }
}

// Whether both forms of `!` lead back from what is not in the set.
fn leads_back<T: RangeSetEntry + EntryClone + MadeWith<Global> + Drop>(set: &RangeSet2<T>) -> bool {
    match !set {
        Ok(other) => gives(!&other, set.boundaries()) && gives(!other, set.boundaries()),
        Err(_) => false,
    }
}

// Whether both forms of `!` lead from the set to the other list, and back.
fn negates<T: RangeSetEntry + EntryClone + MadeWith<Global> + Drop>(
    set: Option<RangeSet2<T>>,
    negated: &[T],
) -> bool {
    match set {
        Some(set) => {
            is_cloned(&set) && leads_back(&set) && gives(!&set, negated) && gives(!set, negated)
        }
        None => false,
    }
}

#[test]
fn negation_leads_to_the_other_values_and_back(rt: HostRuntime) {
    let (alloc, back) = (rt.alloc(), [from_end(255), from_end(250)]);
    assert!(rt; negates(own(alloc, &back), &[from_end(250)]));
    assert!(rt; negates(own(alloc, &[Only]), &[]));
    assert!(rt; negates(own(alloc, &[]), &[Only]));
    assert!(rt; matches!(NonZeroU8::new(1), Some(one) if negates(own(alloc, &[one]), &[])));
}
