//! Merges by a comparer that has the two required methods alone. Its lists have short runs enough
//! for a merge to read them apart.
ghost use Rattle.std.specs.Ordering.{int_cmp};
ghost use Rattle.std.proofs.lemmas.Cmp.{int_cmp_total};

use range_collections::{EntryCopier, RangeSet2, RangeSetRef};
use range_merge::{
    Compare, CountMergeState, DiffOp, IntersectionOp, MergeOperation, SmallVecMergeState, UnionOp,
    XorOp,
};
use range_tests_kit::lists::{every_other, set_of};
use smallvec::SmallVec;
use std::alloc::{AllocError, Global};
use std::cmp::Ordering;

// Compares numbers, and counts how often it did.
#[derive(Drop)]
struct Plainly {
    made: u128,
}

impl Compare<i64> for Plainly {
    ghost order = { int_cmp };

    ghost count = { λ plainly. plainly.made };

    fn compare(&mut self, a: &i64, b: &i64) -> Ordering {
        self.made += 1;
        a.cmp(b)
    }

    fn made(&self) -> u128 {
        self.made
    }

    ghost total = { int_cmp_total };
}

// The merge of two lists into a new one, and how many comparisons it took.
fn merged<O: MergeOperation>(
    alloc: Global,
    left: RangeSetRef<i64>,
    right: RangeSetRef<i64>,
    op: &O,
) -> Result<(SmallVec<i64, 2>, u128), AllocError> {
    let (a, b) = (left.boundaries(), right.boundaries());
    let mut plainly = Plainly { made: 0 };
    let new = SmallVec::new(alloc);
    let list = SmallVecMergeState::merge(new, a, b, &EntryCopier, op, &mut plainly)?;
    Ok((list, plainly.made()))
}

// How many items the merge of two lists has, and how many comparisons it took to count them.
fn counted<O: MergeOperation>(
    left: RangeSetRef<i64>,
    right: RangeSetRef<i64>,
    op: &O,
) -> Option<(usize, u128)> {
    let (a, b) = (left.boundaries(), right.boundaries());
    a.len().checked_add(b.len())?;
    let mut plainly = Plainly { made: 0 };
    let count = CountMergeState::merge(a, b, op, &mut plainly);
    Some((count, plainly.made()))
}

// Whether these are ten numbers from 0 to 39 for each remainder by four, which they leave.
fn leave(items: &[i64], remainders: &[i64]) -> bool {
    items.len() / 10 == remainders.len()
        && items.len() % 10 == 0
        && items.iter().all(|item| (0..40).contains(item) && remainders.contains(&(*item % 4)))
}

// Whether the even numbers from 0 to 38 and the odd ones from 1 to 39 give those that leave such
// remainders by four. Each number is a run, so they take 80 comparisons at most, and one at least.
fn gives<O: MergeOperation>(alloc: Global, op: &O, remainders: &[i64]) -> Option<bool> {
    let left: RangeSet2<i64> = set_of(alloc, &every_other(alloc, 0, 40).ok()?)?;
    let right = set_of(alloc, &every_other(alloc, 1, 40).ok()?)?;
    let (list, made) = merged(alloc, left.as_ref(), right.as_ref(), op).ok()?;
    let (count, others) = counted(left.as_ref(), right.as_ref(), op)?;
    let is_bounded = matches!((made, others), (1..=80, 1..=80));
    Some(leave(list.as_slice(), remainders) && count == list.len() && is_bounded)
}

#[test]
fn two_methods_are_enough_to_merge(rt: HostRuntime) {
    let alloc = rt.alloc();
    assert_eq!(rt; gives(alloc, &UnionOp, &[0, 3]), Some(true));
    assert_eq!(rt; gives(alloc, &IntersectionOp, &[1, 2]), Some(true));
    assert_eq!(rt; gives(alloc, &DiffOp, &[0, 1]), Some(true));
    assert_eq!(rt; gives(alloc, &XorOp, &[0, 1, 2, 3]), Some(true));
}
