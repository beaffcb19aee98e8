//! Merges of lists of numbers: by a comparer and a copier of the tests'
//! own into a list, a count and a test, and by sets and views into a count, a test and a slice.
ghost use Rattle.std.specs.Prelude.{◌≡◌, false};

use crate::operations::{Call, Case};
use range_collections::{Comparisons, NoRoom, RangeSet2, RangeSetRef};
use range_merge::{
    BoolOpMergeState, Compare, Copier, CountMergeState, DiffOp, IntersectionOp, MergeOperation,
    SliceIterator, SmallVecMergeState, UnionOp, XorOp, merge,
};
use range_tests_kit::comparers::{Copies, NoCopies, Numbers};
use range_tests_kit::forms::Operation;
use range_tests_kit::lists::set_of;
use smallvec::SmallVec;
use std::alloc::{AllocError, Global};

// The merge of two lists into a new one, and how many comparisons it took.
fn merged<P: Copier<i64>, O: MergeOperation>(
    alloc: Global,
    left: RangeSetRef<i64>,
    right: RangeSetRef<i64>,
    copier: &P,
    op: &O,
) -> Result<(SmallVec<i64, 2>, u128), AllocError> {
    let (a, b) = (left.boundaries(), right.boundaries());
    let mut numbers = Numbers { made: 0 };
    let list = SmallVecMergeState::merge(SmallVec::new(alloc), a, b, copier, op, &mut numbers)?;
    Ok((list, numbers.made()))
}

// The merge on a state over two lists and a list that holds -1 already, and how many comparisons it
// took, if it used up both lists.
fn appended<O: MergeOperation>(
    alloc: Global,
    left: RangeSetRef<i64>,
    right: RangeSetRef<i64>,
    op: &O,
) -> Result<(SmallVec<i64, 4>, Option<u128>), AllocError> {
    let list = SmallVec::from_slice(alloc, &[-1])?;
    let mut numbers = Numbers { made: 0 };
    let mut state = SmallVecMergeState::new(left.boundaries(), right.boundaries(), list, &Copies);
    let ended = merge(&mut state, op, &mut numbers)?;
    Ok((state.result(), ended.then_some(numbers.made())))
}

// Whether the merges into a list find this one, after what was there, in at most `most`
// comparisons.
fn gives_list<O: MergeOperation>(
    alloc: Global,
    left: RangeSetRef<i64>,
    right: RangeSetRef<i64>,
    op: &O,
    want: &[i64],
    most: u128,
) -> bool {
    let is_merged = matches!(merged(alloc, left, right, &Copies, op), Ok((list, made))
        if list.as_slice() == want && made <= most);
    let is_appended = matches!(appended(alloc, left, right, op), Ok((list, Some(made)))
        if list.as_slice().split_first() == Some((&-1, want)) && made <= most);
    is_merged && is_appended
}

// Whether the merges that count find this number of changes, in at most `most` comparisons.
pub(crate) fn gives_count<O: MergeOperation>(
    left: RangeSetRef<i64>,
    right: RangeSetRef<i64>,
    op: &O,
    want: usize,
    most: u128,
) -> bool {
    let (a, b) = (left.boundaries(), right.boundaries());
    if a.len().checked_add(b.len()).is_none() {
        return false;
    }
    let (mut numbers, mut others) = (Numbers { made: 0 }, Numbers { made: 0 });
    let count = CountMergeState::merge(a, b, op, &mut numbers);
    let mut state = CountMergeState::new(a, b);
    let ended = merge(&mut state, op, &mut others) == Ok(true);
    ended && (count, state.result()) == (want, want) && numbers.made().max(others.made()) <= most
}

// Whether a set and its view count this number of boundaries, in at most `most` comparisons each.
pub(crate) fn gives_length<O: MergeOperation>(
    set: &RangeSet2<i64>,
    that: RangeSetRef<i64>,
    op: &O,
    want: usize,
    most: u128,
) -> bool
    requires { O.connective op.now false false ≡ false }
{
    let (a, b) = (set.boundaries(), that.boundaries());
    if a.len().checked_add(b.len()).is_none() {
        return false;
    }
    let (mut count, mut again) = (Comparisons::new(), Comparisons::new());
    let length = set.merge_len(that, op, &mut count);
    let of_view = set.as_ref().merge_len(that, op, &mut again);
    (length, of_view) == (want, want) && count.made().max(again.made()) <= most
}

// What a slice holds before a list is written to it, and how long it is.
const BEFORE: i64 = -99;

const ROOM: usize = 256;

// Whether the list was written to the front of the slice, and nothing after it.
fn is_front(written: Result<usize, NoRoom>, out: &[i64], want: &[i64]) -> bool {
    let (front, rest) = out.split_at(want.len().min(out.len()));
    matches!(written, Ok(len) if len == want.len())
        && front == want
        && rest.iter().all(|item| *item == BEFORE)
}

// Whether a set, and its view, write this list to a slice.
pub(crate) fn gives_written<O: MergeOperation>(
    set: &RangeSet2<i64>,
    that: RangeSetRef<i64>,
    op: &O,
    want: &[i64],
) -> bool
    requires { O.connective op.now false false ≡ false }
{
    let (a, b) = (set.boundaries(), that.boundaries());
    if a.len().checked_add(b.len()).is_none() {
        return false;
    }
    let (mut out, mut again) = ([BEFORE; ROOM], [BEFORE; ROOM]);
    let of_set = set.merge_into(that, op, &mut out, &mut Comparisons::new());
    let of_view = set
        .as_ref()
        .merge_into(that, op, &mut again, &mut Comparisons::new());
    is_front(of_set, &out, want) && is_front(of_view, &again, want)
}

// How many comparisons the tests of two lists, of a state over them, of a set and of its view make,
// where all find that something is taken, or all that nothing is.
fn tests<O: MergeOperation>(
    set: &RangeSet2<i64>,
    that: RangeSetRef<i64>,
    op: &O,
    want: bool,
) -> Option<[u128; 4]>
    requires { O.connective op.now false false ≡ false }
{
    let (a, b) = (set.boundaries(), that.boundaries());
    let (mut numbers, mut others) = (Numbers { made: 0 }, Numbers { made: 0 });
    let (mut count, mut again) = (Comparisons::new(), Comparisons::new());
    let mut state = BoolOpMergeState::new(a, b);

    // The state stops where it takes, and that is no refusal.
    if merge(&mut state, op, &mut others) != Ok(!want) {
        return None;
    }
    let found = [
        state.result(),
        BoolOpMergeState::merge(a, b, op, &mut numbers),
        set.merge_test(that, op, &mut count),
        set.as_ref().merge_test(that, op, &mut again),
    ];
    (found == [want; 4]).then_some([numbers.made(), others.made(), count.made(), again.made()])
}

// Whether they do, each in at most `most`.
pub(crate) fn gives_test<O: MergeOperation>(
    set: &RangeSet2<i64>,
    that: RangeSetRef<i64>,
    op: &O,
    want: bool,
    most: u128,
) -> bool
    requires { O.connective op.now false false ≡ false }
{
    match tests(set, that, op, want) {
        Some(made) => made.iter().all(|made| *made <= most),
        None => false,
    }
}

// The first merge of a case by the operation that answers otherwise, or compares more often than it
// may.
fn wrong_by<O: MergeOperation>(alloc: Global, case: Case, op: &O) -> Option<Call>
    requires { O.connective op.now false false ≡ false }
{
    let (Some(set), Some(right)) = (set_of(alloc, case.left), RangeSetRef::new(case.right)) else {
        return Some(Call::Sides);
    };
    let (left, length, most) = (set.as_ref(), case.want.len(), case.most);
    if !gives_list(alloc, left, right, op, case.want, most) {
        return Some(Call::List);
    }
    if !gives_count(left, right, op, length, most) {
        return Some(Call::Count);
    }
    if !gives_length(&set, right, op, length, most) {
        return Some(Call::Length);
    }
    if !gives_test(&set, right, op, length > 0, most) {
        return Some(Call::Test);
    }
    None
}

// The same of its own operation.
pub(crate) fn wrong_merge(alloc: Global, case: Case) -> Option<Call> {
    match case.op {
        Operation::Union => wrong_by(alloc, case, &UnionOp),
        Operation::Intersection => wrong_by(alloc, case, &IntersectionOp),
        Operation::Difference => wrong_by(alloc, case, &DiffOp),
        Operation::SymmetricDifference => wrong_by(alloc, case, &XorOp),
    }
}

// How many comparisons the union of two lists takes on a state.
fn cost_of_union(alloc: Global, a: &[i64], b: &[i64]) -> Option<u128> {
    let (left, right) = (RangeSetRef::new(a)?, RangeSetRef::new(b)?);
    match appended(alloc, left, right, &UnionOp) {
        Ok((_, made)) => made,
        Err(_) => None,
    }
}

// Seventeen numbers, of which sixteen are two eights.
const SEVENTEEN: [i64; 17] = [0, 1, 2, 3, 4, 5, 6, 7, 8, 9, 10, 11, 12, 13, 14, 15, 16];

#[test]
fn equal_pairs_are_compared_once(rt: HostRuntime) {
    for len in [1usize, 8, 9, 15, 16, 17] {
        let items = &SEVENTEEN[..len];
        let cost = cost_of_union(rt.alloc(), items, items);
        assert!(rt; cost == Some(len as u128), "{cost:?} for {len}");
    }
}

// After eight pairs the next seven are compared ahead, which is lost if one of them isn't equal.
#[test]
fn pairs_after_eight_are_compared_ahead(rt: HostRuntime) {
    let shorter = &SEVENTEEN[..15];
    let with_16 = [0, 1, 2, 3, 4, 5, 6, 7, 8, 9, 10, 11, 12, 13, 14, 16];
    assert!(rt; cost_of_union(rt.alloc(), &SEVENTEEN[..16], &with_16) == Some(16 + 7));
    assert!(rt; cost_of_union(rt.alloc(), shorter, &with_16) == Some(15));
}

// Whether a union of two lists is refused where each copy is.
fn refuses_copies(a: &[i64], b: &[i64], alloc: Global) -> bool {
    match (RangeSetRef::new(a), RangeSetRef::new(b)) {
        (Some(left), Some(right)) => merged(alloc, left, right, &NoCopies, &UnionOp).is_err(),
        _ => false,
    }
}

#[test]
fn a_refused_copy_refuses_the_merge(rt: HostRuntime) {
    assert!(rt; refuses_copies(&[0, 10], &[20], rt.alloc()));
    assert!(rt; refuses_copies(&[], &[20], rt.alloc()));
    assert!(rt; !refuses_copies(&[], &[], rt.alloc()));
}

// What an operation answers where both sides are off, the left alone is on, the right alone is on,
// and both are.
fn answers<O: MergeOperation>(op: &O) -> [bool; 4] {
    let off = op.when_off();
    let left = off != op.takes_a(false);
    let right = off != op.takes_b(false);
    [off, left, right, left != op.takes_b(true)]
}

// What an operation takes: of the left, of the right and of both, each by how the sides that matter
// stood before.
fn takes<O: MergeOperation>(op: &O) -> [bool; 8] {
    [
        op.takes_a(false),
        op.takes_a(true),
        op.takes_b(false),
        op.takes_b(true),
        op.takes_both(false, false),
        op.takes_both(false, true),
        op.takes_both(true, false),
        op.takes_both(true, true),
    ]
}

#[test]
fn operations_answer_by_their_tables(rt: HostRuntime) {
    let right = [
        answers(&UnionOp) == [false, true, true, true],
        answers(&IntersectionOp) == [false, false, false, true],
        answers(&DiffOp) == [false, true, false, false],
        answers(&XorOp) == [false, true, true, false],
        takes(&UnionOp) == [true, false, true, false, true, false, false, true],
        takes(&IntersectionOp) == [false, true, false, true, true, false, false, true],
        takes(&DiffOp) == [true, false, false, true, false, true, true, false],
        takes(&XorOp) == [true, true, true, true, false, false, false, false],
    ];
    assert_eq!(rt; right, [true; 8]);
}

#[test]
fn slices_are_read_from_the_front(rt: HostRuntime) {
    let items = [1i64, 2, 3, 4, 5];
    let mut unread = SliceIterator::new(&items);
    let all = unread.as_slice() == [1, 2, 3, 4, 5].as_slice();
    unread.drop_front(1);
    let right = [
        all,
        unread.as_slice() == [2, 3, 4, 5].as_slice(),
        unread.take_front(2) == [2, 3].as_slice(),
        unread.next() == Some(&4),
        unread.next() == Some(&5),
        unread.next().is_none(),
    ];
    assert_eq!(rt; right, [true; 6]);
}
