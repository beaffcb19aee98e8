//! The four operations in every form, and by their merges: the list that each gives, and how often
//! it may compare.
use crate::merging::wrong_merge;
use range_collections::{Comparisons, RangeSet, RangeSet2};
use range_tests_kit::forms::{FORMS, Form, OPERATIONS, Operation, Row};
use range_tests_kit::lists::{every_other, numbers, own, prints};
use range_tests_kit::membership::Stands;
use std::alloc::{AllocError, Global};
use std::test::Fail;

const MIN: i64 = i64::MIN;

macro_rules! row {
    ($a:expr, $b:expr => $union:expr, $both:expr, $less:expr, $differ:expr; $most:expr) => {
        Row {
            left: &$a,
            right: &$b,
            wants: [&$union, &$both, &$less, &$differ],
            most: $most,
        }
    };
}

// Two lists, their union, intersection, difference and symmetric difference, and how many
// comparisons each may take.
pub(crate) const ROWS: [Row; 24] = [
    row!([], [] => [], [], [], []; 0),
    row!([], [0, 5] => [0, 5], [], [], [0, 5]; 4),
    row!([0, 5], [] => [0, 5], [], [0, 5], [0, 5]; 4),
    row!([], [1, 2, 3] => [1, 2, 3], [], [], [1, 2, 3]; 4),
    row!([1, 2, 3], [] => [1, 2, 3], [], [1, 2, 3], [1, 2, 3]; 4),
    row!([10], [1, 5] => [1, 5, 10], [], [10], [1, 5, 10]; 6),
    row!([0, 10], [5] => [0], [5, 10], [0, 5], [0, 5, 10]; 6),
    row!([0, 10], [20] => [0, 10, 20], [], [0, 10], [0, 10, 20]; 6),
    row!([0, 10], [3, 5] => [0, 10], [3, 5], [0, 3, 5, 10], [0, 3, 5, 10]; 8),
    row!([0, 10], [5, 15] => [0, 15], [5, 10], [0, 5], [0, 5, 10, 15]; 8),
    row!([0, 5], [5, 10] => [0, 10], [], [0, 5], [0, 10]; 6),
    row!([0, 5], [0, 10] => [0, 10], [0, 5], [], [5, 10]; 6),
    row!([1, 5], [1, 9] => [1, 9], [1, 5], [], [5, 9]; 6),
    row!([0, 10], [0, 10] => [0, 10], [0, 10], [], []; 4),
    row!([0, 2, 4], [1, 3, 5] => [0, 3, 4], [1, 2, 5], [0, 1, 4, 5], [0, 1, 2, 3, 4, 5]; 12),
    row!([0, 2, 4, 6], [0, 3, 4, 7] => [0, 3, 4, 7], [0, 2, 4, 6], [], [2, 3, 6, 7]; 12),
    row!([0, 1, 2, 3], [10, 11, 12, 13]
        => [0, 1, 2, 3, 10, 11, 12, 13], [], [0, 1, 2, 3], [0, 1, 2, 3, 10, 11, 12, 13]; 12),
    row!([0, 1, 2, 3, 4, 5, 6, 7, 8, 9, 10, 11], [3, 8] => [0, 1, 2, 9, 10, 11], [4, 5, 6, 7],
        [0, 1, 2, 3, 8, 9, 10, 11], [0, 1, 2, 4, 5, 6, 7, 9, 10, 11]; 18),
    row!([0, 1, 2, 3, 4, 5, 6, 7, 8, 9, 10, 11, 12, 13, 14, 15, 16], [0, 1, 2, 3, 4, 5, 6, 7,
        8, 9, 10, 11, 12, 13, 14, 15, 16] => [0, 1, 2, 3, 4, 5, 6, 7, 8, 9, 10, 11, 12, 13,
        14, 15, 16], [0, 1, 2, 3, 4, 5, 6, 7, 8, 9, 10, 11, 12, 13, 14, 15, 16], [], []; 34),
    row!([0, 1, 2, 3, 4, 5, 6, 7, 8, 9, 10, 11, 12, 13, 14, 15], [0, 1, 2, 3, 4, 5, 6, 7, 8,
        9, 10, 11, 12, 13, 14, 16] => [0, 1, 2, 3, 4, 5, 6, 7, 8, 9, 10, 11, 12, 13, 14, 16],
        [0, 1, 2, 3, 4, 5, 6, 7, 8, 9, 10, 11, 12, 13, 14, 15], [], [15, 16]; 34),
    row!([0, 1, 2, 3, 4, 5, 6, 7, 10, 20], [0, 1, 2, 3, 4, 5, 6, 7, 11, 20] => [0, 1, 2, 3, 4,
        5, 6, 7, 10, 20], [0, 1, 2, 3, 4, 5, 6, 7, 11, 20], [10, 11], [10, 11]; 22),
    row!([0, 1, 2, 3, 4, 5, 6, 7, 8, 10, 11, 12, 13, 14, 15, 16, 17], [0, 1, 2, 3, 4, 5, 6, 7,
        8, 30, 31, 32, 33, 34, 35, 36, 37] => [0, 1, 2, 3, 4, 5, 6, 7, 8], [0, 1, 2, 3, 4, 5,
        6, 7, 8, 10, 11, 12, 13, 14, 15, 16, 17, 30, 31, 32, 33, 34, 35, 36, 37], [30, 31, 32,
        33, 34, 35, 36, 37], [10, 11, 12, 13, 14, 15, 16, 17, 30, 31, 32, 33, 34, 35, 36, 37];
        34),
    row!([MIN, 10], [20] => [MIN, 10, 20], [], [MIN, 10], [MIN, 10, 20]; 6),
    row!([0, 10], [MIN, 10] => [MIN, 10], [0, 10], [], [MIN, 0]; 6),
];

// An operation of two lists, what it gives, and how many comparisons it may take.
#[derive(Clone, Copy)]
pub(crate) struct Case<'a> {
    pub(crate) op: Operation,
    pub(crate) left: &'a [i64],
    pub(crate) right: &'a [i64],
    pub(crate) want: &'a [i64],
    pub(crate) most: u128,
}

// A call of an operation: in a form, or by its merges.
#[derive(Clone, Copy, PartialEq, Eq, Debug)]
pub(crate) enum Call {
    Form(Form),
    Sides,
    List,
    Count,
    Length,
    Written,
    Test,
}

// Whether the form gives the list, in no more comparisons than it may take.
fn gives(alloc: Global, form: Form, case: Case) -> bool {
    let (Some(left), Some(right)) = (own::<i64, 2>(alloc, case.left), own(alloc, case.right)) else {
        return false;
    };
    let mut count = Comparisons::new();
    let outcome = form.call(case.op, alloc, left, right, &mut count);
    outcome.gives(case.want) && count.made() <= case.most
}

// The first call that doesn't.
fn wrong_call(alloc: Global, case: Case) -> Option<Call> {
    for form in FORMS {
        if !gives(alloc, form, case) {
            return Some(Call::Form(form));
        }
    }
    wrong_merge(alloc, case)
}

// That of a row.
fn wrong_of_row(alloc: Global, row: &Row) -> Option<(Operation, Call)> {
    let Row {
        left,
        right,
        wants,
        most,
    } = *row;
    for (op, want) in OPERATIONS.iter().zip(wants) {
        let op = *op;
        if let Some(call) = wrong_call(
            alloc,
            Case {
                op,
                left,
                right,
                want,
                most,
            },
        ) {
            return Some((op, call));
        }
    }
    None
}

// That of two lists, whose boundaries are all among the points.
pub(crate) fn wrong_of(
    alloc: Global,
    points: &[i64],
    left: &[i64],
    right: &[i64],
    most: u128,
) -> Result<Option<(Operation, Call)>, AllocError> {
    let stands = Stands::of(alloc, points, left, right)?;
    for op in OPERATIONS {
        let want = stands.turns(alloc, op.table(), false)?;
        let case = Case {
            op,
            left,
            right,
            want: want.as_slice(),
            most,
        };
        if let Some(call) = wrong_call(alloc, case) {
            return Ok(Some((op, call)));
        }
    }
    Ok(None)
}

#[test]
fn every_form_gives_the_rows(rt: HostRuntime) {
    for row in &ROWS {
        let found = wrong_of_row(rt.alloc(), row);
        assert_eq!(rt; found, None, "of {:?} and {:?}", row.left, row.right);
    }
}

// Two lists, and how many comparisons each operation of them may take.
#[derive(Clone, Copy)]
struct Pair<'a> {
    left: &'a [i64],
    right: &'a [i64],
    most: u128,
}

// Lists that lie apart, every other number, and lists of which the one's last half is the other's
// first.
#[test]
fn every_form_gives_long_lists(rt: HostRuntime) -> Result<(), Fail> {
    let alloc = rt.alloc();
    let points = numbers(alloc, -5, 201)?;
    let (low, next) = (numbers(alloc, 0, 64)?, numbers(alloc, 32, 96)?);
    let (even, odd) = (every_other(alloc, 0, 128)?, every_other(alloc, 1, 128)?);
    let (low, next) = (low.as_slice(), next.as_slice());
    #[rattlefmt::skip]
    let pairs = [
        Pair { left: &[100, 200], right: low, most: 18 },
        Pair { left: low, right: &[-5, 100], most: 18 },
        Pair { left: even.as_slice(), right: odd.as_slice(), most: 256 },
        Pair { left: low, right: next, most: 88 },
    ];
    for Pair { left, right, most } in pairs {
        let found = wrong_of(alloc, points.as_slice(), left, right, most)?;
        assert_eq!(rt; found, None, "of {left:?} and {right:?}");
    }
    Ok(())
}

// How many numbers each side has, and how many comparisons that may take.
#[derive(Clone, Copy)]
struct Block {
    length: usize,
    most: u128,
}

// Four times as many comparisons as the length has binary digits.
#[rattlefmt::skip]
const BLOCKS: [Block; 9] = [
    Block { length: 1, most: 4 },
    Block { length: 2, most: 8 },
    Block { length: 3, most: 8 },
    Block { length: 4, most: 12 },
    Block { length: 7, most: 12 },
    Block { length: 8, most: 16 },
    Block { length: 63, most: 24 },
    Block { length: 64, most: 28 },
    Block { length: 10_000, most: 56 },
];

// The first wrong call of a block of numbers and as many that follow them.
fn wrong_blocks(
    alloc: Global,
    all: &[i64],
    block: Block,
) -> Result<Option<(Operation, Call)>, AllocError> {
    let low = all.get(..block.length).unwrap_or(&[]);
    let rest = all.get(block.length..).unwrap_or(&[]);
    let high = rest.get(..block.length).unwrap_or(&[]);
    wrong_of(alloc, all, low, high, block.most)
}

#[test]
fn blocks_cost_their_digits(rt: HostRuntime) -> Result<(), Fail> {
    let all = numbers(rt.alloc(), 0, 20_000)?;
    for block in BLOCKS {
        let found = wrong_blocks(rt.alloc(), all.as_slice(), block)?;
        assert_eq!(rt; found, None, "at {}", block.length);
    }
    Ok(())
}

#[test]
fn one_boundary_beside_ten_thousand(rt: HostRuntime) -> Result<(), Fail> {
    let alloc = rt.alloc();
    let (points, long) = (numbers(alloc, -1, 10_001)?, numbers(alloc, 0, 10_000)?);
    for one in [-1, 5_000, 10_000] {
        let found = wrong_of(alloc, points.as_slice(), &[one], long.as_slice(), 30)?;
        assert_eq!(rt; found, None, "{one} on the left");
        let found = wrong_of(alloc, points.as_slice(), long.as_slice(), &[one], 30)?;
        assert_eq!(rt; found, None, "{one} on the right");
    }
    Ok(())
}

// Whether the sets of 1..5 and 10.. are united in place, in the one or the other.
fn are_united(alloc: Global, in_range: bool) -> bool {
    let range = RangeSet2::<i32>::from_range(alloc, 1..5);
    let (Ok(range), Ok(open)) = (range, RangeSet::from_range_from(alloc, 10..)) else {
        return false;
    };
    let (mut set, that) = if in_range {
        (range, open)
    } else {
        (open, range)
    };
    set.bitor_assign(that).is_ok()
        && set.boundaries() == [1, 5, 10].as_slice()
        && prints(alloc, &set, "RangeSet{1..5, 10..}")
}

#[test]
fn ranges_are_united_in_place(rt: HostRuntime) {
    assert!(rt; are_united(rt.alloc(), true));
    assert!(rt; are_united(rt.alloc(), false));
}
