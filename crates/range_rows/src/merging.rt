//! Searches, first runs and tests of lists of numbers, by a comparer that counts.
ghost use Rattle.std.specs.Prelude.{◌≡◌, false};

use crate::row::{Kind, Row};
use crate::table::Table;
use range_collections::{
    BoolOpMergeState, Compare, Comparisons, DiffOp, IntersectionOp, MergeOperation, RangeSet2,
    RangeSetRef, Run, UnionOp, XorOp, count_up_to, merge, run_length, search,
};
use range_tests_kit::comparers::Numbers;
use std::alloc::Global;

/// What is asked of lists.
#[derive(Clone, Copy)]
pub enum Asked {
    Search,
    FirstRun,
    MergeTest,
}

pub const TABLES: [Asked; 3] = [Asked::Search, Asked::FirstRun, Asked::MergeTest];

impl Table for Asked {
    fn file(&self) -> &'static str {
        match self {
            Asked::Search => "search.txt",
            Asked::FirstRun => "first_run.txt",
            Asked::MergeTest => "merge_test.txt",
        }
    }

    fn holds(&self, alloc: Global, row: &mut Row) -> Option<bool> {
        match (self, row.kind()) {
            (Asked::Search, Kind::I64) => searches(row.set(alloc)?, row),
            (Asked::FirstRun, Kind::I64) => first_run(row.set(alloc)?, row.set(alloc)?, row),
            (Asked::MergeTest, Kind::I64) => merge_test(alloc, row),
            _ => None,
        }
    }
}

// Where a number stands in a list, and how many items are at or below it.
fn searches(list: RangeSet2<i64>, row: &mut Row) -> Option<bool> {
    let key = row.value()?;
    row.equals()?;
    let (is_there, place) = (row.truth()?, row.value()?);
    let want = if is_there { Ok(place) } else { Err(place) };
    let (up_to, most) = (row.value()?, row.value()?);
    let list = list.as_ref();
    Some(finds(list, key, want, most) && counts(list, key, up_to, most))
}

fn finds(list: RangeSetRef<i64>, key: i64, want: Result<usize, usize>, most: u128) -> bool {
    let mut numbers = Numbers { made: 0 };
    search(list.boundaries(), &key, &mut numbers) == want && numbers.made() <= most
}

fn counts(list: RangeSetRef<i64>, key: i64, want: usize, most: u128) -> bool {
    let mut numbers = Numbers { made: 0 };
    count_up_to(list.boundaries(), &key, &mut numbers) == want && numbers.made() <= most
}

// The first run of two lists that are not empty.
fn first_run(left: RangeSet2<i64>, right: RangeSet2<i64>, row: &mut Row) -> Option<bool> {
    row.equals()?;
    let (want, most) = (row.run()?, row.value::<u128>()?);
    let (run, made) = run_of(left.as_ref(), right.as_ref())?;
    Some(run == want && made <= most)
}

// That run, and how many comparisons it took.
fn run_of(left: RangeSetRef<i64>, right: RangeSetRef<i64>) -> Option<(Run, u128)> {
    let (a, b) = (left.boundaries(), right.boundaries());
    if a.is_empty() || b.is_empty() {
        return None;
    }
    let mut numbers = Numbers { made: 0 };
    let run = run_length(&BoolOpMergeState::new(a, b), &mut numbers);
    Some((run, numbers.made()))
}

// The tests of two lists by an operation that takes something.
fn merge_test(alloc: Global, row: &mut Row) -> Option<bool> {
    let op = row.connective()?;
    let (left, right) = (row.set::<i64>(alloc)?, row.set::<i64>(alloc)?);
    row.equals()?;
    let (set, that, want) = (&left, right.as_ref(), [row.value()?; 4]);
    match (op.neither, op.left, op.right, op.both) {
        (false, true, true, true) => Some(tests(set, that, &UnionOp)? == want),
        (false, false, false, true) => Some(tests(set, that, &IntersectionOp)? == want),
        (false, true, false, false) => Some(tests(set, that, &DiffOp)? == want),
        (false, true, true, false) => Some(tests(set, that, &XorOp)? == want),
        _ => None,
    }
}

// How many comparisons the tests of two lists, of a state over them, of a set and of its view make,
// where all find that something is taken.
fn tests<O: MergeOperation>(
    set: &RangeSet2<i64>,
    that: RangeSetRef<i64>,
    op: &O,
) -> Option<[u128; 4]>
    requires { O.connective op.now false false ≡ false }
{
    let (a, b) = (set.boundaries(), that.boundaries());
    let (mut numbers, mut others) = (Numbers { made: 0 }, Numbers { made: 0 });
    let (mut count, mut again) = (Comparisons::new(), Comparisons::new());
    let mut state = BoolOpMergeState::new(a, b);

    // The state stops where it takes, and that is no refusal.
    if merge(&mut state, op, &mut others) != Ok(false) {
        return None;
    }
    let found = [
        state.result(),
        BoolOpMergeState::merge(a, b, op, &mut numbers),
        set.merge_test(that, op, &mut count),
        set.as_ref().merge_test(that, op, &mut again),
    ];
    (found == [true; 4]).then_some([numbers.made(), others.made(), count.made(), again.made()])
}
