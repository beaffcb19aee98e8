//! Every comparison of a call goes through its counter: over elements that add to a tally whenever
//! they are compared, a counted call raises the tally by what it adds to `made`, and a plain call,
//! of a view or a set, raises it by as much as its counted form. One without a counted form raises
//! it by no more than it may.
ghost use Rattle.std.specs.Prelude.{◌≡◌, false};

use crate::one_word::{Counted, OneWord, all_counted, all_of_one_word};
use crate::operations::ROWS;
use crate::searches::{first_run_holds, searches_hold};
use crate::tallies::{alike, cost};
use range_collections::{
    Comparisons, DiffOp, IntersectionOp, MergeOperation, RangeSet, RangeSet2, RangeSetRef, UnionOp,
    XorOp,
};
use range_entry::{EntryClone, RangeSetEntry};
use range_tests_kit::elements::{Tallied, all_tallied};
use range_tests_kit::forms::{FORMS, Form, OPERATIONS, Operation};
use range_tests_kit::lists::{every_other, numbers, own};
use range_tests_kit::membership::{NOT_LEFT, TABLES, connective};
use std::alloc::{AllocError, Global};
use std::cell::Cell;
use std::default::MadeWith;

// What a form raises the tally by, where a counted one adds as much to its counter. (A form's outcome
// is larger than a set, so for any type of element it needn't fit.)
macro_rules! form_cost {
    ($form:expr, $op:expr, $alloc:expr, $left:expr, $right:expr, $tally:expr) => {{
        let mut count = Comparisons::new();
        $tally.set(0);
        let outcome = $form.call($op, $alloc, $left, $right, &mut count);
        let raised = cost($tally, &outcome);
        if outcome.made.is_none() || $form == $form.counted() && raised != count.made() {
            return None;
        }
        Some(raised)
    }};
}

fn form_cost<'t>(
    form: Form,
    op: Operation,
    alloc: Global,
    left: &RangeSet2<Tallied<'t>>,
    right: &RangeSet2<Tallied<'t>>,
    tally: &Cell<u128>,
) -> Option<u128> {
    let left: RangeSet2<Tallied<'t>> = own(alloc, left.boundaries())?;
    let right = own(alloc, right.boundaries())?;
    form_cost!(form, op, alloc, left, right, tally)
}

fn form_cost_by_word<'n, 't>(
    form: Form,
    op: Operation,
    alloc: Global,
    left: &RangeSet2<OneWord<'n, 't>>,
    right: &RangeSet2<OneWord<'n, 't>>,
    tally: &Cell<u128>,
) -> Option<u128> {
    let left: RangeSet2<OneWord<'n, 't>> = own(alloc, left.boundaries())?;
    let right = own(alloc, right.boundaries())?;
    form_cost!(form, op, alloc, left, right, tally)
}

// Whether a form costs as much as its counted form, and no more than it may.
fn is_within(raised: Option<u128>, counted: Option<u128>, most: u128) -> bool {
    raised == counted && matches!(raised, Some(n) if n <= most)
}

// What the counted tests of an operation raise the tally by, of sets and of views, and add to their
// counters.
fn tests<
    T: RangeSetEntry + EntryClone + MadeWith<Global> + Copy + Drop,
    O: MergeOperation,
    const N: usize,
>(left: &RangeSet<T, N>, right: &RangeSet<T, N>, tally: &Cell<u128>, op: &O) -> [u128; 4]
    requires { O.connective op.now false false ≡ false }
{
    let (mut count, mut again) = (Comparisons::new(), Comparisons::new());
    let right = right.as_ref();
    [
        cost(tally, &left.merge_test(right, op, &mut count)),
        count.made(),
        cost(tally, &left.as_ref().merge_test(right, op, &mut again)),
        again.made(),
    ]
}

// The same of the calls that count its boundaries.
fn lengths<
    T: RangeSetEntry + EntryClone + MadeWith<Global> + Copy + Drop,
    O: MergeOperation,
    const N: usize,
>(left: &RangeSet<T, N>, right: &RangeSet<T, N>, tally: &Cell<u128>, op: &O) -> Option<[u128; 4]>
    requires { O.connective op.now false false ≡ false }
{
    let (mut count, mut again) = (Comparisons::new(), Comparisons::new());
    let right = right.as_ref();
    let _both = left
        .boundaries()
        .len()
        .checked_add(right.boundaries().len())?;
    Some([
        cost(tally, &left.merge_len(right, op, &mut count)),
        count.made(),
        cost(tally, &left.as_ref().merge_len(right, op, &mut again)),
        again.made(),
    ])
}

// The same of the calls that write its boundaries to a slice.
fn written<
    T: RangeSetEntry + EntryClone + MadeWith<Global> + Copy + Drop,
    O: MergeOperation,
    const N: usize,
>(
    alloc: Global,
    left: &RangeSet<T, N>,
    right: &RangeSet<T, N>,
    tally: &Cell<u128>,
    op: &O,
) -> Option<[u128; 4]>
    requires { O.connective op.now false false ≡ false }
{
    let (mut count, mut again) = (Comparisons::new(), Comparisons::new());
    let right = right.as_ref();
    let blank = T::min_value(alloc).ok()?;
    let mut out = Vec::new(alloc);
    for _ in 0..16 {
        out.push(blank).ok()?;
    }
    let out = out.as_mut_slice();
    let _both = left
        .boundaries()
        .len()
        .checked_add(right.boundaries().len())?;
    let of_set = cost(tally, &left.merge_into(right, op, out, &mut count));
    let of_view = left.as_ref().merge_into(right, op, out, &mut again);
    Some([of_set, count.made(), cost(tally, &of_view), again.made()])
}

// Whether the calls by an operation that make no set cost what they count, and no more than they
// may.
fn operation_holds<
    T: RangeSetEntry + EntryClone + MadeWith<Global> + Copy + Drop,
    O: MergeOperation,
    const N: usize,
>(
    alloc: Global,
    left: &RangeSet<T, N>,
    right: &RangeSet<T, N>,
    tally: &Cell<u128>,
    op: &O,
    most: u128,
) -> bool
    requires { O.connective op.now false false ≡ false }
{
    alike(&tests(left, right, tally, op), most)
        && matches!(lengths(left, right, tally, op), Some(costs) if alike(&costs, most))
        && matches!(written(alloc, left, right, tally, op), Some(costs) if alike(&costs, most))
}

// Whether the calls that make a set by the connective of this table do.
fn table_holds<T: RangeSetEntry + EntryClone + MadeWith<Global> + Copy + Drop, const N: usize>(
    alloc: Global,
    left: &RangeSet<T, N>,
    right: &RangeSet<T, N>,
    tally: &Cell<u128>,
    table: [u8; 4],
    most: u128,
) -> bool {
    let (mut count, mut again) = (Comparisons::new(), Comparisons::new());
    let right = right.as_ref();
    let op = connective(table);
    tally.set(0);
    let made: Result<RangeSet<T, N>, AllocError> = left.combine(right, &op, &mut count);
    let raised = cost(tally, &made);
    let of_views: Result<RangeSet<T, N>, AllocError> = left
        .as_ref()
        .combine(alloc, right, &op, &mut again);
    let costs = [raised, count.made(), cost(tally, &of_views), again.made()];
    made.is_ok() && of_views.is_ok() && alike(&costs, most)
}

// Whether the plain questions cost what their tests do.
fn questions_hold<T: RangeSetEntry + EntryClone + MadeWith<Global> + Copy + Drop, const N: usize>(
    left: &RangeSet<T, N>,
    right: &RangeSet<T, N>,
    tally: &Cell<u128>,
) -> bool {
    let shared = tests(left, right, tally, &IntersectionOp)[0];
    let rest = tests(left, right, tally, &DiffOp)[0];
    let over = tests(right, left, tally, &DiffOp)[0];
    let (view, right) = (left.as_ref(), right.as_ref());
    [
        cost(tally, &left.intersects(right)),
        cost(tally, &view.intersects(right)),
        cost(tally, &left.is_disjoint(right)),
        cost(tally, &view.is_disjoint(right)),
        cost(tally, &left.is_subset(right)),
        cost(tally, &view.is_subset(right)),
        cost(tally, &left.is_superset(right)),
        cost(tally, &view.is_superset(right)),
    ] == [shared, shared, shared, shared, rest, rest, over, over]
}

// What costs otherwise than it may: a form of an operation, a connective, a counted test, a length
// or a slice of an operation, a question, a search, or nothing yet, for want of lists.
#[derive(Clone, Copy, PartialEq, Eq, Debug)]
enum Call {
    Form,
    Connective,
    Operation,
    Question,
    Search,
    FirstRun,
    Lists,
}

// The call of two sides, but for forms, that costs otherwise, if there is one.
fn wrong_call<T: RangeSetEntry + EntryClone + MadeWith<Global> + Copy + Drop, const N: usize>(
    alloc: Global,
    left: &RangeSet<T, N>,
    right: &RangeSet<T, N>,
    tally: &Cell<u128>,
    most: u128,
) -> Option<Call> {
    for table in TABLES {
        if !table_holds(alloc, left, right, tally, table, most) {
            return Some(Call::Connective);
        }
    }
    let hold = operation_holds(alloc, left, right, tally, &UnionOp, most)
        && operation_holds(alloc, left, right, tally, &IntersectionOp, most)
        && operation_holds(alloc, left, right, tally, &DiffOp, most)
        && operation_holds(alloc, left, right, tally, &XorOp, most);
    if !hold {
        return Some(Call::Operation);
    }
    if !questions_hold(left, right, tally) {
        return Some(Call::Question);
    }
    if !searches_hold(left, right, tally) {
        return Some(Call::Search);
    }
    if !first_run_holds(left.as_ref(), right.as_ref(), tally) {
        return Some(Call::FirstRun);
    }
    None
}

// The call that costs otherwise of two lists, in this order of the sides.
fn wrong(alloc: Global, a: &[i64], b: &[i64], most: u128) -> Option<Call> {
    let tally = Cell::new(0);
    let a = all_tallied(alloc, a, &tally).ok();
    let b = all_tallied(alloc, b, &tally).ok();
    let (Some(a), Some(b)) = (a, b) else {
        return Some(Call::Lists);
    };
    let left: Option<RangeSet2<Tallied>> = own(alloc, a.as_slice());
    let (Some(left), Some(right)) = (left, own(alloc, b.as_slice())) else {
        return Some(Call::Lists);
    };
    for op in OPERATIONS {
        for form in FORMS {
            let raised = form_cost(form, op, alloc, &left, &right, &tally);
            let counted = form_cost(form.counted(), op, alloc, &left, &right, &tally);
            if !is_within(raised, counted, most) {
                return Some(Call::Form);
            }
        }
    }
    wrong_call(alloc, &left, &right, &tally, most)
}

// The same of elements of one word.
fn wrong_by_word(alloc: Global, a: &[i64], b: &[i64], most: u128) -> Option<Call> {
    let tally = Cell::new(0);
    let Ok(numbers) = all_counted(alloc, &[a, b], &tally) else {
        return Some(Call::Lists);
    };
    let (lefts, rights) = numbers.as_slice().split_at(a.len().min(numbers.len()));
    let left = set_of_words(alloc, lefts);
    let right = set_of_words(alloc, rights);
    let (Some(left), Some(right)) = (left, right) else {
        return Some(Call::Lists);
    };
    for op in OPERATIONS {
        for form in FORMS {
            let raised = form_cost_by_word(form, op, alloc, &left, &right, &tally);
            let counted = form_cost_by_word(form.counted(), op, alloc, &left, &right, &tally);
            if !is_within(raised, counted, most) {
                return Some(Call::Form);
            }
        }
    }
    wrong_call(alloc, &left, &right, &tally, most)
}

// The set of elements that refer to the numbers.
fn set_of_words<'n, 't>(
    alloc: Global,
    numbers: &'n [Counted<'t>],
) -> Option<RangeSet2<OneWord<'n, 't>>> {
    own(alloc, all_of_one_word(alloc, numbers).ok()?.as_slice())
}

#[test]
fn calls_compare_through_their_counter(rt: HostRuntime) -> Result<(), AllocError> {
    let alloc = rt.alloc();
    let (low, high) = (numbers(alloc, 0, 64)?, numbers(alloc, 64, 128)?);
    for row in &ROWS {
        let (a, b, most) = (row.left, row.right, row.most);
        assert_eq!(rt; wrong(alloc, a, b, most), None, "{a:?} and {b:?}");
        assert_eq!(rt; wrong(alloc, b, a, most), None, "{b:?} and {a:?}");
    }
    let (low, high) = (low.as_slice(), high.as_slice());
    assert_eq!(rt; wrong(alloc, low, high, 28), None, "a block before another");
    assert_eq!(rt; wrong(alloc, high, low, 28), None, "a block after another");
    Ok(())
}

#[test]
fn calls_compare_words_through_their_counter(rt: HostRuntime) -> Result<(), AllocError> {
    let alloc = rt.alloc();
    let (low, high) = (numbers(alloc, 0, 64)?, numbers(alloc, 64, 128)?);
    for row in &ROWS {
        let (a, b, most) = (row.left, row.right, row.most);
        assert_eq!(rt; wrong_by_word(alloc, a, b, most), None, "{a:?} and {b:?}");
        assert_eq!(rt; wrong_by_word(alloc, b, a, most), None, "{b:?} and {a:?}");
    }
    let (low, high) = (low.as_slice(), high.as_slice());
    assert_eq!(rt;
        wrong_by_word(alloc, low, high, 28),
        None,
        "a block before another"
    );
    assert_eq!(rt;
        wrong_by_word(alloc, high, low, 28),
        None,
        "a block after another"
    );
    let (evens, odds) = (every_other(alloc, 0, 128)?, every_other(alloc, 1, 129)?);
    let (evens, odds) = (evens.as_slice(), odds.as_slice());
    assert_eq!(rt;
        wrong_by_word(alloc, evens, odds, 256),
        None,
        "even numbers and odd ones"
    );
    assert_eq!(rt;
        wrong_by_word(alloc, evens, evens, 128),
        None,
        "twice the same"
    );
    Ok(())
}

// What three times a view united raise the tally by, and add to the counter.
fn of_three<'t>(
    alloc: Global,
    view: RangeSetRef<Tallied<'t>>,
    tally: &Cell<u128>,
) -> Result<[u128; 3], AllocError> {
    let sets = [view, view, view];
    let mut count = Comparisons::new();
    let counted: RangeSet2<Tallied<'t>> = RangeSet::union_all_counted(alloc, &sets, &mut count)?;
    let raised = cost(tally, &counted);
    let plain: RangeSet2<Tallied<'t>> = RangeSet::union_all(alloc, &sets)?;
    Ok([raised, count.made(), cost(tally, &plain)])
}

// What a negation does, and the connective "not left" of the set and nothing.
fn of_negation<'t>(
    set: RangeSet2<Tallied<'t>>,
    tally: &Cell<u128>,
) -> Result<[u128; 4], AllocError> {
    let mut count = Comparisons::new();
    let op = connective(NOT_LEFT);
    let made: RangeSet2<Tallied<'t>> = set.combine(RangeSetRef::empty(), &op, &mut count)?;
    let raised = cost(tally, &made);
    let borrowed = cost(tally, &(!&set)?);
    Ok([raised, count.made(), borrowed, cost(tally, &(!set)?)])
}

// The set of the even numbers below 13, whose elements are compared as it is made.
fn evens<'t>(alloc: Global, tally: &'t Cell<u128>) -> Option<RangeSet2<Tallied<'t>>> {
    let items = every_other(alloc, 0, 13).ok()?;
    let set = own(
        alloc,
        all_tallied(alloc, items.as_slice(), tally).ok()?.as_slice(),
    );
    tally.set(0);
    set
}

#[test]
fn unions_of_many_compare_through_their_counter(rt: HostRuntime) -> Result<(), AllocError> {
    let tally = Cell::new(0);
    let set = evens(rt.alloc(), &tally).ok_or(AllocError)?;
    let union = of_three(rt.alloc(), set.as_ref(), &tally)?;
    assert!(rt; alike(&union, 84), "{union:?}");
    Ok(())
}

#[test]
fn negations_compare_nothing(rt: HostRuntime) -> Result<(), AllocError> {
    let tally = Cell::new(0);
    let set = evens(rt.alloc(), &tally).ok_or(AllocError)?;
    assert_eq!(rt; of_negation(set, &tally)?, [0, 0, 0, 0]);
    Ok(())
}
