//! The four operations, and the forms in which each of them can be called, all by one driver.
ghost use Rattle.std.specs.Prelude.{◌≡◌, ◌<◌, ◌^◌, false};

use crate::starving::Answer;
use range_collections::{
    Comparisons, DiffOp, EntryClone, IntersectionOp, MergeOperation, RangeSet, RangeSetRef,
    UnionOp, XorOp,
};
use smallvec::SmallVec;
use std::alloc::{AllocError, Global};
use std::default::MadeWith;
use std::ops::{BitAnd, BitOr, BitXor, Sub};

/// An operation of two sides.
#[derive(Clone, Copy, PartialEq, Eq, Debug)]
pub enum Operation {
    Union,
    Intersection,
    Difference,
    SymmetricDifference,
}

/// The operations, in the order of the lists in a row.
pub const OPERATIONS: [Operation; 4] = [
    Operation::Union,
    Operation::Intersection,
    Operation::Difference,
    Operation::SymmetricDifference,
];

impl Operation {
    /// Its answers where neither side is on, the left alone is, the right alone is, and both are.
    pub fn table(self) -> [u8; 4] {
        match self {
            Operation::Union => [0, 1, 1, 1],
            Operation::Intersection => [0, 0, 0, 1],
            Operation::Difference => [0, 1, 0, 0],
            Operation::SymmetricDifference => [0, 1, 1, 0],
        }
    }
}

/// A form of an operation: the named call, the operator, the change in place and the counted
/// merges, by how each side is passed.
#[derive(Clone, Copy, PartialEq, Eq, Debug)]
pub enum Form {
    OfViews,
    OfSet,
    OfBorrowed,
    OfBorrowedAndOwned,
    OfOwnedAndBorrowed,
    OfOwned,
    MergeViews,
    MergeSet,
    Change,
    Assign,
    MergeBorrowed,
    MergeOwned,
}

pub const FORMS: [Form; 12] = [
    Form::OfViews,
    Form::OfSet,
    Form::OfBorrowed,
    Form::OfBorrowedAndOwned,
    Form::OfOwnedAndBorrowed,
    Form::OfOwned,
    Form::MergeViews,
    Form::MergeSet,
    Form::Change,
    Form::Assign,
    Form::MergeBorrowed,
    Form::MergeOwned,
];

/// Two lists of boundaries, those of their union, intersection, difference and symmetric
/// difference, and how many comparisons each may take: twice the binary digits of the lengths of
/// all runs, where a shared boundary is a run of one.
#[derive(Clone, Copy)]
pub struct Row<'a> {
    pub left: &'a [i64],
    pub right: &'a [i64],
    pub wants: [&'a [i64]; 4],
    pub most: u128,
}

type Made<T, const N: usize> = Result<RangeSet<T, N>, AllocError>;

type Assigned<T, const N: usize> = Result<(), (AllocError, RangeSet<T, N>)>;

/// What a call made, or both sides of a change in place that was refused.
#[derive(Drop)]
pub struct Outcome<T: Ord, const N: usize> {
    pub made: Option<RangeSet<T, N>>,
    kept: Option<(RangeSet<T, N>, RangeSet<T, N>)>,
}

impl<T: Ord + Drop, const N: usize> Outcome<T, N> {
    // Of a call that makes a new set.
    fn of(made: Made<T, N>) -> Self {
        Outcome {
            made: made.ok(),
            kept: None,
        }
    }

    // Of a change of the left side, which leaves the right one where it was refused.
    fn of_change(left: RangeSet<T, N>, refused: Option<RangeSet<T, N>>) -> Self {
        match refused {
            None => Outcome {
                made: Some(left),
                kept: None,
            },
            Some(right) => Outcome {
                made: None,
                kept: Some((left, right)),
            },
        }
    }

    // Of one that owned the right side.
    fn of_assignment(left: RangeSet<T, N>, made: Assigned<T, N>) -> Self {
        match made {
            Ok(()) => Outcome::of_change(left, None),
            Err((_, right)) => Outcome::of_change(left, Some(right)),
        }
    }

    /// Whether the call made this list.
    pub fn gives(&self, want: &[T]) -> bool {
        match &self.made {
            Some(set) => set.boundaries() == want,
            None => false,
        }
    }

    /// What the call answered where memory may be refused. A refused change leaves both sides as
    /// they were.
    pub fn answer(&self, want: &[T], left: &[T], right: &[T]) -> Answer {
        match (&self.made, &self.kept) {
            (None, None) => Answer::Refused,
            (None, Some((a, b))) if a.boundaries() == left && b.boundaries() == right => {
                Answer::Refused
            }
            _ => Answer::right_if(self.gives(want)),
        }
    }
}

// By the operator, with each side borrowed or owned.
fn by_operator<L, R, O>(op: Operation, left: L, right: R) -> O
where
    L: BitOr<R, Output = O>,
    L: BitAnd<R, Output = O>,
    L: Sub<R, Output = O>,
    L: BitXor<R, Output = O>,
    requires union { L.can_bitor left right }
    requires intersection { L.can_bitand left right }
    requires difference { L.can_sub left right }
    requires symmetric { L.can_bitxor left right }
{
    match op {
        Operation::Union => left | right,
        Operation::Intersection => left & right,
        Operation::Difference => left - right,
        Operation::SymmetricDifference => left ^ right,
    }
}

impl<T: EntryClone + MadeWith<Global> + Drop, const N: usize> Outcome<T, N> {
    // By name, of views and of a set.
    fn of_views(
        op: Operation,
        alloc: Global,
        left: RangeSetRef<T>,
        right: RangeSetRef<T>,
    ) -> Made<T, N> {
        match op {
            Operation::Union => left.union(alloc, right),
            Operation::Intersection => left.intersection(alloc, right),
            Operation::Difference => left.difference(alloc, right),
            Operation::SymmetricDifference => left.symmetric_difference(alloc, right),
        }
    }

    fn of_set(op: Operation, left: &RangeSet<T, N>, right: RangeSetRef<T>) -> Made<T, N> {
        match op {
            Operation::Union => left.union(right),
            Operation::Intersection => left.intersection(right),
            Operation::Difference => left.difference(right),
            Operation::SymmetricDifference => left.symmetric_difference(right),
        }
    }

    // In place, with the right side borrowed or owned.
    fn change(op: Operation, left: &mut RangeSet<T, N>, right: RangeSetRef<T>) -> bool {
        let made = match op {
            Operation::Union => left.union_with(right),
            Operation::Intersection => left.intersection_with(right),
            Operation::Difference => left.difference_with(right),
            Operation::SymmetricDifference => left.symmetric_difference_with(right),
        };
        made.is_ok()
    }

    fn assign(op: Operation, left: &mut RangeSet<T, N>, right: RangeSet<T, N>) -> Assigned<T, N> {
        match op {
            Operation::Union => left.bitor_assign(right),
            Operation::Intersection => left.bitand_assign(right),
            Operation::Difference => left.sub_assign(right),
            Operation::SymmetricDifference => left.bitxor_assign(right),
        }
    }

    // By the counted merge.
    fn merged<O: MergeOperation>(
        form: Form,
        op: &O,
        alloc: Global,
        mut left: RangeSet<T, N>,
        right: RangeSet<T, N>,
        count: &mut Comparisons,
    ) -> Self
        requires off { O.connective op.now false false ≡ false }
        requires counter { count.old < 2 ^ 64 }
    {
        match form {
            Form::MergeOwned => {
                let made = left.merge_owned(right, op, count);
                Outcome::of_assignment(left, made)
            }
            Form::MergeBorrowed => {
                let made = left.merge_ref(right.as_ref(), op, count);
                Outcome::of_change(left, made.is_err().then_some(right))
            }
            Form::MergeSet => Outcome::of(left.merge_new(right.as_ref(), op, count)),
            _ => Outcome::of(left.as_ref().merge_new(alloc, right.as_ref(), op, count)),
        }
    }
}

impl Form {
    /// Whether the left side becomes the result.
    pub fn is_in_place(self) -> bool {
        matches!(
            self,
            Form::Change | Form::Assign | Form::MergeBorrowed | Form::MergeOwned
        )
    }

    /// Whether the boundaries of the right side become the result's without a copy.
    pub fn takes_right(self) -> bool {
        matches!(self, Form::Assign | Form::MergeOwned)
    }

    /// The form that counts what this one compares.
    pub fn counted(self) -> Form {
        match self {
            Form::Change | Form::MergeBorrowed => Form::MergeBorrowed,
            Form::Assign | Form::MergeOwned => Form::MergeOwned,
            Form::MergeSet => Form::MergeSet,
            _ => Form::MergeViews,
        }
    }

    /// Calls the operation of both sides in this form. Only a counted form adds to the counter.
    pub fn call<T: EntryClone + MadeWith<Global> + Drop, const N: usize>(
        self,
        op: Operation,
        alloc: Global,
        mut left: RangeSet<T, N>,
        right: RangeSet<T, N>,
        count: &mut Comparisons,
    ) -> Outcome<T, N>
        requires { count.old < 2 ^ 64 }
    {
        match self {
            Form::OfViews => Outcome::of(Outcome::of_views(
                op,
                alloc,
                left.as_ref(),
                right.as_ref(),
            )),
            Form::OfSet => Outcome::of(Outcome::of_set(op, &left, right.as_ref())),
            Form::OfBorrowed => Outcome::of(by_operator(op, &left, &right)),
            Form::OfBorrowedAndOwned => Outcome::of(by_operator(op, &left, right)),
            Form::OfOwnedAndBorrowed => Outcome::of(by_operator(op, left, &right)),
            Form::OfOwned => Outcome::of(by_operator(op, left, right)),
            Form::Change => {
                let made = Outcome::change(op, &mut left, right.as_ref());
                Outcome::of_change(left, (!made).then_some(right))
            }
            Form::Assign => {
                let made = Outcome::assign(op, &mut left, right);
                Outcome::of_assignment(left, made)
            }
            _ => match op {
                Operation::Union => Outcome::merged(self, &UnionOp, alloc, left, right, count),
                Operation::Intersection => {
                    Outcome::merged(self, &IntersectionOp, alloc, left, right, count)
                }
                Operation::Difference => Outcome::merged(self, &DiffOp, alloc, left, right, count),
                Operation::SymmetricDifference => {
                    Outcome::merged(self, &XorOp, alloc, left, right, count)
                }
            },
        }
    }
}
