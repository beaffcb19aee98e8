//! Every call on two lists of boundaries, by one driver: what each answers where a copy or memory
//! may be refused.
use crate::elements::{Flagged, FlaggedCopier};
use crate::forms::{Form, Operation, Row};
use crate::lists::own;
use crate::membership::connective;
use crate::starving::Answer;
use range_collections::{Comparisons, EntryClone, EntryCopier, RangeSet, RangeSetEntry};
use range_merge::{InPlaceMergeState, InPlaceMergeStateRef, SmallVecMergeState, merge};
use smallvec::SmallVec;
use std::alloc::{AllocError, Global};
use std::default::MadeWith;

/// A call: an operation in a form, the connective of views and of a set and a view, a merge of
/// lists into a new one and in place with the right one borrowed or owned, and one over a state of
/// each kind.
#[derive(Clone, Copy, PartialEq, Eq, Debug)]
pub enum Way {
    Form(Form),
    CombineViews,
    CombineSets,
    MergeNew,
    MergeBorrowed,
    MergeOwned,
    StateNew,
    StateBorrowed,
    StateOwned,
}

pub const WAYS: [Way; 20] = [
    Way::Form(Form::OfViews),
    Way::Form(Form::OfSet),
    Way::Form(Form::OfBorrowed),
    Way::Form(Form::OfBorrowedAndOwned),
    Way::Form(Form::OfOwnedAndBorrowed),
    Way::Form(Form::OfOwned),
    Way::Form(Form::MergeViews),
    Way::Form(Form::MergeSet),
    Way::Form(Form::Change),
    Way::Form(Form::Assign),
    Way::Form(Form::MergeBorrowed),
    Way::Form(Form::MergeOwned),
    Way::CombineViews,
    Way::CombineSets,
    Way::MergeNew,
    Way::MergeBorrowed,
    Way::MergeOwned,
    Way::StateNew,
    Way::StateBorrowed,
    Way::StateOwned,
];

impl Way {
    /// Whether the left side becomes the result.
    pub fn is_in_place(self) -> bool {
        match self {
            Way::Form(form) => form.is_in_place(),
            Way::MergeBorrowed | Way::StateBorrowed => true,
            _ => self.takes_right(),
        }
    }

    /// Whether the items of the right side become the result's without a copy.
    pub fn takes_right(self) -> bool {
        match self {
            Way::Form(form) => form.takes_right(),
            _ => matches!(self, Way::MergeOwned | Way::StateOwned),
        }
    }
}

/// The answers of a connective and the operation that it is, if it is one, two lists, the items
/// that a state begins with, what is made of both lists, and how many comparisons that may take.
#[derive(Clone, Copy)]
pub struct Case<'a, T> {
    pub table: [u8; 4],
    pub op: Option<Operation>,
    pub left: &'a [T],
    pub right: &'a [T],
    pub first: &'a [T],
    pub want: &'a [T],
    pub most: u128,
}

/// The case of an operation, whose boundaries stand in the row.
pub fn case_of<'a>(
    op: Operation,
    row: &Row<'a>,
    first: &'a [i64],
    want: &'a [i64],
) -> Case<'a, i64> {
    let table = match op {
        Operation::Union => [0, 1, 1, 1],
        Operation::Intersection => [0, 0, 0, 1],
        Operation::Difference => [0, 1, 0, 0],
        Operation::SymmetricDifference => [0, 1, 1, 0],
    };
    Case {
        table,
        op: Some(op),
        left: row.left,
        right: row.right,
        first,
        want,
        most: row.most,
    }
}

/// Out of memory, if what was passed in is as it was.
pub fn refused_if(stands: bool) -> Answer {
    if stands {
        Answer::Refused
    } else {
        Answer::Wrong
    }
}

/// What is wanted of a call, by whether a copy that it makes is refused.
pub fn wanted(is_refused: bool) -> Answer {
    if is_refused {
        Answer::Refused
    } else {
        Answer::Right
    }
}

/// What an answer with a set says.
pub fn set_is<T: Ord + Drop, const N: usize>(
    made: Result<RangeSet<T, N>, AllocError>,
    want: &[T],
) -> Answer {
    match made {
        Ok(set) => Answer::right_if(set.boundaries() == want),
        Err(_) => Answer::Refused,
    }
}

/// Both sides of a call, with room for N in themselves.
pub type Sides<T, const N: usize> = (RangeSet<T, N>, RangeSet<T, N>);

impl<'a, T: RangeSetEntry + EntryClone + MadeWith<Global> + Drop + Copy> Case<'a, T> {
    /// Whether there is a call in this way: lists are merged where nothing is on at first.
    pub fn has(&self, way: Way) -> bool {
        match way {
            Way::Form(_) => self.op.is_some(),
            Way::CombineViews | Way::CombineSets => true,
            _ => self.table[0] == 0,
        }
    }

    /// What the call is given.
    pub fn sides<const N: usize>(&self, alloc: Global) -> Option<Sides<T, N>> {
        Some((own(alloc, self.left)?, own(alloc, self.right)?))
    }

    // By a merge of lists, or by a connective.
    fn listed<const N: usize>(&self, way: Way, alloc: Global, sides: Sides<T, N>) -> Answer {
        match way {
            Way::MergeOwned => self.changed_by_owned(sides.0, sides.1),
            Way::MergeBorrowed => self.changed_by_borrowed(sides.0, &sides.1),
            Way::MergeNew => self.merged(alloc, &sides.0, &sides.1),
            Way::StateNew => self.appended(alloc, &sides.0, &sides.1),
            _ => self.combined(way, alloc, &sides.0, &sides.1),
        }
    }

    // The answer, which is wrong where more was compared than may be.
    fn within(&self, count: &Comparisons, answer: Answer) -> Answer {
        if count.made() <= self.most {
            answer
        } else {
            Answer::Wrong
        }
    }

    // Out of memory, if both lists are as they were.
    fn stand(&self, left: &[T], right: &[T]) -> Answer {
        refused_if(left == self.left && right == self.right)
    }

    fn combined<const N: usize>(
        &self,
        way: Way,
        alloc: Global,
        left: &RangeSet<T, N>,
        right: &RangeSet<T, N>,
    ) -> Answer {
        let (op, mut count) = (connective(self.table), Comparisons::new());
        let made: Result<RangeSet<T, N>, AllocError> = if way == Way::CombineViews {
            left.as_ref()
                .combine(alloc, right.as_ref(), &op, &mut count)
        } else {
            left.combine(right.as_ref(), &op, &mut count)
        };
        self.within(&count, set_is(made, self.want))
    }

    // By a merge of lists into a new one.
    fn merged<const N: usize>(
        &self,
        alloc: Global,
        left: &RangeSet<T, N>,
        right: &RangeSet<T, N>,
    ) -> Answer {
        let (op, mut count) = (connective(self.table), Comparisons::new());
        let list: SmallVec<T, N> = SmallVec::new(alloc);
        let (a, b) = (left.boundaries(), right.boundaries());
        let answer = match SmallVecMergeState::merge(list, a, b, &EntryCopier, &op, &mut count) {
            Ok(list) => Answer::right_if(list.as_slice() == self.want),
            Err(_) => Answer::Refused,
        };
        self.within(&count, answer)
    }

    // By a state that appends to the first items, which have room in the list itself.
    fn appended<'x, const N: usize>(
        &self,
        alloc: Global,
        left: &'x RangeSet<T, N>,
        right: &'x RangeSet<T, N>,
    ) -> Answer {
        let (op, mut count) = (connective(self.table), Comparisons::new());
        let Ok(list) = SmallVec::<T, N>::from_slice(alloc, self.first) else {
            return Answer::Wrong;
        };
        let (a, b) = (left.boundaries(), right.boundaries());
        let mut state = SmallVecMergeState::new(a, b, list, &EntryCopier);
        let answer = match merge(&mut state, &op, &mut count) {
            Ok(ended) => {
                let list = state.result();
                let parts = list.as_slice().split_at_checked(self.first.len());
                Answer::right_if(ended && parts == Some((self.first, self.want)))
            }
            Err(_) => Answer::Refused,
        };
        self.within(&count, answer)
    }

    fn changed_by_owned<const N: usize>(
        &self,
        left: RangeSet<T, N>,
        right: RangeSet<T, N>,
    ) -> Answer {
        let (op, mut count) = (connective(self.table), Comparisons::new());
        let mut list = left.into_inner();
        let answer = match InPlaceMergeState::merge(
            &mut list,
            right.into_inner(),
            &op,
            &mut count,
        ) {
            Ok(()) => Answer::right_if(list.as_slice() == self.want),
            Err((_, right)) => self.stand(list.as_slice(), right.as_slice()),
        };
        self.within(&count, answer)
    }

    fn changed_by_borrowed<const N: usize>(
        &self,
        left: RangeSet<T, N>,
        right: &RangeSet<T, N>,
    ) -> Answer {
        let (op, mut count) = (connective(self.table), Comparisons::new());
        let (mut list, b) = (left.into_inner(), right.boundaries());
        let answer = match InPlaceMergeStateRef::merge(
            &mut list,
            b,
            &EntryCopier,
            &op,
            &mut count,
        ) {
            Ok(()) => Answer::right_if(list.as_slice() == self.want),
            Err(_) => self.stand(list.as_slice(), b),
        };
        self.within(&count, answer)
    }
}

// What a call answers that holds an outcome or a state by value: a function can't do so, since both
// the elements and the room of their sets have to be known.
macro_rules! formed {
    ($case:expr, $form:expr, $op:expr, $alloc:expr, $sides:expr) => {{
        let mut count = Comparisons::new();
        let outcome = $form.call($op, $alloc, $sides.0, $sides.1, &mut count);
        $case.within(&count, outcome.answer($case.want, $case.left, $case.right))
    }};
}

macro_rules! over_owned {
    ($case:expr, $sides:expr) => {{
        let (op, mut count) = (connective($case.table), Comparisons::new());
        let (left, right) = ($sides.0.into_inner(), $sides.1.into_inner());
        let answer = match InPlaceMergeState::new(left, right) {
            Ok(mut state) => {
                let ended = merge(&mut state, &op, &mut count) == Ok(true);
                Answer::right_if(ended && state.result().as_slice() == $case.want)
            }
            Err((_, left, right)) => $case.stand(left.as_slice(), right.as_slice()),
        };
        $case.within(&count, answer)
    }};
}

macro_rules! over_borrowed {
    ($case:expr, $copier:expr, $sides:expr) => {{
        let (op, mut count) = (connective($case.table), Comparisons::new());
        let (list, b) = ($sides.0.into_inner(), $sides.1.boundaries());
        let answer = match InPlaceMergeStateRef::new(list, b, &$copier) {
            Ok(mut state) => {
                let ended = merge(&mut state, &op, &mut count) == Ok(true);
                Answer::right_if(ended && state.result().as_slice() == $case.want)
            }
            Err((_, left)) => $case.stand(left.as_slice(), b),
        };
        $case.within(&count, answer)
    }};
}

impl<'a> Case<'a, i64> {
    /// What the call in this way answers.
    pub fn answer(&self, way: Way, alloc: Global, sides: Sides<i64, 2>) -> Answer {
        match (way, self.op) {
            (Way::Form(form), Some(op)) => self.formed(form, op, alloc, sides),
            (Way::StateOwned, _) => self.over_owned(sides),
            (Way::StateBorrowed, _) => self.over_borrowed(sides),
            _ => self.listed(way, alloc, sides),
        }
    }

    fn formed(&self, form: Form, op: Operation, alloc: Global, sides: Sides<i64, 2>) -> Answer {
        formed!(self, form, op, alloc, sides)
    }

    fn over_owned(&self, sides: Sides<i64, 2>) -> Answer {
        over_owned!(self, sides)
    }

    fn over_borrowed(&self, sides: Sides<i64, 2>) -> Answer {
        over_borrowed!(self, EntryCopier, sides)
    }
}

impl<'a> Case<'a, Flagged> {
    /// What the call in this way answers.
    pub fn answer(&self, way: Way, alloc: Global, sides: Sides<Flagged, 2>) -> Answer {
        match (way, self.op) {
            (Way::Form(form), Some(op)) => self.formed(form, op, alloc, sides),
            (Way::StateOwned, _) => self.over_owned(sides),
            (Way::StateBorrowed, _) => self.over_borrowed(sides),
            _ => self.listed(way, alloc, sides),
        }
    }

    fn formed(&self, form: Form, op: Operation, alloc: Global, sides: Sides<Flagged, 2>) -> Answer {
        formed!(self, form, op, alloc, sides)
    }

    fn over_owned(&self, sides: Sides<Flagged, 2>) -> Answer {
        over_owned!(self, sides)
    }

    fn over_borrowed(&self, sides: Sides<Flagged, 2>) -> Answer {
        over_borrowed!(self, FlaggedCopier, sides)
    }
}

impl<'a> Case<'a, Flagged> {
    /// What the call in this way answers of sets with room for eight.
    pub fn answer_with_room(&self, way: Way, alloc: Global, sides: Sides<Flagged, 8>) -> Answer {
        match (way, self.op) {
            (Way::Form(form), Some(op)) => self.formed_with_room(form, op, alloc, sides),
            (Way::StateOwned, _) => self.over_owned_with_room(sides),
            (Way::StateBorrowed, _) => self.over_borrowed_with_room(sides),
            _ => self.listed(way, alloc, sides),
        }
    }

    fn formed_with_room(
        &self,
        form: Form,
        op: Operation,
        alloc: Global,
        sides: Sides<Flagged, 8>,
    ) -> Answer {
        formed!(self, form, op, alloc, sides)
    }

    fn over_owned_with_room(&self, sides: Sides<Flagged, 8>) -> Answer {
        over_owned!(self, sides)
    }

    fn over_borrowed_with_room(&self, sides: Sides<Flagged, 8>) -> Answer {
        over_borrowed!(self, FlaggedCopier, sides)
    }
}
