//! Out of memory in the operations, into a new list and in place: over numbers, whose copies never
//! fail, and over elements of which some could.
use range_tests_kit::elements::Flagged;
use range_tests_kit::flags::{Flags, Items};
use range_tests_kit::forms::{OPERATIONS, Row};
use range_tests_kit::starving::{Answer, Call, Starved};
use range_tests_kit::ways::{Case, Sides, WAYS, Way, case_of};
use std::alloc::{AllocError, Global};

// One way to call.
#[derive(Drop)]
struct Attempt<'a, T> {
    alloc: Global,
    case: Case<'a, T>,
    way: Way,
}

impl<'a> Call for Attempt<'a, i64> {
    type Given = Sides<i64, 2>;

    fn given(&self) -> Option<Self::Given> {
        self.case.sides(self.alloc)
    }

    fn answer(&self, sides: Self::Given) -> Answer {
        self.case.answer(self.way, self.alloc, sides)
    }
}

impl<'a> Call for Attempt<'a, Flagged> {
    type Given = Sides<Flagged, 2>;

    fn given(&self) -> Option<Self::Given> {
        self.case.sides(self.alloc)
    }

    fn answer(&self, sides: Self::Given) -> Answer {
        self.case.answer(self.way, self.alloc, sides)
    }
}

impl<'a, T> Attempt<'a, T> {
    // Whether more items than the two that a set has room for come together: in place those of both
    // sides, and else those of the result. Plain items that need one list on the heap at most go
    // into a new list if the right side is borrowed.
    fn needs_memory(&self, is_plain: bool) -> bool {
        let case = &self.case;
        let both = case.left.len().saturating_add(case.right.len());
        let is_borrowed = !self.way.takes_right() && self.way != Way::StateBorrowed;
        let goes_into_a_new_list = is_plain && is_borrowed && both <= 4;
        let items = if self.way == Way::StateNew {
            case.first.len().saturating_add(case.want.len())
        } else if self.way.is_in_place() && !goes_into_a_new_list {
            both
        } else {
            case.want.len()
        };
        items > 2
    }
}

// The first way that isn't refused in turn, or else needs memory, over numbers or over flagged
// elements.
pub(crate) fn wrong_way(alloc: Global, numbers: &Case<i64>) -> Result<Option<Way>, AllocError> {
    let items = Items::of(alloc, numbers, Flags::None)?;
    let mut starved = Starved::with_rounds(alloc, 8_000)?;
    for way in WAYS {
        let attempt = Attempt {
            alloc,
            case: *numbers,
            way,
        };
        let flagged = Attempt {
            alloc,
            case: items.case(numbers),
            way,
        };
        if numbers.has(way)
            && !(starved.agrees(&attempt, attempt.needs_memory(true))
                && starved.agrees(&flagged, flagged.needs_memory(false)))
        {
            return Ok(Some(way));
        }
    }
    Ok(None)
}

// A row of operations, and what a state's list begins with. Sides and results have room in a set of
// two, or not.
#[derive(Clone, Copy)]
struct Begun<'a> {
    row: Row<'a>,
    first: &'a [i64],
}

#[rattlefmt::skip]
const ROWS: [Begun; 8] = [
    Begun { first: &[-1], row: Row {
        left: &[0, 10, 20],
        right: &[5, 15, 25],
        wants: [&[0, 15, 20], &[5, 10, 25], &[0, 5, 20, 25], &[0, 5, 10, 15, 20, 25]],
        most: 12,
    } },
    Begun { first: &[], row: Row {
        left: &[0, 10],
        right: &[20, 30, 40],
        wants: [&[0, 10, 20, 30, 40], &[], &[0, 10], &[0, 10, 20, 30, 40]],
        most: 8,
    } },
    Begun { first: &[-1], row: Row {
        left: &[0, 10],
        right: &[20],
        wants: [&[0, 10, 20], &[], &[0, 10], &[0, 10, 20]],
        most: 6,
    } },
    Begun { first: &[], row: Row {
        left: &[10],
        right: &[1, 5],
        wants: [&[1, 5, 10], &[], &[10], &[1, 5, 10]],
        most: 6,
    } },
    Begun { first: &[], row: Row {
        left: &[0],
        right: &[20],
        wants: [&[0], &[20], &[0, 20], &[0, 20]],
        most: 4,
    } },
    Begun { first: &[], row: Row {
        left: &[],
        right: &[0, 10],
        wants: [&[0, 10], &[], &[], &[0, 10]],
        most: 4,
    } },
    Begun { first: &[], row: Row {
        left: &[0, 10],
        right: &[5, 15],
        wants: [&[0, 15], &[5, 10], &[0, 5], &[0, 5, 10, 15]],
        most: 8,
    } },
    Begun { first: &[-2, -1], row: Row {
        left: &[0, 1, 2, 3, 4, 5, 6],
        right: &[3, 8],
        wants: [&[0, 1, 2], &[4, 5, 6, 8], &[0, 1, 2, 3, 8], &[0, 1, 2, 4, 5, 6, 8]],
        most: 12,
    } },
];

#[test]
fn operations_are_refused_beyond_their_room(rt: HostRuntime) -> Result<(), AllocError> {
    for Begun { row, first } in &ROWS {
        for (op, want) in OPERATIONS.iter().zip(&row.wants) {
            let wrong = wrong_way(rt.alloc(), &case_of(*op, row, first, want))?;
            let (left, right) = (row.left, row.right);
            assert_eq!(rt; wrong, None, "{op:?} of {left:?} and {right:?}");
        }
    }
    Ok(())
}
