//! Operations where each request is refused: of lists that have room for both sides in themselves,
//! which need no memory in any form, and of long lists.
use range_collections::{Comparisons, RangeSet};
use range_tests_kit::forms::{FORMS, Form, Operation};
use range_tests_kit::lists::own;
use range_tests_kit::starving::{Answer, Call, Starved};
use std::alloc::{AllocError, Global};

const LEFT: [i64; 4] = [0, 2, 4, 6];

const RIGHT: [i64; 4] = [1, 3, 5, 7];

// What an operation makes of these sides.
#[derive(Clone, Copy)]
struct Row<'a> {
    op: Operation,
    want: &'a [i64],
}

#[rattlefmt::skip]
const ROWS: [Row; 4] = [
    Row { op: Operation::Union, want: &[0, 3, 4, 7] },
    Row { op: Operation::Intersection, want: &[1, 2, 5, 6] },
    Row { op: Operation::SymmetricDifference, want: &[0, 1, 2, 3, 4, 5, 6, 7] },
    Row { op: Operation::Difference, want: &[0, 1, 4, 5] },
];

#[derive(Drop)]
struct Attempt<'a> {
    alloc: Global,
    op: Operation,
    form: Form,
    want: &'a [i64],
}

impl<'a> Call for Attempt<'a> {
    type Given = (RangeSet<i64, 8>, RangeSet<i64, 8>);

    fn given(&self) -> Option<Self::Given> {
        Some((own(self.alloc, &LEFT)?, own(self.alloc, &RIGHT)?))
    }

    fn answer(&self, given: Self::Given) -> Answer {
        let (left, right) = given;
        self.form
            .call(self.op, self.alloc, left, right, &mut Comparisons::new())
            .answer(self.want, &LEFT, &RIGHT)
    }
}

#[test]
fn sides_with_room_need_no_memory(rt: HostRuntime) -> Result<(), AllocError> {
    let alloc = rt.alloc();
    let mut starved = Starved::new(alloc)?;
    for Row { op, want } in ROWS {
        for form in FORMS {
            let attempt = Attempt {
                alloc,
                op,
                form,
                want,
            };
            assert!(rt; starved.needs_none(&attempt), "{op:?} in {form:?}");
        }
    }
    Ok(())
}

#[rattlefmt::skip]
const LONG_LEFT: [i64; 32] = [
    0, 4, 8, 12, 16, 20, 24, 28, 32, 36, 40, 44, 48, 52, 56, 60, 64, 68, 72, 76, 80, 84, 88, 92,
    96, 100, 104, 108, 112, 116, 120, 124,
];

#[rattlefmt::skip]
const LONG_RIGHT: [i64; 32] = [
    2, 6, 10, 14, 18, 22, 26, 30, 34, 38, 42, 46, 50, 54, 58, 62, 66, 70, 74, 78, 82, 86, 90, 94,
    98, 102, 106, 110, 114, 118, 122, 126,
];

#[rattlefmt::skip]
const LONG_UNION: [i64; 32] = [
    0, 6, 8, 14, 16, 22, 24, 30, 32, 38, 40, 46, 48, 54, 56, 62, 64, 70, 72, 78, 80, 86, 88, 94,
    96, 102, 104, 110, 112, 118, 120, 126,
];

// A union in place of two lists that are so long that it is made in a list of its own.
#[derive(Drop)]
struct LongUnion {
    alloc: Global,
}

impl Call for LongUnion {
    type Given = (RangeSet<i64, 2>, RangeSet<i64, 2>);

    fn given(&self) -> Option<Self::Given> {
        Some((own(self.alloc, &LONG_LEFT)?, own(self.alloc, &LONG_RIGHT)?))
    }

    fn answer(&self, given: Self::Given) -> Answer {
        let (mut left, right) = given;
        match left.union_with(right.as_ref()) {
            Ok(()) => Answer::right_if(left.boundaries() == LONG_UNION.as_slice()),
            Err(_) if left.boundaries() == LONG_LEFT.as_slice() => Answer::Refused,
            Err(_) => Answer::Wrong,
        }
    }
}

#[test]
fn long_sides_are_left_as_they_were(rt: HostRuntime) -> Result<(), AllocError> {
    let alloc = rt.alloc();
    let mut starved = Starved::new(alloc)?;
    assert!(rt; starved.refuses(&LongUnion { alloc }));
    Ok(())
}
