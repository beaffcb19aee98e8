//! How much memory a new set of two long lists asks for, and that lengths and tests of them need
//! none.
use range_collections::{Comparisons, RangeSetRef, UnionOp};
use range_tests_kit::lists::numbers;
use range_tests_kit::starving::{Answer, Call, Starved};
use range_tests_kit::ways::set_is;
use std::alloc::{AllocError, Global};

fn view(items: &[i64]) -> RangeSetRef<i64> {
    RangeSetRef::new(items).unwrap_or_default()
}

// Two lists, and the boundaries of their union, or else of their intersection.
#[derive(Drop)]
struct Making<'a> {
    alloc: Global,
    left: &'a [i64],
    right: &'a [i64],
    is_union: bool,
    want: &'a [i64],
}

impl<'a> Call for Making<'a> {
    type Given = ();

    fn given(&self) -> Option<()> {
        Some(())
    }

    fn answer(&self, _given: ()) -> Answer {
        let (left, right) = (view(self.left), view(self.right));
        let made = if self.is_union {
            left.union(self.alloc, right)
        } else {
            left.intersection(self.alloc, right)
        };
        set_is::<_, 2>(made, self.want)
    }
}

// Where there is no room for both lists at once, the result grows as it has to.
#[test]
fn a_short_result_of_long_lists_needs_room_for_itself(rt: HostRuntime) -> Result<(), AllocError> {
    let alloc = rt.alloc();
    let (left, right) = (numbers(alloc, 0, 64)?, numbers(alloc, 60, 124)?);
    let making = Making {
        alloc,
        left: left.as_slice(),
        right: right.as_slice(),
        is_union: false,
        want: &[60, 61, 62, 63],
    };
    let room = Starved::new(alloc)?.room_for(&making);
    assert_eq!(rt; room, Some(8 * 4 + 16));
    Ok(())
}

// The room is asked for at once. So a list of as many boundaries as both have needs no more than
// that.
#[test]
fn a_long_result_needs_room_for_both_lists(rt: HostRuntime) -> Result<(), AllocError> {
    let alloc = rt.alloc();
    let all = numbers(alloc, 0, 100)?;
    let (left, right) = (numbers(alloc, 0, 60)?, numbers(alloc, 60, 100)?);
    let making = Making {
        alloc,
        left: left.as_slice(),
        right: right.as_slice(),
        is_union: true,
        want: all.as_slice(),
    };
    let room = Starved::new(alloc)?.room_for(&making);
    assert_eq!(rt; room, Some(8 * 100 + 16));
    Ok(())
}

// The length of the union of a list with one boundary, which has a member.
#[derive(Drop)]
struct Counting<'a> {
    left: &'a [i64],
    right: [i64; 1],
    length: usize,
}

impl<'a> Call for Counting<'a> {
    type Given = ();

    fn given(&self) -> Option<()> {
        Some(())
    }

    fn answer(&self, _given: ()) -> Answer {
        let (a, b) = (view(self.left), view(&self.right));
        if a.boundaries()
            .len()
            .checked_add(b.boundaries().len())
            .is_none()
        {
            return Answer::Wrong;
        }
        let length = a.merge_len(b, &UnionOp, &mut Comparisons::new());
        let has_member = a.merge_test(b, &UnionOp, &mut Comparisons::new());
        Answer::right_if(length == self.length && has_member)
    }
}

#[test]
fn lengths_and_tests_need_no_memory(rt: HostRuntime) -> Result<(), AllocError> {
    let long = numbers(rt.alloc(), 0, 10_000)?;
    let mut starved = Starved::new(rt.alloc())?;
    for (right, length) in [([-1], 1), ([5_000], 5_001), ([10_000], 10_001)] {
        let counting = Counting {
            left: long.as_slice(),
            right,
            length,
        };
        assert!(rt; starved.needs_none(&counting), "{right:?}");
    }
    Ok(())
}
