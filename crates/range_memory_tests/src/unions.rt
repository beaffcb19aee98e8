//! Out of memory in unions of many sets and of many ranges, and in intersections of many sets.
use range_collections::{RangeSet2, RangeSetRange, RangeSetRef};
use range_tests_kit::starving::{Answer, Call, Starved};
use range_tests_kit::ways::set_is;
use std::alloc::{AllocError, Global};

const LISTS: [&[i64]; 3] = [&[0, 4, 20, 30], &[8], &[2, 6]];

const WANT: [i64; 3] = [0, 6, 8];

const LONG_LISTS: [&[i64]; 3] = [&[0, 4, 20, 30], &[1, 22, 24], &[2, 6, 21]];

const COMMON: [i64; 6] = [2, 4, 21, 22, 24, 30];

#[derive(Clone, Copy, Debug)]
enum Many {
    Sets,
    Ranges,
    Intersection,
}

#[derive(Drop)]
struct Attempt {
    alloc: Global,
    of: Many,
}

impl Call for Attempt {
    type Given = ();

    fn given(&self) -> Option<()> {
        Some(())
    }

    fn answer(&self, _given: ()) -> Answer {
        match self.of {
            Many::Sets => {
                let sets = LISTS.map(|items| RangeSetRef::new(items).unwrap_or_default());
                set_is(RangeSet2::union_all(self.alloc, &sets), &WANT)
            }
            Many::Ranges => {
                let ranges = [
                    RangeSetRange::from(8..),
                    RangeSetRange::from(2..6),
                    RangeSetRange::from(9..3),
                    RangeSetRange::from(0..4),
                ];
                set_is(RangeSet2::from_ranges(self.alloc, &ranges), &WANT)
            }
            Many::Intersection => {
                let sets = LONG_LISTS.map(|items| RangeSetRef::new(items).unwrap_or_default());
                set_is(RangeSet2::intersection_all(self.alloc, &sets), &COMMON)
            }
        }
    }
}

#[test]
fn unions_of_many_are_refused(rt: HostRuntime) -> Result<(), AllocError> {
    let alloc = rt.alloc();
    let mut starved = Starved::new(alloc)?;
    for of in [Many::Sets, Many::Ranges, Many::Intersection] {
        assert!(rt; starved.refuses(&Attempt { alloc, of }), "{of:?}");
    }
    Ok(())
}
