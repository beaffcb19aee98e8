//! Out of memory in what makes and changes lists: the builder in place, and a list in any order
//! that is sorted. A list that was passed in comes back as it was.
use range_collections::RangeSet2;
use range_merge::InPlaceBuilder;
use range_tests_kit::starving::{Answer, Call, Starved};
use range_tests_kit::ways::{refused_if, set_is};
use smallvec::SmallVec;
use std::alloc::{AllocError, Global};

type List = SmallVec<i64, 2>;

// A list of three, of which the first is kept, one is put, and the second is skipped.
#[derive(Drop)]
struct Building {
    alloc: Global,
}

// What becomes of the list.
fn changed(mut builder: InPlaceBuilder<i64, 2>) -> Option<List> {
    if builder.unread_len() != 3 || builder.puts_left() != 1 {
        return None;
    }
    builder.keep(1);
    if builder.puts_left() == 0 {
        return None;
    }
    builder.put(9);
    if builder.puts_left() != 0 || builder.unread_len() != 2 || *builder.unread_at(0) != 2 {
        return None;
    }
    builder.skip(1);
    Some(builder.finish())
}

impl Call for Building {
    type Given = List;

    fn given(&self) -> Option<List> {
        SmallVec::from_slice(self.alloc, &[1, 2, 3]).ok()
    }

    fn answer(&self, list: List) -> Answer {
        match InPlaceBuilder::new(list, 1) {
            Ok(builder) => match changed(builder) {
                Some(list) => Answer::right_if(list.as_slice() == [1, 9, 3].as_slice()),
                None => Answer::Wrong,
            },
            Err((_error, list)) => refused_if(list.as_slice() == [1, 2, 3].as_slice()),
        }
    }
}

// The numbers from 32 up to 64, and then those from 0 up to 32.
#[derive(Drop)]
struct Sorting {
    alloc: Global,
}

impl Call for Sorting {
    type Given = List;

    fn given(&self) -> Option<List> {
        let mut list = SmallVec::with_capacity(self.alloc, 64).ok()?;
        for x in 0..64i64 {
            list.push((x + 32) % 64).ok()?;
        }
        Some(list)
    }

    fn answer(&self, list: List) -> Answer {
        let mut want = [0i64; 64];
        for (at, x) in want.iter_mut().enumerate() {
            *x = at as i64;
        }
        set_is(RangeSet2::from_unsorted(list), &want)
    }
}

#[test]
fn builders_and_sorts_are_refused(rt: HostRuntime) -> Result<(), AllocError> {
    let alloc = rt.alloc();
    let mut starved = Starved::new(alloc)?;
    assert!(rt; starved.refuses(&Building { alloc }), "the builder");
    assert!(rt; starved.refuses(&Sorting { alloc }), "sorting");
    Ok(())
}
