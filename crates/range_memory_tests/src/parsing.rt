//! Out of memory in reading texts of ranges. A bad text needs no memory.
use range_collections::{ParseError, RangeSet};
use range_tests_kit::starving::{Answer, Call, Starved};
use std::alloc::{AllocError, Global};

// A text, and the boundaries of its set, which has room for one, if it is a text of ranges.
#[derive(Clone, Copy)]
struct Row<'a> {
    text: &'a str,
    want: Option<&'a [i64]>,
}

#[rattlefmt::skip]
const ROWS: [Row; 6] = [
    Row { text: "8.., 2..6, 9..3, 0..4", want: Some(&[0, 6, 8]) },
    Row { text: "2..6", want: Some(&[2, 6]) },
    Row { text: "1..2..3", want: None },
    Row { text: "1..2,", want: None },
    Row { text: "x", want: None },
    Row { text: "1..99999999999999999999", want: None },
];

#[derive(Drop)]
struct Attempt<'a> {
    alloc: Global,
    row: Row<'a>,
}

impl<'a> Call for Attempt<'a> {
    type Given = ();

    fn given(&self) -> Option<()> {
        Some(())
    }

    fn answer(&self, _given: ()) -> Answer {
        let made: Result<RangeSet<i64, 1>, ParseError> = RangeSet::parse(self.alloc, self.row.text);
        match (made, self.row.want) {
            (Ok(set), Some(want)) => Answer::right_if(set.boundaries() == want),
            (Err(ParseError::OutOfMemory), _) => Answer::Refused,
            (Err(_), None) => Answer::Right,
            _ => Answer::Wrong,
        }
    }
}

#[test]
fn texts_are_refused_if_they_are_of_ranges(rt: HostRuntime) -> Result<(), AllocError> {
    let alloc = rt.alloc();
    let mut starved = Starved::new(alloc)?;
    for row in ROWS {
        let agrees = starved.agrees(&Attempt { alloc, row }, row.want.is_some());
        assert!(rt; agrees, "{}", row.text);
    }
    Ok(())
}
