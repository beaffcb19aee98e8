//! Out of memory in the constructors.
use range_collections::{RangeSet, RangeSetEntry, RangeSetRange};
use range_tests_kit::starving::{Answer, Call, Starved};
use range_tests_kit::ways::set_is;
use std::alloc::{AllocError, Global};

#[derive(Clone, Copy, Debug)]
enum Constructor {
    Range,
    RangeFrom,
    RangeUntil,
    Full,
    True,
    All,
    RangeSetRange,
    RangeSetRangeFrom,
    RangeSetRangeOfNothing,
    Values,
}

// A constructor, and the boundaries that it makes.
#[derive(Clone, Copy)]
struct Row<'a> {
    call: Constructor,
    want: &'a [i64],
}

#[rattlefmt::skip]
const ROWS: [Row; 10] = [
    Row { call: Constructor::Range, want: &[1, 5] },
    Row { call: Constructor::RangeFrom, want: &[5] },
    Row { call: Constructor::RangeUntil, want: &[i64::MIN, 5] },
    Row { call: Constructor::Full, want: &[i64::MIN] },
    Row { call: Constructor::True, want: &[i64::MIN] },
    Row { call: Constructor::All, want: &[i64::MIN] },
    Row { call: Constructor::RangeSetRange, want: &[0, 2] },
    Row { call: Constructor::RangeSetRangeFrom, want: &[4] },
    Row { call: Constructor::RangeSetRangeOfNothing, want: &[] },
    Row { call: Constructor::Values, want: &[0, 1, 3, 5] },
];

impl Constructor {
    fn made<const N: usize>(self, alloc: Global) -> Result<RangeSet<i64, N>, AllocError> {
        match self {
            Constructor::Range => RangeSet::from_range(alloc, 1..5),
            Constructor::RangeFrom => RangeSet::from_range_from(alloc, 5..),
            Constructor::RangeUntil => RangeSet::from_range_until(alloc, ..5),
            Constructor::Full => RangeSet::from_range_full(alloc, ..),
            Constructor::True => RangeSet::from_bool(alloc, true),
            Constructor::All => RangeSet::all(alloc),
            Constructor::RangeSetRange => {
                RangeSet::from_range_set_range(alloc, RangeSetRange::from(0..2))
            }
            Constructor::RangeSetRangeFrom => {
                RangeSet::from_range_set_range(alloc, RangeSetRange::from(4..))
            }
            Constructor::RangeSetRangeOfNothing => {
                RangeSet::from_range_set_range(alloc, RangeSetRange::from(5..1))
            }
            // No more than the list of their ranges first has room for: where glibc makes a block
            // longer it keeps what is left over for requests of exactly that size, so with more
            // room a call may be refused again.
            Constructor::Values => RangeSet::from_values(alloc, &[4, 0, 3, 3]),
        }
    }
}

// A set with room in itself for `room` boundaries, at most two.
#[derive(Drop)]
struct Attempt<'a> {
    alloc: Global,
    call: Constructor,
    room: usize,
    want: &'a [i64],
}

impl<'a> Call for Attempt<'a> {
    type Given = ();

    fn given(&self) -> Option<()> {
        Some(())
    }

    fn answer(&self, _given: ()) -> Answer {
        match self.room {
            0 => set_is::<_, 0>(self.call.made(self.alloc), self.want),
            1 => set_is::<_, 1>(self.call.made(self.alloc), self.want),
            _ => set_is::<_, 2>(self.call.made(self.alloc), self.want),
        }
    }
}

#[test]
fn constructors_are_refused_beyond_their_room(rt: HostRuntime) -> Result<(), AllocError> {
    let alloc = rt.alloc();
    let mut starved = Starved::new(alloc)?;
    for Row { call, want } in ROWS {
        for room in 0..3usize {
            let attempt = Attempt {
                alloc,
                call,
                room,
                want,
            };
            let agrees = starved.agrees(&attempt, want.len() > room);
            assert!(rt; agrees, "{call:?}, room for {room}");
        }
    }
    Ok(())
}

// The least text and the least list.
#[derive(Drop)]
struct Least {
    alloc: Global,
}

impl Call for Least {
    type Given = ();

    fn given(&self) -> Option<()> {
        Some(())
    }

    fn answer(&self, _given: ()) -> Answer {
        match (
            String::min_value(self.alloc),
            Vec::<u8>::min_value(self.alloc),
        ) {
            (Ok(text), Ok(list)) => Answer::right_if(text.is_empty() && list.is_empty()),
            _ => Answer::Refused,
        }
    }
}

#[test]
fn the_least_text_and_the_least_list_take_no_memory(rt: HostRuntime) -> Result<(), AllocError> {
    let alloc = rt.alloc();
    let mut starved = Starved::new(alloc)?;
    assert!(rt; starved.needs_none(&Least { alloc }));
    Ok(())
}
