//! Out of memory where one range is put into a set or taken out of it: refused where the list grows
//! beyond its room, and else no memory is needed.
use range_collections::{Comparisons, RangeSet, RangeSet2};
use range_tests_kit::lists::own;
use range_tests_kit::starving::{Answer, Call, Starved};
use range_tests_kit::ways::refused_if;
use smallvec::SmallVec;
use std::alloc::{AllocError, Global};

#[derive(Clone, Copy, Debug)]
enum Change {
    Insert,
    InsertCounted,
    Remove,
    RemoveCounted,
}

const CHANGES: [Change; 4] = [
    Change::Insert,
    Change::InsertCounted,
    Change::Remove,
    Change::RemoveCounted,
];

// Boundaries, a range, and the boundaries with the range put in and with it taken out.
#[derive(Clone, Copy, Debug)]
struct Row<'a> {
    items: &'a [i64],
    start: i64,
    end: i64,
    inserted: &'a [i64],
    removed: &'a [i64],
}

// Ranges beside those of the set, within and across them.
#[rattlefmt::skip]
const ROWS: [Row; 15] = [
    Row { items: &[0, 10], start: 20, end: 30, inserted: &[0, 10, 20, 30], removed: &[0, 10] },
    Row { items: &[20, 30], start: 0, end: 10, inserted: &[0, 10, 20, 30], removed: &[20, 30] },
    Row {
        items: &[0, 9, 40, 50], start: 20, end: 30, inserted: &[0, 9, 20, 30, 40, 50],
        removed: &[0, 9, 40, 50],
    },
    Row { items: &[0, 100], start: 20, end: 30, inserted: &[0, 100], removed: &[0, 20, 30, 100] },
    Row {
        items: &[0, 10, 20, 30], start: 20, end: 30, inserted: &[0, 10, 20, 30], removed: &[0, 10],
    },
    Row { items: &[0, 10], start: 0, end: 10, inserted: &[0, 10], removed: &[] },
    Row { items: &[0, 10], start: 0, end: 5, inserted: &[0, 10], removed: &[5, 10] },
    Row { items: &[0, 10], start: 5, end: 10, inserted: &[0, 10], removed: &[0, 5] },
    Row { items: &[10, 20], start: 5, end: 15, inserted: &[5, 20], removed: &[15, 20] },
    Row { items: &[10, 20], start: 15, end: 25, inserted: &[10, 25], removed: &[10, 15] },
    Row {
        items: &[0, 10, 20, 30], start: 5, end: 25, inserted: &[0, 30], removed: &[0, 5, 25, 30],
    },
    Row {
        items: &[0, 10, 20, 30], start: 5, end: 15, inserted: &[0, 15, 20, 30],
        removed: &[0, 5, 20, 30],
    },
    Row { items: &[0, 10, 20, 30], start: -5, end: 40, inserted: &[-5, 40], removed: &[] },
    Row { items: &[10, 20, 30, 40], start: 10, end: 40, inserted: &[10, 40], removed: &[] },
    Row {
        items: &[0, 10, 15, 16, 20, 30], start: 10, end: 20, inserted: &[0, 30],
        removed: &[0, 10, 20, 30],
    },
];

// Where the boundaries have room: for four in the set itself, or in an allocation for a number
// above two.
#[derive(Clone, Copy, Debug)]
enum Room {
    Four,
    Allocated(usize),
}

#[derive(Drop)]
struct Attempt<'a> {
    alloc: Global,
    change: Change,
    row: Row<'a>,
    room: Room,
}

impl<'a> Attempt<'a> {
    fn want(&self) -> &'a [i64] {
        match self.change {
            Change::Insert | Change::InsertCounted => self.row.inserted,
            Change::Remove | Change::RemoveCounted => self.row.removed,
        }
    }

    // Whether it is refused where the boundaries have no room, and else needs no memory.
    fn agrees(&self, starved: &mut Starved) -> bool {
        let room = match self.room {
            Room::Four => 4,
            Room::Allocated(room) => room.max(2),
        };
        starved.agrees(self, self.want().len() > room)
    }

    fn changed<const N: usize>(&self, mut set: RangeSet<i64, N>) -> Answer {
        let (start, end) = (self.row.start, self.row.end);
        let mut count = Comparisons::new();
        let made = match self.change {
            Change::Insert => set.insert(start..end),
            Change::InsertCounted => set.insert_counted(start..end, &mut count),
            Change::Remove => set.remove(start..end),
            Change::RemoveCounted => set.remove_counted(start..end, &mut count),
        };
        match made {
            Ok(()) => Answer::right_if(set.boundaries() == self.want()),
            Err(_) => refused_if(set.boundaries() == self.row.items),
        }
    }
}

impl<'a> Call for Attempt<'a> {
    type Given = RangeSet2<i64>;

    fn given(&self) -> Option<RangeSet2<i64>> {
        let room = match self.room {
            Room::Allocated(room) => room,
            Room::Four => 0,
        };
        let mut list = SmallVec::with_capacity(self.alloc, room).ok()?;
        for item in self.row.items {
            list.push(*item).ok()?;
        }
        RangeSet::new(list)
    }

    fn answer(&self, set: RangeSet2<i64>) -> Answer {
        match self.room {
            Room::Four => match own::<_, 4>(self.alloc, self.row.items) {
                Some(set) => self.changed(set),
                None => Answer::Wrong,
            },
            Room::Allocated(_) => self.changed(set),
        }
    }
}

#[test]
fn changes_are_refused_beyond_their_room(rt: HostRuntime) -> Result<(), AllocError> {
    let alloc = rt.alloc();
    for row in ROWS {
        let mut starved = Starved::new(alloc)?;
        for change in CHANGES {
            let room = Room::Allocated(row.items.len());
            let attempt = Attempt {
                alloc,
                change,
                row,
                room,
            };
            assert!(rt; attempt.agrees(&mut starved), "{change:?}, {row:?}");
        }
    }
    Ok(())
}

// Two ranges that make a list of two grow.
#[rattlefmt::skip]
const GROWING: [Row; 2] = [
    Row { items: &[0, 10], start: 20, end: 30, inserted: &[0, 10, 20, 30], removed: &[0, 10] },
    Row { items: &[0, 10], start: 3, end: 5, inserted: &[0, 10], removed: &[0, 3, 5, 10] },
];

#[test]
fn lists_with_room_need_no_memory(rt: HostRuntime) -> Result<(), AllocError> {
    let alloc = rt.alloc();
    let mut starved = Starved::new(alloc)?;
    for row in GROWING {
        for change in CHANGES {
            for room in [Room::Allocated(8), Room::Four] {
                let attempt = Attempt {
                    alloc,
                    change,
                    row,
                    room,
                };
                assert!(rt;
                    attempt.agrees(&mut starved),
                    "{change:?}, {row:?}, {room:?}"
                );
            }
        }
    }
    Ok(())
}
