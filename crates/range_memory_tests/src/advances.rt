//! Out of memory in the advances of a state over a list. One that drops what it passes needs no
//! memory.
use range_tests_kit::advances::{LEFT, Passing, RIGHT, ROWS};
use range_tests_kit::elements::with_flag;
use range_tests_kit::flags::flagged;
use range_tests_kit::starving::{Answer, Call, Starved};
use std::alloc::{AllocError, Global};

#[derive(Drop)]
struct Attempt<'a> {
    alloc: Global,
    passing: Passing<'a>,
}

impl<'a> Call for Attempt<'a> {
    type Given = ();

    fn given(&self) -> Option<()> {
        Some(())
    }

    fn answer(&self, _given: ()) -> Answer {
        self.passing.answer(self.alloc)
    }
}

// Whether the advance is refused where it takes more items than a list with room for two has room
// for, and else needs no memory.
fn agrees(alloc: Global, starved: &mut Starved, passing: Passing) -> bool {
    let taken = match passing.taken {
        Some(items) => items.len(),
        None => 0,
    };
    let needs_memory = passing.first.len().saturating_add(taken) > 2 && taken > 0;
    starved.agrees(&Attempt { alloc, passing }, needs_memory)
}

#[test]
fn advances_are_refused_beyond_their_room(rt: HostRuntime) -> Result<(), AllocError> {
    let alloc = rt.alloc();
    let (left, right) = (flagged(alloc, &LEFT, 0..0)?, flagged(alloc, &RIGHT, 0..0)?);
    let before = [with_flag(-2, true), with_flag(-1, true)];
    for row in ROWS {
        let items = flagged(alloc, row.items, 0..0)?;
        let mut starved = Starved::new(alloc)?;
        for first in [&[], &before[1..], &before[..]] {
            for taken in [Some(items.as_slice()), None] {
                let passing = Passing {
                    advance: row.advance,
                    left: left.as_slice(),
                    right: right.as_slice(),
                    first,
                    taken,
                };
                let agrees = agrees(alloc, &mut starved, passing);
                assert!(rt; agrees, "{:?} after {}", row.advance, first.len());
            }
        }
    }
    Ok(())
}
