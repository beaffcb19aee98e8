//! Advances of a state over a list, over items of which each in turn has its flag set, so that its
//! copy is refused.
use range_tests_kit::advances::{LEFT, Passing, RIGHT, ROWS, Row};
use range_tests_kit::elements::with_flag;
use range_tests_kit::flags::{Flags, flagged};
use range_tests_kit::ways::wanted;
use std::alloc::{AllocError, Global};

// Whether the advance that takes is refused where it copies a flagged item, and the one that drops
// is made.
fn answers(alloc: Global, row: &Row, flags: Flags) -> Result<bool, AllocError> {
    let left = flagged(alloc, &LEFT, flags.left())?;
    let right = flagged(alloc, &RIGHT, flags.right())?;
    let items = flagged(alloc, row.items, 0..0)?;
    let before = [with_flag(-1, true)];
    let is_copied = flags.left_within(row.lefts) || flags.right_within(row.rights);
    for taken in [Some(items.as_slice()), None] {
        let passing = Passing {
            advance: row.advance,
            left: left.as_slice(),
            right: right.as_slice(),
            first: &before,
            taken,
        };
        if passing.answer(alloc) != wanted(is_copied && taken.is_some()) {
            return Ok(false);
        }
    }
    Ok(true)
}

#[test]
fn advances_are_refused_by_flags(rt: HostRuntime) -> Result<(), AllocError> {
    for row in &ROWS {
        for place in 0..4usize {
            for flags in [Flags::Left(place), Flags::Right(place), Flags::From(place)] {
                assert!(rt;
                    answers(rt.alloc(), row, flags)?,
                    "{:?}, {flags:?}",
                    row.advance
                );
            }
        }
    }
    Ok(())
}
