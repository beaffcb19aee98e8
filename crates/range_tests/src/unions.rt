//! Unions of made-up sets, value by value.
ghost use Rattle.std.specs.Prelude.{◌≤◌};

use range_collections::{RangeSet, RangeSet2, RangeSetRef};
use range_tests_kit::generator::Generator;
use range_tests_kit::membership::{all_u8, is_on};
use std::alloc::{AllocError, Global};

// How many values three made-up lists have wrongly in the union of their sets.
fn wrong(alloc: Global, draws: &mut Generator, one_in: u64) -> Result<u64, AllocError>
    requires { 1 ≤ one_in }
{
    let values = all_u8(alloc)?;
    let first = draws.some_of(alloc, values.as_slice(), one_in)?;
    let second = draws.some_of(alloc, values.as_slice(), one_in)?;
    let third = draws.some_of(alloc, values.as_slice(), one_in)?;
    let lists = [first.as_slice(), second.as_slice(), third.as_slice()];
    let sets = lists.map(|items| RangeSetRef::new(items).unwrap_or_default());
    let made: RangeSet2<u8> = RangeSet::union_all(alloc, &sets)?;
    let mut wrong: u64 = 0;
    for value in values.as_slice() {
        let want = is_on(lists[0], value) || is_on(lists[1], value) || is_on(lists[2], value);
        if made.contains(value) != want {
            wrong = wrong.saturating_add(1);
        }
    }
    Ok(wrong)
}

#[test]
fn made_up_sets_are_united_value_by_value(rt: HostRuntime) -> Result<(), AllocError> {
    let mut draws = Generator::new();
    for one_in in [2u64, 8, 40, 100] {
        for round in 0..20u64 {
            let wrong = wrong(rt.alloc(), &mut draws, one_in.max(1))?;
            assert_eq!(rt; wrong, 0, "one in {one_in}, round {round}");
        }
    }
    Ok(())
}
