//! Operations of sets in many chunks with views that touch a part of them: a set in chunks has the
//! ranges of a `RangeSet` that is changed alike.
use crate::made_up::are_alike;
use crate::making::flat_set;
use range_chunks::ChunkedRangeSet;
use range_collections::{RangeSet2, RangeSetRef};
use range_tests_kit::generator::Generator;
use std::alloc::{AllocError, Global};

#[derive(Clone, Copy, Debug, PartialEq, Eq)]
enum Change {
    Union,
    Intersection,
    Difference,
    SymmetricDifference,
    InsertAll,
    RemoveAll,
}

const CHANGES: [Change; 6] = [
    Change::Union,
    Change::Intersection,
    Change::Difference,
    Change::SymmetricDifference,
    Change::InsertAll,
    Change::RemoveAll,
];

// The boundaries of the other side, beside 600 ranges of 10, one in each 20, of which 256 fill a
// chunk: none; at the front, before it and behind; at the end, before it and behind; within a range
// and within a gap; at boundaries; around the border of two chunks; without an end; and all.
const OTHERS: [&[u64]; 20] = [
    &[],
    &[0, 5],
    &[0, 10],
    &[0, 20],
    &[11_985, 11_990],
    &[11_980, 11_995],
    &[11_995, 11_999],
    &[13_000, 13_010],
    &[6_002, 6_004],
    &[6_012, 6_014],
    &[6_000, 6_010],
    &[6_010, 6_020],
    &[5_115, 5_117],
    &[5_105, 5_125],
    &[5_110, 5_120, 5_121, 5_122, 5_131, 5_133],
    &[0],
    &[6_005],
    &[13_000],
    &[1, 12_100],
    &[2_003, 9_015],
];

// Changes both sets alike.
fn make(
    set: &mut ChunkedRangeSet<u64>,
    flat: &mut RangeSet2<u64>,
    that: RangeSetRef<u64>,
    how: Change,
) -> Result<(), AllocError> {
    match how {
        Change::Union => {
            set.union_with(that)?;
            flat.union_with(that)
        }
        Change::Intersection => {
            set.intersection_with(that)?;
            flat.intersection_with(that)
        }
        Change::Difference => {
            set.difference_with(that)?;
            flat.difference_with(that)
        }
        Change::SymmetricDifference => {
            set.symmetric_difference_with(that)?;
            flat.symmetric_difference_with(that)
        }
        Change::InsertAll => {
            set.insert_all(that)?;
            flat.union_with(that)
        }
        Change::RemoveAll => {
            set.remove_all(that)?;
            flat.difference_with(that)
        }
    }
}

// Whether both sets are alike after the change.
fn is_alike(alloc: Global, other: &[u64], how: Change) -> Result<bool, AllocError> {
    let Some(that) = RangeSetRef::new(other) else {
        return Ok(false);
    };
    let mut flat = flat_set(alloc, (600, false))?;
    let mut set = ChunkedRangeSet::from_view(alloc, flat.as_ref())?;
    make(&mut set, &mut flat, that, how)?;
    Ok(are_alike(&set, &flat))
}

#[test]
fn a_view_touches_a_part(rt: HostRuntime) -> Result<(), AllocError> {
    for other in OTHERS {
        for how in CHANGES {
            let alike = is_alike(rt.alloc(), other, how)?;
            assert!(rt; alike, "{other:?} {how:?}");
        }
    }
    Ok(())
}

// A set of a few ranges from a number on, one boundary in each 40. Now and then the last range has no
// end.
fn few(alloc: Global, generator: &mut Generator) -> Result<RangeSet2<u64>, AllocError> {
    let mut set = RangeSet2::empty(alloc);
    let mut start = generator.below(60_000);
    for _ in 0..generator.below(40) {
        start = start.saturating_add(generator.below(40));
        let end = start.saturating_add(generator.below(40));
        set.insert(start..end)?;
        start = end;
    }
    if generator.below(200) == 0 {
        set.union_with(RangeSetRef::single(&start))?;
    }
    Ok(set)
}

// Whether both sets have the same ranges after each of 400 operations. An intersection is rare.
fn stay_alike(alloc: Global, generator: &mut Generator) -> Result<bool, AllocError> {
    let mut flat = flat_set(alloc, (3_000, false))?;
    let mut set = ChunkedRangeSet::from_view(alloc, flat.as_ref())?;
    for step in 0..400u64 {
        let that = few(alloc, generator)?;
        let how = match generator.below(300) {
            0 => Change::Intersection,
            n if n % 5 == 0 => Change::Union,
            n if n % 5 == 1 => Change::Difference,
            n if n % 5 == 2 => Change::InsertAll,
            n if n % 5 == 3 => Change::RemoveAll,
            _ => Change::SymmetricDifference,
        };
        make(&mut set, &mut flat, that.as_ref(), how)?;
        if step % 50 == 0 && !are_alike(&set, &flat) {
            return Ok(false);
        }
    }
    Ok(are_alike(&set, &flat))
}

#[test]
fn many_operations_change_both_alike(rt: HostRuntime) -> Result<(), AllocError> {
    let mut generator = Generator::new();
    for sequence in 0..4u64 {
        let alike = stay_alike(rt.alloc(), &mut generator)?;
        assert!(rt; alike, "{sequence}");
    }
    Ok(())
}
