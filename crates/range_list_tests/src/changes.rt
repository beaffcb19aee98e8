//! Lists that grow, are read and give way, of items with a mark and without one.
use range_list::{Chunks, FRONT, Itself, Mark};
use std::alloc::{AllocError, Global};

// The numbers below one, in order.
fn numbers<M: Mark>(alloc: Global, below: u64) -> Result<Chunks<u64, M>, AllocError> {
    let mut list = Chunks::new(alloc);
    for n in 0..below {
        list.push(n)?;
    }
    Ok(list)
}

// Whether these are the numbers below one, read from both ends at once.
fn are_numbers<M: Mark>(list: &Chunks<u64, M>, below: u64) -> bool {
    let mut items = list.items();
    for n in 0..below / 2 {
        let last = below.saturating_sub(n + 1);
        if items.take_first() != Some(&n) || items.take_last() != Some(&last) {
            return false;
        }
    }
    if below % 2 == 1 && items.take_last() != Some(&(below / 2)) {
        return false;
    }
    items.first().is_none() && list.len() as u128 == u128::from(below)
}

// How many numbers a list has at most, and how many chunks with them, if no mark is kept and if one
// is: 128 and 512 are in a full chunk.
const LENGTHS: [(u64, usize, usize); 7] = [
    (0, 0, 0),
    (1, 1, 1),
    (128, 1, 1),
    (129, 2, 1),
    (512, 4, 1),
    (513, 5, 2),
    (1_500, 12, 3),
];

#[test]
fn what_is_pushed_fills_each_chunk(rt: HostRuntime) -> Result<(), AllocError> {
    let alloc = rt.alloc();
    for (below, plain, marked) in LENGTHS {
        let list: Chunks<u64, ()> = numbers(alloc, below)?;
        assert!(rt;
            are_numbers(&list, below) && list.chunks_len() == plain,
            "{below} plain"
        );
        let list: Chunks<u64, bool> = numbers(alloc, below)?;
        assert!(rt;
            are_numbers(&list, below) && list.chunks_len() == marked,
            "{below} marked"
        );
    }
    Ok(())
}

#[test]
fn what_is_moved_in_or_cloned_fills_each_chunk(rt: HostRuntime) -> Result<(), AllocError> {
    let alloc = rt.alloc();
    for (below, _, chunks) in LENGTHS {
        let plain: Vec<u64> = (0..below).collect(alloc)?;
        let clones: Chunks<u64, bool> = Chunks::from_clones(alloc, plain.as_slice())?;
        let moved: Chunks<u64, bool> = Chunks::from_list(plain)?;
        let cloned = clones.cloned()?;
        for list in [&clones, &moved, &cloned] {
            assert!(rt;
                are_numbers(list, below)
                    && list.chunks_len() == chunks
                    && list.mark_at(list.end()) == (below % 2 == 1),
                "{below} numbers"
            );
        }
    }
    Ok(())
}

// Of 128 items that a chunk has at most it keeps 126 at least.
#[test]
fn what_is_put_behind_all_others_leaves_full_chunks(rt: HostRuntime) -> Result<(), AllocError> {
    let mut list: Chunks<u64, ()> = Chunks::new(rt.alloc());
    for n in 0..1_500u64 {
        let end = list.end();
        let put = list.splice(end, end, Some(n + n), Some(n + n + 1));
        assert!(rt; put.is_ok(), "{n}");
    }
    assert!(rt; are_numbers(&list, 3_000) && list.chunks_len() == 24);
    Ok(())
}

#[test]
fn items_are_taken_out_at_both_ends(rt: HostRuntime) -> Result<(), AllocError> {
    let mut list: Chunks<u64, bool> = numbers(rt.alloc(), 1_029)?;
    for n in 0..343u64 {
        let first = n + n;
        let last = 1_028 - n;
        assert!(rt;
            list.pop_first_two() == Some((first, Some(first + 1))),
            "{n}"
        );
        assert!(rt; list.pop_last() == Some(last), "{n}");
        let end = list.end();
        let left = list.len();
        assert!(rt;
            list.len_between(FRONT, end) == left as u128 && list.mark_at(end) == (left % 2 == 1),
            "{n}"
        );
    }
    assert!(rt; list.is_empty() && list.pop_first_two().is_none() && list.pop_last().is_none());
    Ok(())
}

#[test]
fn the_last_item_gives_way_to_two(rt: HostRuntime) -> Result<(), AllocError> {
    for (below, _, _) in LENGTHS {
        let mut list: Chunks<u64, ()> = numbers(rt.alloc(), below)?;
        if list.is_empty() {
            assert!(rt;
                list.splice(FRONT, FRONT, Some(0), Some(1)).is_ok() && are_numbers(&list, 2)
            );
        } else {
            let end = list.end();
            let last = list.place_before(end);
            let next = below.saturating_add(1);
            let put = list.splice(last, end, Some(below.saturating_sub(1)), Some(below));
            assert!(rt; put.is_ok() && are_numbers(&list, next), "{below} numbers");
        }
    }
    Ok(())
}

#[test]
fn the_last_item_has_another_key(rt: HostRuntime) -> Result<(), AllocError> {
    let mut list: Chunks<u64, ()> = numbers(rt.alloc(), 700)?;
    if !list.is_empty() {
        let last = list.place_before(list.end());
        list.set_key(last, &Itself, 1_000);
        assert!(rt; list.item_at(last) == Some(&1_000));
        list.set_key(last, &Itself, 699);
    }
    let keys = list.into_list(&Itself);
    assert!(rt; keys.is_ok_and(|keys| keys.iter().copied().eq(0..700)));
    Ok(())
}

// Exchanges the first item and the last one, if there are items.
fn swap_ends(list: &mut Chunks<u64, bool>) {
    let end = list.end();
    let last = list.place_before(end);
    if list.is_before(last, end) {
        list.swap(FRONT, last);
    }
}

#[test]
fn the_first_item_and_the_last_change_places(rt: HostRuntime) -> Result<(), AllocError> {
    for (below, _, _) in LENGTHS {
        let mut list: Chunks<u64, bool> = numbers(rt.alloc(), below)?;
        swap_ends(&mut list);
        let first = list.item_at(FRONT).copied();
        let last = list.last().copied();
        assert!(rt;
            first == below.checked_sub(1) && last == first.and(Some(0)),
            "{below} numbers"
        );
        swap_ends(&mut list);
        assert!(rt; are_numbers(&list, below), "{below} numbers");
    }
    Ok(())
}

#[test]
fn what_stands_behind_the_front_goes(rt: HostRuntime) -> Result<(), AllocError> {
    for (below, _, _) in LENGTHS {
        let mut list: Chunks<u64, bool> = numbers(rt.alloc(), below)?;
        assert!(rt; list.replace_from(FRONT, Some(0)).is_ok() && are_numbers(&list, 1));
        list.truncate(FRONT);
        assert!(rt;
            list.is_empty() && list.chunks_len() == 0,
            "{below} numbers"
        );
        let mut list: Chunks<u64, bool> = numbers(rt.alloc(), below)?;
        list.clear();
        assert!(rt; list.is_empty() && list.mark_at(FRONT) == false);
    }
    Ok(())
}

// Removes the first item.
fn pop_first(list: &mut Chunks<u64, ()>) {
    if !list.is_empty() {
        let next = list.place_after(FRONT);
        let _popped = list.splice(FRONT, next, None, None);
    }
}

// Removes the last item.
fn pop_last(list: &mut Chunks<u64, ()>) {
    if !list.is_empty() {
        let end = list.end();
        let last = list.place_before(end);
        let _popped = list.splice(last, end, None, None);
    }
}

// Of 300 numbers, in chunks of 128, 128 and 44: how many are removed in front, then how many behind,
// and how many chunks are left. One with fewer than 32 is joined with a neighbour, behind it or
// before it, as soon as both have no more than 128.
const REMOVED: [(u16, u16, usize); 6] = [
    (0, 0, 3),
    (128, 0, 2),
    (224, 0, 2),
    (225, 0, 1),
    (100, 71, 2),
    (100, 72, 1),
];

#[test]
fn a_small_chunk_is_joined_with_a_neighbour(rt: HostRuntime) -> Result<(), AllocError> {
    for (first, last, chunks) in REMOVED {
        let mut list: Chunks<u64, ()> = numbers(rt.alloc(), 300)?;
        for _ in 0..first {
            pop_first(&mut list);
        }
        for _ in 0..last {
            pop_last(&mut list);
        }
        let left = 300u16.saturating_sub(first).saturating_sub(last);
        assert!(rt;
            list.chunks_len() == chunks && list.len() == usize::from(left),
            "{first} and {last} of 300"
        );
    }
    Ok(())
}
