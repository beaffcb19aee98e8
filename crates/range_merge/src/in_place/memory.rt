//! What a change in place asks for before it moves an item: room in the list, and copies.
ghost use Rattle.std.specs.Prelude.{◌≡◌, ◌+◌, ◌≤◌, length, All, IsOk, IfOk, OnOk};
ghost use Rattle.std.specs.List.{AllZip};
ghost use Rattle.smallvec.specs.SmallVec.{HasRoomFor};

use crate::compare::Copier;
use crate::merge_state::small_vec::append_copies;
use smallvec::SmallVec;
use std::alloc::{AllocError, Global};
use std::default::MadeWith;

// Asks for room for `extra` more items in the list.
pub(crate) fn prepared<K: MadeWith<Global> + Drop, const N: usize>(
    list: &mut SmallVec<K, N>,
    extra: usize,
) -> Result<(), AllocError>
    ensures items { list.new.items ≡ list.old.items }
    ensures room { OnOk result (HasRoomFor list.new extra) }
    ensures keeps_room { list.old.capacity ≤ list.new.capacity }
    ensures succeeds { length list.old.items + extra ≤ N → IsOk result }
{
    // `capacity` is called for its clause that it is at least N, which the proof cites.
    let _inline = list.capacity();
    list.reserve(extra)
}

// Asks for room in the list for as many items as there are in `items`, and for a copy of each of
// `items`.
pub(crate) fn prepared_copies<K: MadeWith<Global> + Drop, P: Copier<K>, const N: usize>(
    list: &mut SmallVec<K, N>,
    items: &[K],
    copier: &P,
) -> Result<SmallVec<K, N>, AllocError>
    ensures items { list.new.items ≡ list.old.items }
    ensures room { OnOk result (HasRoomFor list.new (length items.now)) }
    ensures keeps_room { list.old.capacity ≤ list.new.capacity }
    ensures copies { IfOk result (λ made. AllZip P.alike items.now made.items) }
    ensures succeeds { length list.old.items + length items.now ≤ N →
        All P.is_infallible items.now → IsOk result }
{
    prepared(list, items.len())?;
    copies(*list.allocator(), items, copier)
}

// A copy of each item. It asks for room once.
pub(crate) fn copies<K: MadeWith<Global> + Drop, P: Copier<K>, const N: usize>(
    alloc: Global,
    items: &[K],
    copier: &P,
) -> Result<SmallVec<K, N>, AllocError>
    ensures copies { IfOk result (λ made. AllZip P.alike items.now made.items) }
    ensures succeeds { length items.now ≤ N → All P.is_infallible items.now → IsOk result }
{
    if items.len() <= N {
        let mut list = SmallVec::new(alloc);
        append_copies(&mut list, items, true, copier)?;
        return Ok(list);
    }
    let mut list = Vec::with_capacity(alloc, items.len())?;
    copier.append(&mut list, items)?;
    Ok(SmallVec::from_vec(list))
}
