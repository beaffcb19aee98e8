//! What lies between two places, replaced by at most two items: how a set puts in one range or
//! takes it out.
ghost use Rattle.std.specs.Prelude.{◌≡◌, ◌≤◌, ◌<◌, ◌+◌, ◌-◌, true, false, Option, None, Some, drop, length, OnOk, OnErr, IfErr, IsOk};
ghost use Rattle.std.specs.Option.{option_to_list};
ghost use Rattle.range_collections.specs.Splicing.{spliced};
ghost use Rattle.range_list.specs.Chunks.{flat};
ghost use Rattle.range_list.specs.Places.{place_in, IsPlace};

use crate::chunk_list::ChunkList;
use crate::inserting::insert_at;
use crate::joining::join_around;
use crate::mark::Mark;
use crate::overwriting::{behind_item, item_place, overwrite};
use crate::place::Place;
use crate::removing::remove_between;

/// Replaces the items between two places by at most two. It asks for memory only if the list grows, and
/// before it changes anything. If that fails, what was to be put is handed back.
pub fn splice<T: Drop, M: Mark>(
    chunks: &mut ChunkList<T, M>,
    from: Place,
    to: Place,
    start: Option<T>,
    end: Option<T>,
) -> Result<(), (Option<T>, Option<T>)>
    requires from { IsPlace chunks.old from }
    requires to { IsPlace chunks.old to }
    requires ordered { place_in chunks.old from ≤ place_in chunks.old to }
    requires alike { M.of (place_in chunks.old from + length (option_to_list start)
        + length (option_to_list end)) ≡ M.of (place_in chunks.old to) }
    requires alike_next { place_in chunks.old to ≡ place_in chunks.old from + 1 →
        length (option_to_list start) + length (option_to_list end) ≡ 2 →
        M.of (place_in chunks.old from) ≡ M.of (place_in chunks.old from + 1) }
    ensures items { OnOk result (flat chunks.new ≡ spliced (flat chunks.old)
        (place_in chunks.old from) (place_in chunks.old to) start end) }
    ensures unchanged { OnErr result (flat chunks.new ≡ flat chunks.old) }
    ensures handed_back { IfErr result (λ back. (back.0 ≡ start) × (back.1 ≡ end)) }
    ensures succeeds { place_in chunks.old from + length (option_to_list start)
        + length (option_to_list end) ≤ place_in chunks.old to → IsOk result }
{
    if !is_before(chunks, from, to) {
        return put_between(chunks, from, start, end);
    }
    match (start, end) {
        (Some(start), Some(end)) => put_both(chunks, from, to, start, end),
        (start, end) => {
            replace(chunks, from, to, start, end);
            Ok(())
        }
    }
}

// Replaces the items between two places, of which there is one at least, by two.
fn put_both<T: Drop, M: Mark>(
    chunks: &mut ChunkList<T, M>,
    from: Place,
    to: Place,
    start: T,
    end: T,
) -> Result<(), (Option<T>, Option<T>)>
    requires from { IsPlace chunks.old from }
    requires to { IsPlace chunks.old to }
    requires some { place_in chunks.old from < place_in chunks.old to }
    requires alike { M.of (place_in chunks.old from + 2) ≡ M.of (place_in chunks.old to) }
    requires alike_next { place_in chunks.old to ≡ place_in chunks.old from + 1 →
        M.of (place_in chunks.old from) ≡ M.of (place_in chunks.old from + 1) }
    ensures items { OnOk result (flat chunks.new ≡ spliced (flat chunks.old)
        (place_in chunks.old from) (place_in chunks.old to) (Some start) (Some end)) }
    ensures unchanged { OnErr result (flat chunks.new ≡ flat chunks.old) }
    ensures handed_back { IfErr result (λ back. (back.0 ≡ Some start) × (back.1 ≡ Some end)) }
    ensures succeeds { place_in chunks.old from + 2 ≤ place_in chunks.old to → IsOk result }
{
    if is_before(chunks, place_after(chunks, from), to) {
        replace(chunks, from, to, Some(start), Some(end));
        return Ok(());
    }
    match insert_at(chunks, from, start, None) {
        Ok(at) => {
            let after = place_after(chunks, at);
            let _replaced = overwrite(chunks, after, Some(end));
            Ok(())
        }
        Err((start, _)) => Err((Some(start), Some(end))),
    }
}

/// The place after the item at a place.
pub fn place_after<T, M: Mark>(chunks: &ChunkList<T, M>, at: Place) -> Place
    requires place { IsPlace chunks.now at }
    requires item { place_in chunks.now at < length (flat chunks.now) }
    ensures place { IsPlace chunks.now result }
    ensures after { place_in chunks.now result ≡ place_in chunks.now at + 1 }
{
    behind_item(chunks, item_place(chunks, at))
}

// Puts what is given at a place.
fn put_between<T: Drop, M: Mark>(
    chunks: &mut ChunkList<T, M>,
    at: Place,
    start: Option<T>,
    end: Option<T>,
) -> Result<(), (Option<T>, Option<T>)>
    requires place { IsPlace chunks.old at }
    requires alike { M.of (place_in chunks.old at + length (option_to_list start)
        + length (option_to_list end)) ≡ M.of (place_in chunks.old at) }
    ensures items { OnOk result (flat chunks.new ≡ spliced (flat chunks.old)
        (place_in chunks.old at) (place_in chunks.old at) start end) }
    ensures unchanged { OnErr result (flat chunks.new ≡ flat chunks.old) }
    ensures handed_back { IfErr result (λ back. (back.0 ≡ start) × (back.1 ≡ end)) }
    ensures nothing { start ≡ None → end ≡ None → IsOk result }
{
    match (start, end) {
        (Some(start), end) => match insert_at(chunks, at, start, end) {
            Ok(_) => Ok(()),
            Err((start, end)) => Err((Some(start), end)),
        },
        (None, Some(end)) => match insert_at(chunks, at, end, None) {
            Ok(_) => Ok(()),
            Err((end, _)) => Err((None, Some(end))),
        },
        (None, None) => Ok(()),
    }
}

// Replaces the items between two places by at most as many, and joins small chunks.
pub fn replace<T: Drop, M: Mark>(
    chunks: &mut ChunkList<T, M>,
    from: Place,
    to: Place,
    start: Option<T>,
    end: Option<T>,
)
    requires from { IsPlace chunks.old from }
    requires to { IsPlace chunks.old to }
    requires room { place_in chunks.old from + length (option_to_list start)
        + length (option_to_list end) ≤ place_in chunks.old to }
    requires alike { M.of (place_in chunks.old from + length (option_to_list start)
        + length (option_to_list end)) ≡ M.of (place_in chunks.old to) }
    ensures { flat chunks.new ≡ spliced (flat chunks.old)
        (place_in chunks.old from) (place_in chunks.old to) start end }
{
    replace_between(chunks, from, to, start, end);
    join_around(chunks, from.chunk);
}

// Replaces the items between two places by at most as many. In Rust a drop may panic, so those
// replaced by the start and the end are dropped once the list is whole.
fn replace_between<T: Drop, M: Mark>(
    chunks: &mut ChunkList<T, M>,
    from: Place,
    to: Place,
    start: Option<T>,
    end: Option<T>,
)
    requires from { IsPlace chunks.old from }
    requires to { IsPlace chunks.old to }
    requires room { place_in chunks.old from + length (option_to_list start)
        + length (option_to_list end) ≤ place_in chunks.old to }
    requires alike { M.of (place_in chunks.old from + length (option_to_list start)
        + length (option_to_list end)) ≡ M.of (place_in chunks.old to) }
    ensures { flat chunks.new ≡ spliced (flat chunks.old)
        (place_in chunks.old from) (place_in chunks.old to) start end }
{
    let (mid, _first) = overwrite(chunks, from, start);
    let (after, _second) = overwrite(chunks, mid, end);
    remove_between(chunks, after, to);
}

/// Whether there are items between two places.
pub fn is_before<T, M: Mark>(chunks: &ChunkList<T, M>, from: Place, to: Place) -> bool
    requires from { IsPlace chunks.now from }
    requires to { IsPlace chunks.now to }
    requires ordered { place_in chunks.now from ≤ place_in chunks.now to }
    ensures some { result ≡ true → place_in chunks.now from < place_in chunks.now to }
    ensures none { result ≡ false → place_in chunks.now from ≡ place_in chunks.now to }
{
    if from.chunk == to.chunk {
        return from.index < to.index;
    }
    if from.chunk > to.chunk {
        return false;
    }
    if from.index < chunks.list[from.chunk].len() {
        return true;
    }
    to.index > 0 || to.chunk - from.chunk > 1
}
