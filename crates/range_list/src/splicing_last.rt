//! Items between two places replaced, of which the last one stays with another key.
ghost use Rattle.std.specs.Prelude.{◌≡◌, ◌≤◌, ◌<◌, ◌+◌, ◌-◌, Option, None, Some, length, get_or, OnOk, OnErr, IfErr, IsOk};
ghost use Rattle.std.specs.Option.{option_to_list};
ghost use Rattle.range_collections.specs.Splicing.{spliced};
ghost use Rattle.range_list.specs.Chunks.{flat};
ghost use Rattle.range_list.specs.Places.{place_in, IsPlace, IsItem};

use crate::chunk_list::ChunkList;
use crate::inserting::insert_at;
use crate::key_of::SetKey;
use crate::mark::Mark;
use crate::overwriting::{item_place, set_key};
use crate::place::Place;
use crate::reading::place_before;
use crate::splicing::{is_before, place_after, replace};

/// Replaces the items between two places, of which there is one at least, by the start, if it is given,
/// and by the last of them with another key. It asks for memory only if the list grows. If that fails,
/// the start is handed back.
pub fn splice_last<T: Drop, K: Drop, M: Mark, L: SetKey<T, K>>(
    chunks: &mut ChunkList<T, M>,
    from: Place,
    to: Place,
    start: Option<T>,
    lens: &L,
    key: K,
) -> Result<(), Option<T>>
    requires from { IsPlace chunks.old from }
    requires to { IsPlace chunks.old to }
    requires some { place_in chunks.old from < place_in chunks.old to }
    requires alike { M.of (place_in chunks.old from + length (option_to_list start)) ≡
        M.of (place_in chunks.old to - 1) }
    ensures items { (d : T) → OnOk result (flat chunks.new ≡ spliced (flat chunks.old)
        (place_in chunks.old from) (place_in chunks.old to) start
        (Some (L.with_key (get_or (flat chunks.old) (place_in chunks.old to - 1) d) key))) }
    ensures unchanged { OnErr result (flat chunks.new ≡ flat chunks.old) }
    ensures handed_back { IfErr result (λ back. back ≡ start) }
    ensures succeeds { place_in chunks.old from + length (option_to_list start) + 1 ≤
        place_in chunks.old to → IsOk result }
{
    let last = place_before(chunks, to);
    match start {
        None => {
            replace_and_key(chunks, from, last, None, lens, key);
            Ok(())
        }
        Some(start) => {
            if is_before(chunks, from, last) {
                replace_and_key(chunks, from, last, Some(start), lens, key);
                return Ok(());
            }
            match put_before(chunks, from, start, lens, key) {
                Ok(()) => Ok(()),
                Err(start) => Err(Some(start)),
            }
        }
    }
}

// Replaces the items between two places by the start, if it is given, and gives the next one another
// key.
fn replace_and_key<T: Drop, K: Drop, M: Mark, L: SetKey<T, K>>(
    chunks: &mut ChunkList<T, M>,
    from: Place,
    last: Place,
    start: Option<T>,
    lens: &L,
    key: K,
)
    requires from { IsPlace chunks.old from }
    requires last { IsPlace chunks.old last }
    requires item { IsItem chunks.old last }
    requires room { place_in chunks.old from + length (option_to_list start) ≤ place_in chunks.old last }
    requires alike { M.of (place_in chunks.old from + length (option_to_list start)) ≡
        M.of (place_in chunks.old last) }
    ensures { (d : T) → flat chunks.new ≡ spliced (flat chunks.old)
        (place_in chunks.old from) (place_in chunks.old last + 1) start
        (Some (L.with_key (get_or (flat chunks.old) (place_in chunks.old last) d) key)) }
{
    set_key(chunks, last, lens, key);
    replace(chunks, from, last, start, None);
}

// Puts the start before an item, and gives that another key.
fn put_before<T: Drop, K: Drop, M: Mark, L: SetKey<T, K>>(
    chunks: &mut ChunkList<T, M>,
    at: Place,
    start: T,
    lens: &L,
    key: K,
) -> Result<(), T>
    requires place { IsPlace chunks.old at }
    requires item { place_in chunks.old at < length (flat chunks.old) }
    requires alike { M.of (place_in chunks.old at + 1) ≡ M.of (place_in chunks.old at) }
    ensures items { (d : T) → OnOk result (flat chunks.new ≡ spliced (flat chunks.old)
        (place_in chunks.old at) (place_in chunks.old at + 1) (Some start)
        (Some (L.with_key (get_or (flat chunks.old) (place_in chunks.old at) d) key))) }
    ensures unchanged { OnErr result (flat chunks.new ≡ flat chunks.old) }
    ensures handed_back { IfErr result (λ back. back ≡ start) }
{
    match insert_at(chunks, at, start, None) {
        Ok(at) => {
            let next = item_place(chunks, place_after(chunks, at));
            set_key(chunks, next, lens, key);
            Ok(())
        }
        Err((start, _)) => Err(start),
    }
}
