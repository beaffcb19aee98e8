//! Items of a list replaced, put behind the others, and removed.
ghost use Rattle.std.specs.Prelude.{◌≡◌, ◌≤◌, ◌<◌, ◌+◌, ◌-◌, ◌∷◌, ◌++◌, [], Some, map, length, take, drop, get_or, set, OnOk, OnErr, IfOk, IfErr, IsOk};
ghost use Rattle.std.specs.List.{swap};
ghost use Rattle.std.specs.Option.{option_to_list};
ghost use Rattle.range_collections.specs.Splicing.{spliced};
ghost use Rattle.range_list.specs.Lists.{joined, place_at, IsPlaceAt, HasPlacesOf};

use crate::appending::{push, replace_from, truncate};
use crate::inserting::fill;
use crate::key_of::{IntoKey, SetKey};
use crate::list::Chunks;
use crate::list::counting::option_len;
use crate::mark::Mark;
use crate::moving::join_up;
use crate::overwriting::{item_place, set_key};
use crate::place::Place;
use crate::replacing::{fill_from, replace_between};
use crate::splicing::splice;
use crate::splicing_last::splice_last;
use crate::swapping::swap_items;
use std::alloc::AllocError;

impl<T: Drop, M: Mark> Chunks<T, M> {
    /// Replaces the items between two places by at most two. It asks for memory only if the list grows,
    /// and before it changes anything. If that fails, what was to be put is handed back.
    pub fn splice(
        &mut self,
        from: Place,
        to: Place,
        start: Option<T>,
        end: Option<T>,
    ) -> Result<(), (Option<T>, Option<T>)>
        requires from { IsPlaceAt self.old from }
        requires to { IsPlaceAt self.old to }
        requires ordered { place_at self.old from ≤ place_at self.old to }
        requires alike { M.of (place_at self.old from + length (option_to_list start)
            + length (option_to_list end)) ≡ M.of (place_at self.old to) }
        requires alike_next { place_at self.old to ≡ place_at self.old from + 1 →
            length (option_to_list start) + length (option_to_list end) ≡ 2 →
            M.of (place_at self.old from) ≡ M.of (place_at self.old from + 1) }
        ensures items { OnOk result (joined self.new ≡
            spliced (joined self.old) (place_at self.old from) (place_at self.old to) start end) }
        ensures unchanged { OnErr result (joined self.new ≡ joined self.old) }
        ensures handed_back { IfErr result (λ back. (back.0 ≡ start) × (back.1 ≡ end)) }
        ensures succeeds { place_at self.old from + length (option_to_list start)
            + length (option_to_list end) ≤ place_at self.old to → IsOk result }
    {
        let put = option_len(&start) + option_len(&end);
        if self.chunks.is_empty() {
            fill(&mut self.chunks, start, end)?;
            self.len = put;
            return Ok(());
        }
        let Some(len) = self.len_without(from, to).checked_add(put) else {
            return Err((start, end));
        };
        splice(&mut self.chunks, from, to, start, end)?;
        self.len = len;
        Ok(())
    }

    /// Replaces the items between two places, of which there is one at least, by the start, if it is
    /// given, and by the last of them with another key. It asks for memory only if the list grows, and
    /// before it changes anything. If that fails, the start is handed back.
    pub fn splice_last<K: Drop, L: SetKey<T, K>>(
        &mut self,
        from: Place,
        to: Place,
        start: Option<T>,
        lens: &L,
        key: K,
    ) -> Result<(), Option<T>>
        requires from { IsPlaceAt self.old from }
        requires to { IsPlaceAt self.old to }
        requires some { place_at self.old from < place_at self.old to }
        requires alike { M.of (place_at self.old from + length (option_to_list start)) ≡ M.of (place_at self.old to - 1) }
        ensures items { (d : T) → OnOk result (joined self.new ≡
            spliced (joined self.old) (place_at self.old from) (place_at self.old to) start
            (Some (L.with_key (get_or (joined self.old) (place_at self.old to - 1) d) key))) }
        ensures unchanged { OnErr result (joined self.new ≡ joined self.old) }
        ensures handed_back { IfErr result (λ back. back ≡ start) }
        ensures succeeds { place_at self.old from + length (option_to_list start) + 1 ≤ place_at self.old to → IsOk result }
    {
        if self.chunks.is_empty() {
            return Ok(());
        }
        let put = option_len(&start) + 1;
        let Some(len) = self.len_without(from, to).checked_add(put) else {
            return Err(start);
        };
        splice_last(&mut self.chunks, from, to, start, lens, key)?;
        self.len = len;
        Ok(())
    }

    /// Replaces the items between two places by those of a list. It asks for all memory that it needs
    /// before it changes an item. If that fails, the list is dropped.
    pub fn replace_between(
        &mut self,
        from: Place,
        to: Place,
        list: Vec<T>,
    ) -> Result<(), AllocError>
        requires from { IsPlaceAt self.old from }
        requires to { IsPlaceAt self.old to }
        requires ordered { place_at self.old from ≤ place_at self.old to }
        requires alike { place_at self.old to < length (joined self.old) →
            M.of (place_at self.old from + length list.items) ≡ M.of (place_at self.old to) }
        ensures items { OnOk result (joined self.new ≡ take (place_at self.old from) (joined self.old)
            ++ (list.items ++ drop (place_at self.old to) (joined self.old))) }
        ensures unchanged { OnErr result (joined self.new ≡ joined self.old) }
    {
        let put = list.len();
        if self.chunks.is_empty() {
            fill_from(&mut self.chunks, list)?;
            self.len = put;
            return Ok(());
        }
        let len = self
            .len_without(from, to)
            .checked_add(put)
            .ok_or(AllocError)?;
        replace_between(&mut self.chunks, from, to, list)?;
        self.len = len;
        Ok(())
    }

    /// Replaces the items from a place on by one or by none. It asks for memory only if one is put and
    /// none gives way.
    pub fn replace_from(&mut self, at: Place, item: Option<T>) -> Result<(), AllocError>
        requires { IsPlaceAt self.old at }
        ensures items { OnOk result (joined self.new ≡
            take (place_at self.old at) (joined self.old) ++ option_to_list item) }
        ensures unchanged { OnErr result (joined self.new ≡ joined self.old) }
        ensures succeeds { place_at self.old at + length (option_to_list item) ≤
            length (joined self.old) → IsOk result }
    {
        if self.chunks.is_empty() {
            return match item {
                Some(item) => self.push(item),
                None => Ok(()),
            };
        }
        let put = option_len(&item);
        let len = self
            .len_without(at, self.end())
            .checked_add(put)
            .ok_or(AllocError)?;
        replace_from(&mut self.chunks, at, item)?;
        self.len = len;
        Ok(())
    }

    /// Removes the items from a place on.
    pub fn truncate(&mut self, at: Place)
        requires { IsPlaceAt self.old at }
        ensures { joined self.new ≡ take (place_at self.old at) (joined self.old) }
    {
        if !self.chunks.is_empty() {
            self.len = self.len_without(at, self.end());
            truncate(&mut self.chunks, at);
        }
    }

    /// Puts an item behind all others. A chunk begins only behind a full one.
    pub fn push(&mut self, item: T) -> Result<(), AllocError>
        ensures items { OnOk result (joined self.new ≡ joined self.old ++ item ∷ []) }
        ensures unchanged { OnErr result (joined self.new ≡ joined self.old) }
        ensures fills { 0 < length self.old → length self.old < length self.new →
            M.FULL ≤ length (get_or self.old (length self.old - 1) []) }
    {
        let len = self.len.checked_add(1).ok_or(AllocError)?;
        push(&mut self.chunks, item)?;
        self.len = len;
        Ok(())
    }

    /// Gives the item at a place another key.
    pub fn set_key<K: Drop, L: SetKey<T, K>>(&mut self, at: Place, lens: &L, key: K)
        requires place { IsPlaceAt self.old at }
        requires item { place_at self.old at < length (joined self.old) }
        ensures items { (d : T) → joined self.new ≡ set (joined self.old) (place_at self.old at)
            (L.with_key (get_or (joined self.old) (place_at self.old at) d) key) }
        ensures places { HasPlacesOf self.old self.new }
    {
        let at = item_place(&self.chunks, at);
        set_key(&mut self.chunks, at, lens, key);
    }

    /// Exchanges an item and the one at a later place, or at the same.
    pub fn swap(&mut self, a: Place, b: Place)
        requires a { IsPlaceAt self.old a }
        requires b { IsPlaceAt self.old b }
        requires ordered { place_at self.old a ≤ place_at self.old b }
        requires b_item { place_at self.old b < length (joined self.old) }
        ensures items { joined self.new ≡ swap (joined self.old) (place_at self.old a) (place_at self.old b) }
        ensures places { HasPlacesOf self.old self.new }
    {
        let a = item_place(&self.chunks, a);
        let b = item_place(&self.chunks, b);
        swap_items(&mut self.chunks, a, b);
    }

    /// Removes all items. It keeps the room for the list of chunks.
    pub fn clear(&mut self)
        ensures { self.new ≡ [] }
    {
        self.chunks.clear();
        self.len = 0;
    }

    /// The keys of the items, which are moved, or this list as it was if memory runs out. It asks once,
    /// for room for all of them.
    pub fn into_list<K: Drop, L: IntoKey<T, K>>(
        self,
        lens: &L,
    ) -> Result<Vec<K>, (AllocError, Self)>
        ensures keys { IfOk result (λ list. list.items ≡ map L.key_of (joined self)) }
        ensures handed_back { IfErr result (λ refused. refused.1 ≡ self) }
    {
        match Vec::with_capacity(self.chunks.allocator(), self.len) {
            Ok(room) => {
                let Chunks { chunks, len: _len } = self;
                Ok(join_up(chunks.into_inner(), room, lens))
            }
            Err(error) => Err((error, self)),
        }
    }
}
