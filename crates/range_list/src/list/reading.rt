//! Items of a list read at their places.
ghost use Rattle.std.specs.Prelude.{◌≡◌, ◌≤◌, ◌<◌, ◌+◌, ◌-◌, ◌∷◌, None, Some, true, false, map, length, take, drop, get_or, slice_get, option_copied};
ghost use Rattle.range_list.specs.Lists.{joined, place_at, IsPlaceAt};

use crate::items::Items;
use crate::list::Chunks;
use crate::mark::Mark;
use crate::place::{FRONT, Place};
use crate::reading::{end, item_at, item_before, mark_at, place_before};
use crate::splicing::{is_before, place_after};

impl<T, M: Mark> Chunks<T, M> {
    /// The items, from the first on.
    #[inline(always)]
    pub fn items(&self) -> Items<'_, T, M>
        ensures { result ≡ joined self.now }
    {
        Items::new(self.chunks.as_slice())
    }

    /// The items between two places.
    pub fn between(&self, from: Place, to: Place) -> Items<'_, T, M>
        requires from { IsPlaceAt self.now from }
        requires to { IsPlaceAt self.now to }
        requires ordered { place_at self.now from ≤ place_at self.now to }
        ensures { result ≡ take (place_at self.now to - place_at self.now from)
            (drop (place_at self.now from) (joined self.now)) }
    {
        if self.chunks.is_empty() {
            return Items::none();
        }
        Items::between(self.chunks.as_slice(), from, to)
    }

    /// How many items there are.
    #[inline]
    pub fn len(&self) -> usize
        ensures { result ≡ length (joined self.now) }
    {
        self.len
    }

    /// How many chunks there are.
    #[inline]
    pub fn chunks_len(&self) -> usize
        ensures { result ≡ length self.now }
    {
        self.chunks.len()
    }

    /// The place after all items.
    #[inline]
    pub fn end(&self) -> Place
        ensures place { IsPlaceAt self.now result }
        ensures all { place_at self.now result ≡ length (joined self.now) }
    {
        if self.chunks.is_empty() {
            return FRONT;
        }
        end(&self.chunks)
    }

    /// The item at a place, or `None` at the end.
    #[inline]
    pub fn item_at(&self, at: Place) -> Option<&T>
        requires { IsPlaceAt self.now at }
        ensures { option_copied result ≡ slice_get (joined self.now) (place_at self.now at) }
    {
        if self.chunks.is_empty() {
            return None;
        }
        item_at(&self.chunks, at)
    }

    /// The mark of a place.
    #[inline]
    pub fn mark_at(&self, at: Place) -> M
        requires { IsPlaceAt self.now at }
        ensures { result ≡ M.of (place_at self.now at) }
    {
        if self.chunks.is_empty() {
            return M::front();
        }
        mark_at(&self.chunks, at)
    }

    /// The place of the item before a place, or the front.
    #[inline]
    pub fn place_before(&self, at: Place) -> Place
        requires { IsPlaceAt self.now at }
        ensures place { IsPlaceAt self.now result }
        ensures before { place_at self.now result ≡ place_at self.now at - 1 }
    {
        if at.chunk == 0 && at.index == 0 {
            return FRONT;
        }
        place_before(&self.chunks, at)
    }

    /// The place after the item at a place.
    #[inline]
    pub fn place_after(&self, at: Place) -> Place
        requires place { IsPlaceAt self.now at }
        requires item { place_at self.now at < length (joined self.now) }
        ensures place { IsPlaceAt self.now result }
        ensures after { place_at self.now result ≡ place_at self.now at + 1 }
    {
        place_after(&self.chunks, at)
    }

    /// Whether there are items between two places.
    #[inline]
    pub fn is_before(&self, from: Place, to: Place) -> bool
        requires from { IsPlaceAt self.now from }
        requires to { IsPlaceAt self.now to }
        requires ordered { place_at self.now from ≤ place_at self.now to }
        ensures some { result ≡ true → place_at self.now from < place_at self.now to }
        ensures none { result ≡ false → place_at self.now from ≡ place_at self.now to }
    {
        if self.chunks.is_empty() {
            return false;
        }
        is_before(&self.chunks, from, to)
    }

    /// The item before a place, or `None` at the front.
    pub fn item_before(&self, at: Place) -> Option<&T>
        requires { IsPlaceAt self.now at }
        ensures { option_copied result ≡ get_or (None ∷ map Some (joined self.now)) (place_at self.now at) None }
    {
        if self.chunks.is_empty() {
            return None;
        }
        item_before(&self.chunks, at)
    }

    /// The last item.
    pub fn last(&self) -> Option<&T>
        ensures { option_copied result ≡ get_or (None ∷ map Some (joined self.now)) (length (joined self.now)) None }
    {
        self.item_before(self.end())
    }
}
