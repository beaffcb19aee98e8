//! Items counted between two places.
ghost use Rattle.std.specs.Prelude.{◌≡◌, ◌≤◌, ◌<◌, ◌-◌, ◌^◌, length};
ghost use Rattle.std.specs.Option.{option_to_list};
ghost use Rattle.range_list.specs.Lists.{joined, place_at, IsPlaceAt};

use crate::counting::len_between;
use crate::list::Chunks;
use crate::mark::Mark;
use crate::place::Place;

impl<T, M: Mark> Chunks<T, M> {
    /// How many items lie between two places. It adds up the chunks between them.
    pub fn len_between(&self, from: Place, to: Place) -> u128
        requires from { IsPlaceAt self.now from }
        requires to { IsPlaceAt self.now to }
        requires ordered { place_at self.now from ≤ place_at self.now to }
        ensures { result ≡ place_at self.now to - place_at self.now from }
    {
        if self.chunks.is_empty() {
            return 0;
        }
        len_between(&self.chunks, from, to)
    }

    // How many items there are without those between two places.
    pub(super) fn len_without(&self, from: Place, to: Place) -> usize
        requires from { IsPlaceAt self.now from }
        requires to { IsPlaceAt self.now to }
        requires ordered { place_at self.now from ≤ place_at self.now to }
        ensures len { result ≡ length (joined self.now) - (place_at self.now to - place_at self.now from) }
        ensures within { place_at self.now to ≤ length (joined self.now) }
        ensures few { length (joined self.now) < 2 ^ 64 }
    {
        let between = self.len_between(from, to);
        self.len() - between as usize
    }
}

// How many items an option has: one or none.
pub(super) fn option_len<T>(item: &Option<T>) -> usize
    ensures len { result ≡ length (option_to_list item.now) }
    ensures most { result ≤ 1 }
{
    match item {
        Some(_) => 1,
        None => 0,
    }
}
