//! The boundaries of a set in a list in chunks: the mark of a position says whether its index is
//! odd.
ghost use Rattle.std.specs.Prelude.{◌≡◌, ◌+◌, ◌≤◌, ◌⊎◌, length, OnOk, OnErr, IsOk};
ghost use Rattle.std.specs.Option.{option_to_list};
ghost use Rattle.range_merge.specs.Boundaries.{is_odd as odd};
ghost use Rattle.range_merge.specs.Runs.{digits};
ghost use Rattle.range_collections.specs.Splicing.{spliced};
ghost use Rattle.range_list.specs.Lists.{joined, place_at, IsPlaceAt};

use crate::items::Items;
use crate::itself::Itself;
use crate::list::Chunks;
use crate::place::{FRONT, Place};
use range_collections::changes::cut_around;
use range_collections::{Boundaries, Comparisons, Splice, Unread};
use std::alloc::AllocError;

impl<'a, T: Ord> Boundaries<'a, T> for &'a Chunks<T, bool> {
    type Position = Place;

    type Unread = Items<'a, T, bool>;

    ghost items = { λ list. joined list.now };

    ghost is_position = { λ list. IsPlaceAt list.now };

    ghost index = { λ list. place_at list.now };

    ghost cost = { λ list. digits (length (joined list.now)) + digits 512 };

    ghost sharp_cost = { λ list. digits (length list.now) + digits 512 };

    #[inline(always)]
    fn up_to(&self, value: &T, count: &mut Comparisons) -> Place {
        // `len` is called for its clause that it is a `usize`, which the proof cites.
        let _length = (*self).len();
        (*self).place_up_to(&Itself, value, count)
    }

    #[inline(always)]
    fn below(&self, value: &T, count: &mut Comparisons) -> Place {
        // `len` is called for its clause that it is a `usize`, which the proof cites.
        let _length = (*self).len();
        (*self).place_below(&Itself, value, count)
    }

    #[inline(always)]
    fn find(&self, value: &T, count: &mut Comparisons) -> Result<Place, Place> {
        // `len` is called for its clause that it is a `usize`, which the proof cites.
        let _length = (*self).len();
        (*self).find(&Itself, value, count)
    }

    #[inline(always)]
    fn find_from(&self, from: Place, value: &T, count: &mut Comparisons) -> Result<Place, Place> {
        (*self).find_from(from, &Itself, value, count)
    }

    #[inline(always)]
    fn front(&self) -> Place {
        FRONT
    }

    #[inline(always)]
    fn is_odd(&self, at: Place) -> bool {
        (*self).mark_at(at)
    }

    #[inline(always)]
    fn item_at(&self, at: Place) -> Option<&'a T> {
        (*self).item_at(at)
    }

    #[inline(always)]
    fn item_before(&self, at: Place) -> Option<&'a T> {
        (*self).item_before(at)
    }

    #[inline(always)]
    fn position_before(&self, at: Place) -> Place {
        (*self).place_before(at)
    }

    #[inline(always)]
    fn position_after(&self, at: Place) -> Place {
        (*self).place_after(at)
    }

    #[inline(always)]
    fn between(&self, from: Place, to: Place) -> Items<'a, T, bool> {
        (*self).between(from, to)
    }
}

impl<'a, T> Unread<'a, T> for Items<'a, T, bool> {
    ghost unread = { λ it. it };

    #[inline(always)]
    fn take_first(&mut self) -> Option<&'a T> {
        Items::take_first(self)
    }

    #[inline(always)]
    fn take_last(&mut self) -> Option<&'a T> {
        Items::take_last(self)
    }
}

impl<T: Ord + Drop> Splice<T> for Chunks<T, bool> {
    type Position = Place;

    ghost items = { joined };

    ghost is_position = { IsPlaceAt };

    ghost index = { place_at };

    ghost cost = { λ list. digits (length (joined list)) + digits 512 };

    ghost room = { 0 };

    #[inline(always)]
    fn cuts(
        &self,
        start: T,
        end: T,
        inside: bool,
        count: &mut Comparisons,
    ) -> ((Place, Option<T>), (Place, Option<T>)) {
        cut_around(self, start, end, inside, count)
    }

    #[inline(always)]
    fn splice(
        &mut self,
        from: Place,
        to: Place,
        start: Option<T>,
        end: Option<T>,
    ) -> Result<(), AllocError>
        requires from { IsPlaceAt self.old from }
        requires to { IsPlaceAt self.old to }
        requires ordered { place_at self.old from ≤ place_at self.old to }
        requires parity { odd (place_at self.old from + length (option_to_list start)) ≡
            odd (place_at self.old to + length (option_to_list end)) }
        ensures items { OnOk result (joined self.new ≡
            spliced (joined self.old) (place_at self.old from) (place_at self.old to) start end) }
        ensures unchanged { OnErr result (joined self.new ≡ joined self.old) }
        ensures succeeds { (length (spliced (joined self.old) (place_at self.old from)
            (place_at self.old to) start end) ≤ length (joined self.old))
            ⊎ (length (spliced (joined self.old) (place_at self.old from)
            (place_at self.old to) start end) ≤ 0) → IsOk result }
    {
        match Chunks::splice(self, from, to, start, end) {
            Ok(()) => Ok(()),
            Err(_) => Err(AllocError),
        }
    }

    #[inline(always)]
    fn is_endless(&self) -> bool {
        self.mark_at(self.end())
    }

    #[inline(always)]
    fn take_first_two(&mut self) -> Option<(T, Option<T>)> {
        self.pop_first_two()
    }

    #[inline(always)]
    fn take_last(&mut self) -> Option<T> {
        self.pop_last()
    }
}
