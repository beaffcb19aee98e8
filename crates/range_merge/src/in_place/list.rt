//! A list that is changed in place, owned or borrowed: how its items move within it, and what
//! replaces them.
ghost use Rattle.std.specs.Prelude.{◌≡◌, ℕ, ◌+◌, ◌-◌, ◌≤◌, ◌<◌, true, List, ◌++◌, length, take, drop, slice_set};
ghost use Rattle.range_merge.specs.Changes.{Taken, taken_right};

use crate::fast::moves::{exchange, swap_down, swap_up};
use crate::in_place::right::Supply;
use crate::indexed::Indexed;
use smallvec::SmallVec;
use std::alloc::Global;
use std::default::MadeWith;

/// A list of items that can be moved within it, and that grows only by a hole, where there is room
/// for that.
pub trait GrowsByHole<K>: Indexed<K> + Drop {
    // How many items have room.
    ghost room: { Self → ℕ };

    /// Moves `n` items down from `from` to `to`. What they replace comes to lie after them.
    fn move_down(&mut self, to: usize, from: usize, n: usize)
        requires ordered { to ≤ from }
        requires within { from + n ≤ length (Self.items self.old) }
        ensures front { take (to + n) (Self.items self.new) ≡
            take to (Self.items self.old) ++ take n (drop from (Self.items self.old)) }
        ensures after { drop (from + n) (Self.items self.new) ≡ drop (from + n) (Self.items self.old) }
        ensures len { length (Self.items self.new) ≡ length (Self.items self.old) }
        ensures room { room self.new ≡ room self.old };

    /// Opens a hole of `n` places at `at`: the items from there on move up by `n`.
    fn open_hole(&mut self, at: usize, n: usize)
        requires within { at ≤ length (Self.items self.old) }
        requires some { 0 < n }
        requires enough { length (Self.items self.old) + n ≤ room self.old }
        ensures front { take at (Self.items self.new) ≡ take at (Self.items self.old) }
        ensures after { drop (at + n) (Self.items self.new) ≡ drop at (Self.items self.old) }
        ensures len { length (Self.items self.new) ≡ length (Self.items self.old) + n }
        ensures room { room self.new ≡ room self.old };

    /// Replaces the item at index `i`, and drops the old one.
    fn set(&mut self, i: usize, item: K)
        requires { i < length (Self.items self.old) }
        ensures items { Self.items self.new ≡ slice_set (Self.items self.old) i item }
        ensures room { room self.new ≡ room self.old };

    /// Replaces the `n` items at `at` by what the right side gives for its first `n` unread items.
    fn put_from<R: Supply<K>>(&mut self, at: usize, n: usize, right: &mut R)
        requires within { at + n ≤ length (Self.items self.old) }
        requires some { n ≤ length (R.items right.old) }
        ensures front { take at (Self.items self.new) ≡ take at (Self.items self.old) }
        ensures after { drop (at + n) (Self.items self.new) ≡ drop (at + n) (Self.items self.old) }
        ensures len { length (Self.items self.new) ≡ length (Self.items self.old) }
        ensures room { room self.new ≡ room self.old }
        ensures rest { R.items right.new ≡ drop n (R.items right.old) }
        ensures put { (ts : List (Taken K)) (kept : List K) → R.may_be ts kept →
            R.may_be (ts ++ taken_right true n (R.items right.old))
            (kept ++ take n (drop at (Self.items self.new))) };

    /// Keeps the first `n` items, and drops the others.
    fn truncate(&mut self, n: usize)
        ensures items { Self.items self.new ≡ take n (Self.items self.old) }
        ensures room { room self.new ≡ room self.old };
}

/// Items that are exchanged for others.
pub trait Exchanges<K>: Indexed<K> + Drop {
    /// Exchanges the items from `at` on with `others`, as many as there are.
    fn swap_with(&mut self, at: usize, others: &mut [K])
        requires { at + length others.old ≤ length (Self.items self.old) }
        ensures others { others.new ≡ take (length others.old) (drop at (Self.items self.old)) }
        ensures after { drop (at + length others.old) (Self.items self.new) ≡
            drop (at + length others.old) (Self.items self.old) }
        ensures len { length (Self.items self.new) ≡ length (Self.items self.old) };
}

impl<K: MadeWith<Global> + Drop, const N: usize> Indexed<K> for SmallVec<K, N> {
    ghost items = { λ list. list.items };

    #[inline(always)]
    fn len(&self) -> usize {
        SmallVec::len(self)
    }

    #[inline(always)]
    fn at(&self, i: usize) -> &K {
        &self.as_slice()[i]
    }
}

impl<K: MadeWith<Global> + Drop, const N: usize> GrowsByHole<K> for SmallVec<K, N> {
    ghost room = { λ list. list.capacity };

    #[inline(always)]
    fn move_down(&mut self, to: usize, from: usize, n: usize) {
        swap_down(self.as_mut_slice(), to, from, n);
    }

    #[inline(always)]
    fn open_hole(&mut self, at: usize, n: usize) {
        open_hole_in(self, at, n);
    }

    #[inline(always)]
    fn set(&mut self, i: usize, item: K) {
        replace_item(self.as_mut_slice(), i, item);
    }

    #[inline(always)]
    fn put_from<R: Supply<K>>(&mut self, at: usize, n: usize, right: &mut R) {
        put_between(self.as_mut_slice(), at, n, right);
    }

    #[inline(always)]
    fn truncate(&mut self, n: usize) {
        SmallVec::truncate(self, n);
    }
}

impl<K: MadeWith<Global> + Drop, const N: usize> Exchanges<K> for SmallVec<K, N> {
    #[inline(always)]
    fn swap_with(&mut self, at: usize, others: &mut [K]) {
        exchange(self.as_mut_slice(), at, others);
    }
}

impl<K, L: Indexed<K>> Indexed<K> for &mut L {
    ghost items = { λ list. L.items list.now };

    #[inline(always)]
    fn len(&self) -> usize {
        (**self).len()
    }

    #[inline(always)]
    fn at(&self, i: usize) -> &K {
        (**self).at(i)
    }
}

impl<K, L: GrowsByHole<K>> GrowsByHole<K> for &mut L {
    ghost room = { λ list. L.room list.now };

    #[inline(always)]
    fn move_down(&mut self, to: usize, from: usize, n: usize) {
        (**self).move_down(to, from, n);
    }

    #[inline(always)]
    fn open_hole(&mut self, at: usize, n: usize) {
        (**self).open_hole(at, n);
    }

    #[inline(always)]
    fn set(&mut self, i: usize, item: K) {
        (**self).set(i, item);
    }

    #[inline(always)]
    fn put_from<R: Supply<K>>(&mut self, at: usize, n: usize, right: &mut R) {
        (**self).put_from(at, n, right);
    }

    #[inline(always)]
    fn truncate(&mut self, n: usize) {
        (**self).truncate(n);
    }
}

/// A borrowed slice whose items are exchanged for others.
#[derive(Drop)]
pub struct Slots<'b, K> {
    pub(crate) items: &'b mut [K],
}

impl<'b, K> Indexed<K> for Slots<'b, K> {
    ghost items = { λ slots. slots.items.now };

    #[inline(always)]
    fn len(&self) -> usize {
        self.items.len()
    }

    #[inline(always)]
    fn at(&self, i: usize) -> &K {
        let items = &*self.items;
        &items[i]
    }
}

impl<'b, K> Exchanges<K> for Slots<'b, K> {
    #[inline(always)]
    fn swap_with(&mut self, at: usize, others: &mut [K]) {
        exchange(self.items, at, others);
    }
}

// Replaces the `n` items at `at` by what the right side gives for its first `n` unread items.
#[inline(always)]
fn put_between<K, R: Supply<K>>(items: &mut [K], at: usize, n: usize, right: &mut R)
    requires within { at + n ≤ length items.old }
    requires some { n ≤ length (R.items right.old) }
    ensures front { take at items.new ≡ take at items.old }
    ensures after { drop (at + n) items.new ≡ drop (at + n) items.old }
    ensures len { length items.new ≡ length items.old }
    ensures rest { R.items right.new ≡ drop n (R.items right.old) }
    ensures put { (ts : List (Taken K)) (kept : List K) → R.may_be ts kept →
        R.may_be (ts ++ taken_right true n (R.items right.old))
        (kept ++ take n (drop at items.new)) }
{
    right.put_front(&mut items[at..at + n]);
}

#[inline(always)]
fn replace_item<K: Drop>(items: &mut [K], i: usize, item: K)
    requires { i < length items.old }
    ensures { items.new ≡ slice_set items.old i item }
{
    items[i] = item;
}

// Appends `n` blank items where there is room.
fn push_blanks<K: MadeWith<Global> + Drop, const N: usize>(list: &mut SmallVec<K, N>, n: usize)
    requires { length list.old.items + n ≤ list.old.capacity }
    ensures front { take (length list.old.items) list.new.items ≡ list.old.items }
    ensures len { length list.new.items ≡ length list.old.items + n }
    ensures room { list.new.capacity ≡ list.old.capacity }
{
    let alloc = *list.allocator();
    for _i in 0..n {
        list.push_reserved(K::made_with(alloc));
    }
}

// Opens a hole of `n` blank items at `at`. It stays out of line, since a merge comes here once at
// most.
#[inline(never)]
fn open_hole_in<K: MadeWith<Global> + Drop, const N: usize>(
    list: &mut SmallVec<K, N>,
    at: usize,
    n: usize,
)
    requires within { at ≤ length list.old.items }
    requires some { 0 < n }
    requires enough { length list.old.items + n ≤ list.old.capacity }
    ensures front { take at list.new.items ≡ take at list.old.items }
    ensures after { drop (at + n) list.new.items ≡ drop at list.old.items }
    ensures len { length list.new.items ≡ length list.old.items + n }
    ensures room { list.new.capacity ≡ list.old.capacity }
{
    push_blanks(list, n);
    swap_up(list.as_mut_slice(), at, n);
}
