//! A slice that is read from its front.
ghost use Rattle.std.specs.Prelude.{◌≡◌, ◌-◌, ◌≤◌, List, length, take, drop, IfSome};
ghost use Rattle.range_merge.specs.ShortRuns.{odd_from};
ghost use Rattle.std.specs.Iterator.{YieldsFirstRef, item_count};

use std::marker::Model;

/// The items of a slice that are still unread. As an iterator it gives references to them, in
/// order.
#[derive(Drop)]
pub struct SliceIterator<'a, K> {
    all: &'a [K],
    unread: &'a [K],
}

impl<'a, K> Model for SliceIterator<'a, K> {
    ghost use Rattle.std.specs.Prelude.{◌≡◌, ◌-◌, List, length, drop};

    ghost Value = { List K };

    ghost view = { λ s. s.unread.now };

    ghost invariant = { λ s. drop (length s.all.now - length s.unread.now) s.all.now ≡ s.unread.now };
}

impl<'a, K> SliceIterator<'a, K> {
    /// All items of the slice, unread.
    #[inline(always)]
    pub fn new(slice: &'a [K]) -> Self
        ensures { result ≡ slice.now }
    {
        SliceIterator {
            all: slice,
            unread: slice,
        }
    }

    /// The unread items. They live as long as the slice, and not only as long as the iterator.
    #[inline(always)]
    pub fn as_slice(&self) -> &'a [K]
        ensures { result.now ≡ self.now }
    {
        self.unread
    }

    /// The unread items, from the last even place of the slice on: where an odd number was read,
    /// the last one that was read comes first. `None` if none was, though `is_odd`.
    #[inline(always)]
    pub(crate) fn from_even(&self, is_odd: bool) -> Option<&'a [K]>
        ensures { IfSome result (λ items. drop (odd_from is_odd) items.now ≡ self.now) }
    {
        let all = self.all;
        let read = all.len() - self.unread.len();
        let before = is_odd as usize;
        if before <= read {
            Some(&all[read - before..])
        } else {
            None
        }
    }

    /// Drops the first `n` unread items.
    #[inline(always)]
    pub fn drop_front(&mut self, n: usize)
        requires { n ≤ length self.old }
        ensures { self.new ≡ drop n self.old }
    {
        self.unread = &self.unread[n..];
    }

    /// Removes the first `n` unread items, and returns them.
    #[inline(always)]
    pub fn take_front(&mut self, n: usize) -> &'a [K]
        requires { n ≤ length self.old }
        ensures front { result.now ≡ take n self.old }
        ensures rest { self.new ≡ drop n self.old }
    {
        let (front, rest) = self.unread.split_at(n);
        self.unread = rest;
        front
    }
}

impl<'a, K> Iterator for SliceIterator<'a, K> {
    type Item = &'a K;

    ghost next_gives = { YieldsFirstRef (λ s. s) };

    ghost remaining = { item_count (λ s. s) };

    fn next(&mut self) -> Option<&'a K> {
        let (first, rest) = self.unread.split_first()?;
        self.unread = rest;
        Some(first)
    }
}
