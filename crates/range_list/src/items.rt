//! The items of a list in chunks by reference, from both ends.
ghost use Rattle.std.specs.Prelude.{◌≡◌, ◌≤◌, ◌-◌, ◌++◌, [], take, drop, option_copied, slice_get};
ghost use Rattle.std.specs.Iterator.{YieldsFirstBy, YieldsLastBy};
ghost use Rattle.range_list.specs.Chunks.{flat};
ghost use Rattle.range_list.specs.Places.{place_in, IsPlace};

use crate::chunk::Chunk;
use crate::mark::Mark;
use crate::place::Place;
use std::marker::Model;

/// Items by reference that follow one another: those of a slice, those of chunks, one if it is given,
/// and those of another slice. A clause reads it as the list of them.
#[derive(Drop)]
pub struct Items<'a, T, M> {
    front: &'a [T],
    chunks: &'a [Chunk<T, M>],
    first: Option<&'a T>,
    back: &'a [T],
}

impl<'a, T, M> Model for Items<'a, T, M> {
    ghost use Rattle.std.specs.Prelude.{List, ◌++◌, option_copied};
    ghost use Rattle.std.specs.Option.{option_to_list};
    ghost use Rattle.range_list.specs.Chunks.{flat};

    ghost Value = { List T };

    ghost view = { λ it. it.front.now ++ (flat it.chunks.now ++ (option_to_list (option_copied it.first) ++ it.back.now)) };
}

impl<'a, T, M: Mark> Items<'a, T, M> {
    /// No items.
    #[inline(always)]
    pub fn none() -> Self
        ensures { result ≡ [] }
    {
        Items {
            front: &[],
            chunks: &[],
            first: None,
            back: &[],
        }
    }

    // The items in these chunks.
    #[inline(always)]
    pub(crate) fn new(chunks: &'a [Chunk<T, M>]) -> Self
        ensures { result ≡ flat chunks.now }
    {
        Items {
            front: &[],
            chunks,
            first: None,
            back: &[],
        }
    }

    // The items between two places of these chunks.
    pub(crate) fn between(chunks: &'a [Chunk<T, M>], from: Place, to: Place) -> Self
        requires from { IsPlace chunks.now from }
        requires to { IsPlace chunks.now to }
        requires ordered { place_in chunks.now from ≤ place_in chunks.now to }
        ensures { result ≡ take (place_in chunks.now to - place_in chunks.now from)
            (drop (place_in chunks.now from) (flat chunks.now)) }
    {
        if from.chunk < to.chunk {
            let (front, chunks_between) = behind(&chunks[..to.chunk], from);
            let (first, back) = chunks[to.chunk].between(0, to.index);
            return Items {
                front,
                chunks: chunks_between,
                first,
                back,
            };
        }
        if from.chunk > to.chunk {
            return Items::none();
        }
        let (first, back) = chunks[to.chunk].between(from.index, to.index);
        Items {
            front: &[],
            chunks: &[],
            first,
            back,
        }
    }

    /// The first item.
    #[inline(always)]
    pub fn first(&self) -> Option<&'a T>
        ensures { option_copied result ≡ slice_get self.now 0 }
    {
        if let Some(first) = self.front.first() {
            return Some(first);
        }
        if let Some(chunk) = self.chunks.first() {
            return Some(&chunk.first);
        }
        match self.first {
            Some(first) => Some(first),
            None => self.back.first(),
        }
    }

    /// Takes the first item out.
    #[inline(always)]
    pub fn take_first(&mut self) -> Option<&'a T>
        ensures { YieldsFirstBy (λ x. x.now) (λ items. items) self.old result self.new }
    {
        if let Some((first, rest)) = self.front.split_first() {
            self.front = rest;
            return Some(first);
        }
        if let Some((chunk, chunks)) = self.chunks.split_first() {
            self.front = chunk.rest.as_slice();
            self.chunks = chunks;
            return Some(&chunk.first);
        }
        if let Some(first) = self.first.take() {
            return Some(first);
        }
        let (first, rest) = self.back.split_first()?;
        self.back = rest;
        Some(first)
    }

    /// Takes the last item out.
    #[inline(always)]
    pub fn take_last(&mut self) -> Option<&'a T>
        ensures { YieldsLastBy (λ x. x.now) (λ items. items) self.old result self.new }
    {
        if let Some((last, rest)) = self.back.split_last() {
            self.back = rest;
            return Some(last);
        }
        if let Some(first) = self.first.take() {
            return Some(first);
        }
        if let Some((chunk, chunks)) = self.chunks.split_last() {
            self.chunks = chunks;
            return match chunk.rest.as_slice().split_last() {
                Some((last, rest)) => {
                    self.first = Some(&chunk.first);
                    self.back = rest;
                    Some(last)
                }
                None => Some(&chunk.first),
            };
        }
        let (last, rest) = self.front.split_last()?;
        self.front = rest;
        Some(last)
    }
}

// The items from a place on: those of a slice, and those of chunks.
#[inline(always)]
fn behind<T, M: Mark>(chunks: &[Chunk<T, M>], at: Place) -> (&[T], &[Chunk<T, M>])
    requires { IsPlace chunks.now at }
    ensures { result.0.now ++ flat result.1.now ≡ drop (place_in chunks.now at) (flat chunks.now) }
{
    if at.index == 0 {
        return (&[], &chunks[at.chunk..]);
    }
    let rest = chunks[at.chunk].rest.as_slice();
    (&rest[at.index - 1..], &chunks[at.chunk + 1..])
}
