//! A list that is rebuilt in place: some of its items are kept, some are dropped, and new ones are
//! put between them.
//!
//! The kept items come first, then a hole, then the unread ones. The hole is what was dropped. Once a
//! put finds too little of that, it is room that was asked for, and the unread items move up, at
//! most once.
ghost use Rattle.std.specs.Prelude.{◌≡◌, ◌+◌, ◌-◌, ◌≤◌, ◌<◌, true, List, [], ◌++◌, ◌∷◌, length, take, drop, Some, slice_get, IsOk, IfOk, IfErr};
ghost use Rattle.range_merge.specs.Building.{IsSound};
ghost use Rattle.range_merge.specs.Changes.{Taken, taken_right};
ghost use Rattle.range_merge.specs.Copies.{items_if};

use crate::in_place::list::GrowsByHole;
use crate::in_place::memory::prepared;
use crate::in_place::right::Supply;
use smallvec::SmallVec;
use std::alloc::{AllocError, Global};
use std::default::MadeWith;
use std::marker::{Model, PhantomData};

/// A list with the kept items before those that are still unread. `L` is the list, by value where a
/// caller makes the builder.
#[derive(Drop)]
pub struct InPlaceBuilder<K, const N: usize, L: GrowsByHole<K> = SmallVec<K, N>> {
    list: L,
    kept: usize,
    start: usize,
    puts: usize,
    of: PhantomData<K>,
}

impl<K, const N: usize, L: GrowsByHole<K>> Model for InPlaceBuilder<K, N, L> {
    ghost use Rattle.std.specs.Prelude.{take, drop};
    ghost use Rattle.range_merge.specs.Building.{IsSound};
    ghost use Rattle.range_merge.specs.States.{Building};

    ghost Value = { Building K };

    ghost view = { λ s. record {
      kept = take s.kept (L.items s.list);
      unread = drop s.start (L.items s.list);
      puts_left = s.puts;
      room = L.room s.list;
    } };

    ghost invariant = { λ s. IsSound s.kept s.start s.puts (L.items s.list) (L.room s.list) };
}

impl<K: MadeWith<Global> + Drop, const N: usize> InPlaceBuilder<K, N> {
    /// A builder over the items of `list`, all of them unread, that can put `extra` more.
    ///
    /// It asks for room for those; nothing else that a builder does takes memory. If that fails,
    /// the list comes back.
    pub fn new(mut list: SmallVec<K, N>, extra: usize) -> Result<Self, (AllocError, SmallVec<K, N>)>
        ensures kept { IfOk result (λ builder. builder.kept ≡ []) }
        ensures unread { IfOk result (λ builder. builder.unread ≡ list.items) }
        ensures puts_left { IfOk result (λ builder. builder.puts_left ≡ extra) }
        ensures room { IfOk result (λ builder. list.capacity ≤ builder.room) }
        ensures handed_back { IfErr result (λ refused. refused.1.items ≡ list.items) }
        ensures succeeds { length list.items + extra ≤ N → IsOk result }
    {
        match prepared(&mut list, extra) {
            Ok(()) => Ok(Self::over(list, extra)),
            Err(error) => Err((error, list)),
        }
    }
}

impl<K, const N: usize, L: GrowsByHole<K>> InPlaceBuilder<K, N, L> {
    // A builder over a list that has room for `extra` more items.
    pub(crate) fn over(list: L, extra: usize) -> Self
        requires room { length (L.items list) + extra ≤ L.room list }
        ensures kept { result.kept ≡ [] }
        ensures unread { result.unread ≡ L.items list }
        ensures puts_left { result.puts_left ≡ extra }
        ensures room { result.room ≡ L.room list }
    {
        InPlaceBuilder {
            list,
            kept: 0,
            start: 0,
            puts: extra,
            of: PhantomData,
        }
    }

    /// How many items are unread.
    #[inline(always)]
    pub fn unread_len(&self) -> usize
        ensures { result ≡ length self.now.unread }
    {
        self.list.len() - self.start
    }

    /// The unread item at index `i`.
    #[inline(always)]
    pub fn unread_at(&self, i: usize) -> &K
        requires { i < length self.now.unread }
        ensures { slice_get self.now.unread i ≡ Some result.now }
    {
        // `len` is called for its clause that the length is within usize, which the proof cites.
        let _len = self.list.len();
        self.list.at(self.start + i)
    }

    /// How many items may still be put.
    #[inline(always)]
    pub fn puts_left(&self) -> usize
        ensures { result ≡ self.now.puts_left }
    {
        self.puts
    }

    /// Moves the first `n` unread items after the kept ones.
    #[inline(always)]
    pub fn keep(&mut self, n: usize)
        requires { n ≤ length self.old.unread }
        ensures kept { self.new.kept ≡ self.old.kept ++ take n self.old.unread }
        ensures unread { self.new.unread ≡ drop n self.old.unread }
        ensures puts_left { self.new.puts_left ≡ self.old.puts_left }
        ensures room { self.new.room ≡ self.old.room }
    {
        self.list.move_down(self.kept, self.start, n);
        // `len` is called for its clause that the length is within usize, which the proof cites.
        let _len = self.list.len();
        self.kept += n;
        self.start += n;
    }

    /// Drops the first `n` unread items.
    #[inline(always)]
    pub fn skip(&mut self, n: usize)
        requires { n ≤ length self.old.unread }
        ensures kept { self.new.kept ≡ self.old.kept }
        ensures unread { self.new.unread ≡ drop n self.old.unread }
        ensures puts_left { self.new.puts_left ≡ self.old.puts_left }
        ensures room { self.new.room ≡ self.old.room }
    {
        // `len` is called for its clause that the length is within usize, which the proof cites.
        let _len = self.list.len();
        self.start += n; // they are in the hole now
    }

    /// Keeps the first `n` unread items, if they are wanted, and else drops them.
    #[inline(always)]
    pub(crate) fn keep_if(&mut self, n: usize, wanted: bool)
        requires { n ≤ length self.old.unread }
        ensures kept { self.new.kept ≡ self.old.kept ++ items_if wanted (take n self.old.unread) }
        ensures unread { self.new.unread ≡ drop n self.old.unread }
        ensures puts_left { self.new.puts_left ≡ self.old.puts_left }
        ensures room { self.new.room ≡ self.old.room }
    {
        if wanted {
            self.keep(n);
            return;
        }
        self.skip(n);
    }

    /// Puts an item after the kept ones. If no dropped item gives way to it, all unread items move
    /// up first, at most once in the life of a builder.
    #[inline(always)]
    pub fn put(&mut self, value: K)
        requires { 0 < self.old.puts_left }
        ensures kept { self.new.kept ≡ self.old.kept ++ value ∷ [] }
        ensures unread { self.new.unread ≡ self.old.unread }
        ensures puts_left { self.new.puts_left + 1 ≡ self.old.puts_left }
        ensures room { self.new.room ≡ self.old.room }
    {
        self.start = put_item(&mut self.list, self.kept, self.start, self.puts, value);
        self.kept += 1;
        self.puts -= 1;
    }

    /// Puts what the right side gives for its first `n` unread items. Where too few dropped items
    /// give way to them, the unread items move up first, far enough for all that the right side
    /// has.
    #[inline(always)]
    pub(crate) fn put_from<R: Supply<K>>(&mut self, n: usize, right: &mut R)
        requires some { n ≤ length (R.items right.old) }
        requires puts { length (R.items right.old) ≤ self.old.puts_left }
        ensures kept { (ts : List (Taken K)) → R.may_be ts self.old.kept →
            R.may_be (ts ++ taken_right true n (R.items right.old)) self.new.kept }
        ensures unread { self.new.unread ≡ self.old.unread }
        ensures puts_left { self.new.puts_left + n ≡ self.old.puts_left }
        ensures room { self.new.room ≡ self.old.room }
        ensures rest { R.items right.new ≡ drop n (R.items right.old) }
    {
        self.start = put_items(&mut self.list, self.kept, self.start, self.puts, n, right);
        self.kept += n;
        self.puts -= n;
    }

    /// The list, with the kept items followed by those that are still unread.
    pub fn finish(mut self) -> L
        ensures items { L.items result ≡ self.kept ++ self.unread }
        ensures room { L.room result ≡ self.room }
    {
        let rest = self.unread_len();
        self.keep(rest);
        self.only_kept()
    }

    /// The list, with the kept items alone. What is still unread is dropped.
    pub(crate) fn only_kept(self) -> L
        ensures items { L.items result ≡ self.kept }
        ensures room { L.room result ≡ self.room }
    {
        let InPlaceBuilder {
            mut list,
            kept,
            start: _start,
            puts: _puts,
            of: _of,
        } = self;
        list.truncate(kept);
        list
    }
}

// Puts an item after the kept ones, into the hole. It returns where the unread items begin now.
#[inline(always)]
fn put_item<K, L: GrowsByHole<K>>(
    list: &mut L,
    kept: usize,
    start: usize,
    puts: usize,
    value: K,
) -> usize
    requires sound { IsSound kept start puts (L.items list.old) (L.room list.old) }
    requires some { 0 < puts }
    ensures sound { IsSound (kept + 1) result (puts - 1) (L.items list.new) (L.room list.new) }
    ensures kept { take (kept + 1) (L.items list.new) ≡ take kept (L.items list.old) ++ value ∷ [] }
    ensures unread { drop result (L.items list.new) ≡ drop start (L.items list.old) }
    ensures room { L.room list.new ≡ L.room list.old }

    // If there is no hole, it opens one for all that may still be put, so the unread items move up
    // once.
    ensures whole { start < kept + 1 → result ≡ kept + puts }
    ensures stays { kept + 1 ≤ start → result ≡ start }
{
    let first = with_hole(list, kept, start, puts, 1, puts);
    list.set(kept, value);
    first
}

// Puts what the right side gives for its first `n` unread items after the kept ones, into the hole.
// It returns where the unread items begin now.
#[inline(always)]
fn put_items<K, L: GrowsByHole<K>, R: Supply<K>>(
    list: &mut L,
    kept: usize,
    start: usize,
    puts: usize,
    n: usize,
    right: &mut R,
) -> usize
    requires sound { IsSound kept start puts (L.items list.old) (L.room list.old) }
    requires some { n ≤ length (R.items right.old) }
    requires puts { length (R.items right.old) ≤ puts }
    ensures sound { IsSound (kept + n) result (puts - n) (L.items list.new) (L.room list.new) }
    ensures kept { (ts : List (Taken K)) → R.may_be ts (take kept (L.items list.old)) →
        R.may_be (ts ++ taken_right true n (R.items right.old)) (take (kept + n) (L.items list.new)) }
    ensures unread { drop result (L.items list.new) ≡ drop start (L.items list.old) }
    ensures room { L.room list.new ≡ L.room list.old }
    ensures rest { R.items right.new ≡ drop n (R.items right.old) }

    // If the hole is too small, it opens one for all that the right side has, so the unread items
    // move up once.
    ensures whole { start < kept + n → result ≡ kept + length (R.items right.old) }
    ensures stays { kept + n ≤ start → result ≡ start }
{
    let first = with_hole(list, kept, start, puts, n, right.len());
    list.put_from(kept, n, right);
    first
}

// Sees that the hole has room for `n` items: if it hasn't, it opens one for `wanted`. It returns
// where the unread items begin now.
#[inline(always)]
fn with_hole<K, L: GrowsByHole<K>>(
    list: &mut L,
    kept: usize,
    start: usize,
    puts: usize,
    n: usize,
    wanted: usize,
) -> usize
    requires sound { IsSound kept start puts (L.items list.old) (L.room list.old) }
    requires some { n ≤ wanted }
    requires puts { wanted ≤ puts }
    ensures sound { IsSound kept result puts (L.items list.new) (L.room list.new) }
    ensures hole { kept + n ≤ result }
    ensures kept { take kept (L.items list.new) ≡ take kept (L.items list.old) }
    ensures unread { drop result (L.items list.new) ≡ drop start (L.items list.old) }
    ensures room { L.room list.new ≡ L.room list.old }

    // It opens as much as is wanted, and nothing where there is a hole.
    ensures whole { start < kept + n → result ≡ kept + wanted }
    ensures stays { kept + n ≤ start → result ≡ start }
{
    let hole = start - kept;
    if n <= hole {
        return start;
    }
    let more = wanted - hole;
    list.open_hole(start, more);
    // `len` is called for its clause that the length is within usize, which the proof cites.
    let _len = list.len();
    start + more
}
