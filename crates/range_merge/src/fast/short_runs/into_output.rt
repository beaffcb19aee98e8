//! Short runs of two slices of plain data, read into the room of an output.
ghost use Rattle.std.specs.Prelude.{◌≡◌, ℕ, ◌+◌, ◌*◌, ◌^◌, ◌<◌, ◌≤◌, length, take, drop, Some, ⊤};
ghost use Rattle.range_merge.specs.Boundaries.{IsAscending};
ghost use Rattle.range_merge.specs.Runs.{weight};
ghost use Rattle.range_merge.specs.ShortRuns.{odd_from, IsRead};
ghost use Rattle.range_merge.specs.Reading.{CanRead, CostsAtMost, IsReadInto};
ghost use Rattle.std.specs.Vec.{vec_capacity};
ghost use Rattle.range_merge.specs.Stages.{Progress};
ghost use Rattle.range_merge.specs.OneRun.{FirstsStand};

use crate::compare::{Compare, Copier, Done, Work};
use crate::fast::rounds::{Rounds, are_few};
use crate::fast::short_runs::copied::{copied, copy_runs};
use crate::fast::short_runs::{ReadSoFar, ShortRuns};
use crate::merge_state::MergeState;
use crate::merge_state::buffer::{Buffer, ByCopy};
use crate::merge_state::over_slices::{Output, SliceMergeState};
use crate::merge_state::small_vec::Copying;
use crate::operations::MergeOperation;
use std::cmp::Ordering;
use std::marker::{Model, PhantomData};
use std::mem;

/// An output with room for plain data behind what it was given.
pub(crate) trait Room<K, By, P: Copier<K>, O: MergeOperation, C: Compare<K>>: Output<K, By> {
    /// Reads short runs of both slices, which begin at even places, from a place on, as far as there
    /// is room, and counts what is taken as given. It may make room for `n` items.
    fn read(
        &mut self,
        a: &[K],
        b: &[K],
        from: ReadSoFar,
        op: &O,
        copier: &P,
        cmp: C,
        n: usize,
    ) -> Done<C, ReadSoFar>
        requires can_read { CanRead C.order P.alike P.is_infallible (drop from.i a.now) (drop from.j b.now)
            from.next }
        requires fits { Self.fits self.old (length (drop from.i a.now) + length (drop from.j b.now)) }
        requires made { C.count cmp < 2 ^ 126 }
        ensures read { IsReadInto C.order a.now b.now from.i from.j result.answer.i result.answer.j
            (O.connective op.now) result.answer.next
            Self.can_stop Self.may_be Self.fixed Self.fits Self.has_room self.old self.new }

        // Six more than twice the weight of what was read, if that.
        ensures comparisons { C.count result.cmp
            + 2 * weight C.order (drop result.answer.i a.now) (drop result.answer.j b.now)
            ≤ C.count cmp + 2 * weight C.order (drop from.i a.now) (drop from.j b.now) + 6 }
        ensures made { C.count cmp ≤ C.count result.cmp };
}

// What an output is to read.
#[derive(Drop)]
struct Reading<'r, K, By, P: Copier<K>, O: MergeOperation, L> {
    output: &'r mut L,
    a: &'r [K],
    b: &'r [K],
    from: ReadSoFar,
    op: &'r O,
    copier: &'r P,
    n: usize,
    by: PhantomData<By>,
}

impl<'r, K, By, P: Copier<K>, O: MergeOperation, C: Compare<K>, L: Room<K, By, P, O, C>> Work<K, C>
    for Reading<'r, K, By, P, O, L> {
    type Answer = ReadSoFar;

    ghost is_ready = { λ it.
        CanRead C.order P.alike P.is_infallible (drop it.from.i it.a.now) (drop it.from.j it.b.now) it.from.next
        × L.fits it.output.now (length (drop it.from.i it.a.now) + length (drop it.from.j it.b.now)) };

    ghost is_done = { λ it done n at.
        (done.output.ghost_name ≡ it.output.ghost_name)
        × IsReadInto C.order it.a.now it.b.now it.from.i it.from.j at.i at.j
        (O.connective it.op.now) at.next
        L.can_stop L.may_be L.fixed L.fits L.has_room it.output.now done.output.now
        × CostsAtMost C.order it.a.now it.b.now it.from.i it.from.j at.i at.j n };

    #[inline(always)]
    fn run(&mut self, cmp: C) -> Done<C, ReadSoFar> {
        self.output.read(self.a, self.b, self.from, self.op, self.copier, cmp, self.n)
    }

    #[inline(always)]
    fn undone(&self) -> ReadSoFar {
        self.from
    }
}

/// Reads short runs of plain data, item by item.
#[derive(Drop)]
pub(crate) struct CopyingReader<'p, K, P: Copier<K>> {
    copier: &'p P,
    // For how many items room is made before a read.
    room: usize,
    rounds: Rounds,
    of: PhantomData<K>,
}

impl<'p, K, P: Copier<K>> Model for CopyingReader<'p, K, P> {
    ghost use Rattle.std.specs.Prelude.{◌≡◌, ⊤};

    ghost Value = { ⊤ };

    ghost view = { λ _. tt };

    ghost invariant = { λ _. ((x : K) → P.is_infallible x) × ((x y : K) → P.alike x y → y ≡ x) };
}

// How many items room is made for at first.
const ROOM: usize = 128;

impl<'p, K, P: Copier<K>> CopyingReader<'p, K, P> {
    /// A reader for items that are plain data.
    #[inline(always)]
    pub(crate) fn of(copier: &'p P) -> Option<Self> {
        if !copier.is_plain() {
            return None;
        }
        Some(CopyingReader {
            copier,
            room: ROOM,
            rounds: Rounds::new(),
            of: PhantomData,
        })
    }

    // Fits the rounds and the room to how far a read came.
    #[inline(always)]
    fn learn(&mut self, at: ReadSoFar) {
        self.rounds.learn(at);
        self.room = if self.room - at.k.min(self.room) < 17 {
            self.room.saturating_mul(2)
        } else {
            ROOM
        };
    }
}

impl<
    'a,
    'p,
    K: Drop,
    P: Copier<K>,
    By,
    L: Room<K, By, P, O, C>,
    O: MergeOperation,
    C: Compare<K>,
> ShortRuns<SliceMergeState<'a, K, L, By>, O, C> for CopyingReader<'p, K, P> {
    #[inline(always)]
    fn rounds(&self) -> Option<u32> {
        Some(self.rounds.count())
    }

    #[inline(always)]
    fn read(
        &mut self,
        state: &mut SliceMergeState<'a, K, L, By>,
        op: &O,
        next: Ordering,
        cmp: &mut C,
    ) -> Ordering {
        if are_few(state) {
            return next;
        }
        if self.rounds.were_long(state.a_len()) {
            return next;
        }
        // There is an item before the first unread one where an odd number was read.
        let Some(a) = state.a.from_even(state.ac) else {
            return next;
        };
        let Some(b) = state.b.from_even(state.bc) else {
            return next;
        };
        let read = read_short_runs(state, a, b, self.copier, self.room, op, next, cmp);
        self.learn(read);
        read.next
    }
}

// Reads short runs of a state, whose unread items are given from the last even places on, with room
// for `n` items, and returns how many items were read.
#[inline(always)]
fn read_short_runs<
    K: Drop,
    By,
    P: Copier<K>,
    L: Room<K, By, P, O, C>,
    O: MergeOperation,
    C: Compare<K>,
>(
    state: &mut SliceMergeState<'_, K, L, By>,
    a: &[K],
    b: &[K],
    copier: &P,
    n: usize,
    op: &O,
    next: Ordering,
    cmp: &mut C,
) -> ReadSoFar
    requires lefts { drop (odd_from state.old.left_on) a.now ≡ state.old.left }
    requires rights { drop (odd_from state.old.right_on) b.now ≡ state.old.right }
    requires stands { FirstsStand C.order state.old.left state.old.right (Some next) }
    requires left_ascending { IsAscending C.order state.old.left }
    requires right_ascending { IsAscending C.order state.old.right }
    requires infallible { (x : K) → P.is_infallible x }
    requires plain { (x y : K) → P.alike x y → y ≡ x }
    requires short { length state.old.left + length state.old.right < 2 ^ 65 }
    requires made { C.count cmp.old < 2 ^ 126 }
    ensures left { state.new.left ≡ drop result.i state.old.left }
    ensures right { state.new.right ≡ drop result.j state.old.right }
    ensures fixed { state.new.fixed ≡ state.old.fixed }
    ensures progress { (first : ℕ) → Progress C.order (O.connective op.now) L.can_stop
        state.old.left state.old.right state.old.left_on state.old.right_on
        (L.may_be state.old.taken first)
        state.new.left state.new.right state.new.left_on state.new.right_on
        (L.may_be state.new.taken first) }
    ensures stands { FirstsStand C.order state.new.left state.new.right (Some result.next) }
    ensures has_room { L.has_room state.old.taken (length state.old.left + length state.old.right) →
        L.has_room state.new.taken (length state.new.left + length state.new.right) }
    ensures comparisons { C.count cmp.new + 2 * weight C.order state.new.left state.new.right
        ≤ C.count cmp.old + 2 * weight C.order state.old.left state.old.right + 6 }
    ensures made { C.count cmp.old ≤ C.count cmp.new }
{
    let from = ReadSoFar::unread(state.ac, state.bc, next);
    // By value, so that the merge can keep its own counter in registers.
    let at = cmp.apart(&mut Reading {
        output: &mut state.output,
        a,
        b,
        from,
        op,
        copier,
        n,
        by: PhantomData,
    });
    let read = at.since(from);
    state.a.drop_front(read.i);
    state.b.drop_front(read.j);
    state.ac = at.i % 2 == 1;
    state.bc = at.j % 2 == 1;
    read
}

impl<'a, K: Drop, P: Copier<K>, O: MergeOperation, C: Compare<K>> Room<K, Copying<'a, P>, P, O, C>
    for Vec<K> {
    #[inline(always)]
    fn read(
        &mut self,
        a: &[K],
        b: &[K],
        from: ReadSoFar,
        op: &O,
        copier: &P,
        cmp: C,
        n: usize,
    ) -> Done<C, ReadSoFar> {
        let alloc = *self.allocator();
        // The list goes by value, so that the merge can keep its own in registers.
        let list = mem::replace(self, Vec::new(alloc));
        let read = read_into(list, cmp, a, b, from, op, copier, n);
        *self = read.list;
        Done {
            cmp: read.cmp,
            answer: read.at,
        }
    }
}

// How far a read came, with the list and what counted comparisons.
#[derive(Drop)]
struct ReadInto<K, C> {
    list: Vec<K>,
    cmp: C,
    at: ReadSoFar,
}

// Reads short runs into the list, as far as it has room and for `room` items at most.
#[inline(never)]
fn read_into<K: Drop, P: Copier<K>, O: MergeOperation, C: Compare<K>>(
    list: Vec<K>,
    cmp: C,
    a: &[K],
    b: &[K],
    from: ReadSoFar,
    op: &O,
    by: &P,
    room: usize,
) -> ReadInto<K, C>
    requires can_read { CanRead C.order P.alike P.is_infallible (drop from.i a.now) (drop from.j b.now)
        from.next }
    requires made { C.count cmp < 2 ^ 126 }
    ensures kept { take (length list.items) result.list.items ≡ list.items }
    ensures read { IsRead P.alike C.order (O.connective op.now) a.now b.now from.i from.j
        result.at.i result.at.j (drop (length list.items) result.list.items) result.at.next }
    ensures comparisons { C.count result.cmp
        + 2 * weight C.order (drop result.at.i a.now) (drop result.at.j b.now)
        ≤ C.count cmp + 2 * weight C.order (drop from.i a.now) (drop from.j b.now) + 6 }
    ensures made { C.count cmp ≤ C.count result.cmp }
{
    let mut list = list;
    let mut cmp = cmp;
    let kept = list.len();
    let filled = room.min(list.capacity() - kept);
    fill(&mut list, filled, &a[from.i], by);
    let at = copy_runs(
        a,
        b,
        from,
        op,
        by,
        &mut cmp,
        &mut list.as_mut_slice()[kept..],
        false,
    );
    list.truncate(kept + at.k);
    ReadInto { list, cmp, at }
}

// Appends `n` copies of an item, for which there is room.
#[inline(always)]
fn fill<K, P: Copier<K>>(list: &mut Vec<K>, n: usize, item: &K, by: &P)
    requires room { length list.old.items + n ≤ vec_capacity list.old }
    requires infallible { (x : K) → P.is_infallible x }
    requires plain { (x y : K) → P.alike x y → y ≡ x }
    ensures kept { take (length list.old.items) list.new.items ≡ list.old.items }
    ensures len { length list.new.items ≡ length list.old.items + n }
{
    for _ in 0..n {
        list.push_reserved(copied(item, by));
    }
}

impl<'o, K: Copy, O: MergeOperation, C: Compare<K>> Room<K, (), ByCopy, O, C> for Buffer<'o, K> {
    #[inline(always)]
    fn read(
        &mut self,
        a: &[K],
        b: &[K],
        from: ReadSoFar,
        op: &O,
        copier: &ByCopy,
        cmp: C,
        _n: usize,
    ) -> Done<C, ReadSoFar> {
        let at = self.given.min(self.items.len());
        let read = read_behind(a, b, from, op, copier, cmp, &mut self.items[at..]);
        self.given += read.answer.k;
        read
    }
}

// Reads short runs to the front of the slice, which stays as it was behind them.
#[inline(never)]
fn read_behind<K: Copy, O: MergeOperation, C: Compare<K>>(
    a: &[K],
    b: &[K],
    from: ReadSoFar,
    op: &O,
    copier: &ByCopy,
    cmp: C,
    out: &mut [K],
) -> Done<C, ReadSoFar>
    requires can_read { CanRead C.order (λ x y. y ≡ x) (λ _. ⊤) (drop from.i a.now) (drop from.j b.now)
        from.next }
    requires made { C.count cmp < 2 ^ 126 }
    ensures read { IsRead (λ x y. y ≡ x) C.order (O.connective op.now) a.now b.now from.i from.j
        result.answer.i result.answer.j (take result.answer.k out.new) result.answer.next }
    ensures behind { drop result.answer.k out.new ≡ drop result.answer.k out.old }
    ensures within { result.answer.k ≤ length out.new }
    ensures at_most { result.answer.k + (from.i + from.j) ≤ result.answer.i + result.answer.j }
    ensures len { length out.new ≡ length out.old }
    ensures comparisons { C.count result.cmp
        + 2 * weight C.order (drop result.answer.i a.now) (drop result.answer.j b.now)
        ≤ C.count cmp + 2 * weight C.order (drop from.i a.now) (drop from.j b.now) + 6 }
    ensures made { C.count cmp ≤ C.count result.cmp }
{
    let mut cmp = cmp;
    let answer = copy_runs(a, b, from, op, copier, &mut cmp, out, true);
    Done { cmp, answer }
}
