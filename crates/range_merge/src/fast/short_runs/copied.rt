//! Short runs of two slices, read item by item, without a branch on what is compared.
//!
//! Both slices begin at even places of the whole lists, and so does each window on them. So the place
//! of an item says how its side stands, and no truth is carried from step to step.
ghost use Rattle.std.specs.Prelude.{◌≡◌, ◌↔◌, IsTrue, ◌+◌, ◌-◌, ◌*◌, ◌^◌, ◌<◌, ◌≤◌, ◌%◌, Bool, true, false, [], ◌∷◌, length, take, drop, Some, slice_get, if◌then◌else◌};
ghost use Rattle.std.specs.Ordering.{is_le};
ghost use Rattle.range_merge.specs.Boundaries.{IsAscending, is_odd};
ghost use Rattle.range_merge.specs.Connective.{differ};
ghost use Rattle.range_merge.specs.Copies.{IsAppended, items_if};
ghost use Rattle.range_merge.specs.Runs.{weight};
ghost use Rattle.range_merge.specs.ShortRuns.{lefts_of, rights_of, place, IsLong, IsRead, AreFour, IsLooked, AreSixteen};
ghost use Rattle.range_merge.specs.OneRun.{FirstsStand, one_of_run, takes};

use crate::compare::{Compare, Copier};
use crate::fast::short_runs::ReadSoFar;
use crate::operations::MergeOperation;
use std::cmp::Ordering;
use std::hint::select_unpredictable;

/// How far some steps came, and whether a run is long there.
#[derive(Clone, Copy)]
pub(crate) struct Looked {
    pub(crate) at: ReadSoFar,
    pub(crate) is_long: bool,
}

/// Whether the result changes where the left side alone does. It is asked for both truths of the
/// right one, so that a loop asks only once.
#[inline(always)]
pub(crate) fn takes_left<O: MergeOperation>(op: &O, bc: bool) -> bool
    ensures { result ≡ differ (O.connective op.now false bc) (O.connective op.now true bc) }
{
    let off = op.takes_a(false);
    off != (bc & (off != op.takes_a(true)))
}

// Whether the result changes where the right side alone does, asked for in the same way.
#[inline(always)]
fn takes_right<O: MergeOperation>(op: &O, ac: bool) -> bool
    ensures { result ≡ differ (O.connective op.now ac false) (O.connective op.now ac true) }
{
    let off = op.takes_b(false);
    off != (ac & (off != op.takes_b(true)))
}

// Whether a step takes what it reads: an item of the left list, and then one of the right. So it
// takes it as the right side stands before the step, and as the left one does after it.
#[inline(always)]
fn is_taken<O: MergeOperation>(op: &O, next: Ordering, bc: bool, then_ac: bool) -> bool
    ensures { (ac : Bool) → then_ac ≡ differ ac (is_le next) →
        result ≡ takes (O.connective op.now) ac bc (one_of_run next) }
{
    (next.is_le() & takes_left(op, bc)) != (next.is_ge() & takes_right(op, then_ac))
}

// The next item of each list, beside the list, so that a step need not wait until it is read.
#[derive(Drop)]
struct Firsts<K> {
    left: K,
    right: K,
}

/// A copy of plain data.
#[inline(always)]
pub(crate) fn copied<K, P: Copier<K>>(item: &K, by: &P) -> K
    requires infallible { (x : K) → P.is_infallible x }
    requires plain { (x y : K) → P.alike x y → y ≡ x }
    ensures alike { P.alike item.now result }
    ensures same { result ≡ item.now }
{
    match by.copy(item) {
        Ok(copied) => copied,
        Err(_) => unreachable!(),
    }
}

// A copy of the one item or of the other, by no branch.
#[inline(always)]
fn one_of<K: Drop, P: Copier<K>>(first: bool, one: &K, other: &K, by: &P) -> K
    requires infallible { (x : K) → P.is_infallible x }
    requires plain { (x y : K) → P.alike x y → y ≡ x }
    ensures alike { P.alike result result }
    ensures picked { result ≡ (if first then one.now else other.now) }
{
    select_unpredictable(first, copied(one, by), copied(other, by))
}

// Writes an item behind the `k` that are put out, and returns how many then are. An item that isn't
// taken is written over by the next one that is. If it `keeps` what stands behind those, it reads
// what stands at the new end first and writes that back, so that it never chooses what to write.
#[inline(always)]
fn put<K: Drop, P: Copier<K>>(
    out: &mut [K],
    k: usize,
    takes: bool,
    item: &K,
    by: &P,
    keeps: bool,
) -> usize
    requires room { k + 1 < length out.old }
    requires infallible { (x : K) → P.is_infallible x }
    requires plain { (x y : K) → P.alike x y → y ≡ x }
    ensures put { IsAppended P.alike (items_if takes (item.now ∷ []))
        (take k out.old) (take result out.new) }
    ensures from { k ≤ result }
    ensures within { result ≤ k + 1 }
    ensures len { length out.new ≡ length out.old }
    ensures behind { IsTrue keeps → drop result out.new ≡ drop result out.old }
{
    let len = k + takes as usize;
    if !keeps {
        out[k] = copied(item, by);
        return len;
    }
    let behind = copied(&out[len], by);
    out[k] = copied(item, by);
    out[len] = behind;
    len
}

// Reads the first item, or one of each list where they are equal, and compares the next two.
#[inline(always)]
fn step<K: Drop, P: Copier<K>, O: MergeOperation, C: Compare<K>>(
    a: &[K],
    b: &[K],
    at: ReadSoFar,
    firsts: &mut Firsts<K>,
    op: &O,
    by: &P,
    cmp: &mut C,
    out: &mut [K],
    keeps: bool,
) -> ReadSoFar
    requires left_some { at.i + 1 < length a.now }
    requires right_some { at.j + 1 < length b.now }
    requires left_is { slice_get a.now at.i ≡ Some firsts.old.left }
    requires right_is { slice_get b.now at.j ≡ Some firsts.old.right }
    requires fits { length a.now + length b.now < 2 ^ 65 }
    requires room { at.k + 1 < length out.old }
    requires infallible { (x : K) → P.is_infallible x }
    requires plain { (x y : K) → P.alike x y → y ≡ x }
    requires made { C.count cmp.old < 2 ^ 128 - 1 }
    ensures lefts { result.i ≡ at.i + lefts_of at.next }
    ensures rights { result.j ≡ at.j + rights_of at.next }
    ensures left_is { slice_get a.now result.i ≡ Some firsts.new.left }
    ensures right_is { slice_get b.now result.j ≡ Some firsts.new.right }
    ensures put { IsAppended P.alike
        (items_if (takes (O.connective op.now) (is_odd at.i) (is_odd at.j) (one_of_run at.next))
        ((if is_le at.next then firsts.old.left else firsts.old.right) ∷ []))
        (take at.k out.old) (take result.k out.new) }
    ensures left_within { result.i ≤ at.i + 1 }
    ensures right_within { result.j ≤ at.j + 1 }
    ensures from { at.k ≤ result.k }
    ensures within { result.k ≤ at.k + 1 }
    ensures at_most { result.k + (at.i + at.j) ≤ at.k + (result.i + result.j) }
    ensures len { length out.new ≡ length out.old }
    ensures behind { IsTrue keeps → drop result.k out.new ≡ drop result.k out.old }
    ensures next { C.order firsts.new.left firsts.new.right ≡ result.next }
    ensures counted { C.count cmp.new ≡ C.count cmp.old + 1 }
{
    let first = one_of(at.next.is_le(), &firsts.left, &firsts.right, by);
    firsts.left = one_of(at.next.is_le(), &a[at.i + 1], &firsts.left, by);
    firsts.right = one_of(at.next.is_ge(), &b[at.j + 1], &firsts.right, by);
    let i = at.i + at.next.is_le() as usize;
    let j = at.j + at.next.is_ge() as usize;
    let takes = is_taken(op, at.next, at.j % 2 == 1, i % 2 == 1);
    let k = put(out, at.k, takes, &first, by, keeps);
    let next = cmp.compare(&firsts.left, &firsts.right);
    ReadSoFar { i, j, k, next }
}

// Four steps, as many as a read makes between two looks at the length of a run.
#[inline(always)]
fn four_steps<K: Drop, P: Copier<K>, O: MergeOperation, C: Compare<K>>(
    a: &[K],
    b: &[K],
    at: ReadSoFar,
    firsts: &mut Firsts<K>,
    op: &O,
    by: &P,
    cmp: &mut C,
    out: &mut [K],
    keeps: bool,
) -> ReadSoFar
    requires left_some { at.i + 4 < length a.now }
    requires right_some { at.j + 4 < length b.now }
    requires left_is { slice_get a.now at.i ≡ Some firsts.old.left }
    requires right_is { slice_get b.now at.j ≡ Some firsts.old.right }
    requires fits { length a.now + length b.now < 2 ^ 65 }
    requires room { at.k + 4 < length out.old }
    requires infallible { (x : K) → P.is_infallible x }
    requires plain { (x y : K) → P.alike x y → y ≡ x }
    requires made { C.count cmp.old + 4 < 2 ^ 128 }
    ensures steps { AreFour P.alike C.order (O.connective op.now) a.now b.now
        (place at.i at.j (take at.k out.old) at.next false (C.count cmp.old))
        (place result.i result.j (take result.k out.new) result.next false (C.count cmp.new)) }
    ensures left_is { slice_get a.now result.i ≡ Some firsts.new.left }
    ensures right_is { slice_get b.now result.j ≡ Some firsts.new.right }
    ensures left_within { result.i ≤ at.i + 4 }
    ensures right_within { result.j ≤ at.j + 4 }
    ensures from { at.k ≤ result.k }
    ensures within { result.k ≤ at.k + 4 }
    ensures at_most { result.k + (at.i + at.j) ≤ at.k + (result.i + result.j) }
    ensures len { length out.new ≡ length out.old }
    ensures behind { IsTrue keeps → drop result.k out.new ≡ drop result.k out.old }
    ensures counted { C.count cmp.new ≡ C.count cmp.old + 4 }
{
    let one = step(a, b, at, firsts, op, by, cmp, out, keeps);
    let two = step(a, b, one, firsts, op, by, cmp, out, keeps);
    let three = step(a, b, two, firsts, op, by, cmp, out, keeps);
    step(a, b, three, firsts, op, by, cmp, out, keeps)
}

/// Whether items of one side alone were read since `from`, and the next one is of that side.
#[inline(always)]
pub(crate) fn is_long(from: ReadSoFar, at: ReadSoFar) -> bool
    ensures { IsTrue result ↔ IsLong at.next from.i from.j at.i at.j }
{
    (at.j == from.j && at.next.is_lt()) || (at.i == from.i && at.next.is_gt())
}

// Four steps more and a look, unless a run was long at the last one.
#[inline(always)]
fn four_more<K: Drop, P: Copier<K>, O: MergeOperation, C: Compare<K>>(
    a: &[K],
    b: &[K],
    from: Looked,
    firsts: &mut Firsts<K>,
    op: &O,
    by: &P,
    cmp: &mut C,
    out: &mut [K],
    keeps: bool,
) -> Looked
    requires left_some { from.at.i + 4 < length a.now }
    requires right_some { from.at.j + 4 < length b.now }
    requires left_is { slice_get a.now from.at.i ≡ Some firsts.old.left }
    requires right_is { slice_get b.now from.at.j ≡ Some firsts.old.right }
    requires fits { length a.now + length b.now < 2 ^ 65 }
    requires room { from.at.k + 4 < length out.old }
    requires infallible { (x : K) → P.is_infallible x }
    requires plain { (x y : K) → P.alike x y → y ≡ x }
    requires made { C.count cmp.old + 4 < 2 ^ 128 }
    ensures looked { IsLooked P.alike C.order (O.connective op.now) a.now b.now
        (place from.at.i from.at.j (take from.at.k out.old) from.at.next from.is_long
        (C.count cmp.old))
        (place result.at.i result.at.j (take result.at.k out.new) result.at.next result.is_long
        (C.count cmp.new)) }
    ensures left_is { slice_get a.now result.at.i ≡ Some firsts.new.left }
    ensures right_is { slice_get b.now result.at.j ≡ Some firsts.new.right }
    ensures left_within { result.at.i ≤ from.at.i + 4 }
    ensures right_within { result.at.j ≤ from.at.j + 4 }
    ensures from { from.at.k ≤ result.at.k }
    ensures within { result.at.k ≤ from.at.k + 4 }
    ensures at_most { result.at.k + (from.at.i + from.at.j)
        ≤ from.at.k + (result.at.i + result.at.j) }
    ensures len { length out.new ≡ length out.old }
    ensures behind { IsTrue keeps → drop result.at.k out.new ≡ drop result.at.k out.old }
    ensures counted { C.count cmp.new ≤ C.count cmp.old + 4 }
{
    if from.is_long {
        return from;
    }
    let at = four_steps(a, b, from.at, firsts, op, by, cmp, out, keeps);
    // Two literals, so that no truth is kept where the read goes on.
    if is_long(from.at, at) {
        return Looked { at, is_long: true };
    }
    Looked { at, is_long: false }
}

// Up to sixteen steps from an even place of both slices, or the one after it, with a look after each
// four. A run that is long at a look ends them.
#[inline(always)]
fn sixteen_steps<K: Drop, P: Copier<K>, O: MergeOperation, C: Compare<K>>(
    a: &[K],
    b: &[K],
    at: ReadSoFar,
    firsts: &mut Firsts<K>,
    op: &O,
    by: &P,
    cmp: &mut C,
    out: &mut [K],
    keeps: bool,
) -> Looked
    requires left_some { 18 ≤ length a.now }
    requires right_some { 18 ≤ length b.now }
    requires left_few { at.i ≤ 1 }
    requires right_few { at.j ≤ 1 }
    requires left_is { slice_get a.now at.i ≡ Some firsts.old.left }
    requires right_is { slice_get b.now at.j ≡ Some firsts.old.right }
    requires room { at.k + 17 ≤ length out.old }
    requires infallible { (x : K) → P.is_infallible x }
    requires plain { (x y : K) → P.alike x y → y ≡ x }
    requires made { C.count cmp.old + 16 < 2 ^ 128 }
    ensures steps { AreSixteen P.alike C.order (O.connective op.now) a.now b.now
        (place at.i at.j (take at.k out.old) at.next false (C.count cmp.old))
        (place result.at.i result.at.j (take result.at.k out.new) result.at.next result.is_long
        (C.count cmp.new)) }
    ensures left_is { slice_get a.now result.at.i ≡ Some firsts.new.left }
    ensures right_is { slice_get b.now result.at.j ≡ Some firsts.new.right }
    ensures from { at.k ≤ result.at.k }
    ensures within { result.at.k ≤ length out.new }
    ensures at_most { result.at.k + (at.i + at.j) ≤ at.k + (result.at.i + result.at.j) }
    ensures len { length out.new ≡ length out.old }
    ensures behind { IsTrue keeps → drop result.at.k out.new ≡ drop result.at.k out.old }
{
    // The lengths of these are known, so each index is seen to be within them.
    let left = &a[..18];
    let right = &b[..18];
    let room = &mut out[at.k..at.k + 17];
    let from = Looked {
        at: ReadSoFar {
            i: at.i % 2,
            j: at.j % 2,
            k: 0,
            next: at.next,
        },
        is_long: false,
    };
    let four = four_more(left, right, from, firsts, op, by, cmp, room, keeps);
    let eight = four_more(left, right, four, firsts, op, by, cmp, room, keeps);
    let twelve = four_more(left, right, eight, firsts, op, by, cmp, room, keeps);
    let read = four_more(left, right, twelve, firsts, op, by, cmp, room, keeps);
    Looked {
        at: ReadSoFar {
            i: read.at.i,
            j: read.at.j,
            k: at.k + read.at.k,
            next: read.at.next,
        },
        is_long: read.is_long,
    }
}

// Whether there are unread items and room enough for sixteen steps from an even place on, or the one
// after it, of which each compares the next items, and may read what stands behind its own.
#[inline(always)]
fn has_sixteen(lefts: usize, rights: usize, room: usize) -> bool
    ensures lefts { IsTrue result → 18 ≤ lefts }
    ensures rights { IsTrue result → 18 ≤ rights }
    ensures room { IsTrue result → 17 ≤ room }
{
    lefts >= 18 && rights >= 18 && room >= 17
}

/// Reads items of both slices, one or both at a step, until a run is long, a slice is nearly used up
/// or `out` is. Both slices begin at even places, and the read at `from`. It writes what is taken to
/// `out`, and returns how far it came. If it `keeps` what stands behind that, `out` is as it was
/// there.
///
/// It looks at the length of a run after each four steps. So a run that is long has four to seven
/// items that were read; else the last run has at most three.
#[inline(always)]
pub(crate) fn copy_runs<K: Drop, P: Copier<K>, O: MergeOperation, C: Compare<K>>(
    a: &[K],
    b: &[K],
    from: ReadSoFar,
    op: &O,
    by: &P,
    cmp: &mut C,
    out: &mut [K],
    keeps: bool,
) -> ReadSoFar
    requires left_ascending { IsAscending C.order (drop from.i a.now) }
    requires right_ascending { IsAscending C.order (drop from.j b.now) }
    requires stands { FirstsStand C.order (drop from.i a.now) (drop from.j b.now)
        (Some from.next) }
    requires infallible { (x : K) → P.is_infallible x }
    requires plain { (x y : K) → P.alike x y → y ≡ x }
    requires fits { length (drop from.i a.now) + length (drop from.j b.now) < 2 ^ 65 }
    requires made { C.count cmp.old < 2 ^ 127 }
    ensures read { IsRead P.alike C.order (O.connective op.now) a.now b.now from.i from.j
        result.i result.j (take result.k out.new) result.next }

    // Six more than twice the weight of what was read, if that.
    ensures comparisons { C.count cmp.new
        + 2 * weight C.order (drop result.i a.now) (drop result.j b.now)
        ≤ C.count cmp.old + 2 * weight C.order (drop from.i a.now) (drop from.j b.now) + 6 }
    ensures made { C.count cmp.old ≤ C.count cmp.new }
    ensures within { result.k ≤ length out.new }
    ensures at_most { result.k + (from.i + from.j) ≤ result.i + result.j }
    ensures len { length out.new ≡ length out.old }
    ensures behind { IsTrue keeps → drop result.k out.new ≡ drop result.k out.old }
{
    let mut lefts = &a[from.i - from.i % 2..];
    let mut rights = &b[from.j - from.j % 2..];
    let mut at = from.from_even(0);
    let mut firsts = Firsts {
        left: copied(&lefts[at.i], by),
        right: copied(&rights[at.j], by),
    };
    while has_sixteen(lefts.len(), rights.len(), out.len() - at.k) {
        let read = sixteen_steps(lefts, rights, at, &mut firsts, op, by, cmp, out, keeps);
        if read.is_long {
            return read
                .at
                .behind(a.len() - lefts.len(), b.len() - rights.len());
        }
        lefts = &lefts[read.at.i - read.at.i % 2..];
        rights = &rights[read.at.j - read.at.j % 2..];
        at = read.at.from_even(read.at.k);
    }
    at.behind(a.len() - lefts.len(), b.len() - rights.len())
}
