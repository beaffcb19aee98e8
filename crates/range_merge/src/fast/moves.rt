//! Items that move or change places within a slice: one by one if they are few, else all at once.
ghost use Rattle.std.specs.Prelude.{◌≡◌, ◌+◌, ◌-◌, ◌≤◌, ◌<◌, ◌++◌, length, take, drop, ◌∷◌, [], List};

use std::mem;

/// Exchanges the items from `at` on with `others`, as many as there are.
#[inline(always)]
pub(crate) fn exchange<K>(items: &mut [K], at: usize, others: &mut [K])
    requires within { at + length others.old ≤ length items.old }
    ensures others { others.new ≡ take (length others.old) (drop at items.old) }
    ensures after { drop (at + length others.old) items.new ≡ drop (at + length others.old) items.old }
    ensures len { length items.new ≡ length items.old }
{
    if others.len() < MOVED_AT_ONCE {
        exchange_few(items, at, others);
    } else {
        exchange_many(items, at, others);
    }
}

// Exchanges items one by one.
#[inline(always)]
fn exchange_few<K>(items: &mut [K], at: usize, others: &mut [K])
    requires within { at + length others.old ≤ length items.old }
    ensures others { others.new ≡ take (length others.old) (drop at items.old) }
    ensures after { drop (at + length others.old) items.new ≡ drop (at + length others.old) items.old }
    ensures len { length items.new ≡ length items.old }
{
    // `len` is called for its clause that the length is within usize, which the proof cites.
    let _len = items.len();
    for i in 0..others.len() {
        mem::swap(&mut items[at + i], &mut others[i]);
    }
}

// Exchanges items all at once.
#[inline(always)]
fn exchange_many<K>(items: &mut [K], at: usize, others: &mut [K])
    requires within { at + length others.old ≤ length items.old }
    ensures others { others.new ≡ take (length others.old) (drop at items.old) }
    ensures after { drop (at + length others.old) items.new ≡ drop (at + length others.old) items.old }
    ensures len { length items.new ≡ length items.old }
{
    items[at..at + others.len()].swap_with_slice(others);
}

/// Moves `n` items down from `from` to `to`. What they replace comes to lie after them.
#[inline(always)]
pub(crate) fn swap_down<K>(items: &mut [K], to: usize, from: usize, n: usize)
    requires ordered { to ≤ from }
    requires within { from + n ≤ length items.old }
    ensures front { take (to + n) items.new ≡ take to items.old ++ take n (drop from items.old) }
    ensures after { drop (from + n) items.new ≡ drop (from + n) items.old }
    ensures len { length items.new ≡ length items.old }
{
    if to == from {
        return;
    }
    if n < MOVED_AT_ONCE {
        swap_few_down(items, to, from, n);
    } else {
        swap_many_down(items, to, from, n);
    }
}

// From this number of items on they are moved all at once, which costs more than it saves for a
// few.
const MOVED_AT_ONCE: usize = 8;

// From this number of items on they are rotated if their old places and the new ones overlap. A
// rotation clears a buffer of 4 KB first, so fewer are moved one by one.
const ROTATED: usize = 64;

// Fewer blocks than this, each as long as the hole, are moved up one after the other: that needs no
// buffer.
const BLOCKS: usize = 8;

// Moves items down one by one.
#[inline(always)]
fn swap_few_down<K>(items: &mut [K], to: usize, from: usize, n: usize)
    requires apart { to < from }
    requires within { from + n ≤ length items.old }
    ensures front { take (to + n) items.new ≡ take to items.old ++ take n (drop from items.old) }
    ensures after { drop (from + n) items.new ≡ drop (from + n) items.old }
    ensures len { length items.new ≡ length items.old }
{
    // `len` is called for its clause that the length is within usize, which the proof cites.
    let _len = items.len();
    for i in 0..n {
        items.swap(to + i, from + i);
    }
}

// Moves items down all at once.
#[inline(never)]
fn swap_many_down<K>(items: &mut [K], to: usize, from: usize, n: usize)
    requires apart { to < from }
    requires within { from + n ≤ length items.old }
    ensures front { take (to + n) items.new ≡ take to items.old ++ take n (drop from items.old) }
    ensures after { drop (from + n) items.new ≡ drop (from + n) items.old }
    ensures len { length items.new ≡ length items.old }
{
    // `len` is called for its clause that the length is within usize, which the proof cites.
    let _len = items.len();
    last_to_front(&mut items[to..from + n], n);
}

// Moves the last `n` items to the front: they change places with what stands there, one by one or
// all at once, or all are rotated if they are many and more than what stands before them.
fn last_to_front<K>(items: &mut [K], n: usize)
    requires { n < length items.old }
    ensures front { take n items.new ≡ drop (length items.old - n) items.old }
    ensures len { length items.new ≡ length items.old }
{
    let before = items.len() - n;
    if n <= before {
        exchange_ends(items, n);
    } else if n < ROTATED {
        swap_few_down(items, 0, before, n);
    } else {
        items.rotate_left(before);
    }
}

// Exchanges the first `n` items with the last `n`, all at once.
#[inline(always)]
fn exchange_ends<K>(items: &mut [K], n: usize)
    requires { n + n ≤ length items.old }
    ensures front { take n items.new ≡ drop (length items.old - n) items.old }
    ensures last { drop (length items.old - n) items.new ≡ take n items.old }
    ensures len { length items.new ≡ length items.old }
{
    let (front, last) = items.split_at_mut(items.len() - n);
    front[..n].swap_with_slice(last);
}

/// Moves the last items up, those from `at` on, by `by` places. What they replace comes to lie
/// before them.
pub(crate) fn swap_up<K>(items: &mut [K], at: usize, by: usize)
    requires some { 0 < by }
    requires within { at + by ≤ length items.old }
    ensures front { take at items.new ≡ take at items.old }
    ensures after { drop (at + by) items.new ≡ drop at (take (length items.old - by) items.old) }
    ensures len { length items.new ≡ length items.old }
{
    let after = items.len() - at;
    if after < ROTATED {
        swap_few_up(items, at, by);
    } else if after / by < BLOCKS {
        swap_blocks_up(items, at, by);
    } else {
        swap_many_up(items, at, by);
    }
}

// Moves items up one by one, from the last one on.
fn swap_few_up<K>(items: &mut [K], at: usize, by: usize)
    requires some { 0 < by }
    requires within { at + by ≤ length items.old }
    ensures front { take at items.new ≡ take at items.old }
    ensures after { drop (at + by) items.new ≡ drop at (take (length items.old - by) items.old) }
    ensures len { length items.new ≡ length items.old }
{
    let mut i = items.len() - by;
    while at < i {
        i -= 1;
        items.swap(i, i + by);
    }
}

// Moves items up by blocks of at most `by` items, from the last one on.
fn swap_blocks_up<K>(items: &mut [K], at: usize, by: usize)
    requires some { 0 < by }
    requires within { at + by ≤ length items.old }
    ensures front { take at items.new ≡ take at items.old }
    ensures after { drop (at + by) items.new ≡ drop at (take (length items.old - by) items.old) }
    ensures len { length items.new ≡ length items.old }
{
    let mut i = items.len() - by;
    while i > at {
        let n = by.min(i - at);
        i -= n;
        exchange_ends(&mut items[i..i + by + n], n);
    }
}

// Moves items up all at once.
fn swap_many_up<K>(items: &mut [K], at: usize, by: usize)
    requires within { at + by ≤ length items.old }
    ensures front { take at items.new ≡ take at items.old }
    ensures after { drop (at + by) items.new ≡ drop at (take (length items.old - by) items.old) }
    ensures len { length items.new ≡ length items.old }
{
    let (_front, after) = items.split_at_mut(at);
    after.rotate_right(by);
}

/// Moves the last two items before those from index `at` on.
#[inline(always)]
pub fn move_last_two<T>(items: &mut [T], at: usize)
    requires { at + 2 ≤ length items.old }
    ensures { (front : List T) (a b : T) →
        items.old ≡ front ++ a ∷ b ∷ [] → items.new ≡ take at front ++ (a ∷ b ∷ drop at front) }
{
    last_two_to_front(&mut items[at..]);
}

// From this number of items on they are rotated by two places at once, which first clears a buffer
// of 4 KB. Fewer are rotated twice by one place, which needs none.
const ROTATED_ONCE: usize = 512;

// Moves the last two items to the front.
fn last_two_to_front<T>(items: &mut [T])
    requires { 2 ≤ length items.old }
    ensures { (front : List T) (a b : T) →
        items.old ≡ front ++ a ∷ b ∷ [] → items.new ≡ a ∷ b ∷ front }
{
    if items.len() < ROTATED_ONCE {
        items.rotate_right(1);
        items.rotate_right(1);
    } else {
        items.rotate_right(2);
    }
}
