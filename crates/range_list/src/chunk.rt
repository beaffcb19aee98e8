//! One chunk of a list of items, and each way to change it.
//!
//! The first item lies in the chunk itself, so that a search among chunks reads no list.
ghost use Rattle.std.specs.Prelude.{◌≡◌, ◌≤◌, ◌<◌, ◌+◌, ◌-◌, ◌++◌, ◌∷◌, [], List, take, drop, length, get_or, slice_set, vec_len, vec_capacity, option_copied, HoldsAt, OnOk, OnErr, IfOk};
ghost use Rattle.std.specs.List.{remove_range, swap};
ghost use Rattle.std.specs.Option.{option_to_list};
ghost use Rattle.range_list.specs.Chunks.{items_of};

use crate::key_of::SetKey;
use crate::mark::Mark;
use range_merge::move_last_two;
use std::alloc::AllocError;
use std::mem;

/// Some items that follow one another, at least one and at most `FULL`.
#[derive(Drop)]
pub struct Chunk<T, M> {
    pub first: T,
    pub rest: Vec<T>,
    /// The mark of the number of items before the chunk.
    pub mark: M,
}

impl<T, M: Mark> Chunk<T, M> {
    /// How many items the chunk has.
    #[inline(always)]
    pub fn len(&self) -> usize
        requires { length self.now.rest.items < M.FULL }
        ensures { result ≡ length (items_of self.now) }
    {
        self.rest.len() + 1
    }

    /// The item at an index.
    #[inline(always)]
    pub fn at(&self, index: usize) -> &T
        requires { index < length (items_of self.now) }
        ensures { HoldsAt (λ y. result.now ≡ y) (items_of self.now) index }
    {
        if index == 0 {
            &self.first
        } else {
            &self.rest[index - 1]
        }
    }

    /// The items between two indices: the first of the chunk if it is one of them, and those of a
    /// slice.
    #[inline(always)]
    pub fn between(&self, from: usize, to: usize) -> (Option<&T>, &[T])
        requires ordered { from ≤ to }
        requires within { to ≤ length (items_of self.now) }
        ensures { option_to_list (option_copied result.0) ++ result.1.now ≡
            take (to - from) (drop from (items_of self.now)) }
    {
        let rest = self.rest.as_slice();
        if from > 0 {
            (None, &rest[from - 1..to - 1])
        } else if to > 0 {
            (Some(&self.first), &rest[..to - 1])
        } else {
            (None, &[])
        }
    }
}

impl<T: Drop, M: Mark> Chunk<T, M> {
    /// Replaces the item at an index. Returns the index after it, and the one replaced.
    #[inline(always)]
    pub fn put(&mut self, at: usize, item: T) -> (usize, T)
        requires short { length self.old.rest.items < M.FULL }
        requires within { at < length (items_of self.old) }
        ensures items { items_of self.new ≡ slice_set (items_of self.old) at item }
        ensures mark { self.new.mark ≡ self.old.mark }
        ensures after { result.0 ≡ at + 1 }
    {
        if at == 0 {
            (1, mem::replace(&mut self.first, item))
        } else {
            (at + 1, mem::replace(&mut self.rest[at - 1], item))
        }
    }

    /// Gives the item at an index another key. Returns the one that it had.
    pub fn set_key<K, L: SetKey<T, K>>(&mut self, at: usize, _lens: &L, key: K) -> K
        requires short { length self.old.rest.items < M.FULL }
        requires within { at < length (items_of self.old) }
        ensures items { (d : T) → items_of self.new ≡
            slice_set (items_of self.old) at (L.with_key (get_or (items_of self.old) at d) key) }
        ensures mark { self.new.mark ≡ self.old.mark }
    {
        if at == 0 {
            L::set_key(&mut self.first, key)
        } else {
            L::set_key(&mut self.rest[at - 1], key)
        }
    }

    /// Exchanges two items.
    pub fn swap(&mut self, a: usize, b: usize)
        requires ordered { a ≤ b }
        requires within { b < length (items_of self.old) }
        ensures items { (d : T) → items_of self.new ≡ slice_set (slice_set (items_of self.old) a
            (get_or (items_of self.old) b d)) b (get_or (items_of self.old) a d) }
        ensures mark { self.new.mark ≡ self.old.mark }
    {
        if a == b {
            return;
        }
        if a == 0 {
            mem::swap(&mut self.first, &mut self.rest[b - 1]);
        } else {
            swap_in_list(&mut self.rest, a - 1, b - 1);
        }
    }

    /// Exchanges an item with one of another chunk.
    pub fn exchange(&mut self, at: usize, other: &mut Chunk<T, M>, index: usize)
        requires within { at < length (items_of self.old) }
        requires other_within { index < length (items_of other.old) }
        ensures items { (d : T) → items_of self.new ≡
            slice_set (items_of self.old) at (get_or (items_of other.old) index d) }
        ensures other_items { (d : T) → items_of other.new ≡
            slice_set (items_of other.old) index (get_or (items_of self.old) at d) }
        ensures mark { self.new.mark ≡ self.old.mark }
        ensures other_mark { other.new.mark ≡ other.old.mark }
    {
        if at == 0 {
            other.swap_with(index, &mut self.first);
        } else {
            other.swap_with(index, &mut self.rest[at - 1]);
        }
    }

    // Exchanges an item with another one.
    #[inline(always)]
    fn swap_with(&mut self, at: usize, item: &mut T)
        requires { at < length (items_of self.old) }
        ensures items { items_of self.new ≡ slice_set (items_of self.old) at item.old }
        ensures item { HoldsAt (λ y. item.new ≡ y) (items_of self.old) at }
        ensures mark { self.new.mark ≡ self.old.mark }
    {
        if at == 0 {
            mem::swap(&mut self.first, item);
        } else {
            mem::swap(&mut self.rest[at - 1], item);
        }
    }

    /// Removes the items from an index on, which isn't the first one.
    pub fn keep_front(&mut self, len: usize)
        requires { 0 < len }
        ensures items { items_of self.new ≡ take len (items_of self.old) }
        ensures mark { self.new.mark ≡ self.old.mark }
    {
        self.rest.truncate(len - 1);
    }

    /// Removes `len` items at the front, but not all.
    pub fn remove_front(&mut self, len: usize)
        requires { len < length (items_of self.old) }
        ensures items { items_of self.new ≡ drop len (items_of self.old) }
        ensures mark { self.new.mark ≡ M.moved self.old.mark len }
    {
        self.mark = self.mark.behind(len);
        self.drain_front(len);
    }

    // Removes `len` items at the front, but not all, and keeps the mark. In Rust a drop may panic, so
    // the first one is dropped among the others, once the chunk is whole.
    fn drain_front(&mut self, len: usize)
        requires { len < length (items_of self.old) }
        ensures items { items_of self.new ≡ drop len (items_of self.old) }
        ensures mark { self.new.mark ≡ self.old.mark }
    {
        if len > 0 {
            mem::swap(&mut self.first, &mut self.rest[len - 1]);
            remove_first(&mut self.rest, len);
        }
    }

    /// Removes the items between two indices, but not all.
    pub fn remove_between(&mut self, from: usize, to: usize)
        requires ordered { from ≤ to }
        requires within { to ≤ length (items_of self.old) }
        requires some { to - from < length (items_of self.old) }
        ensures items { items_of self.new ≡ remove_range (items_of self.old) from to }
        ensures mark { self.new.mark ≡ self.old.mark }
    {
        if from == 0 {
            self.drain_front(to);
        } else {
            self.rest.drain(from - 1..to - 1);
        }
    }

    /// Puts an item behind the others.
    pub fn push(&mut self, item: T) -> Result<(), AllocError>
        ensures items { OnOk result (items_of self.new ≡ items_of self.old ++ item ∷ []) }
        ensures unchanged { OnErr result (items_of self.new ≡ items_of self.old) }
        ensures mark { self.new.mark ≡ self.old.mark }
    {
        self.rest.push(item)?;
        Ok(())
    }

    /// Takes the first item out, which isn't the only one.
    pub fn take_first(&mut self) -> T
        requires { 0 < length self.old.rest.items }
        ensures items { items_of self.old ≡ result ∷ items_of self.new }
        ensures mark { self.new.mark ≡ M.moved self.old.mark 1 }
    {
        self.mark = self.mark.behind(1);
        let next = self.rest.remove(0);
        mem::replace(&mut self.first, next)
    }

    /// Makes room for `len` items more.
    pub fn reserve(&mut self, len: usize) -> Result<(), AllocError>
        ensures items { items_of self.new ≡ items_of self.old }
        ensures mark { self.new.mark ≡ self.old.mark }
        ensures room { OnOk result (vec_len self.new.rest + len ≤ vec_capacity self.new.rest) }
    {
        self.rest.reserve(len)?;
        Ok(())
    }

    /// Inserts one item or two at an index, where there is room for two.
    pub fn insert(&mut self, at: usize, first: T, second: Option<T>)
        requires within { at ≤ length (items_of self.old) }
        requires room { vec_len self.old.rest + 2 ≤ vec_capacity self.old.rest }
        ensures items { items_of self.new ≡
            take at (items_of self.old) ++ ((first ∷ option_to_list second) ++ drop at (items_of self.old)) }
        ensures mark { self.new.mark ≡ self.old.mark }
    {
        match second {
            Some(second) => self.insert_both(at, first, second),
            None => self.insert_one(at, first),
        }
    }

    // Inserts an item at an index, where there is room for it.
    fn insert_one(&mut self, at: usize, item: T)
        requires within { at ≤ length (items_of self.old) }
        requires room { vec_len self.old.rest + 1 ≤ vec_capacity self.old.rest }
        ensures items { items_of self.new ≡
            take at (items_of self.old) ++ (item ∷ drop at (items_of self.old)) }
        ensures mark { self.new.mark ≡ self.old.mark }
    {
        if at == 0 {
            let first = mem::replace(&mut self.first, item);
            insert_one_reserved(&mut self.rest, 0, first);
        } else {
            insert_one_reserved(&mut self.rest, at - 1, item);
        }
    }

    // Inserts two items at an index, where there is room for them.
    fn insert_both(&mut self, at: usize, start: T, end: T)
        requires within { at ≤ length (items_of self.old) }
        requires room { vec_len self.old.rest + 2 ≤ vec_capacity self.old.rest }
        ensures items { items_of self.new ≡
            take at (items_of self.old) ++ (start ∷ end ∷ drop at (items_of self.old)) }
        ensures mark { self.new.mark ≡ self.old.mark }
    {
        if at == 0 {
            let first = mem::replace(&mut self.first, start);
            insert_both_reserved(&mut self.rest, 0, end, first);
        } else {
            insert_both_reserved(&mut self.rest, at - 1, start, end);
        }
    }

    /// Replaces the items between two indices by those of a list; some stay before the second index, or
    /// behind it, or are put.
    pub fn replace(&mut self, from: usize, to: usize, list: Vec<T>) -> Result<(), AllocError>
        requires ordered { from ≤ to }
        requires behind { 0 < to }
        requires within { to ≤ length (items_of self.old) }
        requires some { to < from + (length list.items + length (items_of self.old)) }
        ensures items { OnOk result (items_of self.new ≡ take from (items_of self.old)
            ++ (list.items ++ drop to (items_of self.old))) }
        ensures unchanged { OnErr result (items_of self.new ≡ items_of self.old) }
        ensures mark { self.new.mark ≡ self.old.mark }
    {
        self.rest.reserve(list.len())?;
        insert_list_reserved(&mut self.rest, to - 1, list);
        self.remove_between(from, to);
        Ok(())
    }

    /// Moves the items of the chunk behind this one to the end, where there is room for them.
    pub fn append(&mut self, behind: Chunk<T, M>)
        requires { vec_len self.old.rest + length (items_of behind) ≤ vec_capacity self.old.rest }
        ensures items { items_of self.new ≡ items_of self.old ++ items_of behind }
        ensures mark { self.new.mark ≡ self.old.mark }
    {
        let Chunk { first, rest, .. } = behind;
        self.rest.push_reserved(first);
        append_reserved(&mut self.rest, rest);
    }

    /// Moves the items of the chunk before this one to the front, where there is room for them.
    pub fn prepend(&mut self, before: Chunk<T, M>)
        requires { vec_len self.old.rest + length (items_of before) ≤ vec_capacity self.old.rest }
        ensures items { items_of self.new ≡ items_of before ++ items_of self.old }
        ensures mark { self.new.mark ≡ before.mark }
    {
        let Chunk { first, rest, mark } = before;
        let len = rest.len() + 1;
        let old_first = mem::replace(&mut self.first, first);
        append_reserved(&mut self.rest, rest);
        self.rest.push_reserved(old_first);
        self.rest.as_mut_slice().rotate_right(len);
        self.mark = mark;
    }

    /// Takes the items from an index on, which isn't the first or the end, as a chunk of their own.
    pub fn split_off(&mut self, at: usize) -> Result<Chunk<T, M>, AllocError>
        requires some { 0 < at }
        requires within { at < length (items_of self.old) }
        ensures items { IfOk result (λ upper.
            (items_of self.new ≡ take at (items_of self.old)) × (items_of upper ≡ drop at (items_of self.old))) }
        ensures moved { IfOk result (λ upper. upper.mark ≡ M.moved self.old.mark at) }
        ensures unchanged { OnErr result (items_of self.new ≡ items_of self.old) }
        ensures mark { self.new.mark ≡ self.old.mark }
    {
        let mark = self.mark.behind(at);
        let rest = self.rest.split_off(at)?;
        Ok(Chunk {
            first: self.rest.remove(at - 1),
            rest,
            mark,
        })
    }
}

// Exchanges two items.
fn swap_in_list<T>(list: &mut Vec<T>, a: usize, b: usize)
    requires a { a < length list.old.items }
    requires b { b < length list.old.items }
    ensures { list.new.items ≡ swap list.old.items a b }
{
    list.as_mut_slice().swap(a, b);
}

// Removes `len` items at the front.
fn remove_first<T: Drop>(list: &mut Vec<T>, len: usize)
    requires { len ≤ length list.old.items }
    ensures { list.new.items ≡ drop len list.old.items }
{
    list.drain(..len);
}

// Moves the items of another list to the end, where there is room for them.
fn append_reserved<T: Drop>(list: &mut Vec<T>, other: Vec<T>)
    requires { vec_len list.old + vec_len other ≤ vec_capacity list.old }
    ensures items { list.new.items ≡ list.old.items ++ other.items }
    ensures len { vec_len list.new ≡ vec_len list.old + vec_len other }
    ensures capacity { vec_capacity list.old ≤ vec_capacity list.new }
{
    let mut moved = other;
    let _had_room = list.append(&mut moved);
}

/// Inserts the items of another list where there is room for them, and moves the later ones up.
pub fn insert_list_reserved<T: Drop>(list: &mut Vec<T>, at: usize, other: Vec<T>)
    requires within { at ≤ length list.old.items }
    requires room { vec_len list.old + vec_len other ≤ vec_capacity list.old }
    ensures { list.new.items ≡ take at list.old.items ++ (other.items ++ drop at list.old.items) }
{
    let len = other.len();
    append_reserved(list, other);
    list[at..].rotate_right(len);
}

// Inserts an item where there is room for it, and moves the later ones up.
#[inline(always)]
fn insert_one_reserved<T: Drop>(list: &mut Vec<T>, at: usize, item: T)
    requires within { at ≤ length list.old.items }
    requires room { vec_len list.old + 1 ≤ vec_capacity list.old }
    ensures items { list.new.items ≡ take at list.old.items ++ (item ∷ drop at list.old.items) }
    ensures len { vec_len list.new ≡ vec_len list.old + 1 }
    ensures capacity { vec_capacity list.old ≤ vec_capacity list.new }
{
    let _inserted = list.insert(at, item);
}

// Inserts two items where there is room for them, and moves the later ones up.
#[inline(always)]
fn insert_both_reserved<T>(list: &mut Vec<T>, at: usize, a: T, b: T)
    requires within { at ≤ length list.old.items }
    requires room { vec_len list.old + 2 ≤ vec_capacity list.old }
    ensures { list.new.items ≡ take at list.old.items ++ (a ∷ b ∷ drop at list.old.items) }
{
    list.push_reserved(a);
    list.push_reserved(b);
    move_last_two(list.as_mut_slice(), at);
}
