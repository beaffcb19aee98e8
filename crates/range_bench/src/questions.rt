//! Questions. Only those about texts take memory, for where each text lies.
ghost use Rattle.std.specs.Prelude.{◌≡◌, ◌↔◌, ◌+◌, ◌<◌, ◌^◌, length, IsTrue};
ghost use Rattle.std.specs.Ordering.{int_cmp};
ghost use Rattle.range_collections.specs.Boundaries.{IsAscending};
ghost use Rattle.range_collections.specs.Changes.{changes};
ghost use Rattle.range_collections.specs.Connective.{union_table};
ghost use Rattle.range_collections.specs.Sets.{IsSubset, IsDisjoint};

use range_collections::{Comparisons, RangeSetRange, RangeSetRef, UnionOp};
use std::alloc::{AllocError, Global};

/// Whether no number is a member of both.
#[unsafe(no_mangle)]
pub extern "C" fn range_bench_is_disjoint(left: &[i64], right: &[i64]) -> bool
    requires left { IsAscending int_cmp left.now }
    requires right { IsAscending int_cmp right.now }
    ensures { IsTrue result ↔ IsDisjoint int_cmp left.now right.now }
{
    RangeSetRef::new_unchecked(left).is_disjoint(RangeSetRef::new_unchecked(right))
}

/// Whether every member of the left is one of the right.
#[unsafe(no_mangle)]
pub extern "C" fn range_bench_is_subset(left: &[i64], right: &[i64]) -> bool
    requires left { IsAscending int_cmp left.now }
    requires right { IsAscending int_cmp right.now }
    ensures { IsTrue result ↔ IsSubset int_cmp left.now right.now }
{
    RangeSetRef::new_unchecked(left).is_subset(RangeSetRef::new_unchecked(right))
}

/// How many boundaries the union has. Both lengths together have to be below 2 to the power 64.
#[unsafe(no_mangle)]
pub extern "C" fn range_bench_union_len(left: &[i64], right: &[i64]) -> usize
    requires left { IsAscending int_cmp left.now }
    requires right { IsAscending int_cmp right.now }
    requires fits { length left.now + length right.now < 2 ^ 64 }
    ensures { result ≡ length (changes int_cmp union_table left.now right.now) }
{
    RangeSetRef::new_unchecked(left).merge_len(
        RangeSetRef::new_unchecked(right),
        &UnionOp,
        &mut Comparisons::new(),
    )
}

/// How many comparisons the union makes.
#[unsafe(no_mangle)]
pub extern "C" fn range_bench_union_comparisons(left: &[i64], right: &[i64]) -> u64
    requires left { IsAscending int_cmp left.now }
    requires right { IsAscending int_cmp right.now }
    requires fits { length left.now + length right.now < 2 ^ 64 }
{
    let mut count = Comparisons::new();
    let _length = RangeSetRef::new_unchecked(left).merge_len(
        RangeSetRef::new_unchecked(right),
        &UnionOp,
        &mut count,
    );
    u64::try_from(count.made()).unwrap_or(u64::MAX)
}

/// How many of the values are members.
#[unsafe(no_mangle)]
pub extern "C" fn range_bench_contains(set: &[i64], values: &[i64]) -> usize
    requires { IsAscending int_cmp set.now }
{
    let set = RangeSetRef::new_unchecked(set);
    let mut members = 0usize;
    for value in values {
        members = members.wrapping_add(set.contains(value) as usize);
    }
    members
}

/// How many of the values are members of the set of these texts, or `usize::MAX` if memory runs out
/// or the texts aren't strictly sorted. Each text and each value has 32 bytes, and comes right
/// after the one before.
#[unsafe(no_mangle)]
pub extern "C" fn range_bench_contains_text(alloc: Global, texts: &[u8], values: &[u8]) -> usize {
    match texts_of(alloc, texts) {
        Ok(list) => texts_among(&list, values),
        Err(_) => usize::MAX,
    }
}

// How many bytes a text has.
const TEXT_LEN: usize = 32;

fn texts_of<'a>(alloc: Global, bytes: &'a [u8]) -> Result<Vec<&'a [u8]>, AllocError> {
    let mut texts = Vec::with_capacity(alloc, bytes.len() / TEXT_LEN)?;
    for text in bytes.chunks(TEXT_LEN) {
        texts.push(text)?;
    }
    Ok(texts)
}

fn texts_among(texts: &[&[u8]], values: &[u8]) -> usize {
    let Some(set) = RangeSetRef::new(texts) else {
        return usize::MAX;
    };
    let mut members = 0usize;
    for value in values.chunks(TEXT_LEN) {
        members = members.wrapping_add(set.contains(&value) as usize);
    }
    members
}

/// The set split at each of the values: how many boundaries the left parts have together, up to 2
/// to the power 64.
#[unsafe(no_mangle)]
pub extern "C" fn range_bench_split(set: &[i64], values: &[i64]) -> usize
    requires { IsAscending int_cmp set.now }
{
    let set = RangeSetRef::new_unchecked(set);
    let mut boundaries = 0usize;
    for value in values {
        let (left, _right) = set.split(*value);
        boundaries = boundaries.wrapping_add(left.boundaries.len());
    }
    boundaries
}

/// The lengths of the ranges that have an end, together, up to 2 to the power 64.
#[unsafe(no_mangle)]
pub extern "C" fn range_bench_iter(set: &[i64]) -> i64
    requires { IsAscending int_cmp set.now }
{
    let mut members = 0i64;
    for range in RangeSetRef::new_unchecked(set).iter() {
        match range {
            RangeSetRange::Range(ends) => {
                members = members.wrapping_add(ends.end.wrapping_sub(*ends.start));
            }
            RangeSetRange::RangeFrom(_) => {}
        }
    }
    members
}
