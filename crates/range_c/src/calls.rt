//! What the exports make of two sets, for numbers of any type.
ghost use Rattle.std.specs.Prelude.{◌≡◌, ◌+◌, ◌<◌, ◌≤◌, ◌^◌, ◌/◌, length, take, drop, false, [], ◌∷◌};
ghost use Rattle.range_collections.specs.Boundaries.{IsAscending, is_odd};
ghost use Rattle.range_collections.specs.Split.{split_left, split_right};
ghost use Rattle.range_collections.specs.Ranges.{range_items};
ghost use Rattle.range_collections.specs.Changes.{changes};
ghost use Rattle.range_c.specs.Answers.{AreAscending, AnswersList, connective_of};

use range_collections::{
    Comparisons, Connective, DiffOp, IntersectionOp, MergeOperation, RangeSetRef, UnionOp, XorOp,
    has_elements,
};

/// In the left set alone; what a connective is on for is summed up.
const LEFT: u32 = 1;
/// In the right set alone.
const RIGHT: u32 = 2;
/// In both sets.
const BOTH: u32 = 4;

// Writes the operation's result to the front of `out`, where it has room, and returns how many
// boundaries that is.
pub(crate) fn merge<T: Ord + Copy, O: MergeOperation>(
    a: &[T],
    b: &[T],
    op: &O,
    out: &mut [T],
) -> usize
    requires sorted { AreAscending T.cmp a.now b.now }
    requires off { O.connective op.now false false ≡ false }
    requires fits { length a.now + length b.now < 2 ^ 64 }
    ensures { AnswersList T.cmp (O.connective op.now) a.now b.now out.old out.new result }
{
    let left = RangeSetRef::new_unchecked(a);
    let right = RangeSetRef::new_unchecked(b);
    match left.merge_into(right, op, out, &mut Comparisons::new()) {
        Ok(len) => len,
        Err(refused) => refused.needed,
    }
}

// The same as `merge`, by the connective that a number stands for. The four operations have a merge
// of their own, which is faster. Where there is no room at all, it only counts.
pub(crate) fn combine<T: Ord + Copy>(a: &[T], b: &[T], connective: u32, out: &mut [T]) -> usize
    requires sorted { AreAscending T.cmp a.now b.now }
    requires off { connective < 8 }
    requires fits { length a.now + length b.now < 2 ^ 64 }
    ensures { AnswersList T.cmp (connective_of connective) a.now b.now out.old out.new result }
{
    if out.is_empty() {
        return combined_len(a, b, connective);
    }
    if connective == LEFT + RIGHT + BOTH {
        return merge(a, b, &UnionOp, out);
    }
    if connective == BOTH {
        return merge(a, b, &IntersectionOp, out);
    }
    if connective == LEFT {
        return merge(a, b, &DiffOp, out);
    }
    if connective == LEFT + RIGHT {
        return merge(a, b, &XorOp, out);
    }
    merge(a, b, &decoded(connective), out)
}

// How many boundaries that is.
fn combined_len<T: Ord>(a: &[T], b: &[T], connective: u32) -> usize
    requires sorted { AreAscending T.cmp a.now b.now }
    requires off { connective < 8 }
    requires fits { length a.now + length b.now < 2 ^ 64 }
    ensures { result ≡ length (changes T.cmp (connective_of connective) a.now b.now) }
{
    let left = RangeSetRef::new_unchecked(a);
    let right = RangeSetRef::new_unchecked(b);
    left.merge_len(right, &decoded(connective), &mut Comparisons::new())
}

// The connective that a number stands for: the sum of what it is on for, with 8 for neither set.
pub(crate) fn decoded(connective: u32) -> Connective
    ensures neither { result.neither ≡ is_odd (connective / 8) }
    ensures left { result.left ≡ is_odd connective }
    ensures right { result.right ≡ is_odd (connective / 2) }
    ensures both { result.both ≡ is_odd (connective / 4) }
{
    Connective {
        neither: connective / 8 % 2 == 1,
        left: connective % 2 == 1,
        right: connective / 2 % 2 == 1,
        both: connective / 4 % 2 == 1,
    }
}

// The boundaries of the range from the first number to below the second.
pub(crate) fn range_of<'a, T: Ord>(ends: &'a [T; 2]) -> &'a [T]
    ensures boundaries { (start end : T) →
        ends.now ≡ start ∷ end ∷ [] → result.now ≡ range_items T.cmp start end }
    ensures len { length result.now ≤ 2 }
    ensures sorted { IsAscending T.cmp result.now }
{
    let [start, end] = ends;
    if has_elements(start, end, &mut Comparisons::new()) {
        ends
    } else {
        &[]
    }
}

// Writes how many boundaries the part below `at` has, and where the part from it on begins.
pub(crate) fn split<T: Ord + Drop>(a: &[T], at: T, left_len: &mut usize, right_start: &mut usize)
    requires { IsAscending T.cmp a.now }
    ensures left { take left_len.new a.now ≡ split_left T.cmp a.now at }
    ensures right { drop right_start.new a.now ≡ split_right T.cmp a.now at }
    ensures left_within { left_len.new ≡ length (split_left T.cmp a.now at) }
    ensures right_within { right_start.new + length (split_right T.cmp a.now at) ≡ length a.now }
{
    let (left, right) = RangeSetRef::new_unchecked(a).split(at);
    *left_len = left.boundaries.len();
    *right_start = a.len() - right.boundaries.len();
}
