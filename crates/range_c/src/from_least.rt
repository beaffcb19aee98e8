//! What a connective makes of two sets among the numbers of a type, of which one is the least. It
//! may be on where neither side is.
//!
//! Whether the connective is on at the least number is found first. From there on only what changes
//! counts: a connective that is off where nothing has changed yet, over the boundaries above the
//! least number.
ghost use Rattle.std.specs.Prelude.{◌≡◌, ◌+◌, ◌<◌, ◌≤◌, ◌^◌, ◌∷◌, Bool, All, false, true, length, take, drop};
ghost use Rattle.std.specs.Ordering.{is_le};
ghost use Rattle.std.specs.declared.cmp.Ordering.TheVariants.{Greater};
ghost use Rattle.range_collections.specs.Boundaries.{IsAscending, member};
ghost use Rattle.range_collections.specs.Changes.{changes, taken_items};
ghost use Rattle.range_collections.specs.Connective.{differ, table_of};
ghost use Rattle.range_c.specs.Answers.{AreAscending, connective_of};
ghost use Rattle.range_c.specs.FromLeast.{AnswersFrom};

use crate::calls::{decoded, merge};
use range_collections::{Comparisons, Connective, MergeOperation, count_up_to};
use range_merge::laws::changes_are_at_most_the_lengths;

// Writes what the connective makes of both sets among the numbers from `least` on, where the buffer
// has room, and returns how many boundaries that is.
pub(crate) fn combine_from<T: Ord + Copy>(
    a: &[T],
    b: &[T],
    least: T,
    connective: u32,
    out: &mut [T],
) -> usize
    requires sorted { AreAscending T.cmp a.now b.now }
    requires fits { length a.now + length b.now + 1 < 2 ^ 64 }
    ensures { AnswersFrom T.cmp least (connective_of connective) a.now b.now
        out.old out.new result }
{
    let of = decoded(connective);
    let (a_on, a) = above(a, &least);
    let (b_on, b) = above(b, &least);
    let op = changes_from(&of, a_on, b_on);
    if !is_on(&of, a_on, b_on) {
        return merge(a, b, &op, out);
    }
    merge_after(a, b, least, &op, out)
}

// Whether the least number is a member, and the boundaries above it.
fn above<'a, T: Ord>(items: &'a [T], least: &T) -> (bool, &'a [T])
    requires { IsAscending T.cmp items.now }
    ensures sorted { IsAscending T.cmp result.1.now }
    ensures above { All (λ y. T.cmp y least.now ≡ Greater) result.1.now }
    ensures members { (x : T) → is_le (T.cmp least.now x) ≡ true →
        member T.cmp items.now x ≡ differ result.0 (member T.cmp result.1.now x) }
    ensures few { length result.1.now ≤ length items.now }
{
    let n = count_up_to(items, least, &mut Comparisons::new());
    let (_up_to, rest) = items.split_at(n);
    (n % 2 == 1, rest)
}

// Whether the connective is on where the sides are as `a` and `b` say.
fn is_on(of: &Connective, a: bool, b: bool) -> bool
    ensures { result ≡ table_of of.now.neither of.now.left of.now.right of.now.both a b }
{
    match (a, b) {
        (false, false) => of.neither,
        (true, false) => of.left,
        (false, true) => of.right,
        (true, true) => of.both,
    }
}

// The connective of how each side has changed: it is on where the other one has another result than
// it had at first.
fn changes_from(of: &Connective, a: bool, b: bool) -> Connective
    ensures off { result.neither ≡ false }
    ensures changes { (p q : Bool) →
        table_of result.neither result.left result.right result.both p q ≡
        differ (table_of of.now.neither of.now.left of.now.right of.now.both a b)
        (table_of of.now.neither of.now.left of.now.right of.now.both (differ a p) (differ b q)) }
{
    let first = is_on(of, a, b);
    Connective {
        neither: false,
        left: is_on(of, !a, b) != first,
        right: is_on(of, a, !b) != first,
        both: is_on(of, !a, !b) != first,
    }
}

// Writes the least number, and after it what the operation makes of both lists.
fn merge_after<T: Ord + Copy, O: MergeOperation>(
    a: &[T],
    b: &[T],
    least: T,
    op: &O,
    out: &mut [T],
) -> usize
    requires sorted { AreAscending T.cmp a.now b.now }
    requires off { O.connective op.now false false ≡ false }
    requires fits { length a.now + length b.now + 1 < 2 ^ 64 }
    ensures counted { result ≡ length (changes T.cmp (O.connective op.now) a.now b.now) + 1 }
    ensures front { result ≤ length out.old → take result out.new ≡
        least ∷ taken_items (changes T.cmp (O.connective op.now) a.now b.now) }
    ensures after { result ≤ length out.old → drop result out.new ≡ drop result out.old }
{
    changes_are_at_most_the_lengths::<T, Comparisons>();
    if out.is_empty() {
        return merge(a, b, op, out) + 1;
    }
    out[0] = least;
    let (_least, rest) = out.split_at_mut(1);
    merge(a, b, op, rest) + 1
}
