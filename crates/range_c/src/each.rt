//! Many numbers looked up in one set.
ghost use Rattle.std.specs.Prelude.{◌≡◌, ◌<◌, length, map, cond};
ghost use Rattle.range_collections.specs.Boundaries.{IsAscending, member};

use range_collections::{Cursor, RangeSetRef};

// Of values in no order, seldom more than this number in a row ascend.
const FEW: u32 = 4;

// Writes for each value whether it is a member: 1 or 0.
pub(crate) fn contains_each<T: Ord>(a: &[T], values: &[T], found: &mut [u8])
    requires sorted { IsAscending T.cmp a.now }
    requires same_len { length found.old ≡ length values.now }
    ensures { found.new ≡ map (λ x. cond (member T.cmp a.now x) 1 0) values.now }
{
    let mut cursor = RangeSetRef::new_unchecked(a).cursor();
    let mut ascending = 0;
    for i in 0..values.len() {
        ascending = ascending_at(values, i, ascending);
        found[i] = look_up(&mut cursor, &values[i], ascending > FEW) as u8;
    }
}

// Whether the value is a member, looked up from the cursor's place if the values ascend there, and
// else in the whole list, whose places a processor's cache has.
#[inline(always)]
fn look_up<T: Ord>(cursor: &mut Cursor<T>, value: &T, in_order: bool) -> bool
    ensures member { result ≡ member T.cmp cursor.old.set.boundaries.now value.now }
    ensures unchanged { cursor.new.set ≡ cursor.old.set }
{
    if in_order {
        cursor.contains(value)
    } else {
        cursor.set.contains(value)
    }
}

// How many values in a row ascend, the one at place `i` being the last, if up to the one before it
// `before` of them do.
#[inline(always)]
fn ascending_at<T: Ord>(values: &[T], i: usize, before: u32) -> u32
    requires { i < length values.now }
{
    if i > 0 && values[i].cmp(&values[i - 1]).is_lt() {
        1
    } else {
        before.saturating_add(1)
    }
}
