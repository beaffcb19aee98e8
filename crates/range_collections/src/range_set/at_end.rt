//! A range put at the end of a list of boundaries.
//!
//! The list stays strictly sorted. What is put there is compared with the last one or two
//! boundaries, and only where these don't decide is the list searched.
ghost use Rattle.std.specs.Prelude.{◌≡◌, ◌+◌, ◌-◌, ◌≤◌, ◌<◌, true, ◌∷◌, [], length, slice_set, IsOk, OnOk, IfSome};
ghost use Rattle.std.specs.declared.cmp.Ordering.TheVariants.{Less};
ghost use Rattle.range_merge.specs.Boundaries.{IsAscending};
ghost use Rattle.range_merge.specs.Connective.{Means, union_table};
ghost use Rattle.range_collections.specs.InPlace.{AreOwnElseOf};
ghost use Rattle.range_collections.specs.ManyRanges.{EndsBefore};
ghost use Rattle.range_collections.specs.Splicing.{IsCut};

use crate::boundaries::cut_at;
use crate::comparisons::Comparisons;
use crate::lists::{append_both, is_odd};
use smallvec::SmallVec;
use std::alloc::{AllocError, Global};
use std::default::MadeWith;

// Whether a range from the element on touches the last one of the set with these boundaries. `None`
// if that doesn't end at the element or below it.
#[inline(always)]
pub(super) fn touches_end<T: Ord>(items: &[T], at: &T) -> Option<bool>
    requires { IsAscending T.cmp items.now }
    ensures { IfSome result (λ touches. EndsBefore T.cmp touches items.now at.now) }
{
    let len = items.len();
    if is_odd(len) {
        return None;
    }
    if len == 0 {
        return Some(false);
    }
    // One by one, since a `match` makes a number of the three cases first.
    let order = items[len - 1].cmp(at);
    if order.is_lt() {
        Some(false)
    } else if order.is_eq() {
        Some(true)
    } else {
        None
    }
}

// Adds the elements from the start up to the end, where the set ends at the start if `touches`, and
// else below it.
#[inline(always)]
pub(super) fn put_at_end<T: Ord + MadeWith<Global> + Drop, const N: usize>(
    list: &mut SmallVec<T, N>,
    touches: bool,
    start: T,
    end: T,
) -> Result<(), AllocError>
    requires sorted { IsAscending T.cmp list.old.items }
    requires ends { EndsBefore T.cmp touches list.old.items start }
    requires less { T.cmp start end ≡ Less }
    ensures sorted { IsAscending T.cmp list.new.items }
    ensures means { OnOk result (Means T.cmp union_table list.new.items list.old.items
        (start ∷ end ∷ [])) }
    ensures left_own_item { OnOk result (AreOwnElseOf T.cmp list.old.items
        (start ∷ end ∷ []) list.new.items) }
    ensures succeeds { length list.old.items + 2 ≤ N → IsOk result }
{
    if touches {
        replace_last(list, end);
        Ok(())
    } else {
        append_both(list, start, end)
    }
}

// Puts the item in the place of the last one.
#[inline(always)]
fn replace_last<T: MadeWith<Global> + Drop, const N: usize>(list: &mut SmallVec<T, N>, item: T)
    requires { 0 < length list.old.items }
    ensures { list.new.items ≡ slice_set list.old.items (length list.old.items - 1) item }
{
    let last = list.len() - 1;
    list.as_mut_slice()[last] = item;
}

// Where the items are cut around an element, so that an odd number stands before, and the element
// where it has to be put there for that. It is compared with the last two items first.
#[inline]
pub(super) fn cut_near_end<T: Ord + Drop>(items: &[T], at: T) -> (usize, Option<T>)
    requires { IsAscending T.cmp items.now }
    ensures { IsCut T.cmp true items.now at result.0 result.1 }
{
    let len = items.len();
    if is_odd(len) {
        if items[len - 1].cmp(&at).is_le() {
            return (len, None);
        }
        return cut_at(items, at, true, &mut Comparisons::new());
    }
    if len == 0 || items[len - 1].cmp(&at).is_lt() {
        return (len, Some(at));
    }
    if items[len - 2].cmp(&at).is_le() {
        return (len - 1, None);
    }
    cut_at(items, at, true, &mut Comparisons::new())
}
