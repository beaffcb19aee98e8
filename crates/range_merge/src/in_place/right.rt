//! The right side of a merge in place: its unread items, and what is put for those that are taken.
ghost use Rattle.std.specs.Prelude.{◌≡◌, ℕ, ◌≤◌, Bool, true, List, ◌++◌, length, take, drop};
ghost use Rattle.range_merge.specs.Changes.{Taken, taken_left, taken_right};
ghost use Rattle.range_merge.specs.Copies.{items_if};

use crate::indexed::Indexed;

/// The unread items of a right side, which are put among others: themselves or copies of them.
pub trait Supply<K>: Indexed<K> + Drop {
    // What is kept may be this list, where those items were taken.
    ghost may_be: { List (Taken K) → List K → Type 0 };

    /// Removes as many unread items from the front as there are slots, and puts what stands for
    /// them there.
    fn put_front(&mut self, slots: &mut [K])
        requires { length slots.old ≤ length (Self.items self.old) }
        ensures rest { Self.items self.new ≡ drop (length slots.old) (Self.items self.old) }
        ensures len { length slots.new ≡ length slots.old }
        ensures put { (ts : List (Taken K)) (kept : List K) → may_be ts kept →
            may_be (ts ++ taken_right true (length slots.old) (Self.items self.old)) (kept ++ slots.new) };

    /// Drops the first `n` unread items.
    fn drop_front(&mut self, n: usize)
        requires { n ≤ length (Self.items self.old) }
        ensures { Self.items self.new ≡ drop n (Self.items self.old) };

    /// Of the left side the items themselves are kept. It does nothing.
    fn left_items_stay()
        ensures { (wanted : Bool) (n : ℕ) (left kept new : List K) (ts : List (Taken K)) → new ≡ kept ++ items_if wanted (take n left)
            → may_be ts kept → may_be (ts ++ taken_left wanted n left) new };
}
