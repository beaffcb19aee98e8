//! What a merge is given to compare and to copy items. Nothing in this crate can make either, so
//! each comparison of items is one call that its caller counts.
//!
//! A comparer itself may have a stage of a merge done by another one that it makes (`apart`), and
//! counts what that made. No comparison hides there: work that is given a comparer has to give it
//! back, since it can't be dropped, and the comparer's count grows by as many as it made.
ghost use Rattle.std.specs.Prelude.{◌≡◌, ℕ, ◌+◌, ◌-◌, ◌^◌, ◌<◌, ◌≤◌, length, take, drop, All, IsTrue, IsOk, IfOk, OnOk};
ghost use Rattle.std.specs.Cmp.{IsTotalOrder};
ghost use Rattle.std.specs.List.{AllZip};
ghost use Rattle.std.specs.Vec.{vec_capacity};
ghost use Rattle.std.specs.declared.cmp.Ordering.{Ordering as TheOrdering};

use std::alloc::AllocError;
use std::cmp::Ordering;

/// Compares items by one lawful order, and counts how often it did.
pub trait Compare<K> {
    // The order. It belongs to the type, so no call can change it.
    ghost order: { K → K → TheOrdering };

    // How many comparisons were made.
    ghost count: { Self → ℕ };

    /// Compares `a` with `b`, and counts one comparison.
    fn compare(&mut self, a: &K, b: &K) -> Ordering
        requires { count self.old < 2 ^ 128 - 1 }
        ensures answer { result ≡ order a.now b.now }
        ensures counted { count self.new ≡ count self.old + 1 };

    /// How many comparisons were made.
    fn made(&self) -> u128
        ensures { result ≡ count self.now };

    /// Has some work done by another comparer of the same order, which goes by value, and counts
    /// what that made. If there is no other, as here, it leaves the work undone: then a merge takes
    /// each run whole.
    #[inline(always)]
    fn apart<W: Work<K, Self>>(&mut self, work: &mut W) -> W::Answer
        requires ready { W.is_ready work.old }
        requires made { count self.old < 2 ^ 126 }
        ensures { (n : ℕ) × (count self.new ≡ count self.old + n)
            × W.is_done work.old work.new n result }
    {
        work.undone()
    }

    // The order is total and transitive.
    ghost total: { IsTotalOrder order };
}

/// What a comparer of type `C` has done by another one: a stage of a merge.
pub trait Work<K, C: Compare<K>> {
    /// What it returns.
    type Answer;

    // It can be done.
    ghost is_ready: { Self → Type 0 };

    // What was done of it: the work before and after, the number of comparisons, the result.
    ghost is_done: { Self → Self → ℕ → Self.Answer → Type 0 };

    /// Does it, and gives the comparer back.
    fn run(&mut self, cmp: C) -> Done<C, Self::Answer>
        requires ready { is_ready self.old }
        requires made { C.count cmp < 2 ^ 126 }
        ensures { (n : ℕ) × (C.count result.cmp ≡ C.count cmp + n) × (n < 2 ^ 127)
            × is_done self.old self.new n result.answer };

    /// What it returns if nothing of it is done.
    fn undone(&self) -> Self::Answer
        requires ready { is_ready self.now }
        ensures { is_done self.now self.now 0 result };
}

/// What some work returns, with the comparer that it was given.
#[derive(Drop)]
pub struct Done<C, A> {
    /// The comparer, which counted.
    pub cmp: C,
    /// The result.
    pub answer: A,
}

/// Copies items into a result.
pub trait Copier<K> {
    // The second item may be a copy of the first.
    ghost alike: { K → K → Type 0 };

    // A copy of this item never fails.
    ghost is_infallible: { K → Type 0 };

    /// A copy of the item, or an error if memory runs out.
    fn copy(&self, item: &K) -> Result<K, AllocError>
        ensures alike { IfOk result (λ copied. alike item.now copied) }
        ensures succeeds { is_infallible item.now → IsOk result };

    /// Whether copies of items never fail: `true` only if their type says so. Then a merge in place
    /// copies an item as it takes it, and makes no list of copies first.
    #[inline(always)]
    fn all_infallible(&self) -> bool
        ensures { IsTrue result → (x : K) → is_infallible x }
    {
        self.is_plain()
    }

    /// Whether items are plain data: a copy never fails, and is the item itself. `true` only if
    /// their type says so. Then a merge may hold copies of items beside the items.
    #[inline(always)]
    fn is_plain(&self) -> bool
        ensures infallible { IsTrue result → (x : K) → is_infallible x }
        ensures same { IsTrue result → (x y : K) → alike x y → y ≡ x }
    {
        false
    }

    /// Appends a copy of each item. If memory runs out it is an error, and the copies made before
    /// stay. It asks for room once.
    fn append(&self, list: &mut Vec<K>, items: &[K]) -> Result<(), AllocError>
        ensures kept { OnOk result (take (length list.old.items) list.new.items ≡ list.old.items) }
        ensures copied { OnOk result (AllZip alike items.now (drop (length list.old.items) list.new.items)) }
        ensures succeeds { length list.old.items + length items.now ≤ vec_capacity list.old → All is_infallible items.now → IsOk result }
    {
        list.reserve(items.len())?;
        for item in items {
            list.push_reserved(self.copy(item)?);
        }
        Ok(())
    }
}
