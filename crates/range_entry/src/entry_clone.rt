//! Clones that are equal to their source.
ghost use Rattle.std.specs.Prelude.{◌≡◌, ◌+◌, ◌≤◌, length, take, drop, All, IsTrue, IsOk, IfOk, OnOk};
ghost use Rattle.std.specs.List.{AllZip};
ghost use Rattle.std.specs.Vec.{vec_capacity};
ghost use Rattle.std.specs.declared.cmp.Ordering.TheVariants.{Equal};

use std::alloc::AllocError;

/// An element type whose clones are equal to their source.
pub trait EntryClone: Ord {
    // A clone of this element never fails.
    ghost is_infallible: { Self → Type 0 };

    // The second element counts as a copy of the first.
    ghost is_copy: { Self → Self → Type 0 };

    /// A copy of this element, which is equal to it, or an error if memory runs out.
    fn entry_clone(&self) -> Result<Self, AllocError>
        ensures same { IfOk result (λ copied. Self.cmp self.now copied ≡ Equal) }
        ensures copy { IfOk result (λ copied. is_copy self.now copied) }
        ensures succeeds { is_infallible self.now → IsOk result };

    /// Whether copies of elements never fail: `true` only if the type says so, as numbers,
    /// characters and references do.
    #[inline(always)]
    fn all_infallible() -> bool
        ensures { IsTrue result → (x : Self) → is_infallible x }
    {
        Self::is_plain()
    }

    /// Whether elements are plain data, as numbers and characters are: a copy never fails, and is the
    /// element itself. `true` only if the type says so.
    #[inline(always)]
    fn is_plain() -> bool
        ensures infallible { IsTrue result → (x : Self) → is_infallible x }
        ensures same { IsTrue result → (x y : Self) → is_copy x y → y ≡ x }
    {
        false
    }

    /// Appends a copy of each item to the list. If memory runs out it is an error, and the copies
    /// made before stay. It asks for room once.
    fn append_clones(list: &mut Vec<Self>, items: &[Self]) -> Result<(), AllocError>
        ensures kept { OnOk result (take (length list.old.items) list.new.items ≡ list.old.items) }
        ensures copied { OnOk result (AllZip is_copy items.now (drop (length list.old.items) list.new.items)) }
        ensures succeeds { length list.old.items + length items.now ≤ vec_capacity list.old → All is_infallible items.now → IsOk result }
    {
        list.reserve(items.len())?;
        for item in items {
            list.push_reserved(item.entry_clone()?);
        }
        Ok(())
    }

    // A copy is equal to its source.
    ghost copy_is_equal: { (x y : Self) → is_copy x y → Self.cmp x y ≡ Equal };
}
