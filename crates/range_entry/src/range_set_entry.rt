//! Element types with a least value, which "all values", ranges without a start, and negation need.
//!
//! Not every element of a type need be a value, since a contract reads a `u8` as any number: the
//! values of `u8` are 0 to 255. Whatever is in hand at run time is a value, as `known` promises.
ghost use Rattle.std.specs.Prelude.{◌≡◌, ◌≢◌, ◌↔◌, IsTrue, IsOk, IfOk};
ghost use Rattle.std.specs.declared.cmp.Ordering.TheVariants.{Less, Equal};

use std::alloc::{AllocError, Global};

/// An element type that has a least value.
pub trait RangeSetEntry: Ord {
    // The element is one of the type's values.
    ghost is_value: { Self → Type 0 };

    // The least value. It exists also where there is no memory to make one.
    ghost least: { Self };

    // `min_value` never fails.
    ghost is_min_infallible: { Type 0 };

    /// The least value, or an error if memory runs out.
    fn min_value(alloc: Global) -> Result<Self, AllocError>
        ensures least { IfOk result (λ value. Self.cmp value least ≡ Equal) }
        ensures succeeds { is_min_infallible → IsOk result };

    /// Whether this element equals the least value.
    fn is_min_value(&self) -> bool
        ensures { IsTrue result ↔ (Self.cmp self.now least ≡ Equal) };

    /// Does nothing. A caller learns that the element is a value.
    fn known(&self)
        ensures { is_value self.now };

    // The least value is a value.
    ghost least_is_value: { is_value least };

    // No value is below it.
    ghost least_is_least: { (x : Self) → is_value x → Self.cmp x least ≢ Less };
}
