//! What is made of a map, key by key: the trait that a caller of `update` implements.
ghost use Rattle.std.specs.Prelude.{Option, IfOk, option_copied};
ghost use Rattle.range_map.specs.Steps.{AreAlike};

use std::alloc::AllocError;

/// What `update` gives a key, by the value that it has.
pub trait MapUpdate<V: Eq> {
    // The option of a key that has this option.
    ghost gives: { Self → Option V → Option V };

    /// The value, if any, of a key that has this value, or an error if memory runs out.
    fn apply(&self, option: Option<&V>) -> Result<Option<V>, AllocError>
        ensures { IfOk result (λ made. AreAlike V.eq made
            (gives self.now (option_copied option.entry))) };
}
