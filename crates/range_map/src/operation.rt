//! What is made of two maps at each key: the trait that a caller of `combine` implements.
ghost use Rattle.std.specs.Prelude.{Option, IfOk, option_copied};
ghost use Rattle.range_map.specs.Steps.{AreAlike};

use std::alloc::AllocError;

/// What `combine` gives a key, by the values that it has in both maps.
pub trait MapOperation<V, W> {
    /// The values of the result.
    type Output: Eq + Drop;

    // The option of a key that has these options.
    ghost gives: { Self → Option V → Option W → Option Self.Output };

    /// The value, if any, of a key that has these values, or an error if memory runs out.
    fn apply(&self, left: Option<&V>, right: Option<&W>) -> Result<Option<Self::Output>, AllocError>
        ensures { IfOk result (λ option. AreAlike Self.Output.eq option
            (gives self.now (option_copied left.entry) (option_copied right.entry))) };
}
