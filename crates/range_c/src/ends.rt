//! Ranges of two numbers, as C passes them: what the functions for ranges of any type of numbers
//! need of one.
ghost use Rattle.std.specs.Prelude.{◌≡◌};

use range_collections::WholeNumber;

/// A range of numbers, from the first to below the second.
pub(crate) trait Ends: Copy + Drop {
    /// Its numbers.
    type Number: Ord + Copy + WholeNumber + Drop;

    // Where it starts.
    ghost first: { Self → Self.Number };

    // Where it ends.
    ghost last: { Self → Self.Number };

    /// Where it starts.
    fn start(&self) -> Self::Number
        ensures { result ≡ first self.now };

    /// Where it ends.
    fn end(&self) -> Self::Number
        ensures { result ≡ last self.now };

    /// The range from the first number to below the second.
    fn of(start: Self::Number, end: Self::Number) -> Self
        ensures starts { Self.first result ≡ start }
        ensures ends { Self.last result ≡ end };
}
