//! Lists that are read by index, wherever their items lie.
ghost use Rattle.std.specs.Prelude.{◌≡◌, ◌<◌, List, length, Some, slice_get};

/// A list whose items are read by index: a side of a merge, a list that is changed in place, or the
/// boundaries of a set or a range.
pub trait Indexed<K> {
    // The list.
    ghost items: { Self → List K };

    /// How many items there are.
    fn len(&self) -> usize
        ensures { result ≡ length (items self.now) };

    /// The item at index `i`.
    fn at(&self, i: usize) -> &K
        requires { i < length (items self.now) }
        ensures { slice_get (items self.now) i ≡ Some result.now };
}
