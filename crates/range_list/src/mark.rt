//! What a chunk remembers of all items before it, and how many items it has at most.
ghost use Rattle.std.specs.Prelude.{◌≡◌, ◌≤◌, ◌<◌, ◌+◌, ◌^◌, ℕ};

/// What a chunk remembers of the number of items before it: for a set its parity, and for a map
/// nothing.
pub trait Mark: Copy {
    /// How many items a chunk has at most.
    const FULL: usize;

    ghost FULL: { ℕ };

    /// The mark of a place with this number of items before it.
    ghost of: { ℕ → Self };

    /// The mark this number of items further on.
    ghost moved: { Self → ℕ → Self };

    /// The mark of the front.
    fn front() -> Self
        ensures { result ≡ of 0 };

    /// The mark `len` items further on.
    fn behind(self, len: usize) -> Self
        ensures { result ≡ moved self len };

    // Each half of a full chunk has room for two more items.
    ghost some: { 4 ≤ FULL };

    // The items of two chunks can be counted.
    ghost few: { FULL < 2 ^ 32 };

    // Marks add up.
    ghost adds: { (n k : ℕ) → moved (of n) k ≡ of (n + k) };
}

// A set's mark: whether an odd number of boundaries stands before.
impl Mark for bool {
    ghost use Rattle.std.proofs.Common.{sym, rules};
    ghost use Rattle.range_merge.specs.Boundaries.{is_odd};
    ghost use Rattle.range_merge.specs.Connective.{differ};
    ghost use Rattle.range_merge.proofs.Parity.{is_odd-add};

    const FULL: usize = 512;

    ghost FULL = { 512 };

    ghost of = { is_odd };

    ghost moved = { λ odd len. differ odd (is_odd len) };

    #[inline(always)]
    fn front() -> Self {
        false
    }

    #[inline(always)]
    fn behind(self, len: usize) -> Self {
        self != (len % 2 == 1)
    }

    ghost some = { Prim.search rules };

    ghost few = { Prim.search rules };

    ghost adds = { λ n k. sym (is_odd-add n k) };
}

// A map remembers nothing. Its chunks have fewer items, since each has a value, and a change moves
// them.
impl Mark for () {
    ghost use Rattle.std.proofs.Common.{refl, rules};

    const FULL: usize = 128;

    ghost FULL = { 128 };

    ghost of = { λ _. tt };

    ghost moved = { λ _ _. tt };

    #[inline(always)]
    fn front() -> Self {}

    #[inline(always)]
    fn behind(self, _len: usize) -> Self {}

    ghost some = { Prim.search rules };

    ghost few = { Prim.search rules };

    ghost adds = { λ _ _. refl };
}
