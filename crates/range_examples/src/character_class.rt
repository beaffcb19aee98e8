//! A class of characters. A clause reads a character as its code.
ghost use Rattle.std.specs.Prelude.{◌≡◌, ◌||◌, ℕ, not, IfOk};
ghost use Rattle.std.specs.Char.{IsScalar};
ghost use Rattle.std.specs.Ordering.{nat_cmp};
ghost use Rattle.range_collections.specs.Boundaries.{member};

use range_collections::RangeSet;
use std::alloc::AllocError;

/// Characters. Up to four ranges lie in the value itself.
pub type CharacterClass = RangeSet<char, 8>;

/// The characters of one class or the other.
pub fn either(one: &CharacterClass, other: &CharacterClass) -> Result<CharacterClass, AllocError>
    ensures members { IfOk result (λ class. (code : ℕ) →
        member nat_cmp class code ≡
        (member nat_cmp one.now code || member nat_cmp other.now code)) }
{
    one | other
}

/// The characters that are not in the class.
pub fn negation(class: &CharacterClass) -> Result<CharacterClass, AllocError>
    ensures members { IfOk result (λ others. (code : ℕ) → IsScalar code →
        member nat_cmp others code ≡ not (member nat_cmp class.now code)) }
{
    !class
}

/// Whether the character is in the class.
pub fn has(class: &CharacterClass, c: char) -> bool
    ensures { result ≡ member nat_cmp class.now c }
{
    class.contains(&c)
}
