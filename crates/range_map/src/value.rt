//! What a map asks of its values: that they can be compared, and copied where one of its ranges
//! becomes two.
ghost use Rattle.std.specs.Prelude.{◌≡◌, true, IsOk, IfOk, None, option_copied};
ghost use Rattle.range_map.specs.Steps.{AreAlike};

use std::alloc::AllocError;

/// A type whose values can be copied, which may fail. A map copies a value only where one of its
/// ranges becomes two or `update` ends, or into a new map.
pub trait MapValue: Eq + Drop {
    // A copy of this value never fails.
    ghost is_infallible: { Self → Type 0 };

    /// A copy of this value, which is equal to it, or an error if memory runs out.
    fn copy_value(&self) -> Result<Self, AllocError>
        ensures same { IfOk result (λ copied. Self.eq copied self.now ≡ true) }
        ensures succeeds { is_infallible self.now → IsOk result };
}

impl<T: Eq + Copy + Drop> MapValue for T {
    ghost is_infallible = { λ _. Unit {0} };

    #[inline(always)]
    fn copy_value(&self) -> Result<Self, AllocError> {
        Ok(*self)
    }
}

/// A copy of an option: of its value, if it has one.
pub fn copy_option<V: MapValue>(option: Option<&V>) -> Result<Option<V>, AllocError>
    ensures same { IfOk result (λ copied. AreAlike V.eq copied (option_copied option.entry)) }
    ensures none { option_copied option.entry ≡ None → IsOk result }
{
    match option {
        None => Ok(None),
        Some(value) => Ok(Some(value.copy_value()?)),
    }
}
