//! Values made from their places: whole numbers and characters.
ghost use Rattle.std.specs.Prelude.{◌≡◌, ◌+◌, ◌<◌, ◌^◌, ℕ, SomeIff};

use crate::countable::Countable;

/// A value that can be made from its place. This is a trait of its own, so that `Countable` asks no
/// more of a caller's type than before.
pub trait FromPlace: Countable + Copy {
    // The place of the number 0, from which multiples are counted: 0 if no number is below it.
    ghost zero: { ℕ };

    /// The place of the number 0, from which multiples are counted: 0 if no number is below it.
    fn zero() -> u128
        ensures { result ≡ zero };

    /// The value with `place` values below it, or `None` if there are too few values.
    fn from_place(place: u128) -> Option<Self>
        ensures { SomeIff result (place < Self.count) (Self.value place) };

    /// The greatest value.
    fn greatest() -> Self
        ensures value { Self.is_value result }
        ensures place { Self.place result + 1 ≡ Self.count };
}

impl FromPlace for u8 {
    ghost zero = { 0 };

    fn zero() -> u128 {
        0
    }

    fn from_place(place: u128) -> Option<u8> {
        u8::try_from(place).ok()
    }

    fn greatest() -> u8 {
        u8::MAX
    }
}

impl FromPlace for u16 {
    ghost zero = { 0 };

    fn zero() -> u128 {
        0
    }

    fn from_place(place: u128) -> Option<u16> {
        u16::try_from(place).ok()
    }

    fn greatest() -> u16 {
        u16::MAX
    }
}

impl FromPlace for u32 {
    ghost zero = { 0 };

    fn zero() -> u128 {
        0
    }

    fn from_place(place: u128) -> Option<u32> {
        u32::try_from(place).ok()
    }

    fn greatest() -> u32 {
        u32::MAX
    }
}

impl FromPlace for u64 {
    ghost zero = { 0 };

    fn zero() -> u128 {
        0
    }

    fn from_place(place: u128) -> Option<u64> {
        u64::try_from(place).ok()
    }

    fn greatest() -> u64 {
        u64::MAX
    }
}

impl FromPlace for u128 {
    ghost zero = { 0 };

    fn zero() -> u128 {
        0
    }

    fn from_place(place: u128) -> Option<u128> {
        Some(place)
    }

    fn greatest() -> u128 {
        u128::MAX
    }
}

impl FromPlace for usize {
    ghost zero = { 0 };

    fn zero() -> u128 {
        0
    }

    fn from_place(place: u128) -> Option<usize> {
        usize::try_from(place).ok()
    }

    fn greatest() -> usize {
        usize::MAX
    }
}

impl FromPlace for i8 {
    ghost zero = { 2 ^ 7 };

    fn zero() -> u128 {
        1 << 7
    }

    fn from_place(place: u128) -> Option<i8> {
        let above = u8::try_from(place).ok()?;
        i8::try_from(i16::from(above) - (1 << 7)).ok()
    }

    fn greatest() -> i8 {
        i8::MAX
    }
}

impl FromPlace for i16 {
    ghost zero = { 2 ^ 15 };

    fn zero() -> u128 {
        1 << 15
    }

    fn from_place(place: u128) -> Option<i16> {
        let above = u16::try_from(place).ok()?;
        i16::try_from(i32::from(above) - (1 << 15)).ok()
    }

    fn greatest() -> i16 {
        i16::MAX
    }
}

impl FromPlace for i32 {
    ghost zero = { 2 ^ 31 };

    fn zero() -> u128 {
        1 << 31
    }

    fn from_place(place: u128) -> Option<i32> {
        let above = u32::try_from(place).ok()?;
        i32::try_from(i64::from(above) - (1 << 31)).ok()
    }

    fn greatest() -> i32 {
        i32::MAX
    }
}

impl FromPlace for i64 {
    ghost zero = { 2 ^ 63 };

    fn zero() -> u128 {
        1 << 63
    }

    fn from_place(place: u128) -> Option<i64> {
        let above = u64::try_from(place).ok()?;
        i64::try_from(i128::from(above) - (1 << 63)).ok()
    }

    fn greatest() -> i64 {
        i64::MAX
    }
}

impl FromPlace for i128 {
    ghost zero = { 2 ^ 127 };

    fn zero() -> u128 {
        1 << 127
    }

    fn from_place(place: u128) -> Option<i128> {
        match i128::try_from(place) {
            Ok(above) => Some(i128::MIN + above),
            Err(_) => i128::try_from(place - (1 << 127)).ok(),
        }
    }

    fn greatest() -> i128 {
        i128::MAX
    }
}

impl FromPlace for isize {
    ghost zero = { 2 ^ 63 };

    fn zero() -> u128 {
        isize::MAX as u128 + 1
    }

    fn from_place(place: u128) -> Option<isize> {
        let above = usize::try_from(place).ok()?;
        isize::try_from(above as i128 - (isize::MAX as i128 + 1)).ok()
    }

    fn greatest() -> isize {
        isize::MAX
    }
}

impl FromPlace for char {
    ghost zero = { 0 };

    fn zero() -> u128 {
        0
    }

    fn from_place(place: u128) -> Option<char> {
        let code = u32::try_from(place).ok()?;
        if code < 0xD800 {
            return char::from_u32(code);
        }
        char::from_u32(code.checked_add(0x800)?)
    }

    fn greatest() -> char {
        char::MAX
    }
}
