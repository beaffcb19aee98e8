//! Whole numbers, whose Debug text is known byte by byte.
ghost use Rattle.std.specs.Prelude.{◌≡◌, ℕ, List, Option, Some, refl, decimal};
ghost use Rattle.std.specs.Fmt.{signed_decimal};
ghost use Rattle.range_collections.specs.Reading.{signed_number, unsigned_number};

use std::fmt;

/// A whole number: `{:?}` writes its decimal digits, after a minus sign where it is negative, and
/// `read` reads them.
pub trait WholeNumber: fmt::Debug + Sized {
    // Those bytes.
    ghost digits: { Self → List ℕ };

    // The number that a text writes, if it writes one.
    ghost number: { List ℕ → Option Self };

    /// The number that a text writes in decimal digits, which may follow a sign, if it is one of
    /// the type.
    fn read(text: &str) -> Option<Self>
        ensures { result ≡ number text.now };

    // `{:?}` writes them.
    ghost prints: { (x : Self) → Self.debug_output x ≡ Some (digits x) };
}

impl WholeNumber for u8 {
    ghost digits = { decimal };

    ghost number = { unsigned_number 8 };

    fn read(text: &str) -> Option<u8> {
        text.parse::<u8>().ok()
    }

    ghost prints = { λ x. refl };
}

impl WholeNumber for u16 {
    ghost digits = { decimal };

    ghost number = { unsigned_number 16 };

    fn read(text: &str) -> Option<u16> {
        text.parse::<u16>().ok()
    }

    ghost prints = { λ x. refl };
}

impl WholeNumber for u32 {
    ghost digits = { decimal };

    ghost number = { unsigned_number 32 };

    fn read(text: &str) -> Option<u32> {
        text.parse::<u32>().ok()
    }

    ghost prints = { λ x. refl };
}

impl WholeNumber for u64 {
    ghost digits = { decimal };

    ghost number = { unsigned_number 64 };

    fn read(text: &str) -> Option<u64> {
        text.parse::<u64>().ok()
    }

    ghost prints = { λ x. refl };
}

impl WholeNumber for u128 {
    ghost digits = { decimal };

    ghost number = { unsigned_number 128 };

    fn read(text: &str) -> Option<u128> {
        text.parse::<u128>().ok()
    }

    ghost prints = { λ x. refl };
}

impl WholeNumber for usize {
    ghost digits = { decimal };

    ghost number = { unsigned_number 64 };

    fn read(text: &str) -> Option<usize> {
        text.parse::<usize>().ok()
    }

    ghost prints = { λ x. refl };
}

impl WholeNumber for i8 {
    ghost digits = { signed_decimal };

    ghost number = { signed_number 7 };

    fn read(text: &str) -> Option<i8> {
        text.parse::<i8>().ok()
    }

    ghost prints = { λ x. refl };
}

impl WholeNumber for i16 {
    ghost digits = { signed_decimal };

    ghost number = { signed_number 15 };

    fn read(text: &str) -> Option<i16> {
        text.parse::<i16>().ok()
    }

    ghost prints = { λ x. refl };
}

impl WholeNumber for i32 {
    ghost digits = { signed_decimal };

    ghost number = { signed_number 31 };

    fn read(text: &str) -> Option<i32> {
        text.parse::<i32>().ok()
    }

    ghost prints = { λ x. refl };
}

impl WholeNumber for i64 {
    ghost digits = { signed_decimal };

    ghost number = { signed_number 63 };

    fn read(text: &str) -> Option<i64> {
        text.parse::<i64>().ok()
    }

    ghost prints = { λ x. refl };
}

impl WholeNumber for i128 {
    ghost digits = { signed_decimal };

    ghost number = { signed_number 127 };

    fn read(text: &str) -> Option<i128> {
        text.parse::<i128>().ok()
    }

    ghost prints = { λ x. refl };
}

impl WholeNumber for isize {
    ghost digits = { signed_decimal };

    ghost number = { signed_number 63 };

    fn read(text: &str) -> Option<isize> {
        text.parse::<isize>().ok()
    }

    ghost prints = { λ x. refl };
}
