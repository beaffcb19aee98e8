//! Values that can be counted, since they stand in a row: whole numbers and characters.
//!
//! A value's place is its rank: the number of values below it. The places go from 0 up without a
//! gap, in the order of the values. A `Place` of range_list is another thing: a position in a list.
ghost use Rattle.std.specs.Prelude.{◌≡◌, ◌-◌, ◌<◌, ◌≤◌, ◌^◌, ℕ, length, get_or};
ghost use Rattle.std.specs.Ordering.{nat_cmp};

mod chars;
mod from_place;
mod multiples;
mod numbers;
mod value_range;

pub use from_place::FromPlace;
pub use multiples::Multiples;
use range_entry::RangeSetEntry;
pub use value_range::{ValueEnds, ValueRange};

/// An ordered type whose values stand in a row, at most 2 to the power 128 of them.
pub trait Countable: RangeSetEntry {
    // How many values there are.
    ghost count: { ℕ };

    // The value at a place: that many others are below it.
    ghost value: { ℕ → Self };

    // How many values are below this one.
    ghost place: { Self → ℕ };

    /// How many values are below this one, which is its rank among all of its type.
    fn place(&self) -> u128
        ensures { result ≡ place self.now };

    ghost count_fits: { count ≤ 2 ^ 128 };

    // Each value's place is one of them.
    ghost place_fits: { (x : Self) → Self.is_value x → place x < count };

    // At each place stands a value, whose place it is.
    ghost value_is_value: { (n : ℕ) → n < count → Self.is_value (value n) };

    ghost place_of_value: { (n : ℕ) → n < count → place (value n) ≡ n };

    // Values are in the order of their places.
    ghost in_order: { (x y : Self) → Self.is_value x → Self.is_value y →
        Self.cmp x y ≡ nat_cmp (place x) (place y) };
}

/// A whole number without a sign: its place is the number itself, and contracts read both as one.
pub trait Unsigned: Countable + Copy {
    // All numbers are in the order of their places.
    ghost order_of_places: { (x y : Self) → Self.cmp x y ≡ nat_cmp (Self.place x) (Self.place y) };
}

// A caller learns that the last item, where there is one, is a value.
pub(crate) fn know_last<T: RangeSetEntry>(items: &[T])
    ensures { (d : T) → 0 < length items.now → T.is_value (get_or items.now (length items.now - 1) d) }
{
    if let Some(last) = items.last() {
        last.known();
    }
}
