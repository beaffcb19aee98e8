//! Characters, in the order of their codes. A contract reads a `char` as its code, so the values
//! are the scalar values: the codes up to 0x10FFFF that are no surrogates.
ghost use Rattle.std.specs.Char.{IsScalar};
ghost use Rattle.std.proofs.Common.{rules};

use crate::numbers::Number;

impl Number for char {
    const LEAST: char = '\0';

    ghost LEAST = { 0 };

    ghost in_range = { IsScalar };

    fn known_in_range(&self) {
        let _character = *self;
    }

    ghost least_in_range = { Prim.search rules };

    ghost least_is_lowest = { Prim.search rules };
}
