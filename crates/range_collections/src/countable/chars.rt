//! Characters in a row. After U+D7FF comes U+E000: the surrogates between them are no characters.
ghost use Rattle.std.specs.Char.{scalar_index};
ghost use Rattle.std.proofs.Common.{rules};
ghost use Rattle.range_collections.specs.Countable.{char_value, scalar_index-fits, char_value-scalar, scalar_index-char_value, scalar_index-order};

use crate::countable::Countable;

impl Countable for char {
    ghost count = { 0x10F800 };

    ghost value = { char_value };

    ghost place = { scalar_index };

    fn place(&self) -> u128 {
        let code = u32::from(*self);
        u128::from(if code < 0xE000 { code } else { code - 0x800 })
    }

    ghost count_fits = { Prim.search rules };

    ghost place_fits = { scalar_index-fits };

    ghost value_is_value = { char_value-scalar };

    ghost place_of_value = { scalar_index-char_value };

    ghost in_order = { scalar_index-order };
}
