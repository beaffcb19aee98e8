//! Items that are their own keys, as the boundaries of sets are.
use crate::key_of::{IntoKey, KeyOf, SearchBy, SetKey};
use range_merge::{Compare, search};
use std::mem;

/// Each item is its own key.
pub struct Itself;

impl<T> KeyOf<T, T> for Itself {
    ghost key_of = { λ item. item };

    #[inline(always)]
    fn key_of(item: &T) -> &T {
        item
    }
}

impl<T> SearchBy<T, T> for Itself {
    #[inline(always)]
    fn search<C: Compare<T>>(items: &[T], key: &T, cmp: &mut C) -> Result<usize, usize> {
        search(items, key, cmp)
    }
}

impl<T> SetKey<T, T> for Itself {
    ghost with_key = { λ _ key. key };

    #[inline(always)]
    fn set_key(item: &mut T, key: T) -> T {
        mem::replace(item, key)
    }
}

impl<T> IntoKey<T, T> for Itself {
    #[inline(always)]
    fn into_key(item: T) -> T {
        item
    }
}
