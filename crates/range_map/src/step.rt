//! A step of a map, and how steps are searched and changed.
use range_list::{IntoKey, KeyOf, SearchBy, SetKey, search_keys};
use range_merge::Compare;
use std::mem;

/// A key, and the option that holds from it on, up to the next one.
#[derive(Drop)]
pub struct Step<K, V> {
    pub key: K,
    pub option: Option<V>,
}

/// Where a step has its key.
pub struct StepKey;

impl<K, V> KeyOf<Step<K, V>, K> for StepKey {
    ghost key_of = { λ step. step.key };

    #[inline(always)]
    fn key_of(item: &Step<K, V>) -> &K {
        &item.key
    }
}

impl<K, V> SearchBy<Step<K, V>, K> for StepKey {
    #[inline(always)]
    fn search<C: Compare<K>>(items: &[Step<K, V>], key: &K, cmp: &mut C) -> Result<usize, usize> {
        search_keys(items, &StepKey, key, cmp)
    }
}

impl<K, V> SetKey<Step<K, V>, K> for StepKey {
    ghost with_key = { λ step key. record { key = key; option = step.option } };

    #[inline(always)]
    fn set_key(item: &mut Step<K, V>, key: K) -> K {
        mem::replace(&mut item.key, key)
    }
}

impl<K, V: Drop> IntoKey<Step<K, V>, K> for StepKey {
    #[inline(always)]
    fn into_key(item: Step<K, V>) -> K {
        item.key
    }
}

/// Where a step has its option.
pub struct StepOption;

impl<K, V> SetKey<Step<K, V>, Option<V>> for StepOption {
    ghost with_key = { λ step option. record { key = step.key; option = option } };

    #[inline(always)]
    fn set_key(item: &mut Step<K, V>, key: Option<V>) -> Option<V> {
        mem::replace(&mut item.option, key)
    }
}
