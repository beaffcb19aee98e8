//! What calls add to the tally of the elements that they compare.
use std::cell::Cell;

/// What stood on the tally once a call had answered; nothing stands on it then.
pub(crate) fn cost<R>(tally: &Cell<u128>, _answer: &R) -> u128 {
    tally.replace(0)
}

/// Whether all of these are the same, and at most `most`.
pub(crate) fn alike(costs: &[u128], most: u128) -> bool {
    for cost in costs {
        if *cost > most || Some(cost) != costs.first() {
            return false;
        }
    }
    true
}
