//! Operations on maps: the value of one side where it has one, whether there is a value, and what
//! lies in a set.
ghost use Rattle.std.specs.Prelude.{◌≡◌, cond, Option, Some, None, IfOk, option_copied};
ghost use Rattle.std.specs.Bool.{beq};
ghost use Rattle.std.specs.Option.{option_eq, option_or, is_some};
ghost use Rattle.range_map.specs.Steps.{AreAlike};
ghost use Rattle.range_map.specs.Units.{unit_if};
ghost use Rattle.range_map.specs.Updated.{if_some};

use crate::operation::MapOperation;
use crate::update::MapUpdate;
use crate::value::{MapValue, copy_option};
use std::alloc::AllocError;

/// The left's value, or else the right's.
pub struct LeftFirst;

impl<V: MapValue> MapOperation<V, V> for LeftFirst {
    type Output = V;

    ghost gives = { λ _ p q. option_or p q };

    fn apply(&self, left: Option<&V>, right: Option<&V>) -> Result<Option<V>, AllocError> {
        copy_option(left.or(right))
    }
}

/// The right's value, or else the left's.
pub struct RightFirst;

impl<V: MapValue> MapOperation<V, V> for RightFirst {
    type Output = V;

    ghost gives = { λ _ p q. option_or q p };

    fn apply(&self, left: Option<&V>, right: Option<&V>) -> Result<Option<V>, AllocError> {
        copy_option(right.or(left))
    }
}

/// Whether the left has a value.
pub struct HasValue;

impl<V, W> MapOperation<V, W> for HasValue {
    type Output = ();

    ghost gives = { λ _ p q. unit_if (is_some p) };

    fn apply(&self, left: Option<&V>, _right: Option<&W>) -> Result<Option<()>, AllocError> {
        Ok(unit_if(left.is_some()))
    }
}

/// Whether the left has this value.
#[derive(Drop)]
pub struct HasThis<'a, V>(pub &'a V);

impl<V: Eq, W> MapOperation<V, W> for HasThis<'_, V> {
    type Output = ();

    ghost gives = { λ op p q. unit_if (option_eq V.eq p (Some op.0.now)) };

    fn apply(&self, left: Option<&V>, _right: Option<&W>) -> Result<Option<()>, AllocError> {
        Ok(unit_if(is_value(left, self.0)))
    }
}

// Whether the option is this value.
fn is_value<V: Eq>(option: Option<&V>, value: &V) -> bool
    ensures { result ≡ option_eq V.eq (option_copied option.entry) (Some value.now) }
{
    match option {
        Some(that) => *that == *value,
        None => false,
    }
}

/// The left's value inside the right, or else outside it.
#[derive(Drop)]
pub struct Within {
    pub inside: bool,
}

impl<V: MapValue> MapOperation<V, ()> for Within {
    type Output = V;

    ghost gives = { λ op p q. cond (beq (is_some q) op.inside) p None };

    fn apply(&self, left: Option<&V>, right: Option<&()>) -> Result<Option<V>, AllocError> {
        if right.is_some() == self.inside {
            copy_option(left)
        } else {
            Ok(None)
        }
    }
}

/// What an update makes of the left inside the right.
#[derive(Drop)]
pub struct Updating<'a, O>(pub &'a O);

impl<V: MapValue, O: MapUpdate<V>> MapOperation<V, ()> for Updating<'_, O> {
    type Output = V;

    ghost gives = { λ op p q. if_some (O.gives op.0.now) p q };

    fn apply(&self, left: Option<&V>, right: Option<&()>) -> Result<Option<V>, AllocError> {
        if right.is_some() {
            self.0.apply(left)
        } else {
            copy_option(left)
        }
    }
}

/// `Some` if the condition is true.
pub fn unit_if(condition: bool) -> Option<()>
    ensures { result ≡ unit_if condition }
{
    if condition { Some(()) } else { None }
}
