//! The set of single values, which stand in a row.
ghost use Rattle.std.specs.Prelude.{◌≡◌, ◌↔◌, ◌||◌, ◌+◌, ◌≤◌, true, IfOk, OnOk, IfSome, IfNone};
ghost use Rattle.std.specs.List.{Any};
ghost use Rattle.std.specs.Ordering.{is_eq};
ghost use Rattle.std.specs.declared.cmp.Ordering.TheVariants.{Equal};
ghost use Rattle.range_merge.specs.Boundaries.{member};

use crate::set::ChunkedRangeSet;
use range_collections::FromPlace;
use std::alloc::{AllocError, Global};

impl<T: FromPlace> ChunkedRangeSet<T> {
    /// The set of these values, which may come in any order and more than once. It inserts one after
    /// the other.
    pub fn from_values(alloc: Global, values: &[T]) -> Result<Self, AllocError>
        ensures { IfOk result (λ set. (x : T) → T.is_value x → (member T.cmp set x ≡ true) ↔
            Any (λ value. T.cmp value x ≡ Equal) values.now) }
    {
        let mut set = ChunkedRangeSet::new(alloc);
        for value in values {
            set.put_value(*value)?;
        }
        Ok(set)
    }

    // Adds one value.
    fn put_value(&mut self, value: T) -> Result<(), AllocError>
        ensures { OnOk result ((x : T) → T.is_value x → member T.cmp self.new x ≡
            (member T.cmp self.old x || is_eq (T.cmp value x))) }
    {
        value.known();
        match next_value(&value) {
            Some(end) => self.insert(value..end),
            None => self.insert_from(value..),
        }
    }
}

// The least value above this one, if there is one.
fn next_value<T: FromPlace>(value: &T) -> Option<T>
    ensures next { IfSome result (λ next.
        T.is_value next × (T.place next ≡ T.place value.now + 1)) }
    ensures greatest { IfNone result (T.count ≤ T.place value.now + 1) }
{
    T::from_place(value.place().checked_add(1)?)
}
