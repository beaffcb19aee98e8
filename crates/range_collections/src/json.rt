//! Sets of whole numbers as JSON: the array of the boundaries. An array is read in any order and
//! with repeats.
ghost use Rattle.std.specs.Prelude.{◌≡◌, ◌↔◌, ℕ, Some, None, Err, map, position, IfOk};
ghost use Rattle.std.specs.List.{filter_map};
ghost use Rattle.std.specs.Ordering.{int_cmp};
ghost use Rattle.serde_json.specs.View.{view};
ghost use Rattle.serde_json.specs.Find.{as_array};
ghost use Rattle.range_collections.specs.Unsorted.{AreDistinctOf};
ghost use Rattle.range_collections.specs.Json.{array_of, number_data, whole_number, is_bad, first_bad, IsReadingOf};

use crate::range_set::RangeSet;
use serde_json::Value;
use smallvec::SmallVec;
use std::alloc::{AllocError, Global};
use std::error::Error;
use std::fmt;

/// Why a JSON value isn't read as a set.
#[derive(Clone, Copy, Debug, PartialEq, Eq, Drop)]
pub enum JsonError {
    /// The value isn't an array.
    NotArray,
    /// The item at this index is the first that isn't a whole number of i64. A float isn't one,
    /// whatever its value.
    NotInteger { index: usize },
    /// Memory ran out.
    OutOfMemory,
}

impl<const N: usize> RangeSet<i64, N> {
    /// The array of the boundaries.
    pub fn to_json(&self) -> Result<Value, AllocError>
        ensures { IfOk result (λ value. view value ≡ array_of self.now) }
    {
        let list = values(self.allocator(), self.boundaries())?;
        Ok(Value::Array(list))
    }

    /// The set whose boundaries are the distinct numbers of an array, in order. All items are
    /// looked at before memory is asked for.
    pub fn from_json(alloc: Global, value: &Value) -> Result<Self, JsonError>
        ensures not_array { (result ≡ Err JsonError.NotArray) ↔ (as_array (view value.now) ≡ None) }
        ensures not_integer { (i : ℕ) →
            (result ≡ Err (JsonError.NotInteger i)) ↔ (first_bad (view value.now) ≡ Some i) }
        ensures ok { IfOk result (IsReadingOf (view value.now)) }
    {
        match value.as_array() {
            None => Err(JsonError::NotArray),
            Some(list) => {
                let items = list.as_slice();
                match bad_place(items) {
                    Some(index) => Err(JsonError::NotInteger { index }),
                    None => match read(alloc, items) {
                        Ok(set) => Ok(set),
                        Err(_) => Err(JsonError::OutOfMemory),
                    },
                }
            }
        }
    }
}

// A value for each number.
fn values(alloc: Global, numbers: &[i64]) -> Result<Vec<Value>, AllocError>
    ensures { IfOk result (λ list. map view list.items ≡ map number_data numbers.now) }
{
    let mut list = Vec::new(alloc);
    for x in numbers {
        list.push(Value::from(*x))?;
    }
    Ok(list)
}

// The place of the first value that is no whole number of i64.
fn bad_place(items: &[Value]) -> Option<usize>
    ensures { result ≡ position (λ v. is_bad (view v)) items.now }
{
    items.iter().position(|item| !item.is_i64())
}

// The set of the distinct numbers among the values.
fn read<const N: usize>(alloc: Global, items: &[Value]) -> Result<RangeSet<i64, N>, AllocError>
    ensures { IfOk result
        (AreDistinctOf int_cmp (filter_map (λ v. whole_number (view v)) items.now)) }
{
    let mut list = SmallVec::new(alloc);
    for item in items {
        if let Some(x) = item.as_i64() {
            list.push(x)?;
        }
    }
    RangeSet::from_unsorted(list)
}

impl fmt::Display for JsonError {
    ghost use Rattle.std.specs.Prelude.{Some};
    ghost use Rattle.range_collections.specs.JsonErrors.{json_error_text};

    ghost output = { λ error. Some (json_error_text error) };

    fn fmt<W: fmt::Write>(&self, f: &mut fmt::Formatter<W>) -> fmt::Result {
        match self {
            JsonError::NotArray => f.write_str("the value is no array"),
            JsonError::NotInteger { index } => {
                write!(f, "item {index} is no whole number of 64 bits")
            }
            JsonError::OutOfMemory => f.write_str("memory ran out"),
        }
    }
}

impl Error for JsonError {}

impl From<AllocError> for JsonError {
    ghost use Rattle.std.specs.Prelude.{◌≡◌};
    ghost use Rattle.range_collections.specs.declared.json.JsonError.TheVariants.{OutOfMemory};

    ghost from_gives = { λ _ error. error ≡ OutOfMemory };

    fn from(_refused: AllocError) -> Self {
        Self::OutOfMemory
    }
}
