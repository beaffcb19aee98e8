//! Why `insert_free` or `insert_free_from` didn't put a range in.
use std::fmt;

/// Why a range was not put in. It has the value.
#[derive(Debug, PartialEq, Eq, Drop)]
pub enum InsertError<V> {
    /// Some key of the range has a value.
    NotFree(V),
    /// Memory ran out.
    OutOfMemory(V),
}

impl<V> fmt::Display for InsertError<V> {
    fn fmt<W: fmt::Write>(&self, f: &mut fmt::Formatter<W>) -> fmt::Result {
        match self {
            InsertError::NotFree(_) => f.write_str("a key of the range has a value"),
            InsertError::OutOfMemory(_) => f.write_str("out of memory"),
        }
    }
}
