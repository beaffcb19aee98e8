//! Element types of the tests' own.
mod back;
mod flagged;
mod lettered;
mod only;
mod tallied;

pub use back::{Back, from_end};
pub use flagged::{Flagged, FlaggedCopier, with_flag};
pub use lettered::{Lettered, letters_are, with_letter};
pub use only::Only;
pub use tallied::{Tallied, all_tallied, with_tally};
