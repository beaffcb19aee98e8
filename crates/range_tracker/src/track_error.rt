//! Why a tracker refuses a command, and the limit by which it does.
ghost use Rattle.std.specs.Prelude.{◌≡◌, ◌<◌, ◌≤◌, OnOk, IfErr};
ghost use Rattle.range_tracker.specs.declared.track_error.TrackError.TheVariants.{TooMany};

use std::alloc::AllocError;
use std::error::Error;
use std::fmt;

/// Why a tracker refused a command. It is then as it was.
#[derive(Clone, Copy, Debug, PartialEq, Eq)]
pub enum TrackError {
    /// The command would leave more boundaries than the limit.
    TooMany {
        /// How many it would leave.
        boundaries: usize,
    },
    /// Memory ran out.
    OutOfMemory,
}

impl From<AllocError> for TrackError {
    ghost use Rattle.std.specs.Prelude.{◌≡◌};
    ghost use Rattle.range_tracker.specs.declared.track_error.TrackError.TheVariants.{OutOfMemory};

    ghost from_gives = { λ _ error. error ≡ OutOfMemory };

    fn from(_refused: AllocError) -> TrackError {
        TrackError::OutOfMemory
    }
}

impl fmt::Display for TrackError {
    ghost use Rattle.std.specs.Prelude.{Some};
    ghost use Rattle.range_tracker.specs.TrackErrors.{track_error_text};

    ghost output = { λ error. Some (track_error_text error) };

    fn fmt<W: fmt::Write>(&self, f: &mut fmt::Formatter<W>) -> fmt::Result {
        match self {
            TrackError::TooMany { boundaries } => write!(f, "too many boundaries: {boundaries}"),
            TrackError::OutOfMemory => f.write_str("out of memory"),
        }
    }
}

impl Error for TrackError {}

/// Refuses more boundaries than the limit.
pub fn within_limit(boundaries: usize, limit: usize) -> Result<(), TrackError>
    ensures within { OnOk result (boundaries ≤ limit) }
    ensures too_many { IfErr result (λ error. (error ≡ TooMany boundaries) × (limit < boundaries)) }
{
    if boundaries > limit {
        Err(TrackError::TooMany { boundaries })
    } else {
        Ok(())
    }
}
