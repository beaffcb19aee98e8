//! A law of what a tracker answers: a function that does nothing, and whose contract is a theorem
//! on the words of the other contracts.
ghost use Rattle.std.specs.Prelude.{◌<◌, ◌≤◌, ℕ, Err};
ghost use Rattle.range_tracker.specs.Offsets.{Offsets, HasBoundaries};
ghost use Rattle.range_tracker.specs.Commands.{MayAnswer, after_command};
ghost use Rattle.range_tracker.specs.declared.track_error.TrackError.TheVariants.{OutOfMemory};

use crate::tracker::Command;

/// Memory runs out only where something was there, and the list grows to what the limit allows.
pub fn memory_runs_out_only_where_the_list_grows()
    ensures { (limit m n : ℕ) (had : Offsets) (command : Command) →
        MayAnswer limit had command (Err OutOfMemory) →
        HasBoundaries had m → HasBoundaries (after_command command had) n →
        (0 < m) × (m < n) × (n ≤ limit) }
{}
