//! Two sets united, asked, walked and printed.
ghost use Rattle.std.specs.Prelude.{◌≡◌, true, IfOk};
ghost use Rattle.std.specs.Ordering.{nat_cmp};
ghost use Rattle.range_collections.specs.Boundaries.{member};

use range_collections::RangeSet2;
use std::alloc::{AllocError, Global};
use std::io::{self, Write};

/// The hours at which a shop is open. Seven in the evening is among them.
fn open_hours(alloc: Global) -> Result<RangeSet2<u32>, AllocError>
    ensures evening { IfOk result (λ hours. member nat_cmp hours 19 ≡ true) }
{
    let day = RangeSet2::from_range(alloc, 9..13)?;
    let evening = RangeSet2::from_range(alloc, 15..20)?;
    &day | &evening
}

/// Prints the hours at which a shop is open, and says whether seven in the evening is among them.
/// What it prints is shown by a test.
pub fn print_open_hours<W: Write>(alloc: Global, out: &mut W) -> io::Result<bool>
    ensures evening { IfOk result (λ late. late ≡ true) }
{
    let open = open_hours(alloc)?;
    writeln!(out, "open at {open:?}")?;
    for range in open.iter() {
        writeln!(out, "from {:?}", range.cloned()?)?;
    }
    Ok(open.contains(&19))
}
