//! How many values are members.
ghost use Rattle.std.specs.Prelude.{◌≡◌, ◌<◌, IfSome};
ghost use Rattle.range_merge.specs.Boundaries.{IsAscending};
ghost use Rattle.range_collections.specs.Covered.{covered_of};
ghost use Rattle.range_list.specs.Lists.{joined};

use range_collections::Countable;
use range_collections::questions::covered;
use range_list::Chunks;

/// How many values are members, or `None` if the last range has no end.
pub fn count_members<T: Countable>(list: &Chunks<T, bool>) -> Option<u128>
    requires { IsAscending T.cmp (joined list.now) }
    ensures fits { IfSome result (λ n. n < T.count) }
    ensures value { result ≡ covered_of T.cmp T.value T.count (joined list.now) }
{
    covered(list.items())
}
