//! Maps compared: equal if each key has equal values in both, which is that their steps are equal
//! one by one.
ghost use Rattle.std.specs.Prelude.{◌≡◌, ◌↔◌, IsTrue};
ghost use Rattle.range_map.specs.Steps.{IsSameMap};
ghost use Rattle.range_map.specs.EqualSteps.{eq_steps, eq_steps-equiv};
ghost use Rattle.range_map.specs.Listed.{steps_of};
ghost use Rattle.std.specs.Cmp.{partial_equiv_from_equiv};

use crate::map::RangeMap;
use crate::step::Step;
use range_list::Items;

impl<K: Ord, V: Eq> PartialEq for RangeMap<K, V> {
    ghost eq = { eq_steps K.eq V.eq };

    ghost laws = { partial_equiv_from_equiv (eq_steps-equiv K.Eq.laws V.Eq.laws) };

    /// Whether each key has equal values in both, or none in either.
    fn eq(&self, other: &Self) -> bool
        ensures value { result ≡ eq_steps K.eq V.eq self.now other.now }
        ensures values { IsTrue result ↔ IsSameMap K.cmp V.eq self.now other.now }
    {
        are_equal(self.steps.items(), other.steps.items())
    }
}

impl<K: Ord, V: Eq> Eq for RangeMap<K, V> {
    ghost laws = { eq_steps-equiv K.Eq.laws V.Eq.laws };
}

// Whether the steps are equal one by one.
fn are_equal<K: Ord, V: Eq>(
    these: Items<'_, Step<K, V>, ()>,
    those: Items<'_, Step<K, V>, ()>,
) -> bool
    ensures { result ≡ eq_steps K.eq V.eq (steps_of these.entry) (steps_of those.entry) }
{
    let mut these = these;
    let mut those = those;
    while let Some(this) = these.take_first() {
        match those.take_first() {
            Some(that) => {
                if this.key != that.key || this.option != that.option {
                    return false;
                }
            }
            None => return false,
        }
    }
    those.first().is_none()
}
