//! What an update makes of a range: what an operation makes of the map and the one that has the unit
//! on the range alone.
ghost use Rattle.std.specs.Prelude.{◌≡◌, Some, OnOk, OnErr};
ghost use Rattle.std.specs.declared.cmp.Ordering.TheVariants.{Less, Equal};
ghost use Rattle.range_map.specs.Listed.{steps_in};
ghost use Rattle.range_map.specs.Steps.{IsCanonical};
ghost use Rattle.range_map.specs.Updated.{IsUpdated};

use crate::borrowed_steps::BorrowedSteps;
use crate::in_place::combine_in_place;
use crate::operations::Updating;
use crate::step::Step;
use crate::update::MapUpdate;
use crate::value::MapValue;
use range_collections::Copier;
use range_list::Chunks;
use std::alloc::AllocError;

/// Gives the elements from the start up to the end, if there is one, what the update makes of their
/// options. It changes nothing before all is made.
pub fn update_range<'a, K: Ord + Drop, V: MapValue, C: Copier<K>, O: MapUpdate<V>>(
    steps: &mut Chunks<Step<K, V>, ()>,
    start: &'a K,
    end: &'a Option<K>,
    op: &O,
    copier: &C,
) -> Result<(), AllocError>
    requires canonical { IsCanonical K.cmp V.eq (steps_in steps.old) }
    requires some { (e : K) → end.now ≡ Some e → K.cmp start.now e ≡ Less }
    requires copies { (x y : K) → C.alike x y → K.cmp x y ≡ Equal }
    ensures canonical { IsCanonical K.cmp V.eq (steps_in steps.new) }
    ensures values { OnOk result (IsUpdated K.cmp V.eq start.now end.now (O.gives op.now)
        (steps_in steps.old) (steps_in steps.new)) }
    ensures unchanged { OnErr result (steps_in steps.new ≡ steps_in steps.old) }
{
    let on = Step {
        key: start,
        option: Some(&()),
    };
    match end {
        Some(end) => {
            let off = Step {
                key: end,
                option: None,
            };
            let ends = [on, off];
            let range = BorrowedSteps::new(&ends);
            combine_in_place(steps, &range, &Updating(op), copier)
        }
        None => {
            let ends = [on];
            let range = BorrowedSteps::new(&ends);
            combine_in_place(steps, &range, &Updating(op), copier)
        }
    }
}
