//! Two operations in the other order.
ghost use Rattle.std.specs.Prelude.{◌≡◌, ◌∷◌, [], false, OnOk, Some};
ghost use Rattle.model_state.specs.State.{State};
ghost use Rattle.model_state.specs.Good.{Good};
ghost use Rattle.model_state.specs.Packages.{fold_package};
ghost use Rattle.model_state.specs.Steps.{fold};
ghost use Rattle.footprint.specs.Interference.{interferes};

use ecore_meta::Metamodel;
use model_laws::take_in_order;
use model_state::{Change, Operation, Step};
use std::alloc::AllocError;

/// Takes the steps, which can be taken.
fn take_steps<M: Change>(model: &mut M, meta: &Metamodel, steps: &[Step]) -> Result<(), AllocError>
    requires good { Good meta.now (M.state model.old) }
    ensures done { OnOk result (fold meta.now (M.state model.old) steps.now ≡ Some (M.state model.new)) }
    ensures good { Good meta.now (M.state model.new) }
{
    match take_in_order(model, meta, steps) {
        Ok(()) => Ok(()),
        Err(_) => Err(AllocError),
    }
}

/// Of two operations that don't interfere and can be applied one after the other, applies the second and then the first. The model is
/// then as that order leaves it, which is as the first and then the second leave it. After an error the model holds some of the steps.
pub fn exchange<M: Change>(
    model: &mut M,
    meta: &Metamodel,
    first: &Operation,
    second: &Operation,
) -> Result<(), AllocError>
    requires good { Good meta.now (M.state model.old) }
    requires apart { interferes meta.now first.now second.now ≡ false }
    requires possible { (n : State) × (fold_package meta.now (M.state model.old) (first.now ∷ second.now ∷ []) ≡ Some n) }
    ensures done { OnOk result (fold_package meta.now (M.state model.old) (first.now ∷ second.now ∷ []) ≡ Some (M.state model.new)) }
    ensures swapped { OnOk result (fold_package meta.now (M.state model.old) (second.now ∷ first.now ∷ []) ≡ Some (M.state model.new)) }
    ensures good { Good meta.now (M.state model.new) }
{
    meta.recall_soundness();
    take_steps(model, meta, second.steps())?;
    take_steps(model, meta, first.steps())?;
    Ok(())
}
