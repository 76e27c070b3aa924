//! Steps taken in their order, up to the first that can't be taken.
ghost use Rattle.std.specs.Prelude.{◌≡◌, Some, OnOk, IfErr, take};
ghost use Rattle.model_state.specs.Steps.{fold, first_stop};
ghost use Rattle.model_state.specs.Faults.{IsApplyFault};
ghost use Rattle.model_state.specs.Good.{Good};

use ecore_meta::Metamodel;
use model_state::{ApplyFault, Change, Step};

/// Takes the steps one by one, up to the first that can't be taken, whose place, from 0, and fault it gives. The steps
/// before it are taken then. Where memory runs out it stops at any step.
pub fn take_in_order<M: Change>(
    model: &mut M,
    meta: &Metamodel,
    steps: &[Step],
) -> Result<(), ApplyFault>
    requires good { Good meta.now (M.state model.old) }
    ensures done { OnOk result (fold meta.now (M.state model.old) steps.now ≡ Some (M.state model.new)) }
    ensures cannot { IfErr result (λ e. IsApplyFault (first_stop meta.now (M.state model.old) steps.now) e) }
    ensures taken { IfErr result (λ e. fold meta.now (M.state model.old) (take e.at steps.now) ≡ Some (M.state model.new)) }
    ensures good { Good meta.now (M.state model.new) }
{
    meta.recall_soundness();
    for (at, step) in steps.iter().enumerate() {
        if let Err(fault) = model.apply(meta, step) {
            return Err(ApplyFault {
                at: at as u64,
                fault,
            });
        }
    }
    Ok(())
}
