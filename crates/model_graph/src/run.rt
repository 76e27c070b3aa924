//! A list of steps, taken whole or not at all.
ghost use Rattle.std.specs.Prelude.{◌≡◌, OnOk, OnErr, IfErr, Some};
ghost use Rattle.model_state.specs.Faults.{IsApplyFault};
ghost use Rattle.model_state.specs.Good.{Good};
ghost use Rattle.model_state.specs.Steps.{fold, first_stop};

use crate::Graph;
use ecore_meta::Metamodel;
use model_laws::take_in_order;
use model_state::{ApplyFault, Step, StepFault};

impl Graph {
    /// Takes all the steps, or none where one can't be taken. This takes a copy of the model; where that finds no memory the
    /// place in the error is 0.
    pub fn apply_all(&mut self, meta: &Metamodel, steps: &[Step]) -> Result<(), ApplyFault>
        requires good { Good meta.now self.old }
        ensures done { OnOk result (fold meta.now self.old steps.now ≡ Some self.new) }
        ensures unchanged { OnErr result (self.new ≡ self.old) }
        ensures cannot { IfErr result (λ e. IsApplyFault (first_stop meta.now self.old steps.now) e) }
    {
        let Ok(mut trial) = self.copy() else {
            return Err(ApplyFault {
                at: 0,
                fault: StepFault::Memory,
            });
        };
        match take_in_order(&mut trial, meta, steps) {
            Ok(()) => {
                *self = trial;
                Ok(())
            }
            Err(fault) => Err(fault),
        }
    }
}
