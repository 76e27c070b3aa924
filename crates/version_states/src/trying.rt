//! Operations that are all taken, or none of them.
ghost use Rattle.std.specs.Prelude.{◌≡◌, ◌≢◌, ◌++◌, take, true, false, None, Some, IfOk, IfErr, OnOk};
ghost use Rattle.model_state.specs.Good.{Good};
ghost use Rattle.model_state.specs.Packages.{fold_package, steps_all};
ghost use Rattle.model_state.specs.Steps.{fold};
ghost use Rattle.version_states.specs.Taking.{StepsLedTo};

use crate::states::{copy_steps, push_copies, untake};
use ecore_meta::Metamodel;
use model_state::{Operation, Step, StepFault};
use std::alloc::{AllocError, Global};
use texts::List;
use working_model::Working;

/// Copies of the first steps, as many as the number.
fn first_copies(alloc: Global, steps: &[Step], number: u64) -> Result<List<Step>, AllocError>
    ensures { IfOk result (λ copies. copies ≡ take number steps.now) }
{
    let mut copies = List::new(alloc);
    push_copies(alloc, &mut copies, steps)?;
    let mut copies = copies.into_vec();
    copies.truncate(number as usize);
    Ok(List::from_vec(copies))
}

/// Takes back operations and the first steps of one more, which were the last taken. After an error the model is of no use.
fn untake_all(
    alloc: Global,
    model: &mut Working,
    meta: &Metamodel,
    operations: &[Operation],
    steps: &[Step],
    number: u64,
) -> Result<(), AllocError>
    requires led { StepsLedTo meta.now (steps_all operations.now ++ take number steps.now) model.old }
    ensures back { OnOk result (fold meta.now model.new (steps_all operations.now ++ take number steps.now) ≡ Some model.old) }
    ensures good { OnOk result (Good meta.now model.new) }
{
    meta.recall_soundness();
    let last = first_copies(alloc, steps, number)?;
    let mut taken = copy_steps(alloc, operations)?;
    push_copies(alloc, &mut taken, last.as_slice())?;
    untake(alloc, model, meta, taken)
}

/// Takes the steps of operations one by one, and says whether it could take all. Where it couldn't, those before the first that
/// can't be taken are taken back, and the model is as it was. After an error it is of no use: memory ran out, or a step can't be taken
/// and memory ran out as those before it were taken back.
pub fn take_all(
    alloc: Global,
    model: &mut Working,
    meta: &Metamodel,
    operations: &[Operation],
) -> Result<bool, StepFault>
    requires good { Good meta.now model.old }
    ensures done { IfOk result (λ all. all ≡ true → fold_package meta.now model.old operations.now ≡ Some model.new) }
    ensures cannot { IfOk result (λ all. all ≡ false → fold_package meta.now model.old operations.now ≡ None) }
    ensures fault { IfErr result (λ e. e ≢ StepFault.Memory → fold_package meta.now model.old operations.now ≡ None) }
    ensures same { IfOk result (λ all. all ≡ false → model.new ≡ model.old) }
    ensures good { OnOk result (Good meta.now model.new) }
{
    meta.recall_soundness();
    for i in 0..operations.len() {
        let steps = operations[i].steps();
        match model.take_in_order(meta, steps) {
            Ok(()) => {}
            Err(stop) => match stop.fault {
                StepFault::Memory => return Err(StepFault::Memory),
                fault => {
                    return match untake_all(alloc, model, meta, &operations[..i], steps, stop.at) {
                        Ok(()) => Ok(false),
                        Err(_) => Err(fault),
                    };
                }
            },
        }
    }
    Ok(true)
}
