//! The simple operation of a list of steps.
ghost use Rattle.std.specs.Prelude.{◌≡◌, ◌∷◌, [], IfOk};
ghost use Rattle.edits.specs.Edits.{operation_of};

use ecore_meta::CompactList;
use model_state::{OpKind, Operation, Step};
use std::alloc::{AllocError, Global};
use texts::List;

/// A list of one step.
pub fn one_step(alloc: Global, step: Step) -> Result<List<Step>, AllocError>
    ensures { IfOk result (λ steps. steps ≡ step ∷ []) }
{
    let mut steps = List::new(alloc);
    steps.push(step)?;
    Ok(steps)
}

/// The simple operation of the steps, None where there is no step.
pub fn operation(kind: OpKind, steps: List<Step>) -> Option<Operation>
    ensures { result ≡ operation_of kind steps }
{
    if steps.len() == 0 {
        None
    } else {
        Some(Operation::Simple {
            kind,
            steps: CompactList::from_list(steps),
        })
    }
}
