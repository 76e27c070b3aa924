//! Operations that stay in memory, without the room that their lists of steps were given and don't use.
#![tactic(auto)]

ghost use Rattle.std.specs.Prelude.{◌≡◌};

use ecore_meta::CompactList;
use model_state::{Operation, Package, Step};
use std::alloc::Global;
use std::mem::replace;
use texts::List;

/// Gives back the room that a list doesn't use.
fn fit_steps(alloc: Global, steps: &mut List<Step>)
    ensures { steps.new ≡ steps.old }
{
    let mut items = replace(steps, List::new(alloc)).into_vec();
    items.shrink_to_fit();
    *steps = List::from_vec(items);
}

/// Gives back the room that a compact list doesn't use.
fn fit_compact(alloc: Global, steps: &mut CompactList<Step>)
    ensures { steps.new ≡ steps.old }
{
    *steps = replace(steps, CompactList::new(alloc)).fitted();
}

fn fit_operation(alloc: Global, operation: &mut Operation)
    ensures { operation.new ≡ operation.old }
{
    match operation {
        Operation::Simple { steps, .. } => fit_compact(alloc, steps),
        Operation::Composite { steps, .. } => fit_steps(alloc, steps),
    }
}

/// The same operations, each with room for its own steps alone. A list that grows by one has room for four at first, and later for twice as many as it
/// has. Where the allocator has no smaller room, a list keeps its own.
pub fn fitted(alloc: Global, operations: Package) -> Vec<Operation>
    ensures { result.items ≡ operations }
{
    let mut fitted = operations.into_vec();
    for operation in fitted.iter_mut() {
        fit_operation(alloc, operation);
    }
    fitted
}
