//! The way from the state of one version to that of another: back to the last version that both have on their paths, and on
//! from there.
ghost use Rattle.std.specs.Prelude.{◌≡◌, ◌<◌, ◌++◌, All, Some, is_some, length, true, IfOk, OnOk};
ghost use Rattle.ecore_meta.specs.Sound.{Sound};
ghost use Rattle.model_state.specs.Good.{Good};
ghost use Rattle.model_state.specs.Packages.{fold_package, steps_all};
ghost use Rattle.model_state.specs.Steps.{fold};
ghost use Rattle.history_tree.specs.States.{operations_of, package_of_version, state_folded, state_of};
ghost use Rattle.version_states.specs.Taking.{LedTo, StepsLedTo};

use crate::states::{copy_steps, follow_versions, push_copies, untake};
use ecore_meta::Metamodel;
use history_tree::History;
use model_state::{Operation, Step, StepFault};
use std::alloc::{AllocError, Global};
use working_model::Working;

/// Takes back operations, and steps after them, which were the last taken. After an error the model is of no use.
pub fn take_back_all(
    alloc: Global,
    model: &mut Working,
    meta: &Metamodel,
    operations: &[Operation],
    steps: &[Step],
) -> Result<(), AllocError>
    requires sound { Sound meta.now }
    requires led { StepsLedTo meta.now (steps_all operations.now ++ steps.now) model.old }
    ensures back { OnOk result (fold meta.now model.new (steps_all operations.now ++ steps.now) ≡ Some model.old) }
    ensures good { OnOk result (Good meta.now model.new) }
{
    let mut taken = copy_steps(alloc, operations)?;
    push_copies(alloc, &mut taken, steps)?;
    untake(alloc, model, meta, taken)
}

/// Takes back the operations of a version, which were the last taken. After an error the model is of no use.
fn take_back_version(
    alloc: Global,
    model: &mut Working,
    meta: &Metamodel,
    history: &History,
    v: u32,
) -> Result<(), AllocError>
    requires sound { Sound meta.now }
    requires there { v < length history.now.history.versions }
    requires led { LedTo meta.now (package_of_version history.now.history.versions v) model.old }
    ensures back { OnOk result (fold_package meta.now model.new (package_of_version history.now.history.versions v) ≡ Some model.old) }
    ensures good { OnOk result (Good meta.now model.new) }
{
    let taken = copy_steps(alloc, history.version(v).package.as_slice())?;
    untake(alloc, model, meta, taken)
}

/// The model goes from the state of a version back to that of the last one before it that another has on its path too. The
/// versions after that one on the path of the other are answered. After an error the model is of no use.
fn way_back(
    alloc: Global,
    model: &mut Working,
    meta: &Metamodel,
    history: &History,
    from: u32,
    to: u32,
) -> Result<Vec<u32>, AllocError>
    requires sound { Sound meta.now }
    requires from { from < length history.now.history.versions }
    requires to { to < length history.now.history.versions }
    requires leads_from { is_some (state_folded meta.now history.now.history from) ≡ true }
    requires leads_to { is_some (state_folded meta.now history.now.history to) ≡ true }
    requires state { model.old ≡ state_of meta.now history.now.history from }
    requires good { Good meta.now model.old }
    ensures leads { IfOk result (λ rest. state_folded meta.now history.now.history to ≡ fold_package meta.now model.new (operations_of history.now.history.versions rest.items)) }
    ensures good { OnOk result (Good meta.now model.new) }
    ensures there { IfOk result (λ rest. All (λ u. u < length history.now.history.versions) rest.items) }
{
    history.recall_wholeness();
    let mut rest = Vec::new(alloc);
    let mut back = from;
    let mut ahead = to;
    while back != ahead {
        if back < ahead {
            rest.push(ahead)?;
            ahead = history.parent_of(ahead);
        } else {
            let parent = history.parent_of(back);
            take_back_version(alloc, model, meta, history, back)?;
            back = parent;
        }
    }
    rest.reverse();
    Ok(rest)
}

/// The model goes from the state of one version to that of another. After an error it is of no use.
pub fn go_over(
    alloc: Global,
    model: &mut Working,
    meta: &Metamodel,
    history: &History,
    from: u32,
    to: u32,
) -> Result<(), AllocError>
    requires sound { Sound meta.now }
    requires from { from < length history.now.history.versions }
    requires to { to < length history.now.history.versions }
    requires leads_from { is_some (state_folded meta.now history.now.history from) ≡ true }
    requires leads_to { is_some (state_folded meta.now history.now.history to) ≡ true }
    requires state { model.old ≡ state_of meta.now history.now.history from }
    requires good { Good meta.now model.old }
    ensures state { OnOk result (model.new ≡ state_of meta.now history.now.history to) }
    ensures good { OnOk result (Good meta.now model.new) }
{
    let rest = way_back(alloc, model, meta, history, from, to)?;
    match follow_versions(model, meta, history, &rest) {
        Ok(()) => Ok(()),
        Err(fault) => match fault {
            StepFault::Memory => Err(AllocError),
            _ => unreachable!(),
        },
    }
}

/// How many steps a version has, and one more. Where these are more than so many, some number above that.
fn weight(history: &History, v: u32, most: usize) -> usize
    requires { v < length history.now.history.versions }
{
    steps_in(history.version(v).package.as_slice(), most).saturating_add(1)
}

/// How many steps lead from the state of one version to that of another, and for each version one more. Where these are more
/// than so many, some number above that.
pub fn steps_between(history: &History, from: u32, to: u32, most: usize) -> usize
    requires from { from < length history.now.history.versions }
    requires to { to < length history.now.history.versions }
{
    let mut count: usize = 0;
    let mut back = from;
    let mut ahead = to;
    while back != ahead && count <= most {
        if back < ahead {
            count = count.saturating_add(weight(history, ahead, most));
            ahead = history.parent_of(ahead);
        } else {
            count = count.saturating_add(weight(history, back, most));
            back = history.parent_of(back);
        }
    }
    count
}

/// How many steps operations have. Where these are more than so many, some number above that.
pub fn steps_in(operations: &[Operation], most: usize) -> usize {
    let mut count: usize = 0;
    for operation in operations {
        count = count.saturating_add(operation.steps().len());
        if count > most {
            return count;
        }
    }
    count
}
