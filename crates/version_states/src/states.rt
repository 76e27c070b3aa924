//! Steps and operations taken one by one, and the state of a version.
ghost use Rattle.std.specs.Prelude.{◌≡◌, ◌≢◌, ◌<◌, ◌++◌, All, length, is_some, option_map, true, None, Some, IfOk, OnOk, IfErr};
ghost use Rattle.ecore_meta.specs.Sound.{Sound};
ghost use Rattle.model_state.specs.Faults.{IsFault};
ghost use Rattle.model_state.specs.Good.{Good};
ghost use Rattle.model_state.specs.Packages.{fold_package, steps_all};
ghost use Rattle.model_state.specs.Steps.{fault_along, first_stop, fold};
ghost use Rattle.history_tree.specs.States.{operations_of, state_folded, state_of};
ghost use Rattle.state_form.specs.Spelled.{IsSpelled};
ghost use Rattle.state_cache.specs.Entries.{stands};
ghost use Rattle.version_states.specs.Cached.{AreEncodings, LeavesFirst, MayUse, Uses};
ghost use Rattle.version_states.specs.Taking.{LedTo, StepsLedTo};

use crate::cached::{cached_state, keep_state, nearest};
use ecore_meta::{CompactList, Metamodel};
use history_tree::History;
use model_state::{OpKind, Operation, Package, Step, StepFault};
use page_pool::Pool;
use reversals::reverse;
use state_cache::Cache;
use std::alloc::{AllocError, Global};
use texts::List;
use working_model::Working;

/// The steps of the one operation of a package.
pub fn steps_out(package: Package) -> CompactList<Step>
    requires one { length «package» ≡ 1 }
    ensures { result ≡ steps_all «package» }
{
    let mut package = package;
    match package.pop() {
        Some(Operation::Simple { steps, .. }) => steps,
        Some(Operation::Composite { steps, .. }) => CompactList::from_list(steps),
        None => unreachable!(),
    }
}

/// Takes the steps one by one, up to the first that can't be taken, whose fault it gives.
pub fn take_steps(model: &mut Working, meta: &Metamodel, steps: &[Step]) -> Result<(), StepFault>
    requires good { Good meta.now model.old }
    ensures done { OnOk result (fold meta.now model.old steps.now ≡ Some model.new) }
    ensures cannot { IfErr result (λ e. IsFault (fault_along meta.now model.old steps.now) e) }
    ensures good { Good meta.now model.new }
{
    match model.take_in_order(meta, steps) {
        Ok(()) => Ok(()),
        Err(stop) => Err(stop.fault),
    }
}

/// Takes the steps of operations one by one, up to the first that can't be taken. After an error the model is of no use.
pub fn follow(
    model: &mut Working,
    meta: &Metamodel,
    operations: &[Operation],
) -> Result<(), StepFault>
    requires good { Good meta.now model.old }
    ensures done { OnOk result (fold_package meta.now model.old operations.now ≡ Some model.new) }
    ensures cannot { IfErr result (λ e. e ≢ StepFault.Memory → fold_package meta.now model.old operations.now ≡ None) }
    ensures good { Good meta.now model.new }
{
    for operation in operations {
        take_steps(model, meta, operation.steps())?;
    }
    Ok(())
}

/// Takes the steps of operations that can all be taken, one by one. After an error the model is of no use.
pub fn follow_all(
    model: &mut Working,
    meta: &Metamodel,
    operations: &[Operation],
) -> Result<(), AllocError>
    requires good { Good meta.now model.old }
    requires leads { is_some (fold_package meta.now model.old operations.now) ≡ true }
    ensures done { OnOk result (fold_package meta.now model.old operations.now ≡ Some model.new) }
    ensures good { Good meta.now model.new }
{
    match follow(model, meta, operations) {
        Ok(()) => Ok(()),
        Err(fault) => match fault {
            StepFault::Memory => Err(AllocError),
            _ => unreachable!(),
        },
    }
}

/// Takes back the steps of operations, which were the last taken. After an error the model is of no use.
pub fn take_back(
    alloc: Global,
    model: &mut Working,
    meta: &Metamodel,
    package: &Package,
) -> Result<(), AllocError>
    requires led { LedTo meta.now «package».now model.old }
    ensures back { OnOk result (fold_package meta.now model.new «package».now ≡ Some model.old) }
    ensures good { OnOk result (Good meta.now model.new) }
{
    meta.recall_soundness();
    let reversal = reverse(alloc, package)?;
    follow_all(model, meta, reversal.as_slice())
}

/// Puts copies of steps after those that are there.
pub(crate) fn push_copies(
    alloc: Global,
    out: &mut List<Step>,
    steps: &[Step],
) -> Result<(), AllocError>
    ensures { OnOk result (out.new ≡ out.old ++ steps.now) }
{
    for step in steps {
        out.push(step.copy(alloc)?)?;
    }
    Ok(())
}

/// Copies of the steps of operations, one after another.
pub(crate) fn copy_steps(alloc: Global, operations: &[Operation]) -> Result<List<Step>, AllocError>
    ensures { IfOk result (λ steps. steps ≡ steps_all operations.now) }
{
    let mut steps = List::new(alloc);
    for operation in operations {
        push_copies(alloc, &mut steps, operation.steps())?;
    }
    Ok(steps)
}

/// Takes back steps, which were the last taken. After an error the model is of no use.
pub(crate) fn untake(
    alloc: Global,
    model: &mut Working,
    meta: &Metamodel,
    steps: List<Step>,
) -> Result<(), AllocError>
    requires sound { Sound meta.now }
    requires led { StepsLedTo meta.now steps model.old }
    ensures back { OnOk result (fold meta.now model.new steps ≡ Some model.old) }
    ensures good { OnOk result (Good meta.now model.new) }
{
    // What kind of operation has the steps is nothing to a model.
    let kind = OpKind::Attribute;
    let mut package = List::new(alloc);
    let steps = CompactList::from_list(steps);
    package.push(Operation::Simple { kind, steps })?;
    take_back(alloc, model, meta, &package)
}

/// The number, from 0 over all operations, of the first step that can't be taken, None where each can. The model stays
/// as it is, though the steps before it are taken and taken back. After an error it is of no use.
pub fn stop_in(
    alloc: Global,
    model: &mut Working,
    meta: &Metamodel,
    operations: &[Operation],
) -> Result<Option<u64>, AllocError>
    requires good { Good meta.now model.old }
    ensures stop { IfOk result (λ found. found ≡ option_map (λ x. x.at) (first_stop meta.now model.old (steps_all operations.now))) }
    ensures same { OnOk result (model.new ≡ model.old) }
{
    meta.recall_soundness();
    let mut steps = copy_steps(alloc, operations)?.into_vec();
    match model.take_in_order(meta, steps.as_slice()) {
        Ok(()) => {
            untake(alloc, model, meta, List::from_vec(steps))?;
            Ok(None)
        }
        Err(stop) => match stop.fault {
            StepFault::Memory => Err(AllocError),
            _ => {
                steps.truncate(stop.at as usize);
                untake(alloc, model, meta, List::from_vec(steps))?;
                Ok(Some(stop.at))
            }
        },
    }
}

/// Takes the operations of versions, one version after another. After an error the model is of no use.
pub(crate) fn follow_versions(
    model: &mut Working,
    meta: &Metamodel,
    history: &History,
    versions: &[u32],
) -> Result<(), StepFault>
    requires sound { Sound meta.now }
    requires good { Good meta.now model.old }
    requires there { All (λ u. u < length history.now.history.versions) versions.now }
    ensures done { OnOk result (fold_package meta.now model.old (operations_of history.now.history.versions versions.now) ≡ Some model.new) }
    ensures cannot { IfErr result (λ e. e ≢ StepFault.Memory → fold_package meta.now model.old (operations_of history.now.history.versions versions.now) ≡ None) }
    ensures good { Good meta.now model.new }
{
    for u in versions {
        follow(model, meta, history.version(*u).package.as_slice())?;
    }
    Ok(())
}

/// The state of a version, from the nearest one before it that the cache has.
fn build_state(
    alloc: Global,
    cache: &mut Cache,
    pool: &Pool,
    meta: &Metamodel,
    history: &History,
    v: u32,
) -> Result<Working, AllocError>
    requires sound { Sound meta.now }
    requires there { v < length history.now.history.versions }
    requires leads { is_some (state_folded meta.now history.now.history v) ≡ true }
    requires usable { MayUse pool.now cache.old }
    requires forms { AreEncodings (Some meta.now) history.now.history (stands pool.now cache.old) }
    ensures state { IfOk result (λ m. m ≡ state_of meta.now history.now.history v) }
    ensures good { IfOk result (λ m. Good meta.now m) }
    ensures uses { Uses pool.now pool.now cache.old cache.new }
    ensures forms { AreEncodings (Some meta.now) history.now.history (stands pool.now cache.new) }
{
    let (rest, model) = nearest(alloc, cache, pool, meta, history, v)?;
    let mut model = model;
    match follow_versions(&mut model, meta, history, &rest) {
        Ok(()) => Ok(model),
        Err(fault) => match fault {
            StepFault::Memory => Err(AllocError),
            _ => unreachable!(),
        },
    }
}

/// The state of a version whose operations can be taken. Where its bytes are few enough for an entry the cache keeps
/// it, and its entry then stands first.
pub fn state_at(
    alloc: Global,
    cache: &mut Cache,
    pool: &mut Pool,
    meta: &Metamodel,
    history: &History,
    v: u32,
) -> Result<Working, AllocError>
    requires there { v < length history.now.history.versions }
    requires leads { is_some (state_folded meta.now history.now.history v) ≡ true }
    requires spelled { IsSpelled meta.now (state_of meta.now history.now.history v) }
    requires usable { MayUse pool.old cache.old }
    requires forms { AreEncodings (Some meta.now) history.now.history (stands pool.old cache.old) }
    ensures state { IfOk result (λ m. m ≡ state_of meta.now history.now.history v) }
    ensures good { IfOk result (λ m. Good meta.now m) }
    ensures first { OnOk result (LeavesFirst meta.now history.now.history v cache.new) }
    ensures uses { Uses pool.old pool.new cache.old cache.new }
    ensures forms { AreEncodings (Some meta.now) history.now.history (stands pool.new cache.new) }
{
    meta.recall_soundness();
    if let Some(model) = cached_state(alloc, cache, pool, meta, history, v)? {
        return Ok(model);
    }
    let model = build_state(alloc, cache, pool, meta, history, v)?;
    keep_state(alloc, cache, pool, meta, history, v, model.graph())?;
    Ok(model)
}
