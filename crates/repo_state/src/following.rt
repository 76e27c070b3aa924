//! A working model that is kept goes along with what is recorded. Each call gives none when out of memory.
ghost use Rattle.std.specs.Prelude.{◌≡◌, [], ◌∷◌, IfSome, Some, is_some, true};
ghost use Rattle.ecore_meta.specs.Sound.{Sound};
ghost use Rattle.model_state.specs.Good.{Good};
ghost use Rattle.model_state.specs.Packages.{fold_package};
ghost use Rattle.history_tree.specs.States.{state_of};
ghost use Rattle.version_states.specs.Taking.{LedTo};

use crate::merging::Updated;
use ecore_meta::Metamodel;
use history_tree::History;
use model_state::{Operation, Package};
use std::alloc::{AllocError, Global};
use texts::List;
use version_states::{follow_all, take_back};
use working_model::Working;

/// The model after operations that can all be taken.
pub(crate) fn model_after(
    meta: &Metamodel,
    model: Working,
    operations: &[Operation],
) -> Option<Working>
    requires sound { Sound meta.now }
    requires good { Good meta.now model }
    requires leads { is_some (fold_package meta.now model operations.now) ≡ true }
    ensures after { IfSome result (λ m. fold_package meta.now model operations.now ≡ Some m) }
    ensures good { IfSome result (λ m. Good meta.now m) }
{
    let mut model = model;
    follow_all(&mut model, meta, operations).ok()?;
    Some(model)
}

/// The model before operations, whose steps were the last taken.
pub(crate) fn model_before(
    alloc: Global,
    meta: &Metamodel,
    model: Working,
    package: &Package,
) -> Option<Working>
    requires sound { Sound meta.now }
    requires led { LedTo meta.now «package».now model }
    ensures before { IfSome result (λ m. fold_package meta.now m «package».now ≡ Some model) }
    ensures good { IfSome result (λ m. Good meta.now m) }
{
    let mut model = model;
    take_back(alloc, &mut model, meta, package).ok()?;
    Some(model)
}

/// The model before an operation, whose steps were the last taken.
pub(crate) fn model_before_one(
    alloc: Global,
    meta: &Metamodel,
    model: Working,
    operation: Operation,
) -> Option<Working>
    requires sound { Sound meta.now }
    requires led { LedTo meta.now (operation ∷ []) model }
    ensures before { IfSome result (λ m. fold_package meta.now m (operation ∷ []) ≡ Some model) }
    ensures good { IfSome result (λ m. Good meta.now m) }
{
    let mut package = List::new(alloc);
    match package.push(operation) {
        Ok(()) => model_before(alloc, meta, model, &package),
        Err(_) => None,
    }
}

/// The model after an update. The operations that were local are taken back, to the state of the version `_base`. Then
/// come those of the versions up to the new base, and the operations that are local now.
pub(crate) fn updated_model(
    alloc: Global,
    meta: &Metamodel,
    _history: &History,
    _base: u32,
    model: Working,
    mine: &Package,
    updated: &Updated,
) -> Option<Working>
    requires sound { Sound meta.now }
    requires base { Good meta.now (state_of meta.now _history.now.history _base) }
    requires mine { fold_package meta.now (state_of meta.now _history.now.history _base) mine.now ≡ Some model }
    requires theirs { fold_package meta.now (state_of meta.now _history.now.history _base) updated.now.theirs ≡ Some (state_of meta.now _history.now.history updated.now.base) }
    requires leads { is_some (fold_package meta.now (state_of meta.now _history.now.history updated.now.base) updated.now.operations) ≡ true }
    ensures after { IfSome result (λ m. fold_package meta.now (state_of meta.now _history.now.history updated.now.base) updated.now.operations ≡ Some m) }
    ensures good { IfSome result (λ m. Good meta.now m) }
{
    let before = model_before(alloc, meta, model, mine)?;
    let at_head = model_after(meta, before, updated.theirs.as_slice())?;
    model_after(meta, at_head, updated.operations.as_slice())
}
