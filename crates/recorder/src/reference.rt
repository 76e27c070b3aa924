//! The recording of `set`, `unset`, `link`, `unlink` and `reorder` of plain references.
ghost use Rattle.std.specs.Prelude.{◌≡◌, ◌⊎◌, IfOk, IfErr, OnOk, None, Some, true, false};
ghost use Rattle.std.specs.FinMap.{get};
ghost use Rattle.ecore_meta.specs.declared.meta.Scalar.TheVariants as types;
ghost use Rattle.model_state.specs.Good.{Good};
ghost use Rattle.model_state.specs.Ident.{is_id};
ghost use Rattle.model_state.specs.Steps.{class_has};
ghost use Rattle.model_state.specs.Typing.{is_plain, kind_of};
ghost use Rattle.model_state.specs.declared.operation.OpKind.TheVariants.{Reference};
ghost use Rattle.emfjson_values.specs.Values.{value_of};
ghost use Rattle.edit_steps.specs.declared.fault.EditFault.TheVariants.{Memory, NoEntry};
ghost use Rattle.edit_steps.specs.References.{holds_one};
ghost use Rattle.edits.specs.Edits.{Forgets, is_listed, link_effect, operation_of, recording, recording_of, refer_effect, reorder_effect, target_in, unlink_effect};
ghost use Rattle.edits.specs.Answers.{Answers};

use crate::feature::{Named, live, read};
use crate::operation::operation;
use ecore_meta::{Metamodel, Scalar, Value};
use edit_steps::{
    EditFault, holds_one, link_steps, reorder_steps, set_ref_steps, unlink_steps, unset_ref_steps,
};
use edits::Recorded;
use model_state::{Id, IdFault, Look, OpKind, Step, is_plain};
use std::alloc::{AllocError, Global};
use texts::{List, Text};

/// What is recorded of the steps of a reference.
fn recorded(steps: List<Step>) -> Recorded
    ensures { result ≡ record { operation = operation_of Reference steps; id = None } }
{
    Recorded {
        operation: operation(OpKind::Reference, steps),
        id: None,
    }
}

/// Whether the feature is a plain reference whose upper bound isn't 1.
fn is_listed(meta: &Metamodel, f: u32) -> bool
    ensures { result ≡ is_listed meta.now f (kind_of meta.now f) }
{
    is_plain(meta, f) && !holds_one(meta, f)
}

/// The target of a list that a word names, where the word is an id.
fn entry(alloc: Global, word: &Text) -> Result<Id, EditFault>
    ensures id { IfOk result (λ id. id ≡ word.now) }
    ensures form { OnOk result (is_id word.now ≡ true) }
    ensures none { IfErr result (λ fault. (fault ≡ Memory) ⊎ (fault ≡ NoEntry) × (is_id word.now ≡ false)) }
{
    match Id::read(alloc, word.as_str()) {
        Ok(id) => Ok(id),
        Err(IdFault::Bad) => Err(EditFault::NoEntry),
        Err(IdFault::Memory) => Err(EditFault::Memory),
    }
}

/// Records that a plain reference of upper bound 1 has the element of that id. Refused with NoElement, WrongType and Bound.
fn refer<L: Look>(
    alloc: Global,
    look: &L,
    meta: &Metamodel,
    named: &Named,
    word: &Text,
) -> Result<Recorded, EditFault>
    requires good { Good meta.now (L.state look.now) }
    requires held { class_has meta.now (get (L.state look.now).kind named.now.id) named.now.feature ≡ true }
    requires plain { is_plain (kind_of meta.now named.now.feature) ≡ true }
    requires one { holds_one meta.now named.now.feature ≡ true }
    ensures { Answers result (recording_of meta.now (L.state look.now) (refer_effect meta.now (L.state look.now) named.now.id named.now.feature (Some word.now))) }
{
    let target = live(alloc, look, word)?;
    let steps = set_ref_steps(alloc, look, meta, &named.id, named.feature, &target)?;
    Ok(recorded(steps))
}

/// Records that a plain reference of upper bound 1 has the element whose id the JSON text is.
///
/// Refused with BadValue, NoElement, WrongType and Bound, in this order.
pub fn set<L: Look>(
    alloc: Global,
    look: &L,
    meta: &Metamodel,
    named: &Named,
    text: &Text,
) -> Result<Recorded, EditFault>
    requires good { Good meta.now (L.state look.now) }
    requires held { class_has meta.now (get (L.state look.now).kind named.now.id) named.now.feature ≡ true }
    requires plain { is_plain (kind_of meta.now named.now.feature) ≡ true }
    requires one { holds_one meta.now named.now.feature ≡ true }
    ensures { Answers result (recording_of meta.now (L.state look.now) (refer_effect meta.now (L.state look.now) named.now.id named.now.feature (target_in (value_of meta.now types.Text text.now)))) }
{
    let Value::Text(word) = read(alloc, meta, &Scalar::Text, text)? else {
        return Err(EditFault::BadValue);
    };
    refer(alloc, look, meta, named, &word)
}

/// Records that all targets of a plain reference are removed, the last first, and their opposites with them.
pub fn unset<L: Look>(
    alloc: Global,
    look: &L,
    meta: &Metamodel,
    named: &Named,
) -> Result<Recorded, AllocError>
    ensures { IfOk result (λ r. r ≡ recording meta.now (L.state look.now) (Forgets named.now.id named.now.feature)) }
{
    let steps = unset_ref_steps(alloc, look, meta, &named.id, named.feature)?;
    Ok(recorded(steps))
}

/// Records that a target is inserted into a plain reference whose upper bound isn't 1, at an index of the others or last.
///
/// Refused with WrongKind, NoElement, WrongType, AlreadyThere, NoEntry and Bound, in this order.
pub fn link<L: Look>(
    alloc: Global,
    look: &L,
    meta: &Metamodel,
    named: &Named,
    target: &Text,
    index: Option<u32>,
) -> Result<Recorded, EditFault>
    requires good { Good meta.now (L.state look.now) }
    requires held { class_has meta.now (get (L.state look.now).kind named.now.id) named.now.feature ≡ true }
    ensures { Answers result (recording_of meta.now (L.state look.now) (link_effect meta.now (L.state look.now) named.now.id named.now.feature (kind_of meta.now named.now.feature) target.now index)) }
{
    if !is_listed(meta, named.feature) {
        return Err(EditFault::WrongKind);
    }
    let target = live(alloc, look, target)?;
    let steps = link_steps(alloc, look, meta, &named.id, named.feature, &target, index)?;
    Ok(recorded(steps))
}

/// Records that a target of a plain reference whose upper bound isn't 1 is removed, and its opposite with it. Refused with
/// WrongKind before NoEntry.
pub fn unlink<L: Look>(
    alloc: Global,
    look: &L,
    meta: &Metamodel,
    named: &Named,
    target: &Text,
) -> Result<Recorded, EditFault>
    requires good { Good meta.now (L.state look.now) }
    requires held { class_has meta.now (get (L.state look.now).kind named.now.id) named.now.feature ≡ true }
    ensures { Answers result (recording_of meta.now (L.state look.now) (unlink_effect meta.now (L.state look.now) named.now.id named.now.feature (kind_of meta.now named.now.feature) target.now)) }
{
    if !is_listed(meta, named.feature) {
        return Err(EditFault::WrongKind);
    }
    let target = entry(alloc, target)?;
    let steps = unlink_steps(alloc, look, meta, &named.id, named.feature, &target)?;
    Ok(recorded(steps))
}

/// Records that a target of a plain reference whose upper bound isn't 1 is put at an index of its list.
///
/// Refused with WrongKind, NoEntry and Bound, in this order.
pub fn reorder<L: Look>(
    alloc: Global,
    look: &L,
    meta: &Metamodel,
    named: &Named,
    target: &Text,
    index: u32,
) -> Result<Recorded, EditFault>
    requires good { Good meta.now (L.state look.now) }
    requires held { class_has meta.now (get (L.state look.now).kind named.now.id) named.now.feature ≡ true }
    ensures { Answers result (recording_of meta.now (L.state look.now) (reorder_effect meta.now (L.state look.now) named.now.id named.now.feature (kind_of meta.now named.now.feature) target.now index)) }
{
    if !is_listed(meta, named.feature) {
        return Err(EditFault::WrongKind);
    }
    let target = entry(alloc, target)?;
    let steps = reorder_steps(alloc, look, meta, &named.id, named.feature, &target, index)?;
    Ok(recorded(steps))
}
