//! The recording of `set` and `unset`, by the kind of the feature; a default is held as no value.
ghost use Rattle.std.specs.Prelude.{◌≡◌, ◌∷◌, [], IfOk, None, true};
ghost use Rattle.std.specs.FinMap.{get};
ghost use Rattle.model_state.specs.Good.{Good};
ghost use Rattle.model_state.specs.Steps.{class_has};
ghost use Rattle.model_state.specs.Typing.{kind_of};
ghost use Rattle.model_state.specs.declared.operation.OpKind.TheVariants.{Attribute};
ghost use Rattle.model_state.specs.declared.step.Step.TheVariants.{Put};
ghost use Rattle.emfjson_values.specs.Values.{value_of};
ghost use Rattle.edit_steps.specs.Attributes.{single_value, put_made, taken};
ghost use Rattle.edits.specs.Edits.{operation_of, recording_of, set_effect, unset_effect};
ghost use Rattle.edits.specs.Answers.{Answers};

use crate::feature::{Named, read};
use crate::operation::{one_step, operation};
use crate::{many, reference};
use ecore_meta::{Kind, Metamodel, Value};
use edit_steps::{EditFault, holds_one};
use edits::Recorded;
use model_state::{Id, Look, OpKind, Step, is_attr, is_default, is_many, is_plain, is_same_option};
use std::alloc::{AllocError, Global};
use texts::{List, Text};

/// The single value of an attribute, None where it isn't set.
fn single_value<L: Look>(
    alloc: Global,
    look: &L,
    e: &Id,
    f: u32,
) -> Result<Option<Value>, AllocError>
    ensures { IfOk result (λ v. v ≡ single_value (get (L.state look.now).attr (e.now, f))) }
{
    match look.attr_at(e, f, 0) {
        None => Ok(None),
        Some(v) => Ok(Some(v.copy(alloc)?)),
    }
}

/// The value as it is held: a default isn't.
fn taken(meta: &Metamodel, f: u32, v: Value) -> Option<Value>
    ensures { result ≡ taken meta.now f v }
{
    if is_default(meta, f, &v) {
        None
    } else {
        Some(v)
    }
}

/// The one step that gives a single attribute a value for its old one.
fn put_step(
    alloc: Global,
    e: &Id,
    f: u32,
    old: Option<Value>,
    new: Option<Value>,
) -> Result<List<Step>, AllocError>
    ensures { IfOk result (λ steps. steps ≡ Put e.now f old new ∷ []) }
{
    let e = e.copy(alloc)?;
    one_step(alloc, Step::Put { e, f, old, new })
}

/// The step that gives a single attribute the value, or none; no step where it has it.
fn put_steps<L: Look>(
    alloc: Global,
    look: &L,
    e: &Id,
    f: u32,
    new: Option<Value>,
) -> Result<List<Step>, AllocError>
    ensures { IfOk result (λ steps. steps ≡ put_made (L.state look.now) e.now f new) }
{
    let old = single_value(alloc, look, e, f)?;
    if is_same_option(&old, &new) {
        Ok(List::new(alloc))
    } else {
        put_step(alloc, e, f, old, new)
    }
}

/// Records that a single attribute has the value, or none.
pub fn put<L: Look>(
    alloc: Global,
    look: &L,
    named: &Named,
    new: Option<Value>,
) -> Result<Recorded, AllocError>
    ensures { IfOk result (λ r. r ≡ record { operation = operation_of Attribute (put_made (L.state look.now) named.now.id named.now.feature new); id = None }) }
{
    let steps = put_steps(alloc, look, &named.id, named.feature, new)?;
    Ok(Recorded {
        operation: operation(OpKind::Attribute, steps),
        id: None,
    })
}

/// Records that a single attribute gets a value, which is not held where it is the default. Or that a plain reference
/// of upper bound 1 gets the element whose id the value is.
///
/// Refused with WrongKind and BadValue, and for a reference then with NoElement, WrongType and Bound, in this order.
pub fn set<L: Look>(
    alloc: Global,
    look: &L,
    meta: &Metamodel,
    named: &Named,
    text: &Text,
) -> Result<Recorded, EditFault>
    requires good { Good meta.now (L.state look.now) }
    requires held { class_has meta.now (get (L.state look.now).kind named.now.id) named.now.feature ≡ true }
    ensures { Answers result (recording_of meta.now (L.state look.now) (set_effect (value_of meta.now) meta.now (L.state look.now) named.now.id named.now.feature (kind_of meta.now named.now.feature) text.now)) }
{
    match meta.get_feature(named.feature) {
        None => Err(EditFault::WrongKind),
        Some(feature) => match &feature.kind {
            Kind::Attr { scalar, .. } => {
                let value = read(alloc, meta, scalar, text)?;
                Ok(put(alloc, look, named, taken(meta, named.feature, value))?)
            }
            Kind::Bounded { .. } => {
                if !holds_one(meta, named.feature) {
                    return Err(EditFault::WrongKind);
                }
                reference::set(alloc, look, meta, named, text)
            }
            _ => Err(EditFault::WrongKind),
        },
    }
}

/// Records that all values of an attribute are removed, or all targets of a plain reference. Refused with WrongKind.
pub fn unset<L: Look>(
    alloc: Global,
    look: &L,
    meta: &Metamodel,
    named: &Named,
) -> Result<Recorded, EditFault>
    requires good { Good meta.now (L.state look.now) }
    ensures { Answers result (recording_of meta.now (L.state look.now) (unset_effect named.now.id named.now.feature (kind_of meta.now named.now.feature))) }
{
    if is_attr(meta, named.feature) {
        Ok(put(alloc, look, named, None)?)
    } else if is_many(meta, named.feature) {
        Ok(many::clear(alloc, look, meta, named)?)
    } else if is_plain(meta, named.feature) {
        Ok(reference::unset(alloc, look, meta, named)?)
    } else {
        Err(EditFault::WrongKind)
    }
}
