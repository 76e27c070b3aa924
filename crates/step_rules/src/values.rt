//! The rule of Put, by which a single attribute changes.
ghost use Rattle.std.specs.Prelude.{◌≡◌, OnOk, OnErr, IfOk, IfErr, [], unwrap_or, true};
ghost use Rattle.std.specs.FinMap.{get};
ghost use Rattle.finite_maps.specs.Maps.{set};
ghost use Rattle.finite_maps.specs.Equal.{option_eq, list_eq};
ghost use Rattle.model_state.specs.Listing.{values_at};
ghost use Rattle.model_state.specs.Lists.{entry_of};
ghost use Rattle.model_state.specs.State.{is_live};
ghost use Rattle.model_state.specs.Typing.{value_eq};
ghost use Rattle.model_state.specs.Steps.{Can, fault, apply, value_fits, not_default, single};
ghost use Rattle.model_state.specs.Faults.{IsFault};
ghost use Rattle.model_state.specs.Good.{Good};
ghost use Rattle.model_state.specs.declared.step.Step.TheVariants.{Put};

use crate::Write;
use crate::queries::has_at;
use ecore_meta::{Metamodel, Value};
use model_state::{Id, StepFault, attr_fits, class_has, is_attr, is_default, is_same_option};
use std::alloc::{AllocError, Global};
use texts::List;

fn may_be(meta: &Metamodel, f: u32, v: &Option<Value>) -> bool
    ensures { result ≡ value_fits meta.now f v.now }
{
    match v {
        None => true,
        Some(v) => attr_fits(meta, f, v),
    }
}

fn is_no_default(meta: &Metamodel, f: u32, v: &Option<Value>) -> bool
    ensures { result ≡ not_default meta.now f v.now }
{
    match v {
        None => true,
        Some(v) => !is_default(meta, f, v),
    }
}

/// Whether the values of an attribute are just the one, or none where there is none.
fn is_just<S: Write>(model: &S, e: &Id, f: u32, v: &Option<Value>) -> bool
    ensures { result ≡ list_eq value_eq (values_at (S.state model.now) e.now f) (unwrap_or (single v.now) []) }
{
    match v {
        None => model.attr_len(e, f) == 0,
        Some(v) => {
            if model.attr_len(e, f) == 1 {
                has_at(model, e, f, 0, v)
            } else {
                false
            }
        }
    }
}

/// Whether the attribute has the value.
fn has_value<S: Write>(model: &S, meta: &Metamodel, e: &Id, f: u32, v: &Option<Value>) -> bool
    requires { Good meta.now (S.state model.now) }
    ensures { result ≡ option_eq (list_eq value_eq) (get (S.state model.now).attr (e.now, f)) (single v.now) }
{
    is_just(model, e, f, v)
}

/// The list of a value that may be missing.
fn list_of(alloc: Global, v: &Option<Value>) -> Result<List<Value>, AllocError>
    ensures { IfOk result (λ l. entry_of l ≡ single v.now) }
{
    let mut values = List::new(alloc);
    if let Some(v) = v {
        values.push(v.copy(alloc)?)?;
    }
    Ok(values)
}

fn write<S: Write>(
    model: &mut S,
    alloc: Global,
    e: &Id,
    f: u32,
    v: &Option<Value>,
) -> Result<(), AllocError>
    requires { is_live (S.state model.old) e.now ≡ true }
    ensures ok { OnOk result (S.state model.new ≡ record (S.state model.old) { attr = set (S.state model.old).attr (e.now, f) (single v.now) }) }
    ensures err { OnErr result (S.state model.new ≡ S.state model.old) }
{
    let values = list_of(alloc, v)?;
    model.put_values(e, f, values)
}

/// Takes a step of the kind Put.
pub fn take_put<S: Write>(
    model: &mut S,
    alloc: Global,
    meta: &Metamodel,
    e: &Id,
    f: u32,
    old: &Option<Value>,
    new: &Option<Value>,
) -> Result<(), StepFault>
    requires { Good meta.now (S.state model.old) }
    ensures can { OnOk result (Can meta.now (S.state model.old) (Put e.now f old.now new.now)) }
    ensures done { OnOk result (S.state model.new ≡ apply meta.now (S.state model.old) (Put e.now f old.now new.now)) }
    ensures cannot { IfErr result (λ x. IsFault (fault meta.now (S.state model.old) (Put e.now f old.now new.now)) x) }
    ensures unchanged { OnErr result (S.state model.new ≡ S.state model.old) }
{
    if model.class(e).is_none() {
        return Err(StepFault::NotThere);
    }
    if !class_has(meta, model.class(e), f) {
        return Err(StepFault::WrongType);
    }
    if !is_attr(meta, f) {
        return Err(StepFault::WrongType);
    }
    if !may_be(meta, f, old) {
        return Err(StepFault::WrongType);
    }
    if !may_be(meta, f, new) {
        return Err(StepFault::WrongType);
    }
    if is_same_option(old, new) {
        return Err(StepFault::BadStep);
    }
    if !is_no_default(meta, f, old) {
        return Err(StepFault::BadStep);
    }
    if !is_no_default(meta, f, new) {
        return Err(StepFault::BadStep);
    }
    if !has_value(model, meta, e, f, old) {
        return Err(StepFault::OldDiffers);
    }
    match write(model, alloc, e, f, new) {
        Ok(()) => Ok(()),
        Err(_) => Err(StepFault::Memory),
    }
}
