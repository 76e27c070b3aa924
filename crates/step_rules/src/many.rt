//! The rules of Ins, Del and Shift, by which the list of a many-valued attribute changes.
ghost use Rattle.std.specs.Prelude.{◌≡◌, OnOk, OnErr, IfErr};
ghost use Rattle.model_state.specs.Steps.{Can, fault, apply};
ghost use Rattle.model_state.specs.Faults.{IsFault};
ghost use Rattle.model_state.specs.Good.{Good};
ghost use Rattle.model_state.specs.declared.step.Step.TheVariants.{Ins, Del, Shift};

use crate::Write;
use crate::queries::has_at;
use ecore_meta::{Metamodel, Value};
use model_state::{
    Id, MOST_ENTRIES, StepFault, class_has, is_below_bound, is_many, is_unique, many_fits, upper_of,
};
use std::alloc::Global;

/// Takes a step of the kind Ins.
pub fn take_ins<S: Write>(
    model: &mut S,
    alloc: Global,
    meta: &Metamodel,
    e: &Id,
    f: u32,
    at: u32,
    v: &Value,
) -> Result<(), StepFault>
    requires { Good meta.now (S.state model.old) }
    ensures can { OnOk result (Can meta.now (S.state model.old) (Ins e.now f at v.now)) }
    ensures done { OnOk result (S.state model.new ≡ apply meta.now (S.state model.old) (Ins e.now f at v.now)) }
    ensures cannot { IfErr result (λ x. IsFault (fault meta.now (S.state model.old) (Ins e.now f at v.now)) x) }
    ensures unchanged { OnErr result (S.state model.new ≡ S.state model.old) }
{
    if model.class(e).is_none() {
        return Err(StepFault::NotThere);
    }
    if !class_has(meta, model.class(e), f) {
        return Err(StepFault::WrongType);
    }
    if !is_many(meta, f) {
        return Err(StepFault::WrongType);
    }
    if !many_fits(meta, f, v) {
        return Err(StepFault::WrongType);
    }
    let count = model.attr_len(e, f);
    if at as usize > count {
        return Err(StepFault::BadStep);
    }
    if is_unique(meta, f) && model.attr_has(e, f, v) {
        return Err(StepFault::There);
    }
    if !is_below_bound(count, upper_of(meta, f)) {
        return Err(StepFault::Bound);
    }
    if count >= MOST_ENTRIES {
        return Err(StepFault::Bound);
    }
    match model.insert_value(alloc, e, f, at as usize, v) {
        Ok(()) => Ok(()),
        Err(_) => Err(StepFault::Memory),
    }
}

/// Takes a step of the kind Del.
pub fn take_del<S: Write>(
    model: &mut S,
    alloc: Global,
    meta: &Metamodel,
    e: &Id,
    f: u32,
    at: u32,
    v: &Value,
) -> Result<(), StepFault>
    requires { Good meta.now (S.state model.old) }
    ensures can { OnOk result (Can meta.now (S.state model.old) (Del e.now f at v.now)) }
    ensures done { OnOk result (S.state model.new ≡ apply meta.now (S.state model.old) (Del e.now f at v.now)) }
    ensures cannot { IfErr result (λ x. IsFault (fault meta.now (S.state model.old) (Del e.now f at v.now)) x) }
    ensures unchanged { OnErr result (S.state model.new ≡ S.state model.old) }
{
    if model.class(e).is_none() {
        return Err(StepFault::NotThere);
    }
    if !class_has(meta, model.class(e), f) {
        return Err(StepFault::WrongType);
    }
    if !is_many(meta, f) {
        return Err(StepFault::WrongType);
    }
    if !many_fits(meta, f, v) {
        return Err(StepFault::WrongType);
    }
    if at as usize >= model.attr_len(e, f) {
        return Err(StepFault::BadStep);
    }
    if !has_at(model, e, f, at as usize, v) {
        return Err(StepFault::OldDiffers);
    }
    match model.remove_value(alloc, e, f, at as usize) {
        Ok(()) => Ok(()),
        Err(_) => Err(StepFault::Memory),
    }
}

/// Takes a step of the kind Shift.
pub fn take_shift<S: Write>(
    model: &mut S,
    alloc: Global,
    meta: &Metamodel,
    e: &Id,
    f: u32,
    from: u32,
    to: u32,
) -> Result<(), StepFault>
    requires { Good meta.now (S.state model.old) }
    ensures can { OnOk result (Can meta.now (S.state model.old) (Shift e.now f from to)) }
    ensures done { OnOk result (S.state model.new ≡ apply meta.now (S.state model.old) (Shift e.now f from to)) }
    ensures cannot { IfErr result (λ x. IsFault (fault meta.now (S.state model.old) (Shift e.now f from to)) x) }
    ensures unchanged { OnErr result (S.state model.new ≡ S.state model.old) }
{
    if model.class(e).is_none() {
        return Err(StepFault::NotThere);
    }
    if !class_has(meta, model.class(e), f) {
        return Err(StepFault::WrongType);
    }
    if !is_many(meta, f) {
        return Err(StepFault::WrongType);
    }
    if from == to {
        return Err(StepFault::BadStep);
    }
    let count = model.attr_len(e, f);
    if from as usize >= count {
        return Err(StepFault::BadStep);
    }
    if to as usize >= count {
        return Err(StepFault::BadStep);
    }
    match model.shift_value(alloc, e, f, from as usize, to as usize) {
        Ok(()) => Ok(()),
        Err(_) => Err(StepFault::Memory),
    }
}
