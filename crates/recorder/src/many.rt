//! The recording of `add`, `remove`, `shift` and `unset` of many-valued attributes.
ghost use Rattle.std.specs.Prelude.{◌≡◌, ◌<◌, ◌≤◌, ◌-◌, ◌∷◌, IfOk, [], None, Some, drop, false, length, slice_get, take, true, unwrap_or};
ghost use Rattle.std.specs.List.{list_all};
ghost use Rattle.std.specs.Option.{option_map_or};
ghost use Rattle.finite_maps.specs.Equal.{list_eq};
ghost use Rattle.finite_maps.specs.Maps.{is_below};
ghost use Rattle.ecore_meta.specs.Typing.{upper_of};
ghost use Rattle.model_state.specs.Good.{Good};
ghost use Rattle.model_state.specs.Lists.{shifted};
ghost use Rattle.model_state.specs.Typing.{is_many, kind_of, value_eq};
ghost use Rattle.emfjson_values.specs.Values.{value_of};
ghost use Rattle.model_state.specs.declared.operation.OpKind.TheVariants.{ManyAttribute};
ghost use Rattle.model_state.specs.declared.step.Step.TheVariants.{Del, Ins};
ghost use Rattle.edits.specs.Edits.{Clears, accepts, operation_of, add_effect, insert_effect, recording, recording_of, remove_effect, shift_effect};
ghost use Rattle.edits.specs.Answers.{Answers};
ghost use Rattle.model_state.specs.Listing.{values_at};

use crate::feature::{Named, read};
use crate::operation::{one_step, operation};
use ecore_meta::{Kind, Metamodel, Value};
use edit_steps::{EditFault, dels};
use edits::Recorded;
use model_state::{
    Id, Look, MOST_ENTRIES, OpKind, Step, is_below_bound, is_many, is_same_value, upper_of,
};
use std::alloc::{AllocError, Global};
use texts::{List, Text};

/// Whether a list of n values has room for one more under the upper bound.
fn has_room(meta: &Metamodel, f: u32, n: usize) -> bool
    ensures { result ≡ is_below n (upper_of meta.now f) }
{
    is_below_bound(n, upper_of(meta, f))
}

/// How many values a many-valued attribute has: at most `MOST_ENTRIES`.
fn count<L: Look>(look: &L, meta: &Metamodel, e: &Id, f: u32) -> u32
    requires good { Good meta.now (L.state look.now) }
    requires many { is_many (kind_of meta.now f) ≡ true }
    ensures { result ≡ length (values_at (L.state look.now) e.now f) }
{
    // Only the contract needs it.
    let _meta = meta;
    look.attr_len(e, f) as u32
}

/// What is recorded of one step of a many-valued attribute.
fn one(alloc: Global, step: Step) -> Result<Recorded, AllocError>
    ensures { IfOk result (λ r. r ≡ record { operation = operation_of ManyAttribute (step ∷ []); id = None }) }
{
    let steps = one_step(alloc, step)?;
    Ok(Recorded {
        operation: operation(OpKind::ManyAttribute, steps),
        id: None,
    })
}

/// The step that removes the value at an index.
fn del(alloc: Global, e: &Id, f: u32, at: u32, v: &Value) -> Result<Step, AllocError>
    ensures { IfOk result (λ step. step ≡ Del e.now f at v.now) }
{
    let e = e.copy(alloc)?;
    let v = v.copy(alloc)?;
    Ok(Step::Del { e, f, at, v })
}

/// Records that all values of a many-valued attribute are removed.
pub fn clear<L: Look>(
    alloc: Global,
    look: &L,
    meta: &Metamodel,
    named: &Named,
) -> Result<Recorded, AllocError>
    requires good { Good meta.now (L.state look.now) }
    requires many { is_many (kind_of meta.now named.now.feature) ≡ true }
    ensures { IfOk result (λ r. r ≡ recording meta.now (L.state look.now) (Clears named.now.id named.now.feature)) }
{
    // Only the contract needs it.
    let _meta = meta;
    let values = look.attr(alloc, &named.id, named.feature)?;
    let mut steps = List::new(alloc);
    dels(
        alloc,
        &named.id,
        named.feature,
        values.as_slice(),
        &mut steps,
    )?;
    Ok(Recorded {
        operation: operation(OpKind::ManyAttribute, steps),
        id: None,
    })
}

/// Whether a many-valued attribute takes a value. Refused with AlreadyThere before Bound.
fn takes<L: Look>(
    look: &L,
    meta: &Metamodel,
    named: &Named,
    unique: bool,
    value: &Value,
) -> Result<(), EditFault>
    ensures { result ≡ accepts unique (upper_of meta.now named.now.feature) (values_at (L.state look.now) named.now.id named.now.feature) value.now tt }
{
    if unique && look.attr_has(&named.id, named.feature, value) {
        return Err(EditFault::AlreadyThere);
    }
    let count = look.attr_len(&named.id, named.feature);
    if !has_room(meta, named.feature, count) || count >= MOST_ENTRIES {
        return Err(EditFault::Bound);
    }
    Ok(())
}

/// The step that inserts a value at an index.
fn ins(alloc: Global, e: &Id, f: u32, at: u32, v: Value) -> Result<Step, AllocError>
    ensures { IfOk result (λ step. step ≡ Ins e.now f at v) }
{
    let e = e.copy(alloc)?;
    Ok(Step::Ins { e, f, at, v })
}

/// Records that a value is inserted into a many-valued attribute, at an index of its values or at their end. Refused with
/// AlreadyThere before Bound.
fn add_value<L: Look>(
    alloc: Global,
    look: &L,
    meta: &Metamodel,
    named: &Named,
    unique: bool,
    at: u32,
    value: Value,
) -> Result<Recorded, EditFault>
    ensures { Answers result (recording_of meta.now (L.state look.now) (insert_effect named.now.id named.now.feature unique (upper_of meta.now named.now.feature) (values_at (L.state look.now) named.now.id named.now.feature) at (Some value))) }
{
    takes(look, meta, named, unique, &value)?;
    let step = ins(alloc, &named.id, named.feature, at, value)?;
    Ok(one(alloc, step)?)
}

/// Records that a value is inserted into a many-valued attribute, before the value at the index or last.
///
/// Refused with WrongKind, NoEntry, BadValue, AlreadyThere and Bound, in this order.
pub fn add<L: Look>(
    alloc: Global,
    look: &L,
    meta: &Metamodel,
    named: &Named,
    at: Option<u32>,
    text: &Text,
) -> Result<Recorded, EditFault>
    requires good { Good meta.now (L.state look.now) }
    ensures { Answers result (recording_of meta.now (L.state look.now) (add_effect (value_of meta.now) meta.now (L.state look.now) named.now.id named.now.feature (kind_of meta.now named.now.feature) at text.now)) }
{
    match meta.get_feature(named.feature) {
        None => Err(EditFault::WrongKind),
        Some(feature) => match &feature.kind {
            Kind::AttrMany { scalar, unique } => {
                let end = count(look, meta, &named.id, named.feature);
                let at = at.unwrap_or(end);
                if at > end {
                    return Err(EditFault::NoEntry);
                }
                let value = read(alloc, meta, scalar, text)?;
                add_value(alloc, look, meta, named, *unique, at, value)
            }
            _ => Err(EditFault::WrongKind),
        },
    }
}

/// Records that the value at an index of a many-valued attribute is removed. Refused with WrongKind before NoEntry.
pub fn remove<L: Look>(
    alloc: Global,
    look: &L,
    meta: &Metamodel,
    named: &Named,
    index: u32,
) -> Result<Recorded, EditFault>
    ensures { Answers result (recording_of meta.now (L.state look.now) (remove_effect (L.state look.now) named.now.id named.now.feature (kind_of meta.now named.now.feature) index)) }
{
    if !is_many(meta, named.feature) {
        return Err(EditFault::WrongKind);
    }
    let Some(v) = look.attr_at(&named.id, named.feature, index as usize) else {
        return Err(EditFault::NoEntry);
    };
    let step = del(alloc, &named.id, named.feature, index, v)?;
    Ok(one(alloc, step)?)
}

/// Whether the value at an index of an attribute is the same as another.
fn is_at<L: Look>(look: &L, named: &Named, at: usize, v: &Value) -> bool
    ensures { result ≡ option_map_or (value_eq v.now) (slice_get (values_at (L.state look.now) named.now.id named.now.feature) at) false }
{
    match look.attr_at(&named.id, named.feature, at) {
        None => false,
        Some(x) => is_same_value(v, x),
    }
}

/// Whether the values of an attribute from an index on, up to the one before an end, are all the same as another.
fn are_all<L: Look>(look: &L, named: &Named, from: usize, end: usize, v: &Value) -> bool
    requires { end ≤ length (values_at (L.state look.now) named.now.id named.now.feature) }
    ensures { result ≡ list_all (value_eq v.now) (take (end - from) (drop from (values_at (L.state look.now) named.now.id named.now.feature))) }
{
    for at in from..end {
        if !is_at(look, named, at, v) {
            return false;
        }
    }
    true
}

/// Whether an attribute's list stays the same when the value at one place is taken out and put at another. It does where
/// all that it passes are the same as it, and where no value stands at the one place.
fn stays<L: Look>(look: &L, named: &Named, from: u32, to: u32) -> bool
    requires { to < length (values_at (L.state look.now) named.now.id named.now.feature) }
    ensures { result ≡ list_eq value_eq (shifted (values_at (L.state look.now) named.now.id named.now.feature) from to) (values_at (L.state look.now) named.now.id named.now.feature) }
{
    let Some(v) = look.attr_at(&named.id, named.feature, from as usize) else {
        return true;
    };
    if from <= to {
        are_all(look, named, from as usize + 1, to as usize + 1, v)
    } else {
        are_all(look, named, to as usize, from as usize, v)
    }
}

/// Records that the value at an index of a many-valued attribute is taken out and put at another, unless the list stays the
/// same.
///
/// Refused with WrongKind before NoEntry.
pub fn shift<L: Look>(
    alloc: Global,
    look: &L,
    meta: &Metamodel,
    named: &Named,
    from: u32,
    to: u32,
) -> Result<Recorded, EditFault>
    ensures { Answers result (recording_of meta.now (L.state look.now) (shift_effect (L.state look.now) named.now.id named.now.feature (kind_of meta.now named.now.feature) from to)) }
{
    if !is_many(meta, named.feature) {
        return Err(EditFault::WrongKind);
    }
    let count = look.attr_len(&named.id, named.feature);
    if from as usize >= count || to as usize >= count {
        return Err(EditFault::NoEntry);
    }
    if stays(look, named, from, to) {
        return Ok(Recorded {
            operation: None,
            id: None,
        });
    }
    let step = Step::Shift {
        e: named.id.copy(alloc)?,
        f: named.feature,
        from,
        to,
    };
    Ok(one(alloc, step)?)
}
