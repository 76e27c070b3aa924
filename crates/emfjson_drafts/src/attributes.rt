//! The reading of attributes: single values and lists, tested for type, duplicates and upper bound; a default counts as
//! not set.
ghost use Rattle.std.specs.Prelude.{◌≡◌, ◌∷◌, ◌++◌, true, IfOk, OnOk, [], List, map};
ghost use Rattle.serde_json.specs.View.{view};
ghost use Rattle.ecore_meta.specs.declared.meta.Value as meta_value;
ghost use Rattle.value_counts.specs.Counts.{Counts};
ghost use Rattle.emfjson_values.specs.Values.{value_in};
ghost use Rattle.model_documents.specs.declared.fault.ModelFault.TheVariants.{BadValue};
ghost use Rattle.emfjson_drafts.specs.Answers.{Gives, AppendsPart};
ghost use Rattle.finite_maps.specs.Maps.{is_within};
ghost use Rattle.model_documents.specs.Attributes.{elements, many_part, may_hold, next_value, single_part, values_in};
ghost use Rattle.model_documents.specs.Reads.{found};

use crate::held::Held;
use ecore_meta::{Metamodel, Scalar, Value};
use emfjson_values::value_in;
use model_documents::{DocAttr, ModelFault};
use model_state::{MOST_ENTRIES, is_default, upper_of};
use serde_json::Value as Json;
use std::alloc::{AllocError, Global};
use texts::List;
use value_counts::ValueCounts;

/// The values of a list, where a single value stands for the list of it alone.
pub(crate) fn elements(json: &Json) -> &[Json]
    ensures { map view result.now ≡ elements (view json.now) }
{
    match json.as_array() {
        None => std::slice::from_ref(json),
        Some(items) => items.as_slice(),
    }
}

/// Whether so many entries are within the bound, if there is one.
pub fn is_within(count: usize, upper: Option<u64>) -> bool
    ensures { result ≡ is_within count upper }
{
    match upper {
        None => true,
        Some(upper) => count as u64 <= upper,
    }
}

/// Whether an attribute may hold so many values: none holds more than 2^32 - 1.
fn may_hold(meta: &Metamodel, feature: u32, count: usize) -> bool
    ensures { result ≡ may_hold meta.now feature count }
{
    is_within(count, upper_of(meta, feature)) && count <= MOST_ENTRIES
}

fn value_of(
    alloc: Global,
    meta: &Metamodel,
    scalar: &Scalar,
    json: &Json,
) -> Result<Value, ModelFault>
    ensures { Gives result (found BadValue (value_in meta.now scalar.now (view json.now))) }
{
    match value_in(alloc, json, scalar, meta)? {
        None => Err(ModelFault::BadValue),
        Some(value) => Ok(value),
    }
}

/// The next value of a list after those before it, which are counted where each is held once.
fn next_value(
    alloc: Global,
    meta: &Metamodel,
    scalar: &Scalar,
    unique: bool,
    seen: &ValueCounts,
    json: &Json,
) -> Result<Value, ModelFault>
    ensures { (vs : List meta_value.Value) → (unique ≡ true → Counts seen.now vs) → Gives result (next_value meta.now scalar.now unique vs (view json.now)) }
{
    let value = value_of(alloc, meta, scalar, json)?;
    if unique && seen.has(&value) {
        return Err(ModelFault::BadValue);
    }
    Ok(value)
}

/// Counts the value, where each is held once.
fn note(seen: &mut ValueCounts, unique: bool, value: &Value) -> Result<(), AllocError>
    ensures { (vs : List meta_value.Value) → (unique ≡ true → Counts seen.old vs) → OnOk result (unique ≡ true → Counts seen.new (vs ++ value.now ∷ [])) }
{
    if unique {
        seen.add(value)?;
    }
    Ok(())
}

fn values_in(
    alloc: Global,
    meta: &Metamodel,
    scalar: &Scalar,
    unique: bool,
    items: &[Json],
) -> Result<List<Value>, ModelFault>
    ensures { Gives result (values_in meta.now scalar.now unique (map view items.now)) }
{
    let mut values = List::new(alloc);
    let mut seen = ValueCounts::new(alloc);
    for item in items {
        let value = next_value(alloc, meta, scalar, unique, &seen, item)?;
        note(&mut seen, unique, &value)?;
        values.push(value)?;
    }
    Ok(values)
}

fn alone(alloc: Global, value: Value) -> Result<List<Value>, AllocError>
    ensures { IfOk result (λ values. values ≡ value ∷ []) }
{
    let mut values = List::new(alloc);
    values.push(value)?;
    Ok(values)
}

/// Reads a single attribute. A default counts as not set.
pub(crate) fn single_part(
    alloc: Global,
    meta: &Metamodel,
    held: &mut Held,
    feature: u32,
    scalar: &Scalar,
    json: &Json,
) -> Result<(), ModelFault>
    ensures { AppendsPart held.old.attrs held.new.attrs held.old.links held.new.links [] [] result (single_part meta.now feature scalar.now (view json.now)) }
{
    if json.is_null() {
        return Ok(());
    }
    let value = value_of(alloc, meta, scalar, json)?;
    if is_default(meta, feature, &value) {
        return Ok(());
    }
    let values = alone(alloc, value)?;
    held.attrs.push(DocAttr { feature, values })?;
    Ok(())
}

/// Reads a many-valued attribute. A list without values is not set.
pub(crate) fn many_part(
    alloc: Global,
    meta: &Metamodel,
    held: &mut Held,
    feature: u32,
    scalar: &Scalar,
    unique: bool,
    json: &Json,
) -> Result<(), ModelFault>
    ensures { AppendsPart held.old.attrs held.new.attrs held.old.links held.new.links [] [] result (many_part meta.now feature scalar.now unique (view json.now)) }
{
    if json.is_null() {
        return Ok(());
    }
    let values = values_in(alloc, meta, scalar, unique, elements(json))?;
    if !may_hold(meta, feature, values.len()) {
        return Err(ModelFault::Bound);
    }
    if values.len() == 0 {
        return Ok(());
    }
    held.attrs.push(DocAttr { feature, values })?;
    Ok(())
}
