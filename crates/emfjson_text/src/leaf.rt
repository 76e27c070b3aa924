//! The texts that nest no element: names of classes, values of attributes, and references.
ghost use Rattle.std.specs.Prelude.{◌≡◌, ◌++◌, ◌∷◌, IfOk, OnOk, map, true, false};
ghost use Rattle.std.specs.Option.{option_copied, option_map, option_map_or};
ghost use Rattle.std.specs.String.{string_bytes};
ghost use Rattle.std.specs.List.{list_all};
ghost use Rattle.serde_json.specs.Data.{string};
ghost use Rattle.serde_json.specs.Written.{compact_text};
ghost use Rattle.ecore_meta.specs.Typing.{fits};
ghost use Rattle.emfjson_values.specs.Values.{data_of};
ghost use Rattle.emfjson_text.specs.Frames.{only, references_text, text_if};
ghost use Rattle.model_texts.specs.Tree.{class_text, entry_ids, listed, reference};

use ecore_meta::{Metamodel, Scalar, Value};
use emfjson_values::write_value;
use model_state::Entry;
use serde_json::Value as Json;
use std::alloc::{AllocError, Global};
use texts::Text;

/// A text as a JSON string.
pub(crate) fn quoted(alloc: Global, text: &str) -> Result<String, AllocError>
    ensures { IfOk result (λ t. string_bytes t ≡ compact_text (string text.now)) }
{
    Json::try_from_str(alloc, text)?.to_string(alloc)
}

/// The text that names a class: the namespace URI, `#//` and the class's name.
pub(crate) fn class_text(alloc: Global, meta: &Metamodel, c: u32) -> Result<String, AllocError>
    ensures { IfOk result (λ t. string_bytes t ≡ class_text meta.now c) }
{
    let mut text = String::from_str(alloc, meta.uri())?;
    text.push_str("#//")?;
    if let Some(class) = meta.get_class(c) {
        text.push_str(class.name.as_str())?;
    }
    Ok(text)
}

/// The text of the value of a single attribute, None where it isn't set.
pub(crate) fn one_value(
    alloc: Global,
    value: Option<&Value>,
    scalar: &Scalar,
    meta: &Metamodel,
) -> Result<Option<Text>, AllocError>
    requires fit { option_map_or (fits meta.now scalar.now) (option_copied value) true ≡ true }
    ensures { IfOk result (λ t. t ≡ text_if (option_map (data_of meta.now scalar.now) (option_copied value.entry))) }
{
    match value {
        None => Ok(None),
        Some(value) => Ok(Some(write_value(alloc, value, scalar, meta)?)),
    }
}

fn push_value(
    alloc: Global,
    out: &mut String,
    value: &Value,
    scalar: &Scalar,
    meta: &Metamodel,
) -> Result<(), AllocError>
    requires fits { fits meta.now scalar.now value.now ≡ true }
    ensures { OnOk result (string_bytes out.new ≡ string_bytes out.old ++ compact_text (data_of meta.now scalar.now value.now)) }
{
    let text = write_value(alloc, value, scalar, meta)?;
    out.push_str(text.as_str())?;
    Ok(())
}

/// The array of the values of an attribute, None where there are none.
pub(crate) fn many_values(
    alloc: Global,
    values: &[Value],
    scalar: &Scalar,
    meta: &Metamodel,
) -> Result<Option<Text>, AllocError>
    requires fit { list_all (fits meta.now scalar.now) values.now ≡ true }
    ensures { IfOk result (λ t. t ≡ text_if (listed false (map (data_of meta.now scalar.now) values.now))) }
{
    if values.is_empty() {
        return Ok(None);
    }
    let mut out = String::from_str(alloc, "[")?;
    let mut later = false;
    for value in values {
        if later {
            out.push_str(",")?;
        }
        push_value(alloc, &mut out, value, scalar, meta)?;
        later = true;
    }
    out.push_str("]")?;
    Ok(Some(Text::new(alloc, out.as_str())?))
}

fn push_reference(alloc: Global, out: &mut String, target: &Entry) -> Result<(), AllocError>
    ensures { OnOk result (string_bytes out.new ≡ string_bytes out.old ++ compact_text (reference target.now.id)) }
{
    let key = quoted(alloc, "$ref")?;
    let id = quoted(alloc, target.id.as_str())?;
    out.push_str("{")?;
    out.push_str(key.as_str())?;
    out.push_str(":")?;
    out.push_str(id.as_str())?;
    out.push_str("}")?;
    Ok(())
}

fn array_of_references(alloc: Global, targets: &[Entry]) -> Result<String, AllocError>
    ensures { IfOk result (λ t. string_bytes t ≡ 91 ∷ references_text false targets.now) }
{
    let mut out = String::from_str(alloc, "[")?;
    let mut later = false;
    for target in targets {
        if later {
            out.push_str(",")?;
        }
        push_reference(alloc, &mut out, target)?;
        later = true;
    }
    out.push_str("]")?;
    Ok(out)
}

fn one_reference(alloc: Global, target: &Entry) -> Result<String, AllocError>
    ensures { IfOk result (λ t. string_bytes t ≡ compact_text (reference target.now.id)) }
{
    let mut out = String::new(alloc);
    push_reference(alloc, &mut out, target)?;
    Ok(out)
}

/// The one entry of a list that may hold one alone; None where the list is written as an array.
pub(crate) fn only(single: bool, entries: &[Entry]) -> Option<&Entry>
    ensures { option_copied result ≡ only single entries.now }
{
    match entries {
        [entry] if single => Some(entry),
        _ => None,
    }
}

/// The text of the references to some elements, None where there are none.
pub(crate) fn references(
    alloc: Global,
    single: bool,
    targets: &[Entry],
) -> Result<Option<Text>, AllocError>
    ensures { IfOk result (λ t. t ≡ text_if (listed single (map reference (entry_ids targets.now)))) }
{
    if targets.is_empty() {
        return Ok(None);
    }
    let text = match only(single, targets) {
        Some(target) => one_reference(alloc, target)?,
        None => array_of_references(alloc, targets)?,
    };
    Ok(Some(Text::new(alloc, text.as_str())?))
}
