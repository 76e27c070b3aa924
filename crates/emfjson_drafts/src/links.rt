//! The reading of a plain reference's value: the text at each `$ref`, not looked up yet.
ghost use Rattle.std.specs.Prelude.{◌≡◌, IfOk, [], map, Ok};
ghost use Rattle.serde_json.specs.View.{view};
ghost use Rattle.emfjson_drafts.specs.Answers.{AppendsPart};
ghost use Rattle.model_documents.specs.Links.{entries_of, entry_of, links_part};

use crate::attributes::elements;
use crate::held::Held;
use model_documents::{Links, ModelFault};
use serde_json::Value;
use std::alloc::{AllocError, Global};
use texts::{List, Text};

fn entry_of(alloc: Global, value: &Value) -> Result<Option<Text>, AllocError>
    ensures { IfOk result (λ entry. entry ≡ entry_of (view value.now)) }
{
    match value.get("$ref") {
        None => Ok(None),
        Some(reference) => match reference.as_str() {
            None => Ok(None),
            Some(text) => Ok(Some(Text::new(alloc, text)?)),
        },
    }
}

fn entries_in(alloc: Global, values: &[Value]) -> Result<List<Option<Text>>, AllocError>
    ensures { IfOk result (λ entries. entries ≡ map entry_of (map view values.now)) }
{
    let mut entries = List::new(alloc);
    for value in values {
        entries.push(entry_of(alloc, value)?)?;
    }
    Ok(entries)
}

/// The entries under the key of a plain reference; an array is no entry of a single one.
fn entries_of(alloc: Global, single: bool, value: &Value) -> Result<List<Option<Text>>, AllocError>
    ensures { IfOk result (λ entries. entries ≡ entries_of single (view value.now)) }
{
    if single && value.is_array() {
        let mut entries = List::new(alloc);
        entries.push(None)?;
        return Ok(entries);
    }
    entries_in(alloc, elements(value))
}

/// Keeps what stands under the key of a plain reference.
pub(crate) fn links_part(
    alloc: Global,
    held: &mut Held,
    feature: u32,
    single: bool,
    value: &Value,
) -> Result<(), ModelFault>
    ensures { AppendsPart held.old.attrs held.new.attrs held.old.links held.new.links [] [] result (Ok (links_part feature single (view value.now))) }
{
    if value.is_null() {
        return Ok(());
    }
    let entries = entries_of(alloc, single, value)?;
    held.links.push(Links { feature, entries })?;
    Ok(())
}
