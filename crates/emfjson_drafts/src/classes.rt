//! The class of an object by its `eClass`, and the feature that a key of the object names.
ghost use Rattle.std.specs.Prelude.{◌≡◌, option_copied, option_map};
ghost use Rattle.serde_json.specs.View.{view};
ghost use Rattle.ecore_meta.specs.Meta.{feature_named};
ghost use Rattle.ecore_json.specs.References.{after_prefix};
ghost use Rattle.model_documents.specs.Classes.{class_after, class_of, class_said, class_spelled, may_stand};
ghost use Rattle.model_documents.specs.Walk.{key_named};
ghost use Rattle.emfjson_drafts.specs.Answers.{Gives};

use ecore_meta::Metamodel;
use model_documents::{Key, ModelFault};
use model_state::is_concrete;
use serde_json::Value;

/// What stands after the prefix of a text.
pub fn after_prefix<'a>(prefix: &str, text: &'a str) -> Option<&'a str>
    ensures { option_copied result ≡ after_prefix prefix.now text.now }
{
    text.strip_prefix(prefix)
}

fn class_after(meta: &Metamodel, prefix: &str, text: &str) -> Option<u32>
    ensures { result ≡ class_after meta.now prefix.now text.now }
{
    match after_prefix(prefix, text) {
        None => None,
        Some(name) => meta.class_named(name),
    }
}

/// The class that a text names: `//Name`, `#//Name`, or the latter after the package's URI.
fn class_spelled(meta: &Metamodel, text: &str) -> Option<u32>
    ensures { result ≡ class_spelled meta.now text.now }
{
    if let Some(class) = class_after(meta, "//", text) {
        return Some(class);
    }
    if let Some(class) = class_after(meta, "#//", text) {
        return Some(class);
    }
    match after_prefix(meta.uri(), text) {
        None => None,
        Some(rest) => class_after(meta, "#//", rest),
    }
}

fn class_said(
    meta: &Metamodel,
    default: Option<u32>,
    said: Option<&Value>,
) -> Result<u32, ModelFault>
    ensures { Gives result (class_said meta.now default (option_map (λ v. view v.now) said.entry)) }
{
    match said {
        None => match default {
            None => Err(ModelFault::NoClass),
            Some(class) => Ok(class),
        },
        Some(Value::String(text)) => match class_spelled(meta, text.as_str()) {
            None => Err(ModelFault::NoClass),
            Some(class) => Ok(class),
        },
        Some(_) => Err(ModelFault::NoClass),
    }
}

fn may_stand(meta: &Metamodel, default: Option<u32>, class: u32) -> bool
    ensures { result ≡ may_stand meta.now default class }
{
    match default {
        None => true,
        Some(target) => meta.is_a(class, target),
    }
}

/// The class of an object that says this of its class, where elements of the default are due; a root has none.
pub(crate) fn class_of(
    meta: &Metamodel,
    default: Option<u32>,
    said: Option<&Value>,
) -> Result<u32, ModelFault>
    ensures { Gives result (class_of meta.now default (option_map (λ v. view v.now) said.entry)) }
{
    let class = class_said(meta, default, said)?;
    if !is_concrete(meta, class) {
        return Err(ModelFault::Abstract);
    }
    if !may_stand(meta, default, class) {
        return Err(ModelFault::WrongType);
    }
    Ok(class)
}

/// What a key of an object of the class is.
pub(crate) fn key_named(meta: &Metamodel, class: u32, name: &str) -> Key
    ensures { result ≡ key_named meta.now class name.now }
{
    if name == "eClass" || name == "_id" {
        return Key::Own;
    }
    match meta.feature_named(class, name) {
        None => Key::Unknown,
        Some(f) => Key::Of(f),
    }
}
