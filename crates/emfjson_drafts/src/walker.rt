//! The walk over the JSON tree that makes a draft of each element, a container before what it contains.
ghost use Rattle.std.specs.Prelude.{◌≡◌, ◌∷◌, [], ◌++◌, ◌<◌, List, None, length};
ghost use Rattle.serde_json.specs.View.{view, items_view, members_view};
ghost use Rattle.emfjson_drafts.specs.Answers.{GivesDrafts, GivesPart, AppendsPart, Walks};
ghost use Rattle.model_documents.specs.Parts.{ids_of, no_part};
ghost use Rattle.model_documents.specs.Walk.{element_rows, feature_part, held_rows, items_rows, key_named, key_part, members_rows, not_object, own_rows, walked};
ghost use Rattle.model_documents.specs.declared.draft.ElementDraft.{ElementDraft};

use crate::attributes::{is_within, many_part, single_part};
use crate::classes::{class_of, key_named};
use crate::drafts::Drafts;
use crate::held::Held;
use crate::identity::id_of;
use crate::links::links_part;
use ecore_meta::{Kind, Metamodel};
use model_documents::{DocParent, ElementDraft, Key, ModelFault};
use model_state::{Id, is_one, upper_of};
use serde_json::{Map, Value};
use std::alloc::Global;
use texts::List;

fn not_object(default: Option<u32>) -> ModelFault
    ensures { result ≡ not_object default }
{
    match default {
        None => ModelFault::NoClass,
        Some(_) => ModelFault::WrongType,
    }
}

/// Reads an element and those inside it. The recursion goes by the JSON tree, whose reader lets 127 levels in at most.
#[cycle(element)]
fn element(
    alloc: Global,
    meta: &Metamodel,
    rows: &mut Drafts,
    parent: Option<DocParent>,
    default: Option<u32>,
    value: &Value,
) -> Result<(), ModelFault>
    ensures { Walks rows.old rows.new result (element_rows meta.now (ids_of rows.old) parent default (view value.now)) }
{
    let other = not_object(default);
    match value {
        Value::Object(members) => match class_of(meta, default, value.get("eClass")) {
            Err(fault) => Err(fault),
            Ok(class) => match id_of(alloc, rows, value.get("_id")) {
                Err(fault) => Err(fault),
                Ok(id) => object(alloc, meta, rows, parent, class, id, members),
            },
        },
        Value::Null => Err(other),
        Value::Bool(_) => Err(other),
        Value::Number(_) => Err(other),
        Value::String(_) => Err(other),
        Value::Array(_) => Err(other),
    }
}

/// Reads an object whose class and id are read: its row comes before those inside it.
#[cycle(element)]
fn object(
    alloc: Global,
    meta: &Metamodel,
    rows: &mut Drafts,
    parent: Option<DocParent>,
    class: u32,
    id: Option<Id>,
    members: &Map<String, Value>,
) -> Result<(), ModelFault>
    ensures { Walks rows.old rows.new result (own_rows parent id class (members_rows meta.now class (length (ids_of rows.old)) (ids_of rows.old ++ id ∷ []) no_part (members_view members.now.entries))) }
{
    let own = rows.len();
    let row = ElementDraft {
        id,
        class,
        parent,
        attrs: List::new(alloc),
        links: List::new(alloc),
    };
    if rows.push(alloc, row).is_err() {
        return Err(ModelFault::Memory);
    }
    match members_of(alloc, meta, rows, class, own, members) {
        Err(fault) => Err(fault),
        Ok(held) => {
            rows.fill(own, held);
            Ok(())
        }
    }
}

/// Reads the keys of an object of the class, whose row has the number `own`.
#[cycle(element)]
fn members_of(
    alloc: Global,
    meta: &Metamodel,
    rows: &mut Drafts,
    class: u32,
    own: usize,
    members: &Map<String, Value>,
) -> Result<Held, ModelFault>
    ensures { GivesPart rows.old rows.new result (members_rows meta.now class own (ids_of rows.old) no_part (members_view members.now.entries)) }
{
    let mut held = Held {
        attrs: List::new(alloc),
        links: List::new(alloc),
    };
    for (key, value) in members.iter() {
        let key = key_named(meta, class, key.as_str());
        match part_of(alloc, meta, rows, own, &mut held, key, value) {
            Err(fault) => return Err(fault),
            Ok(()) => {}
        }
    }
    Ok(held)
}

#[cycle(element)]
fn part_of(
    alloc: Global,
    meta: &Metamodel,
    rows: &mut Drafts,
    own: usize,
    held: &mut Held,
    key: Key,
    value: &Value,
) -> Result<(), ModelFault>
    ensures { AppendsPart held.old.attrs held.new.attrs held.old.links held.new.links rows.old rows.new result (key_part meta.now key (view value.now) (λ f target. held_rows meta.now (ids_of rows.old) (record { row = own; feature = f }) target (view value.now))) }
{
    match key {
        Key::Unknown => Err(ModelFault::NoFeature),
        Key::Own => Ok(()),
        Key::Of(f) => match meta.get_feature(f) {
            None => Ok(()),
            Some(feature) => feature_part(alloc, meta, rows, own, held, f, &feature.kind, value),
        },
    }
}

/// Reads what stands under the key of a feature.
#[cycle(element)]
fn feature_part(
    alloc: Global,
    meta: &Metamodel,
    rows: &mut Drafts,
    own: usize,
    held: &mut Held,
    f: u32,
    kind: &Kind,
    value: &Value,
) -> Result<(), ModelFault>
    ensures { AppendsPart held.old.attrs held.new.attrs held.old.links held.new.links rows.old rows.new result (feature_part meta.now f kind.now (view value.now) (λ f target. held_rows meta.now (ids_of rows.old) (record { row = own; feature = f }) target (view value.now))) }
{
    match kind {
        Kind::Attr { scalar, .. } => single_part(alloc, meta, held, f, scalar, value),
        Kind::AttrMany { scalar, unique } => {
            many_part(alloc, meta, held, f, scalar, *unique, value)
        }
        Kind::Bounded { .. } => links_part(alloc, held, f, is_one(upper_of(meta, f)), value),
        Kind::Free { .. } => links_part(alloc, held, f, is_one(upper_of(meta, f)), value),
        Kind::Contains { target, .. } => {
            let parent = DocParent {
                row: own,
                feature: f,
            };
            held_of(alloc, meta, rows, parent, *target, value)
        }
        Kind::Container { .. } => Ok(()),
        Kind::Skip => Ok(()),
    }
}

/// Reads the elements under the key of a containment.
#[cycle(element)]
fn held_of(
    alloc: Global,
    meta: &Metamodel,
    rows: &mut Drafts,
    parent: DocParent,
    target: u32,
    value: &Value,
) -> Result<(), ModelFault>
    ensures { Walks rows.old rows.new result (held_rows meta.now (ids_of rows.old) parent target (view value.now)) }
{
    match value {
        Value::Null => Ok(()),
        Value::Array(items) => {
            let upper = upper_of(meta, parent.feature);
            if is_one(upper) {
                return Err(ModelFault::WrongType);
            }
            if !is_within(items.len(), upper) {
                return Err(ModelFault::Bound);
            }
            items_of(alloc, meta, rows, Some(parent), Some(target), items)
        }
        Value::Object(_) => {
            if !is_within(1, upper_of(meta, parent.feature)) {
                return Err(ModelFault::Bound);
            }
            element(alloc, meta, rows, Some(parent), Some(target), value)
        }
        Value::Bool(_) => Err(ModelFault::WrongType),
        Value::Number(_) => Err(ModelFault::WrongType),
        Value::String(_) => Err(ModelFault::WrongType),
    }
}

/// Reads a list of elements.
#[cycle(element)]
fn items_of(
    alloc: Global,
    meta: &Metamodel,
    rows: &mut Drafts,
    parent: Option<DocParent>,
    default: Option<u32>,
    items: &Vec<Value>,
) -> Result<(), ModelFault>
    ensures { Walks rows.old rows.new result (items_rows meta.now (ids_of rows.old) parent default [] (items_view items.now.items)) }
{
    for item in items {
        match element(alloc, meta, rows, parent, default, item) {
            Err(fault) => return Err(fault),
            Ok(()) => {}
        }
    }
    Ok(())
}

fn walk_roots(
    alloc: Global,
    meta: &Metamodel,
    rows: &mut Drafts,
    value: &Value,
) -> Result<(), ModelFault>
    requires { rows.old ≡ [] }
    ensures { Walks [] rows.new result (walked meta.now (view value.now)) }
{
    match value {
        Value::Array(items) => items_of(alloc, meta, rows, None, None, items),
        Value::Object(_) => element(alloc, meta, rows, None, None, value),
        Value::Null => Err(ModelFault::NoClass),
        Value::Bool(_) => Err(ModelFault::NoClass),
        Value::Number(_) => Err(ModelFault::NoClass),
        Value::String(_) => Err(ModelFault::NoClass),
    }
}

/// The elements of a document, whose references are not looked up yet.
///
/// # Errors
///
/// The first fault of the walk, so none of a reference; `Memory`.
pub fn walk(alloc: Global, meta: &Metamodel, value: &Value) -> Result<Vec<ElementDraft>, ModelFault>
    ensures { GivesDrafts result (walked meta.now (view value.now)) }
{
    let mut rows = Drafts::new(alloc);
    walk_roots(alloc, meta, &mut rows, value)?;
    Ok(rows.into_rows())
}
