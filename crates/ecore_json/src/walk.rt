//! The search for a document's first fault: a walk over the JSON tree, each object's keys in the order of their bytes.
ghost use Rattle.std.specs.Prelude.{◌≡◌, Some, codes, map, option_map};
ghost use Rattle.serde_json.specs.View.{view, items_view, members_view};
ghost use Rattle.serde_json.specs.Find.{get};
ghost use Rattle.ecore_json.specs.Walk.{is_a, classifier_shape, feature_shape, shape_at, has, is_empty_list, is_filled, flag_at, is_skipped, is_single, is_bag, is_generic, left_out, first_lacking, is_before, fits, whole_in, is_of, value_fault, object_fault, array_fault, objects_fault, items_fault, keys_fault};
ghost use Rattle.ecore_json.specs.Table.{required};

use crate::ecore;
use crate::fault::WalkFault;
use crate::reference::{is_feature_name, is_name, is_type_reference, own_feature};
use crate::table::{Position, Shape, ValueKind, Wanted, required, wants};
use ecore_meta::Scalar;
use serde_json::{Map, Value};

/// Whether an object says that it is of that class of Ecore.
pub(crate) fn is_a(class: &str, value: &Value) -> bool
    ensures { result ≡ is_a class.now (view value.now) }
{
    match value.get("eClass") {
        None => false,
        Some(name) => match name.as_str() {
            None => false,
            Some(name) => name == class,
        },
    }
}

fn classifier_shape(value: &Value) -> Option<Shape>
    ensures { result ≡ classifier_shape (view value.now) }
{
    if is_a(ecore::CLASS, value) {
        Some(Shape::Class)
    } else if is_a(ecore::ENUM, value) {
        Some(Shape::Enum)
    } else if is_a(ecore::DATA_TYPE, value) {
        Some(Shape::DataType)
    } else {
        None
    }
}

fn feature_shape(value: &Value) -> Option<Shape>
    ensures { result ≡ feature_shape (view value.now) }
{
    if is_a(ecore::ATTRIBUTE, value) {
        Some(Shape::Attribute)
    } else if is_a(ecore::REFERENCE, value) {
        Some(Shape::Reference)
    } else {
        None
    }
}

fn shape_at(place: Position, value: &Value) -> Option<Shape>
    ensures { result ≡ shape_at place (view value.now) }
{
    match place {
        Position::Root => Some(Shape::Package),
        Position::Classifier => classifier_shape(value),
        Position::Feature => feature_shape(value),
        Position::Literal => Some(Shape::Literal),
        Position::TypeLink => Some(Shape::TypeLink),
        Position::OppositeLink => Some(Shape::OppositeLink),
    }
}

fn has(key: &str, value: &Value) -> bool
    ensures { result ≡ has key.now (view value.now) }
{
    value.get(key).is_some()
}

fn is_filled(key: &str, value: &Value) -> bool
    ensures { result ≡ is_filled (get key.now (view value.now)) }
{
    match value.get(key) {
        None => false,
        Some(held) => match held.as_array() {
            None => true,
            Some(items) => !is_empty(items),
        },
    }
}

fn is_empty(items: &Vec<Value>) -> bool
    ensures { result ≡ is_empty_list (Some (items_view items.now.items)) }
{
    match items.as_slice() {
        [] => true,
        [_, ..] => false,
    }
}

/// The flag at a key, or its default.
pub(crate) fn flag_at(key: &str, default: bool, value: &Value) -> bool
    ensures { result ≡ flag_at key.now default (view value.now) }
{
    match value.get(key) {
        None => default,
        Some(flag) => match flag.as_bool() {
            None => default,
            Some(flag) => flag,
        },
    }
}

/// Whether a feature is volatile, transient or derived.
pub(crate) fn is_skipped(value: &Value) -> bool
    ensures { result ≡ is_skipped (view value.now) }
{
    flag_at("volatile", false, value)
        || flag_at("transient", false, value)
        || flag_at("derived", false, value)
}

fn is_single(value: &Value) -> bool
    ensures { result ≡ is_single (get (codes "upperBound") (view value.now)) }
{
    match value.get("upperBound") {
        None => true,
        Some(bound) => match bound.as_i64() {
            None => false,
            Some(bound) => bound == 1,
        },
    }
}

fn is_bag(value: &Value) -> bool
    ensures { result ≡ is_bag (view value.now) }
{
    !is_skipped(value) && !flag_at("unique", true, value) && !is_single(value)
}

fn is_generic(value: &Value) -> bool
    ensures { result ≡ is_generic (view value.now) }
{
    has("eGenericType", value) && !has("eType", value)
}

/// Whether an object of the shape has a part of Ecore that is left out here.
fn left_out(shape: Shape, value: &Value) -> bool
    ensures { result ≡ left_out shape (view value.now) }
{
    match shape {
        Shape::Package => is_filled("eSubpackages", value),
        Shape::Class => {
            is_filled("eTypeParameters", value)
                || has("eGenericSuperTypes", value) && !has("eSuperTypes", value)
        }
        Shape::Attribute => is_generic(value),
        Shape::Reference => is_filled("eKeys", value) || is_generic(value) || is_bag(value),
        Shape::Enum | Shape::DataType | Shape::Literal | Shape::TypeLink | Shape::OppositeLink => {
            false
        }
    }
}

fn first_lacking(keys: &'static [&'static str], value: &Value) -> Option<&'static str>
    ensures { option_map (λ k. k.now) result ≡ first_lacking (map (λ k. k.now) keys.now) (view value.now) }
{
    for key in keys {
        if !has(*key, value) {
            return Some(*key);
        }
    }
    None
}

fn is_before(lacking: Option<&str>, key: &str) -> bool
    ensures { result ≡ is_before (option_map (λ k. k.now) lacking.entry) key.now }
{
    match lacking {
        None => false,
        Some(name) => name < key,
    }
}

fn is_whole(value: &Value) -> bool
    ensures { result ≡ fits (whole_in (view value.now)) }
{
    match value.as_i64() {
        None => false,
        Some(n) => Scalar::Int.has_whole(n),
    }
}

/// Whether a value is of the kind, where the package's own references begin with `own`.
fn is_of(own: &str, kind: ValueKind, value: &Value) -> bool
    ensures { result ≡ is_of own.now kind (view value.now) }
{
    match kind {
        ValueKind::Anything => true,
        ValueKind::Flag => value.is_boolean(),
        ValueKind::Whole => is_whole(value),
        ValueKind::Text => value.is_string(),
        ValueKind::Name => match value.as_str() {
            None => false,
            Some(text) => is_name(text),
        },
        ValueKind::FeatureName => match value.as_str() {
            None => false,
            Some(text) => is_feature_name(text),
        },
        ValueKind::TypeReference => match value.as_str() {
            None => false,
            Some(text) => is_type_reference(own, text),
        },
        ValueKind::OppositeReference => match value.as_str() {
            None => false,
            Some(text) => own_feature(own, text).is_some(),
        },
    }
}

/// The first fault of the object that stands in a place, if it has one.
#[cycle(walk)]
pub(crate) fn object_fault(own: &str, place: Position, value: &Value) -> Option<WalkFault>
    ensures { result ≡ object_fault own.now place (view value.now) }
{
    match value {
        Value::Object(members) => match shape_at(place, value) {
            None => Some(WalkFault::BadKey),
            Some(shape) => {
                if left_out(shape, value) {
                    return Some(WalkFault::LeftOut);
                }
                let lacking = first_lacking(required(shape), value);
                keys_fault(own, shape, lacking, members)
            }
        },
        Value::Null => Some(WalkFault::BadKey),
        Value::Bool(_) => Some(WalkFault::BadKey),
        Value::Number(_) => Some(WalkFault::BadKey),
        Value::String(_) => Some(WalkFault::BadKey),
        Value::Array(_) => Some(WalkFault::BadKey),
    }
}

#[cycle(walk)]
fn keys_fault(
    own: &str,
    shape: Shape,
    lacking: Option<&'static str>,
    members: &Map<String, Value>,
) -> Option<WalkFault>
    ensures { result ≡ keys_fault own.now shape (option_map (λ k. k.now) lacking.entry) (members_view members.now.entries) }
{
    for (key, value) in members.iter() {
        if is_before(lacking, key.as_str()) {
            return Some(WalkFault::BadKey);
        }
        match value_fault(own, wants(shape, key.as_str()), value) {
            Some(fault) => return Some(fault),
            None => {}
        }
    }
    if lacking.is_some() {
        Some(WalkFault::BadKey)
    } else {
        None
    }
}

#[cycle(walk)]
fn value_fault(own: &str, wanted: Option<Wanted>, value: &Value) -> Option<WalkFault>
    ensures { result ≡ value_fault own.now wanted (view value.now) (λ p. object_fault own.now p (view value.now)) (λ p. array_fault own.now p (view value.now)) }
{
    match wanted {
        None => Some(WalkFault::BadKey),
        Some(Wanted::Value(kind)) => {
            if is_of(own, kind, value) {
                None
            } else {
                Some(WalkFault::BadKey)
            }
        }
        Some(Wanted::Object(place)) => object_fault(own, place, value),
        Some(Wanted::Objects(place)) => objects_fault(own, place, value),
    }
}

#[cycle(walk)]
fn objects_fault(own: &str, place: Position, value: &Value) -> Option<WalkFault>
    ensures { result ≡ objects_fault own.now place (view value.now) }
{
    match value {
        Value::Array(items) => items_fault(own, place, items),
        Value::Object(_) => object_fault(own, place, value),
        Value::Null => Some(WalkFault::BadKey),
        Value::Bool(_) => Some(WalkFault::BadKey),
        Value::Number(_) => Some(WalkFault::BadKey),
        Value::String(_) => Some(WalkFault::BadKey),
    }
}

#[cycle(walk)]
fn items_fault(own: &str, place: Position, items: &Vec<Value>) -> Option<WalkFault>
    ensures { result ≡ items_fault own.now place (items_view items.now.items) }
{
    for item in items {
        match object_fault(own, place, item) {
            Some(fault) => return Some(fault),
            None => {}
        }
    }
    None
}
