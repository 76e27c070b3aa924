//! The rows that a package without a fault describes: classes, features, enums and literals, with names still to be
//! resolved.
ghost use Rattle.std.specs.Prelude.{◌≡◌, IfOk, map, option_copied, string_bytes};
ghost use Rattle.serde_json.specs.View.{view};
ghost use Rattle.serde_json.specs.Find.{get};
ghost use Rattle.ecore_json.specs.Walk.{text_in};
ghost use Rattle.ecore_json.specs.Rows.{text_at, whole_at, elements, link_at, type_name, super_name, super_of, opposite_at, default_at, feature_row, literal_row, class_row, enum_row, classifier_row, own_prefix, rows_of};

use crate::ecore;
use crate::reference::{ecore_name, own_feature, own_name};
use crate::walk::{flag_at, is_a, is_skipped};
use ecore_build::{
    ClassRow, ClassifierRow, EnumRow, FeatureRow, LiteralRow, MetaRows, OppositeRow, TypeName,
};
use serde_json::Value;
use std::alloc::{AllocError, Global};
use texts::{List, Text};

fn text_in<'a>(key: &str, value: &'a Value) -> Option<&'a str>
    ensures { option_copied result ≡ text_in key.now (view value.now) }
{
    match value.get(key) {
        None => None,
        Some(held) => held.as_str(),
    }
}

fn text_at<'a>(key: &str, value: &'a Value) -> &'a str
    ensures { result.now ≡ text_at key.now (view value.now) }
{
    match text_in(key, value) {
        None => "",
        Some(text) => text,
    }
}

fn whole_at(key: &str, default: i64, value: &Value) -> i64
    ensures { result ≡ whole_at key.now default (view value.now) }
{
    match value.get(key) {
        None => default,
        Some(held) => match held.as_i64() {
            None => default,
            Some(n) => n,
        },
    }
}

/// The values of the list at a key, where a single value stands for the list of it alone.
fn elements_at<'a>(key: &str, value: &'a Value) -> &'a [Value]
    ensures { map view result.now ≡ elements (get key.now (view value.now)) }
{
    match value.get(key) {
        None => &[],
        Some(held) => match held.as_array() {
            None => std::slice::from_ref(held),
            Some(items) => items.as_slice(),
        },
    }
}

fn link_at<'a>(key: &str, value: &'a Value) -> &'a str
    ensures { result.now ≡ link_at key.now (view value.now) }
{
    match value.get(key) {
        None => "",
        Some(link) => text_at("$ref", link),
    }
}

fn type_name(alloc: Global, own: &str, text: &str) -> Result<TypeName, AllocError>
    ensures { IfOk result (λ t. t ≡ type_name own.now text.now) }
{
    match ecore_name(text) {
        Some(name) => Ok(TypeName::Ecore(Text::new(alloc, name)?)),
        None => match own_name(own, text) {
            Some(name) => Ok(TypeName::Own(Text::new(alloc, name)?)),
            None => Ok(TypeName::Own(Text::new(alloc, "")?)),
        },
    }
}

fn super_name<'a>(own: &str, text: &'a str) -> &'a str
    ensures { result.now ≡ super_name own.now text.now }
{
    match ecore_name(text) {
        Some(_) => text,
        None => match own_name(own, text) {
            None => "",
            Some(name) => name,
        },
    }
}

fn opposite_at(alloc: Global, own: &str, value: &Value) -> Result<Option<OppositeRow>, AllocError>
    ensures { IfOk result (λ o. o ≡ opposite_at own.now (view value.now)) }
{
    match own_feature(own, link_at("eOpposite", value)) {
        None => Ok(None),
        Some((class, feature)) => Ok(Some(OppositeRow {
            class: Text::new(alloc, class)?,
            feature: Text::new(alloc, feature)?,
        })),
    }
}

fn default_at(alloc: Global, value: &Value) -> Result<Option<Text>, AllocError>
    ensures { IfOk result (λ o. o ≡ default_at (view value.now)) }
{
    if is_a(ecore::REFERENCE, value) {
        return Ok(None);
    }
    match text_in("defaultValueLiteral", value) {
        None => Ok(None),
        Some(text) => Ok(Some(Text::new(alloc, text)?)),
    }
}

fn feature_row(alloc: Global, own: &str, value: &Value) -> Result<FeatureRow, AllocError>
    ensures { IfOk result (λ r. r ≡ feature_row own.now (view value.now)) }
{
    Ok(FeatureRow {
        name: Text::new(alloc, text_at("name", value))?,
        is_reference: is_a(ecore::REFERENCE, value),
        target: type_name(alloc, own, link_at("eType", value))?,
        lower: whole_at("lowerBound", 0, value),
        upper: whole_at("upperBound", 1, value),
        unique: flag_at("unique", true, value),
        containment: flag_at("containment", false, value),
        opposite: opposite_at(alloc, own, value)?,
        default_text: default_at(alloc, value)?,
        skipped: is_skipped(value),
    })
}

fn feature_rows(alloc: Global, own: &str, values: &[Value]) -> Result<List<FeatureRow>, AllocError>
    ensures { IfOk result (λ rows. rows ≡ map (feature_row own.now) (map view values.now)) }
{
    let mut rows = List::new(alloc);
    for value in values {
        rows.push(feature_row(alloc, own, value)?)?;
    }
    Ok(rows)
}

fn super_names(alloc: Global, own: &str, values: &[Value]) -> Result<List<Text>, AllocError>
    ensures { IfOk result (λ names. names ≡ map (super_of own.now) (map view values.now)) }
{
    let mut names = List::new(alloc);
    for value in values {
        let name = super_name(own, text_at("$ref", value));
        names.push(Text::new(alloc, name)?)?;
    }
    Ok(names)
}

fn class_row(alloc: Global, own: &str, value: &Value) -> Result<ClassRow, AllocError>
    ensures { IfOk result (λ r. r ≡ class_row own.now (view value.now)) }
{
    Ok(ClassRow {
        name: Text::new(alloc, text_at("name", value))?,
        is_abstract: flag_at("abstract", false, value),
        supers: super_names(alloc, own, elements_at("eSuperTypes", value))?,
        features: feature_rows(alloc, own, elements_at("eStructuralFeatures", value))?,
    })
}

fn literal_text(value: &Value) -> &str
    ensures { result.now ≡ (literal_row (view value.now)).literal }
{
    match text_in("literal", value) {
        None => text_at("name", value),
        Some(text) => text,
    }
}

fn literal_row(alloc: Global, value: &Value) -> Result<LiteralRow, AllocError>
    ensures { IfOk result (λ r. r ≡ literal_row (view value.now)) }
{
    Ok(LiteralRow {
        name: Text::new(alloc, text_at("name", value))?,
        value: whole_at("value", 0, value),
        literal: Text::new(alloc, literal_text(value))?,
    })
}

fn literal_rows(alloc: Global, values: &[Value]) -> Result<List<LiteralRow>, AllocError>
    ensures { IfOk result (λ rows. rows ≡ map literal_row (map view values.now)) }
{
    let mut rows = List::new(alloc);
    for value in values {
        rows.push(literal_row(alloc, value)?)?;
    }
    Ok(rows)
}

fn enum_row(alloc: Global, value: &Value) -> Result<EnumRow, AllocError>
    ensures { IfOk result (λ r. r ≡ enum_row (view value.now)) }
{
    Ok(EnumRow {
        name: Text::new(alloc, text_at("name", value))?,
        literals: literal_rows(alloc, elements_at("eLiterals", value))?,
    })
}

fn classifier_row(alloc: Global, own: &str, value: &Value) -> Result<ClassifierRow, AllocError>
    ensures { IfOk result (λ r. r ≡ classifier_row own.now (view value.now)) }
{
    if is_a(ecore::CLASS, value) {
        Ok(ClassifierRow::Class(class_row(alloc, own, value)?))
    } else if is_a(ecore::ENUM, value) {
        Ok(ClassifierRow::Enum(enum_row(alloc, value)?))
    } else {
        Ok(ClassifierRow::Plain(Text::new(alloc, text_at("name", value))?))
    }
}

fn classifier_rows(
    alloc: Global,
    own: &str,
    values: &[Value],
) -> Result<List<ClassifierRow>, AllocError>
    ensures { IfOk result (λ rows. rows ≡ map (classifier_row own.now) (map view values.now)) }
{
    let mut rows = List::new(alloc);
    for value in values {
        rows.push(classifier_row(alloc, own, value)?)?;
    }
    Ok(rows)
}

/// What the package's own references begin with, beside `//` and `#//`.
pub(crate) fn own_prefix(alloc: Global, root: &Value) -> Result<String, AllocError>
    ensures { IfOk result (λ s. string_bytes s ≡ own_prefix (view root.now)) }
{
    let mut prefix = String::from_str(alloc, text_at("nsURI", root))?;
    prefix.push_str("#//")?;
    Ok(prefix)
}

/// What a package describes, where its own references begin with `own`.
#[tactic(auto, unfolding(crate::specs::Rows::rows_of))]
pub(crate) fn rows_of(alloc: Global, own: &str, root: &Value) -> Result<MetaRows, AllocError>
    requires { own.now ≡ own_prefix (view root.now) }
    ensures { IfOk result (λ rows. rows ≡ rows_of (view root.now)) }
{
    Ok(MetaRows {
        name: Text::new(alloc, text_at("name", root))?,
        uri: Text::new(alloc, text_at("nsURI", root))?,
        classifiers: classifier_rows(alloc, own, elements_at("eClassifiers", root))?,
    })
}
