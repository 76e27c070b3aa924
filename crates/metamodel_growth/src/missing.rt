//! The first part of a metamodel that another does not have.
ghost use Rattle.std.specs.Prelude.{◌≡◌, ◌++◌, IfOk, length, map};
ghost use Rattle.std.specs.List.{range_with_len};
ghost use Rattle.std.specs.Option.{option_map};
ghost use Rattle.std.specs.Str.{bytes_eq};
ghost use Rattle.metamodel_growth.specs.Extension.{IsEnumIndex, class_kept, class_name, enum_kept, enum_name, feature_kept, first_lost, full_name, missing};

use crate::kept::{class_kept, enum_kept, feature_kept};
use crate::names::{class_name, enum_name, feature_name, owner_name};
use ecore_meta::Metamodel;
use std::alloc::{AllocError, Global};
use std::collections::BTreeMap;
use texts::Text;

/// The first class that the new metamodel does not have as the old one does.
fn lost_class(alloc: Global, old: &Metamodel, next: &Metamodel) -> Result<Option<u32>, AllocError>
    ensures { IfOk result (λ o. option_map (class_name old.now) o ≡ first_lost (map (λ c. (class_name old.now c, class_kept old.now next.now c)) (range_with_len 0 (length old.now.classes)))) }
{
    for c in 0..old.class_count() {
        if !class_kept(alloc, old, next, c)? {
            return Ok(Some(c));
        }
    }
    Ok(None)
}

/// The same of enums.
fn lost_enum(old: &Metamodel, next: &Metamodel, index: &BTreeMap<String, u32>) -> Option<u32>
    requires { IsEnumIndex index.now next.now }
    ensures { option_map (enum_name old.now) result ≡ first_lost (map (λ e. (enum_name old.now e, enum_kept old.now next.now e)) (range_with_len 0 (length old.now.enums))) }
{
    for e in 0..old.enum_count() {
        if !enum_kept(old, next, index, e) {
            return Some(e);
        }
    }
    None
}

/// The same of features.
fn lost_feature(old: &Metamodel, next: &Metamodel) -> Option<u32>
    ensures { option_map (full_name old.now) result ≡ first_lost (map (λ f. (full_name old.now f, feature_kept old.now next.now f)) (range_with_len 0 (length old.now.features))) }
{
    for f in 0..old.feature_count() {
        if !feature_kept(old, next, f) {
            return Some(f);
        }
    }
    None
}

/// A feature by its class and its name.
fn full_name(alloc: Global, meta: &Metamodel, f: u32) -> Result<Text, AllocError>
    ensures { IfOk result (λ t. t ≡ full_name meta.now f) }
{
    let mut name = String::from_str(alloc, owner_name(meta, f))?;
    name.push_str(".")?;
    name.push_str(feature_name(meta, f))?;
    Text::new(alloc, name.as_str())
}

/// The name of the first class that is lost.
fn missing_class(
    alloc: Global,
    old: &Metamodel,
    next: &Metamodel,
) -> Result<Option<Text>, AllocError>
    ensures { IfOk result (λ o. o ≡ first_lost (map (λ c. (class_name old.now c, class_kept old.now next.now c)) (range_with_len 0 (length old.now.classes)))) }
{
    match lost_class(alloc, old, next)? {
        Some(c) => Ok(Some(Text::new(alloc, class_name(old, c))?)),
        None => Ok(None),
    }
}

/// The same of enums.
fn missing_enum(
    alloc: Global,
    old: &Metamodel,
    next: &Metamodel,
    index: &BTreeMap<String, u32>,
) -> Result<Option<Text>, AllocError>
    requires { IsEnumIndex index.now next.now }
    ensures { IfOk result (λ o. o ≡ first_lost (map (λ e. (enum_name old.now e, enum_kept old.now next.now e)) (range_with_len 0 (length old.now.enums)))) }
{
    match lost_enum(old, next, index) {
        Some(e) => Ok(Some(Text::new(alloc, enum_name(old, e))?)),
        None => Ok(None),
    }
}

/// The same of features.
fn missing_feature(
    alloc: Global,
    old: &Metamodel,
    next: &Metamodel,
) -> Result<Option<Text>, AllocError>
    ensures { IfOk result (λ o. o ≡ first_lost (map (λ f. (full_name old.now f, feature_kept old.now next.now f)) (range_with_len 0 (length old.now.features)))) }
{
    match lost_feature(old, next) {
        Some(f) => Ok(Some(full_name(alloc, old, f)?)),
        None => Ok(None),
    }
}

/// The name of the first enum or else feature that is lost.
#[tactic(auto, using(crate::proofs::CodeLaws::append_some, crate::proofs::CodeLaws::append_none))]
fn missing_later(
    alloc: Global,
    old: &Metamodel,
    next: &Metamodel,
    index: &BTreeMap<String, u32>,
) -> Result<Option<Text>, AllocError>
    requires { IsEnumIndex index.now next.now }
    ensures { IfOk result (λ o. o ≡ first_lost (map (λ e. (enum_name old.now e, enum_kept old.now next.now e)) (range_with_len 0 (length old.now.enums)) ++ map (λ f. (full_name old.now f, feature_kept old.now next.now f)) (range_with_len 0 (length old.now.features)))) }
{
    match missing_enum(alloc, old, next, index)? {
        Some(name) => Ok(Some(name)),
        None => Ok(missing_feature(alloc, old, next)?),
    }
}

fn same_uri(old: &Metamodel, next: &Metamodel) -> bool
    ensures { result ≡ bytes_eq old.now.uri next.now.uri }
{
    old.uri() == next.uri()
}

/// The name of the first part of the old metamodel that the new one does not have; none where it extends the old.
#[tactic(auto, using(crate::proofs::CodeLaws::uri_lost, crate::proofs::CodeLaws::after_uri, crate::proofs::CodeLaws::append_some, crate::proofs::CodeLaws::append_none))]
pub(crate) fn missing(
    alloc: Global,
    old: &Metamodel,
    next: &Metamodel,
    index: &BTreeMap<String, u32>,
) -> Result<Option<Text>, AllocError>
    requires { IsEnumIndex index.now next.now }
    ensures { IfOk result (λ o. o ≡ missing old.now next.now) }
{
    if !same_uri(old, next) {
        return Ok(Some(Text::new(alloc, "nsURI")?));
    }
    match missing_class(alloc, old, next)? {
        Some(name) => Ok(Some(name)),
        None => Ok(missing_later(alloc, old, next, index)?),
    }
}
