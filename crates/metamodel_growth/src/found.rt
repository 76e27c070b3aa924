//! The classes, enums and features of a metamodel that have the names of another's.
ghost use Rattle.std.specs.Prelude.{◌≡◌, ◌++◌, IfOk, None, OnOk, Some, cond, length, nat_eq, option_to_list};
ghost use Rattle.std.specs.BTreeMap.{get_by_text};
ghost use Rattle.std.specs.List.{filter_map, range_with_len};
ghost use Rattle.std.specs.Str.{bytes_eq};
ghost use Rattle.ecore_meta.specs.Ends.{owner_of};
ghost use Rattle.ecore_meta.specs.Names.{Name};
ghost use Rattle.ecore_meta.specs.Values.{or_else};
ghost use Rattle.finite_maps.specs.Equal.{option_eq};
ghost use Rattle.metamodel_growth.specs.Extension.{IsEnumIndex, class_in, declared_named, enum_in, feature_in};

use crate::names::{class_name, enum_name, feature_name, owner_name, owner_of};
use ecore_meta::Metamodel;
use std::alloc::{AllocError, Global};
use std::collections::BTreeMap;

/// Gives the name its number, where the index has none for it.
fn enter(
    alloc: Global,
    name: &str,
    number: u32,
    index: &mut BTreeMap<String, u32>,
) -> Result<(), AllocError>
    ensures { OnOk result ((q : Name) → get_by_text index.new q ≡ or_else (get_by_text index.old q) (cond (bytes_eq q name.now) (Some number) None)) }
{
    if index.contains_key(name) {
        return Ok(());
    }
    let key = String::from_str(alloc, name)?;
    index.insert(key, number)?;
    Ok(())
}

/// The number of each enum by its name.
pub(crate) fn enum_index(
    alloc: Global,
    meta: &Metamodel,
) -> Result<BTreeMap<String, u32>, AllocError>
    ensures { IfOk result (λ m. IsEnumIndex m meta.now) }
{
    let mut index = BTreeMap::new(alloc);
    for e in 0..meta.enum_count() {
        enter(alloc, enum_name(meta, e), e, &mut index)?;
    }
    Ok(index)
}

fn number_in(index: &BTreeMap<String, u32>, name: &str) -> Option<u32>
    ensures { result ≡ get_by_text index.now name.now }
{
    index.get(name).copied()
}

pub(crate) fn class_in(old: &Metamodel, next: &Metamodel, c: u32) -> Option<u32>
    ensures { result ≡ class_in old.now next.now c }
{
    next.class_named(class_name(old, c))
}

/// The enum of the new metamodel that has the name of the old one's; `index` has the new one's.
pub(crate) fn enum_in(
    old: &Metamodel,
    next: &Metamodel,
    index: &BTreeMap<String, u32>,
    e: u32,
) -> Option<u32>
    requires { IsEnumIndex index.now next.now }
    ensures { result ≡ enum_in old.now next.now e }
{
    // For the name of the new one, of which the index tells.
    let _next = next;
    number_in(index, enum_name(old, e))
}

/// Whether the class declares the feature.
fn is_owner(meta: &Metamodel, f: u32, c: u32) -> bool
    ensures { result ≡ option_eq nat_eq (owner_of meta.now f) (Some c) }
{
    match owner_of(meta, f) {
        None => false,
        Some(owner) => owner == c,
    }
}

fn if_owned(meta: &Metamodel, f: u32, c: u32) -> Option<u32>
    ensures { result ≡ cond (option_eq nat_eq (owner_of meta.now f) (Some c)) (Some f) None }
{
    if is_owner(meta, f, c) { Some(f) } else { None }
}

/// The feature of that name that the class declares.
fn declared_named(meta: &Metamodel, c: u32, name: &str) -> Option<u32>
    ensures { result ≡ declared_named meta.now c name.now }
{
    match meta.feature_named(c, name) {
        None => None,
        Some(f) => if_owned(meta, f, c),
    }
}

pub(crate) fn feature_in(old: &Metamodel, next: &Metamodel, f: u32) -> Option<u32>
    ensures { result ≡ feature_in old.now next.now f }
{
    match next.class_named(owner_name(old, f)) {
        None => None,
        Some(c) => declared_named(next, c, feature_name(old, f)),
    }
}

/// Puts what is found behind the others.
fn push_found(found: Option<u32>, numbers: &mut Vec<u32>) -> Result<(), AllocError>
    ensures { OnOk result (numbers.new.items ≡ numbers.old.items ++ option_to_list found) }
{
    match found {
        Some(number) => numbers.push(number)?,
        None => {}
    }
    Ok(())
}

/// The new numbers of the old one's classes, in their order.
pub(crate) fn classes_in(
    alloc: Global,
    old: &Metamodel,
    next: &Metamodel,
) -> Result<Vec<u32>, AllocError>
    ensures { IfOk result (λ v. v.items ≡ filter_map (class_in old.now next.now) (range_with_len 0 (length old.now.classes))) }
{
    let mut numbers = Vec::new(alloc);
    for c in 0..old.class_count() {
        push_found(class_in(old, next, c), &mut numbers)?;
    }
    Ok(numbers)
}

/// The same of its enums.
pub(crate) fn enums_in(
    alloc: Global,
    old: &Metamodel,
    next: &Metamodel,
    index: &BTreeMap<String, u32>,
) -> Result<Vec<u32>, AllocError>
    requires { IsEnumIndex index.now next.now }
    ensures { IfOk result (λ v. v.items ≡ filter_map (enum_in old.now next.now) (range_with_len 0 (length old.now.enums))) }
{
    let mut numbers = Vec::new(alloc);
    for e in 0..old.enum_count() {
        push_found(enum_in(old, next, index, e), &mut numbers)?;
    }
    Ok(numbers)
}

/// The same of its features.
pub(crate) fn features_in(
    alloc: Global,
    old: &Metamodel,
    next: &Metamodel,
) -> Result<Vec<u32>, AllocError>
    ensures { IfOk result (λ v. v.items ≡ filter_map (feature_in old.now next.now) (range_with_len 0 (length old.now.features))) }
{
    let mut numbers = Vec::new(alloc);
    for f in 0..old.feature_count() {
        push_found(feature_in(old, next, f), &mut numbers)?;
    }
    Ok(numbers)
}
