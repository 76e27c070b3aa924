//! Whether a part of a metamodel is kept in another.
ghost use Rattle.std.specs.Prelude.{◌≡◌, ◌&&◌, IfOk, false, slice_get};
ghost use Rattle.std.specs.List.{list_all};
ghost use Rattle.std.specs.Option.{option_and_then, option_copied, option_map_or};
ghost use Rattle.ecore_meta.specs.Above.{above_of};
ghost use Rattle.ecore_meta.specs.Meta.{is_a};
ghost use Rattle.ecore_meta.specs.Typing.{literals_of};
ghost use Rattle.metamodel_growth.specs.Extension.{IsEnumIndex, class_in, class_kept, enum_kept, feature_in, feature_kept};

use crate::compare::{begins, parts_same, same_flag};
use crate::found::{class_in, enum_in, feature_in};
use crate::names::is_abstract;
use ecore_meta::{EnumLiteral, Feature, Metamodel};
use std::alloc::{AllocError, Global};
use std::collections::BTreeMap;

/// The classes that a class is, by number.
pub(crate) fn above_of(alloc: Global, meta: &Metamodel, c: u32) -> Result<Vec<u32>, AllocError>
    ensures { IfOk result (λ v. v.items ≡ above_of meta.now c) }
{
    match meta.above(c) {
        None => Ok(Vec::new(alloc)),
        Some(set) => {
            let classes: Vec<u32> = set.iter().copied().collect(alloc)?;
            Ok(classes)
        }
    }
}

/// Whether the class d of the new metamodel is, or is below, the class that has there the name of b in the old one.
fn is_named(old: &Metamodel, next: &Metamodel, d: u32, b: u32) -> bool
    ensures { result ≡ option_map_or (is_a next.now d) (class_in old.now next.now b) false }
{
    match class_in(old, next, b) {
        None => false,
        Some(found) => next.is_a(d, found),
    }
}

/// Whether that holds of each of the classes.
fn all_named(old: &Metamodel, next: &Metamodel, d: u32, classes: &[u32]) -> bool
    ensures { result ≡ list_all (λ b. option_map_or (is_a next.now d) (class_in old.now next.now b) false) classes.now }
{
    classes.iter().all(|b| is_named(old, next, d, *b))
}

/// Whether the new metamodel has the class with its flag, below what it is below in the old one.
pub(crate) fn class_kept(
    alloc: Global,
    old: &Metamodel,
    next: &Metamodel,
    c: u32,
) -> Result<bool, AllocError>
    ensures { IfOk result (λ b. b ≡ class_kept old.now next.now c) }
{
    match class_in(old, next, c) {
        None => Ok(false),
        Some(d) => {
            let classes = above_of(alloc, old, c)?;
            Ok(
                same_flag(is_abstract(old, c), is_abstract(next, d))
                    && all_named(old, next, d, classes.as_slice()),
            )
        }
    }
}

/// The literals of an enum, none where there is no such enum.
pub(crate) fn literals_of(meta: &Metamodel, e: u32) -> &[EnumLiteral]
    ensures { result.now ≡ literals_of meta.now e }
{
    match meta.get_enum(e) {
        None => &[],
        Some(found) => found.literals.as_slice(),
    }
}

/// Whether the new metamodel has the enum, and its literals begin with those of the old one.
pub(crate) fn enum_kept(
    old: &Metamodel,
    next: &Metamodel,
    index: &BTreeMap<String, u32>,
    e: u32,
) -> bool
    requires { IsEnumIndex index.now next.now }
    ensures { result ≡ enum_kept old.now next.now e }
{
    match enum_in(old, next, index, e) {
        None => false,
        Some(d) => begins(literals_of(old, e), literals_of(next, d)),
    }
}

/// The feature of the new metamodel that has the names of the old one's.
fn feature_there<'a>(old: &Metamodel, next: &'a Metamodel, f: u32) -> Option<&'a Feature>
    ensures { option_copied result ≡ option_and_then (slice_get next.now.features) (feature_in old.now next.now f) }
{
    match feature_in(old, next, f) {
        None => None,
        Some(g) => next.get_feature(g),
    }
}

/// Whether the new metamodel has the feature, with the same owner, bounds and kind.
pub(crate) fn feature_kept(old: &Metamodel, next: &Metamodel, f: u32) -> bool
    ensures { result ≡ feature_kept old.now next.now f }
{
    match old.get_feature(f) {
        None => false,
        Some(x) => match feature_there(old, next, f) {
            None => false,
            Some(y) => parts_same(old, next, x, y),
        },
    }
}
