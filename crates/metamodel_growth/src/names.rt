//! The names of the parts of a metamodel by number, empty for a number that is none.
ghost use Rattle.std.specs.Prelude.{◌≡◌};
ghost use Rattle.ecore_meta.specs.Ends.{owner_of};
ghost use Rattle.ecore_meta.specs.Meta.{name_at};
ghost use Rattle.metamodel_growth.specs.Extension.{class_name, enum_name, is_abstract, owner_name};

use ecore_meta::Metamodel;

pub(crate) fn class_name(meta: &Metamodel, c: u32) -> &str
    ensures { result.now ≡ class_name meta.now c }
{
    match meta.get_class(c) {
        None => "",
        Some(class) => class.name.as_str(),
    }
}

pub(crate) fn is_abstract(meta: &Metamodel, c: u32) -> bool
    ensures { result ≡ is_abstract meta.now c }
{
    match meta.get_class(c) {
        None => false,
        Some(class) => class.is_abstract,
    }
}

pub(crate) fn enum_name(meta: &Metamodel, e: u32) -> &str
    ensures { result.now ≡ enum_name meta.now e }
{
    match meta.get_enum(e) {
        None => "",
        Some(found) => found.name.as_str(),
    }
}

pub(crate) fn feature_name(meta: &Metamodel, f: u32) -> &str
    ensures { result.now ≡ name_at meta.now.features f }
{
    match meta.get_feature(f) {
        None => "",
        Some(feature) => feature.name.as_str(),
    }
}

/// The class that declares the feature.
pub(crate) fn owner_of(meta: &Metamodel, f: u32) -> Option<u32>
    ensures { result ≡ owner_of meta.now f }
{
    match meta.get_feature(f) {
        None => None,
        Some(feature) => Some(feature.owner),
    }
}

/// The name of the class that declares the feature.
pub(crate) fn owner_name(meta: &Metamodel, f: u32) -> &str
    ensures { result.now ≡ owner_name meta.now f }
{
    match owner_of(meta, f) {
        None => "",
        Some(owner) => class_name(meta, owner),
    }
}
