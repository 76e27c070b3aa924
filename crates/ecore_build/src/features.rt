//! The features of each class with inherited ones, their clashes and bad defaults, and their final entries in a
//! metamodel.
ghost use Rattle.std.specs.Prelude.{◌≡◌, ◌<◌, ◌++◌, IfOk, Some, map};
ghost use Rattle.std.specs.List.{flat_map, list_any};
ghost use Rattle.ecore_build.specs.Build.{attribute, classes_from, container, end_number, feature_from, kind_in, lower_from, natural, reference, upper_from};
ghost use Rattle.ecore_drafts.specs.Supers.{all_above};
ghost use Rattle.ecore_build.specs.Faults.{all_inherited, bad_default, clash, draft_name, no_value, own_of};

use crate::faults::{at, contains_back, is_skipped, repeats};
use ecore_drafts::{ClassifierRow, End, FeatureDraft, Target};
use ecore_meta::{Class, Enums, Feature, Kind, Scalar, default_of, value_of};
use std::alloc::{AllocError, Global};
use std::collections::BTreeSet;
use texts::{List, Text};

/// The features of the class of that number; none for a number that is none.
fn own_at(own: &[Vec<u32>], class: usize) -> &[u32]
    ensures { result.now ≡ own_of (map (λ fs. fs.items) own.now) class }
{
    match own.get(class) {
        None => &[],
        Some(numbers) => numbers.as_slice(),
    }
}

/// The features that the classes declare, class by class.
fn gathered(alloc: Global, classes: &[u32], own: &[Vec<u32>]) -> Result<Vec<u32>, AllocError>
    ensures { IfOk result (λ v. v.items ≡ flat_map (own_of (map (λ fs. fs.items) own.now)) classes.now) }
{
    let mut features = Vec::new(alloc);
    for class in classes {
        features.extend_from_slice(own_at(own, *class as usize))?;
    }
    Ok(features)
}

/// The features that the classes of a set declare, class by class.
fn declared(alloc: Global, set: &BTreeSet<u32>, own: &[Vec<u32>]) -> Result<Vec<u32>, AllocError>
    ensures { IfOk result (λ v. v.items ≡ flat_map (own_of (map (λ fs. fs.items) own.now)) set.now.keys) }
{
    let classes: Vec<u32> = set.iter().copied().collect(alloc)?;
    gathered(alloc, classes.as_slice(), own)
}

/// The features of each class, inherited ones too, rising.
pub(crate) fn all_features(
    alloc: Global,
    supers: &[Vec<u32>],
    above: &[BTreeSet<u32>],
    own: &[Vec<u32>],
) -> Result<Vec<Vec<u32>>, AllocError>
    requires { map (λ s. s.keys) above.now ≡ all_above (map (λ ups. ups.items) supers.now) }
    ensures { IfOk result (λ v. map (λ fs. fs.items) v.items ≡ all_inherited (map (λ ups. ups.items) supers.now) (map (λ fs. fs.items) own.now)) }
{
    let mut all = Vec::new(alloc);
    for set in above {
        all.push(declared(alloc, set, own)?)?;
    }
    Ok(all)
}

/// The name of the feature of that number, empty for a number that is none.
fn name_of(drafts: &[FeatureDraft], n: u32) -> &str
    ensures { result.now ≡ draft_name drafts.now n }
{
    match at(drafts, n) {
        None => "",
        Some(draft) => draft.name.as_str(),
    }
}

/// The names of the features of those numbers.
fn names_of<'a>(
    alloc: Global,
    drafts: &'a [FeatureDraft],
    features: &[u32],
) -> Result<Vec<&'a str>, AllocError>
    ensures { IfOk result (λ v. map (λ n. n.now) v.items ≡ map (draft_name drafts.now) features.now) }
{
    let mut names = Vec::new(alloc);
    for n in features {
        names.push(name_of(drafts, *n))?;
    }
    Ok(names)
}

/// Whether a class has two features of one name.
pub(crate) fn any_clash(
    alloc: Global,
    drafts: &[FeatureDraft],
    features: &[Vec<u32>],
) -> Result<bool, AllocError>
    ensures { IfOk result (λ b. b ≡ clash drafts.now (map (λ fs. fs.items) features.now)) }
{
    for numbers in features {
        let names = names_of(alloc, drafts, numbers.as_slice())?;
        if repeats(alloc, names.as_slice())? {
            return Ok(true);
        }
    }
    Ok(false)
}

/// Whether a default text stands for no value of the type.
fn no_value(
    alloc: Global,
    enums: &Enums,
    target: &Target,
    text: &Option<Text>,
) -> Result<bool, AllocError>
    ensures { IfOk result (λ b. b ≡ no_value enums.now target.now text.now) }
{
    match target {
        Target::Values(scalar) => match text {
            Some(text) => Ok(value_of(alloc, enums, scalar, text.as_str())?.is_none()),
            None => Ok(false),
        },
        Target::Skipped | Target::Unsupported | Target::Missing | Target::Elements(_) => Ok(false),
    }
}

/// Whether the default text of a single attribute gives no value.
pub(crate) fn any_bad_default(
    alloc: Global,
    enums: &Enums,
    drafts: &[FeatureDraft],
) -> Result<bool, AllocError>
    ensures { IfOk result (λ b. b ≡ list_any (bad_default enums.now) drafts.now) }
{
    for draft in drafts {
        if draft.upper == 1 && no_value(alloc, enums, &draft.target, &draft.default_text)? {
            return Ok(true);
        }
    }
    Ok(false)
}

/// A bound as a natural number, 0 for a negative one.
fn natural(bound: i64) -> u64
    ensures { result ≡ natural bound }
{
    if bound < 0 { 0 } else { bound as u64 }
}

/// The number of the opposite, where there is one.
fn end_number(end: End) -> Option<u32>
    ensures { result ≡ end_number end }
{
    match end {
        End::Open => None,
        End::Nowhere => None,
        End::At(n) => Some(n),
    }
}

/// An attribute's kind: single where its upper bound is 1, else many-valued.
fn attribute(
    alloc: Global,
    enums: &Enums,
    draft: &FeatureDraft,
    scalar: &Scalar,
) -> Result<Kind, AllocError>
    ensures { IfOk result (λ k. k ≡ attribute enums.now draft.now scalar.now) }
{
    if draft.upper == 1 {
        let default = match &draft.default_text {
            None => default_of(scalar),
            Some(text) => value_of(alloc, enums, scalar, text.as_str())?,
        };
        Ok(Kind::Attr {
            scalar: copy_scalar(scalar),
            default,
        })
    } else {
        Ok(Kind::AttrMany {
            scalar: copy_scalar(scalar),
            unique: draft.unique,
        })
    }
}

/// The same type.
fn copy_scalar(scalar: &Scalar) -> Scalar
    ensures { result ≡ scalar.now }
{
    match scalar {
        Scalar::Text => Scalar::Text,
        Scalar::Flag => Scalar::Flag,
        Scalar::Byte => Scalar::Byte,
        Scalar::Short => Scalar::Short,
        Scalar::Int => Scalar::Int,
        Scalar::Long => Scalar::Long,
        Scalar::Literal(n) => Scalar::Literal(*n),
    }
}

/// A reference to the container, by the containment that is its opposite.
fn container(class: u32, end: End) -> Kind
    ensures { result ≡ container class end }
{
    match end {
        End::Open => Kind::Skip,
        End::Nowhere => Kind::Skip,
        End::At(opposite) => Kind::Container {
            target: class,
            opposite,
        },
    }
}

/// A reference's kind: elements inside, the container, or links with or without a bound.
fn reference(drafts: &[FeatureDraft], draft: &FeatureDraft, target: u32) -> Kind
    ensures { result ≡ reference drafts.now draft.now target }
{
    let opposite = end_number(draft.end);
    if draft.containment {
        Kind::Contains { target, opposite }
    } else if contains_back(drafts, draft.end) {
        container(target, draft.end)
    } else if draft.upper == -1 {
        Kind::Free { target, opposite }
    } else {
        Kind::Bounded { target, opposite }
    }
}

/// The kind of a feature, by what its type is.
fn kind(
    alloc: Global,
    enums: &Enums,
    drafts: &[FeatureDraft],
    draft: &FeatureDraft,
) -> Result<Kind, AllocError>
    ensures { IfOk result (λ k. k ≡ kind_in enums.now drafts.now draft.now draft.now.target) }
{
    match &draft.target {
        Target::Elements(class) => Ok(reference(drafts, draft, *class)),
        Target::Values(scalar) => attribute(alloc, enums, draft, scalar),
        Target::Skipped | Target::Unsupported | Target::Missing => Ok(Kind::Skip),
    }
}

/// The lower bound; that of a skipped feature is 0.
fn lower(draft: &FeatureDraft) -> u64
    ensures { result ≡ lower_from draft.now }
{
    if is_skipped(&draft.target) {
        0
    } else {
        natural(draft.lower)
    }
}

/// The upper bound, `None` where there is none; that of a skipped feature is 1.
fn upper(draft: &FeatureDraft) -> Option<u64>
    ensures { result ≡ upper_from draft.now }
{
    if is_skipped(&draft.target) {
        Some(1)
    } else if draft.upper == -1 {
        None
    } else {
        Some(natural(draft.upper))
    }
}

/// The feature of the metamodel that a draft stands for.
fn feature(
    alloc: Global,
    enums: &Enums,
    drafts: &[FeatureDraft],
    draft: &FeatureDraft,
) -> Result<Feature, AllocError>
    ensures { IfOk result (λ f. f ≡ feature_from enums.now drafts.now draft.now) }
{
    Ok(Feature {
        owner: draft.owner,
        name: draft.name.copy(alloc)?,
        lower: lower(draft),
        upper: upper(draft),
        kind: kind(alloc, enums, drafts, draft)?,
    })
}

/// The features of the metamodel, in the order of the drafts.
pub(crate) fn features_of(
    alloc: Global,
    enums: &Enums,
    drafts: &[FeatureDraft],
) -> Result<Vec<Feature>, AllocError>
    ensures { IfOk result (λ v. v.items ≡ map (feature_from enums.now drafts.now) drafts.now) }
{
    let mut features = Vec::new(alloc);
    for draft in drafts {
        features.push(feature(alloc, enums, drafts, draft)?)?;
    }
    Ok(features)
}

/// The same in memory of their own.
fn numbers_of(alloc: Global, features: &[Vec<u32>], class: usize) -> Result<Vec<u32>, AllocError>
    ensures { IfOk result (λ v. v.items ≡ own_of (map (λ fs. fs.items) features.now) class) }
{
    let mut numbers = Vec::new(alloc);
    numbers.extend_from_slice(own_at(features, class))?;
    Ok(numbers)
}

/// The classes with the features of each.
pub(crate) fn classes_of(
    alloc: Global,
    features: &[Vec<u32>],
    rows: &[ClassifierRow],
) -> Result<Vec<Class>, AllocError>
    ensures { IfOk result (λ v. v.items ≡ classes_from (map (λ fs. fs.items) features.now) rows.now) }
{
    let mut classes = Vec::new(alloc);
    let mut number: usize = 0;
    for row in rows {
        match row {
            ClassifierRow::Class(row) => {
                classes.push(Class {
                    name: row.name.copy(alloc)?,
                    is_abstract: row.is_abstract,
                    features: List::from_vec(numbers_of(alloc, features, number)?),
                })?;
                number += 1;
            }
            ClassifierRow::Enum(_) => {}
            ClassifierRow::Plain(_) => {}
        }
    }
    Ok(classes)
}
