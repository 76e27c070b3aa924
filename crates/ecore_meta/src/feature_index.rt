//! The index of features by name: the number of each name, and for each class its features by the numbers of their names.
ghost use Rattle.std.specs.Prelude.{◌≡◌, ◌<◌, ℕ, IfOk, None, OnOk, Some, cond, length, map, nat_eq, slice_get, ◌^◌};
ghost use Rattle.std.specs.BTreeMap.{get, get_by_text};
ghost use Rattle.std.specs.Option.{option_and_then, option_copied};
ghost use Rattle.std.specs.Ordering.{nat_cmp};
ghost use Rattle.ecore_meta.specs.Features.{AllListed, Listed};
ghost use Rattle.ecore_meta.specs.Meta.{name_at};
ghost use Rattle.ecore_meta.specs.Names.{Name, number_of};
ghost use Rattle.ecore_meta.specs.Values.{or_else};

use crate::indexes::{enter, number_in};
use crate::meta::{Class, Feature};
use std::alloc::{AllocError, Global};
use std::collections::BTreeMap;

/// The number of each name: that of the first feature that has it.
pub(crate) fn name_index(
    alloc: Global,
    features: &[Feature],
) -> Result<BTreeMap<String, u32>, AllocError>
    requires { length features.now < 2 ^ 32 }
    ensures { IfOk result (λ m. (q : Name) → get_by_text m q ≡ number_of q (map (λ f. f.name) features.now)) }
{
    let mut index = BTreeMap::new(alloc);
    for (n, feature) in features.iter().enumerate() {
        enter(alloc, feature.name.as_str(), n as u32, &mut index)?;
    }
    Ok(index)
}

fn feature_at(features: &[Feature], n: u32) -> Option<&Feature>
    ensures { option_copied result ≡ slice_get features.now n }
{
    features.get(n as usize)
}

fn name_of(features: &[Feature], n: u32) -> &str
    ensures { result.now ≡ name_at features.now n }
{
    match feature_at(features, n) {
        None => "",
        Some(feature) => feature.name.as_str(),
    }
}

/// Puts the feature n under the number of its name, where none stands there.
fn put(id: u32, n: u32, index: &mut BTreeMap<u32, u32>) -> Result<(), AllocError>
    ensures { OnOk result ((k : ℕ) → get nat_cmp index.new k ≡ or_else (get nat_cmp index.old k) (cond (nat_eq k id) (Some n) None)) }
{
    if index.contains_key(&id) {
        return Ok(());
    }
    index.insert(id, n)?;
    Ok(())
}

/// Puts the feature n under the number of its name, if it has one.
fn put_named(id: Option<u32>, n: u32, index: &mut BTreeMap<u32, u32>) -> Result<(), AllocError>
    ensures { OnOk result ((k : ℕ) → get nat_cmp index.new k ≡ or_else (get nat_cmp index.old k) (option_and_then (λ i. cond (nat_eq k i) (Some n) None) id)) }
{
    match id {
        None => Ok(()),
        Some(id) => put(id, n, index),
    }
}

/// The features of a class by the numbers of their names.
fn features_by_name(
    alloc: Global,
    names: &BTreeMap<String, u32>,
    features: &[Feature],
    numbers: &[u32],
) -> Result<BTreeMap<u32, u32>, AllocError>
    requires { (q : Name) → get_by_text names.now q ≡ number_of q (map (λ f. f.name) features.now) }
    ensures { IfOk result (Listed features.now numbers.now) }
{
    let mut index = BTreeMap::new(alloc);
    for n in numbers {
        let id = number_in(names, name_of(features, *n));
        put_named(id, *n, &mut index)?;
    }
    Ok(index)
}

/// The same of each class.
pub(crate) fn feature_indexes(
    alloc: Global,
    names: &BTreeMap<String, u32>,
    features: &[Feature],
    classes: &[Class],
) -> Result<Vec<BTreeMap<u32, u32>>, AllocError>
    requires { (q : Name) → get_by_text names.now q ≡ number_of q (map (λ f. f.name) features.now) }
    ensures { IfOk result (λ v. AllListed features.now classes.now v.items) }
{
    let mut indexes = Vec::new(alloc);
    for class in classes {
        let index = features_by_name(alloc, names, features, class.features.as_slice())?;
        indexes.push(index)?;
    }
    Ok(indexes)
}

fn index_at(indexes: &[BTreeMap<u32, u32>], class: u32) -> Option<&BTreeMap<u32, u32>>
    ensures { option_copied result ≡ slice_get indexes.now class }
{
    indexes.get(class as usize)
}

fn feature_in(index: &BTreeMap<u32, u32>, id: u32) -> Option<u32>
    ensures { result ≡ get nat_cmp index.now id }
{
    index.get(&id).copied()
}

/// The feature of the name of that number that the class of that number has.
pub(crate) fn feature_of(indexes: &[BTreeMap<u32, u32>], class: u32, id: u32) -> Option<u32>
    ensures { result ≡ option_and_then (λ m. get nat_cmp m id) (slice_get indexes.now class) }
{
    match index_at(indexes, class) {
        None => None,
        Some(index) => feature_in(index, id),
    }
}
