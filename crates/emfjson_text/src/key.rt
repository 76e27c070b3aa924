//! The keys of an element's object, in the order of their names.
ghost use Rattle.std.specs.Prelude.{◌≡◌, ◌++◌, IfOk, OnOk, map};
ghost use Rattle.model_texts.specs.Keys.{key_cmp, key_name, key_number, keys_of};
ghost use Rattle.model_texts.specs.declared.key.Key.TheVariants.{Feature as OfFeature};

use ecore_meta::Metamodel;
use model_texts::Key;
use std::alloc::{AllocError, Global};
use std::cmp::Ordering;
use texts::List;

/// The name that a key has in an element's object; that of a feature is the metamodel's.
pub(crate) fn key_name(meta: &Metamodel, key: Key) -> &str
    ensures { result.now ≡ key_name meta.now key }
{
    match key {
        Key::Ident => "_id",
        Key::Class => "eClass",
        Key::Feature(f) => match meta.get_feature(f) {
            None => "",
            Some(feature) => feature.name.as_str(),
        },
    }
}

fn key_number(key: Key) -> u64
    ensures { result ≡ key_number key }
{
    match key {
        Key::Ident => 0,
        Key::Class => 1,
        Key::Feature(f) => f as u64 + 2,
    }
}

fn key_cmp(meta: &Metamodel, x: Key, y: Key) -> Ordering
    ensures { result ≡ key_cmp meta.now x y }
{
    key_name(meta, x)
        .cmp(key_name(meta, y))
        .then(key_number(x).cmp(&key_number(y)))
}

fn push_features(keys: &mut Vec<Key>, features: &[u32]) -> Result<(), AllocError>
    ensures { OnOk result (keys.new.items ≡ keys.old.items ++ map (λ f. OfFeature f) features.now) }
{
    for f in features {
        keys.push(Key::Feature(*f))?;
    }
    Ok(())
}

/// The keys of the elements of a class, in the order of their names.
pub(crate) fn keys_of(alloc: Global, meta: &Metamodel, c: u32) -> Result<List<Key>, AllocError>
    ensures { IfOk result (λ keys. keys ≡ keys_of meta.now c) }
{
    let mut keys = Vec::new(alloc);
    keys.push(Key::Ident)?;
    keys.push(Key::Class)?;
    push_features(&mut keys, meta.features_of(c))?;
    keys.sort_unstable_by(|x, y| key_cmp(meta, *x, *y));
    Ok(List::from_vec(keys))
}
