//! Indexes by name, which show a name that stands twice, over classifiers, features and literals.
ghost use Rattle.std.specs.Prelude.{◌≡◌, IfOk, map};
ghost use Rattle.ecore_meta.specs.Names.{Indexes};
ghost use Rattle.ecore_drafts.specs.Document.{classifier_name, feature_names};

use crate::rows::{ClassifierRow, FeatureRow, LiteralRow};
use std::alloc::{AllocError, Global};
use std::collections::BTreeMap;

/// The place of each name, or `None` where a name stands twice.
pub fn index<'a>(
    alloc: Global,
    names: &[&'a str],
) -> Result<Option<BTreeMap<&'a str, usize>>, AllocError>
    ensures { IfOk result (Indexes (map (λ n. n.now) names.now)) }
{
    let mut index = BTreeMap::new(alloc);
    for (n, name) in names.iter().enumerate() {
        if index.insert(*name, n)?.is_some() {
            return Ok(None);
        }
    }
    Ok(Some(index))
}

/// The names of the classifiers, in their order.
pub(crate) fn classifier_names<'a>(
    alloc: Global,
    rows: &'a [ClassifierRow],
) -> Result<Vec<&'a str>, AllocError>
    ensures { IfOk result (λ v. map (λ n. n.now) v.items ≡ map classifier_name rows.now) }
{
    let mut names = Vec::new(alloc);
    for row in rows {
        names.push(row.name())?;
    }
    Ok(names)
}

/// The names of the features, in their order.
pub fn feature_names<'a>(alloc: Global, rows: &'a [FeatureRow]) -> Result<Vec<&'a str>, AllocError>
    ensures { IfOk result (λ v. map (λ n. n.now) v.items ≡ feature_names rows.now) }
{
    let mut names = Vec::new(alloc);
    for row in rows {
        names.push(row.name.as_str())?;
    }
    Ok(names)
}

/// The names of the literals, in their order.
pub fn literal_names<'a>(alloc: Global, rows: &'a [LiteralRow]) -> Result<Vec<&'a str>, AllocError>
    ensures { IfOk result (λ v. map (λ n. n.now) v.items ≡ map (λ l. l.name) rows.now) }
{
    let mut names = Vec::new(alloc);
    for row in rows {
        names.push(row.name.as_str())?;
    }
    Ok(names)
}

/// The texts of the literals, in their order.
pub fn literal_texts<'a>(alloc: Global, rows: &'a [LiteralRow]) -> Result<Vec<&'a str>, AllocError>
    ensures { IfOk result (λ v. map (λ n. n.now) v.items ≡ map (λ l. l.literal) rows.now) }
{
    let mut names = Vec::new(alloc);
    for row in rows {
        names.push(row.literal.as_str())?;
    }
    Ok(names)
}
