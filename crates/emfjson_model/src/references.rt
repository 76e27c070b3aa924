//! The targets that each element itself gives of its plain references, each looked up and tested for type and
//! duplicates.
ghost use Rattle.std.specs.Prelude.{◌≡◌, IfOk, [], option_and_then};
ghost use Rattle.model_state.specs.Typing.{kind_of, plain_to};
ghost use Rattle.emfjson_drafts.specs.Answers.{Gives};
ghost use Rattle.model_documents.specs.Reads.{collected};
ghost use Rattle.model_documents.specs.References.{entries_at, given_by, located, new_target, plain_features, refs_at, refs_of, target_of, targets_of};

use crate::paths::located;
use crate::targets::Targets;
use ecore_meta::{Kind, Metamodel};
use emfjson_drafts::Finder;
use model_documents::{DocRefs, ElementDraft, Links, ModelFault};
use model_state::is_plain;
use std::alloc::{AllocError, Global};
use texts::{List, Text};

/// Whether a plain reference may have a target of the class.
fn is_plain_to(meta: &Metamodel, f: u32, class: u32) -> bool
    ensures { result ≡ plain_to meta.now (kind_of meta.now f) class }
{
    match meta.get_feature(f) {
        None => false,
        Some(feature) => match &feature.kind {
            Kind::Bounded { target, .. } => meta.is_a(class, *target),
            Kind::Free { target, .. } => meta.is_a(class, *target),
            _ => false,
        },
    }
}

fn new_target(
    meta: &Metamodel,
    rows: &Finder,
    f: u32,
    targets: &Targets,
    found: Option<usize>,
) -> Result<usize, ModelFault>
    ensures { Gives result (new_target meta.now rows.now f targets.now found) }
{
    match found {
        None => Err(ModelFault::BadRef),
        Some(n) => {
            if targets.has(n) {
                return Err(ModelFault::BadRef);
            }
            if !is_plain_to(meta, f, rows.class_at(n)) {
                return Err(ModelFault::WrongType);
            }
            Ok(n)
        }
    }
}

/// The row that an entry finds, if it finds one.
fn found(
    alloc: Global,
    meta: &Metamodel,
    rows: &Finder,
    entry: &Option<Text>,
) -> Result<Option<usize>, AllocError>
    ensures { IfOk result (λ n. n ≡ option_and_then (located meta.now rows.now) entry.now) }
{
    match entry {
        None => Ok(None),
        Some(text) => located(alloc, meta, rows, text.as_str()),
    }
}

/// The target of an entry after those before it.
fn target_of(
    alloc: Global,
    meta: &Metamodel,
    rows: &Finder,
    f: u32,
    targets: &Targets,
    entry: &Option<Text>,
) -> Result<usize, ModelFault>
    ensures { Gives result (target_of meta.now rows.now f targets.now entry.now) }
{
    new_target(meta, rows, f, targets, found(alloc, meta, rows, entry)?)
}

fn targets_of(
    alloc: Global,
    meta: &Metamodel,
    rows: &Finder,
    f: u32,
    entries: &[Option<Text>],
) -> Result<List<usize>, ModelFault>
    ensures { Gives result (targets_of meta.now rows.now f entries.now) }
{
    let mut targets = Targets::new(alloc);
    for entry in entries {
        let target = target_of(alloc, meta, rows, f, &targets, entry)?;
        targets = targets.with(target)?;
    }
    Ok(targets.into_list())
}

/// The entries of a feature, none where its key is not there.
fn entries_at(links: &[Links], f: u32) -> &[Option<Text>]
    ensures { result.now ≡ entries_at f links.now }
{
    for link in links {
        if f == link.feature {
            return link.entries.as_slice();
        }
    }
    &[]
}

/// Those of the features that are plain references.
fn plain_features(
    alloc: Global,
    meta: &Metamodel,
    features: &[u32],
) -> Result<List<u32>, AllocError>
    ensures { IfOk result (λ fs. fs ≡ plain_features meta.now features.now) }
{
    let mut plain = List::new(alloc);
    for f in features {
        if is_plain(meta, *f) {
            plain.push(*f)?;
        }
    }
    Ok(plain)
}

fn refs_at(
    alloc: Global,
    meta: &Metamodel,
    rows: &Finder,
    links: &[Links],
    f: u32,
) -> Result<DocRefs, ModelFault>
    ensures { Gives result (refs_at meta.now rows.now links.now [] f) }
{
    Ok(DocRefs {
        feature: f,
        targets: targets_of(alloc, meta, rows, f, entries_at(links, f))?,
    })
}

fn refs_by(
    alloc: Global,
    meta: &Metamodel,
    rows: &Finder,
    links: &[Links],
    features: &[u32],
) -> Result<List<DocRefs>, ModelFault>
    ensures { Gives result (collected (refs_at meta.now rows.now links.now) [] features.now) }
{
    let mut refs = List::new(alloc);
    for f in features {
        refs.push(refs_at(alloc, meta, rows, links, *f)?)?;
    }
    Ok(refs)
}

/// What an element gives of its plain references, by number.
fn refs_of(
    alloc: Global,
    meta: &Metamodel,
    rows: &Finder,
    row: &ElementDraft,
) -> Result<List<DocRefs>, ModelFault>
    ensures { Gives result (refs_of meta.now rows.now [] row.now) }
{
    let features = plain_features(alloc, meta, meta.features_of(row.class))?;
    refs_by(alloc, meta, rows, row.links.as_slice(), features.as_slice())
}

/// What each element gives of its plain references.
pub(crate) fn given_by(
    alloc: Global,
    meta: &Metamodel,
    rows: &[ElementDraft],
) -> Result<List<List<DocRefs>>, ModelFault>
    ensures { Gives result (given_by meta.now rows.now) }
{
    let finder = Finder::new(alloc, rows)?;
    given_with(alloc, meta, &finder, rows)
}

/// What each of the rows gives, among all elements.
fn given_with(
    alloc: Global,
    meta: &Metamodel,
    finder: &Finder,
    rows: &[ElementDraft],
) -> Result<List<List<DocRefs>>, ModelFault>
    ensures { Gives result (collected (refs_of meta.now finder.now) [] rows.now) }
{
    let mut given = List::new(alloc);
    for row in rows {
        given.push(refs_of(alloc, meta, finder, row)?)?;
    }
    Ok(given)
}
